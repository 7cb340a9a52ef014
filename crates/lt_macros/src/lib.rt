//! Macros away: from a program to the tree that a node of it stands for.
//!
//! What a node of a program stands for is defined by recursion on its syntax, in `specs/Expansion.antt`: a
//! name means what it was declared as where it is written, a parameter means its argument, and a macro is a
//! function of what its arguments mean. The result is a tree whose parts have their places in the text
//! (`specs/Expanded.antt`). [`expanded_node`] builds the tree no further than the limits of `specs/Limits.antt` reach, and
//! counts it against them; a node that grows past them is counted without being built.
//!
//! The functions that build a tree call one another once for each level of a text. Those of them, and of what they
//! call, that are marked `inline(never)` are marked for the stack: so a level takes the stack of the one construct that
//! stands there, and not that of all constructs together, and a node at its limits is built on a stack of 8 MB.
#![tactic(auto)]

mod build;
mod builder;
mod calls;
mod constructors;
mod counting;
mod counting_runs;
mod declarations;
mod declaring;
mod expansion;
mod expressions;
mod head_normal_form;
mod index;
mod key;
mod laws;
mod limit;
mod literals;
mod measuring;
mod numbers;
mod position;
mod refusal;
mod resolution;
mod scope;
mod shape;
mod tally;
mod tree;
mod variables;

pub use expansion::expanded_node;
pub use laws::{locals_are_inside, names_are_there, parts_are_numbered};
pub use limit::Limit;
pub use refusal::NodeRefusal;
pub use tree::{Bounds, Call, Declared, Exception, Expanded, Node, Part, Parts, Placed};
