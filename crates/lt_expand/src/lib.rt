//! From a program to its scenario: macros are away, and locals, counters and exceptions have numbers.
//!
//! The node that is asked for stands for a tree without macros (`lt_macros`). Whether that is refused, and what the
//! scenario of another one is, are read off the tree (`specs/Refusals.antt`, `specs/Scenes.antt`).
#![tactic(auto)]

mod calls;
mod classes;
mod counters;
mod exceptions;
mod expander;
mod expressions;
mod items;
mod judging;
mod kinds;
mod nested;
mod places;
mod refusal;
mod scenario;
mod statics;
mod term;
mod turns;
mod variables;

pub use calls::{Call, ExpandedNode};
pub use expander::{expand, expand_node};
pub use lt_macros::Limit;
pub use nested::{Nesting, has_runs};
pub use refusal::ExpandRefusal;
