//! Terms: what a scenario still has to do, and what it offers in one instant.
//!
//! A [`Scenario`] has its variables, a table of expressions, and a [`Term`] whose constraints and weights are
//! numbers of that table; it keeps what the rules say of scenarios. [`offers`] gives the tree of a term: what
//! it can do in one instant, with its choices by priority and by weight. [`size`] tells how many nodes that
//! tree has, without making it. An [`Unfolding`] gives that tree from its root on, as far as it is asked for.
//!
//! Contracts see a term through its pure twin, a `Process` of `specs/Process.antt`, and a scenario as a
//! `Scene` of `specs/Scene.antt`, in which expressions stand in place of numbers. `specs/View.antt`,
//! `specs/SceneView.antt` and `specs/TreeView.antt` have the functions that lead there.
//!
//! `specs/Unfolded.antt` has trees under the rules of the terms round them, of which an unfolding is made.
//!
//! The rules are `specs/Offers.antt`, a line a term, over the trees of `specs/Tree.antt`. What a tree is worth
//! in an instant, which of its leaves may be taken, and what is left to be done afterwards is defined in
//! `specs/Evaluated.antt`, `specs/Live.antt`, `specs/Configuration.antt` and `specs/Advanced.antt`, for the
//! layers above.
#![tactic(auto)]

mod advancing;
mod counter;
mod instants;
mod last;
mod laws;
mod memory;
mod next;
mod offering;
mod root;
mod rules;
mod scenario;
mod tally;
mod term;
mod tree;
mod unfolding;
mod variable;
mod waiting;

pub use advancing::advance;
pub use counter::Counter;
pub use last::Last;
pub use laws::{body_is_valid, size_is_weight, turns_grow_by_one};
pub use memory::Memory;
pub use offering::offers;
pub use root::{Later, Offer, Parts, Root};
pub use scenario::Scenario;
pub use tally::size;
pub use term::Term;
pub use tree::{Tree, TreeNode, Weight};
pub use unfolding::Unfolding;
pub use variable::Var;
