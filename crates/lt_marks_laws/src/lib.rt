//! The laws that the tree of the marks is the tree of the rules.
//! Nothing runs here: the function does nothing, and proofs call it for what its contract says.
//!
//! The tree in which a draw goes is the tree that a term offers, with values in place of weights, and a leaf in place of
//! each choice with a fault in a weight: `specs/Valued.antt` has it. [`trees_agree`] says that what a walk along a path
//! finds stands there, and that both trees have as many nodes.
#![tactic(auto)]

mod laws;

pub use laws::trees_agree;
