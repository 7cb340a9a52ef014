//! Legal runs: which steps may follow one another, which traces are runs of a scenario, and which
//! leaves may be taken.
//!
//! `specs/Follows.antt` says which step may follow where a run stands, whatever was drawn,
//! `specs/LegalRun.antt` which whole traces are legal runs, and `specs/Verdict.antt` what a
//! [`Verdict`] on a trace says. They speak of leaves that may be taken, in any tree of an instant;
//! `specs/Leaves.antt` has these as a list.
//!
//! [`walk`] goes to those of them that pass a test, in a tree that is told as a list of nodes in
//! preorder, each with what [`fill`] finds of its tree. It asks whether a live leaf can be reached
//! only in the left tree of an order where that decides whether a leaf on the right may be taken
//! (`specs/Walk.antt`, `specs/Asked.antt`); what is [`Alive`] answers.
#![tactic(auto)]

mod alive;
mod filling;
mod found;
mod halt;
mod laws;
mod node;
mod verdict;
mod walking;

pub use alive::Alive;
pub use filling::{fill, find_at};
pub use found::Found;
pub use halt::Halt;
pub use laws::{
    legal_leaves_stand, legal_leaves_tell, tables_tell, walk_is_legal, walks_are_walked,
};
pub use node::Node;
pub use verdict::Verdict;
pub use walking::walk;
