//! The laws that expansion keeps types: what a node of a well typed program stands for is well typed.
//! Nothing runs here: the functions do nothing, and proofs call them for what their contracts say.
//!
//! `specs/TypedNode.antt` says when all expressions of a node are well typed, `specs/Laws.antt` what holds of every
//! program, and `specs/TextLaws.antt` of every text.
#![tactic(auto)]

mod laws;
mod text_laws;

pub use laws::{expansion_keeps_types, kinds_are_told, none_is_left_out};
pub use text_laws::{spelled_macros_fit, texts_keep_types};
