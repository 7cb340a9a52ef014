//! What parts of constraints and their diagrams say together.
//! No program calls this crate: its functions do nothing, and their contracts say it.
//!
//! A part of a constraint is a conjunct with a flag for each of its atoms, and a diagram is one of a formula of flags. So
//! each part with at most 16 atoms has a diagram, and each list of truths of the atoms that values give makes the diagram
//! true exactly where the conjunct holds of the values.
//!
//! `specs/Parts.antt` has the laws.
#![tactic(auto)]

mod laws;

pub use laws::{filled_holds, parts_are_flags};
