//! Decision diagrams of formulas over flags.
//!
//! [`build`] makes the [`Diagram`] of a formula with at most 16 flags: branches, each of which goes on by the truth of one
//! flag, down to false or true. On each way down flags are asked in the order of their numbers. The diagram is reduced: no
//! branch goes on to the same on both sides, and no two branches are equal. So two numbers of a diagram that say the same are
//! one number, and a formula that is always true, or never, has no branch to begin at. [`value_at`] says what a diagram says
//! under truths of the flags, and [`next_path`] goes through its paths to true: truths of some flags each, of which all truths
//! that make the diagram true agree with exactly one.
//!
//! A formula of flags is, for one, the conjunct of a part of a constraint (`lt_parts`), which has a flag for each of its atoms.
//!
//! `specs/Choice.antt` says what a choice and its paths are, `specs/Branches.antt` what the numbers of branches stand for and
//! when a diagram is ordered and reduced, and `specs/Flags.antt` what formulas of flags say.
#![tactic(auto)]

mod branch;
mod building;
mod diagram;
mod growing;
mod laws;
mod paths;
mod refusal;
mod trio;
mod value;

pub use branch::Branch;
pub use building::build;
pub use diagram::Diagram;
pub use laws::{numbers_say_unlike, one_path_agrees, paths_differ, says_holds};
pub use paths::next_path;
pub use refusal::DiagramRefusal;
pub use value::value_at;
