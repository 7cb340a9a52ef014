//! Laws of legal runs: what a run shows is legal, whatever its seed and its rule of drawing are.
//!
//! No program calls them.
#![tactic(auto)]

mod laws;

pub use laws::{instants_end, instants_follow, runs_reach};
