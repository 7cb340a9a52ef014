//! The law of a check: what a run of a scenario writes with its locals is a legal run, whatever its seed and its rule of drawing.
//! No program calls this crate: its functions do nothing, and their contracts say it.
//!
//! The definitions of legal runs speak of steps and ends, and those of traces of lines. Here stands that the trace of a run
//! has the text of a header, of steps and of an end, and that these are a legal run. `specs/Written.antt` has the statement.
#![tactic(auto)]

mod laws;

pub use laws::{runs_are_legal, traces_are_legal, traces_tell_legal_runs};
