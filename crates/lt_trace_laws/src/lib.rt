//! The laws of what a trace shows, for any machine: over plays of `lt_loop` and texts of `lt_rif`.
//! No program calls this crate: its functions do nothing, and their contracts say it.
//!
//! A trace can stand in for the controller of the run that wrote it: `docs/TRACE.md` says how it is read. And it shows the
//! replies that made that run, but for one that was missed or refused. `specs/Replay.antt` and `specs/Shown.antt` have the
//! statements, for any machine.
#![tactic(auto)]

mod laws;

pub use laws::{prefixes_show_their_run, replays_are_the_same, traces_show_their_run};
