//! The laws of what the trace of a whole call shows.
//! No program calls this crate: its functions do nothing, and their contracts say it.
//!
//! The call of `lt_call` says what a run writes, on bytes that came of its sides. Here stands what that trace shows by itself.
//! A call that plays it again, in place of its controller, writes it again: `specs/Again.antt`. And where nobody tells what
//! the sides answered, the trace is still the one of the answers that it shows: `specs/Shown.antt`.
#![tactic(auto)]

mod laws;

pub use laws::{replayed_calls_are_the_same, traces_of_calls_show_their_runs};
