//! The call of lurette: from its words to its status.
//!
//! [`lurette`] is the whole call, over any files, programs and sinks: it reads the scenario that its words name, runs it
//! beside a controller and an oracle, once or many times at once, or prints it, or checks a trace by it, or makes a large run
//! from a number, writes the trace, and says what went wrong. `specs/Call.antt` says what it does. [`program`] is the same down to
//! the number that a program ends with, and [`start`] hands it the system.
#![tactic(auto)]

mod call_result;
mod campaign;
mod check;
mod cores;
mod laws;
mod print;
mod put;
mod run;
mod say;
mod scenario;
mod status;
mod stress;
mod system;
mod top;

pub use laws::{
    affordable_calls_are_not_given_up, affordable_calls_are_whole, campaigns_are_their_runs,
    contents_have_one_due_answer, cut_calls_are_fronts, refusals_are_exact,
    replies_are_missed_only_so, same_call_same_bytes, uncut_calls_are_whole,
    undisturbed_calls_are_uncut,
};
pub use lt_rif::{End, Who};
pub use status::{Device, Ending, Fate, Refusal, Status};
pub use system::{program, start};
pub use top::lurette;
