//! A tester for reactive controllers.
//!
//! The scenario of a run plays the controller's environment. The program reads it, draws one reaction
//! after another, and writes the trace of the run; or it prints the scenario. `lt_call` does all this.
#![tactic(auto)]

use lt_call::start;
use std::io::Lock;
use std::process::ExitCode;

fn main(rt: HostRuntime) -> ExitCode {
    start(&rt, rt.stderr().lock())
}
