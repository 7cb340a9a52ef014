//! The same program as `lurette`, with a stored run of a text that is refused.
#![tactic(auto)]

use lt_call::start;
use std::io::Lock;
use std::process::ExitCode;

fn main(rt: HostRuntime) -> ExitCode {
    start(&rt, rt.stderr().lock())
}
