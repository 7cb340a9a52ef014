//! What is said of a trace.

use lt_check::{Verdict, check, trace_shape};
use lt_frontend::scenario_of;
use lt_term::Scenario;
use lt_trace::{TraceRefusal, read_trace, traces_have_their_shape};
use std::alloc::{AllocError, Global};
use std::test::Fail;

/// What is said of a trace of the first node of a text, where a real has two decimals.
pub fn answer_of(alloc: Global, scenario: &str, trace: &str, budget: u64) -> Result<String, Fail> {
    let scenario = scenario_of(alloc, scenario.as_bytes(), 2, None)?;
    answer_in(alloc, &scenario, trace.as_bytes(), budget)
}

// The same of a scenario.
fn answer_in(
    alloc: Global,
    scenario: &Scenario,
    trace: &[u8],
    budget: u64,
) -> Result<String, Fail> {
    // A law that the proof needs: what is read has the shape that a check asks for.
    traces_have_their_shape();
    let shape = trace_shape(alloc, scenario)?;
    match read_trace(alloc, &shape, trace) {
        Ok(recorded) => Ok(told(alloc, check(alloc, scenario, &recorded, budget)?)?),
        Err(TraceRefusal::BadLine(line)) => Ok(format!(in alloc; "line {line}")?),
        Err(TraceRefusal::Memory) => Err(Fail::new("memory")),
    }
}

// A verdict as text.
fn told(alloc: Global, verdict: Verdict) -> Result<String, AllocError> {
    match verdict {
        Verdict::Legal => String::from_str(alloc, "legal"),
        Verdict::Illegal { step } => format!(in alloc; "illegal {step}"),
        Verdict::TooMany { step } => format!(in alloc; "candidates {step}"),
        Verdict::Budget { need, step } => format!(in alloc; "budget {need} {step}"),
    }
}
