//! Checks of traces.

ghost use Rattle.std.specs.Prelude.{◌≡◌, ◌≤◌, ◌++◌, [], codes, decimal, length};
ghost use Rattle.lt_io.specs.Outside.{around};
ghost use Rattle.lt_io.specs.Programs.{Programs};
ghost use Rattle.lt_io.specs.Sending.{IsPut};
ghost use Rattle.lt_rif.specs.Trace.{line};
ghost use Rattle.lt_term.specs.SceneView.{scene};
ghost use Rattle.lt_trace.specs.View.{told};
ghost use Rattle.lt_args.specs.Asked.{request as request_of};
ghost use Rattle.lt_args.specs.Settings.{longest_text};
ghost use Rattle.lt_args.specs.declared.words.Mode.TheVariants.{Check};
ghost use Rattle.lt_call.specs.Due.{HasFewAtoms, HasScene};
ghost use Rattle.lt_call.specs.Given.{verdict_text};
ghost use Rattle.lt_call.specs.inner.Parts.{AnswersText, BlamesTrace, Checks};

use crate::put::put_all;
use crate::status::{Device, Refusal, Status};
use itoa::Buffer;
use lt_args::{LONGEST_REPLAY, Request};
use lt_check::{Verdict, check, trace_shape};
use lt_io::{Failed, Files, Sink};
use lt_term::Scenario;
use lt_trace::{
    Recorded, TraceRefusal, read_trace, texts_have_one_reading, traces_have_their_shape,
};
use std::alloc::Global;

/// Reads the trace that a request names, and checks it by the scenario of a text.
pub fn check_trace<F: Files, S: Sink>(
    alloc: Global,
    request: &Request<'_>,
    text: &[u8],
    scenario: &Scenario,
    files: &mut F,
    trace: &mut S,
) -> Status
    requires short { length text.now ≤ longest_text }
    requires mode { request.now.mode ≡ Check }
    requires scene { HasScene (request_of request.now) (record { scenario = text.now; replay = [] })
        (scene scenario.now) }
    requires few { HasFewAtoms (scene scenario.now) }
    ensures { (programs : Programs) → AnswersText (request_of request.now) text.now
        (around (F.state files.old) programs (S.state trace.old))
        (around (F.state files.new) programs (S.state trace.new))
        [] result }
{
    // A law that the proof needs: where the trace stays unread, an answer is due all the same.
    texts_have_one_reading();
    let Some(name) = request.inputs.trace() else {
        return check_bytes(alloc, scenario, &[], request.budget, trace);
    };
    match files.read(alloc, name, LONGEST_REPLAY) {
        Ok(bytes) => check_bytes(alloc, scenario, &bytes, request.budget, trace),
        Err(why) => Status::from(why),
    }
}

// Checks a trace, and writes what its verdict says.
fn check_bytes<S: Sink>(
    alloc: Global,
    scenario: &Scenario,
    bytes: &[u8],
    budget: u64,
    trace: &mut S,
) -> Status
    ensures checks { Checks (scene scenario.now) bytes.now budget
        (S.state trace.old).written (S.state trace.new).written result }
    ensures blames { BlamesTrace (S.state trace.old) (S.state trace.new) result }
{
    // A law that the proof needs: what is read has the shape that a check asks for.
    traces_have_their_shape();
    let Ok(shape) = trace_shape(alloc, scenario) else {
        return Status::Memory;
    };
    let recorded = match read_trace(alloc, &shape, bytes) {
        Ok(recorded) => recorded,
        Err(TraceRefusal::BadLine(line)) => return Status::Refused(Refusal::BadLine(line)),
        Err(TraceRefusal::Memory) => return Status::Memory,
    };
    let Ok(verdict) = check(alloc, scenario, &recorded, budget) else {
        return Status::Memory;
    };
    match put_verdict(trace, &recorded, verdict) {
        Ok(()) => Status::Checked(verdict),
        Err(Failed) => Status::Device {
            device: Device::Trace,
            text: 0,
        },
    }
}

// Writes what a verdict says of a trace: of a legal one the number of its steps, of another one nothing.
fn put_verdict<S: Sink>(trace: &mut S, recorded: &Recorded, verdict: Verdict) -> Result<(), Failed>
    ensures { IsPut (verdict_text (told recorded.now) verdict)
        (S.state trace.old) (S.state trace.new) result }
{
    match verdict {
        Verdict::Legal => put_steps(trace, recorded.steps.len()),
        Verdict::Illegal { .. } | Verdict::TooMany { .. } | Verdict::Budget { .. } => Ok(()),
    }
}

// Writes the line of a legal trace of so many steps.
fn put_steps<S: Sink>(trace: &mut S, steps: usize) -> Result<(), Failed>
    ensures { IsPut (line (codes "legal " ++ decimal steps))
        (S.state trace.old) (S.state trace.new) result }
{
    let mut digits = Buffer::new();
    put_all(trace, &[b"legal ", digits.format(steps).as_bytes(), b"\n"])
}
