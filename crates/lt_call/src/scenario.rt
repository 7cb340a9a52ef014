//! What is done with the scenario of a text.

ghost use Rattle.std.specs.Prelude.{◌≡◌, ◌≤◌, [], length, true};
ghost use Rattle.lt_io.specs.Outside.{around};
ghost use Rattle.lt_term.specs.SceneView.{scene};
ghost use Rattle.lt_args.specs.Asked.{request as request_of};
ghost use Rattle.lt_args.specs.Settings.{longest_text};
ghost use Rattle.lt_args.specs.Words.{IsWithin};
ghost use Rattle.lt_call.specs.Due.{HasFewAtoms, HasScene, takes_scenario};
ghost use Rattle.lt_call.specs.inner.CallResultView.{names_of};
ghost use Rattle.lt_call.specs.inner.Parts.{AnswersText};

use crate::call_result::CallResult;
use crate::check::check_trace;
use crate::laws::contents_have_one_due_answer;
use crate::run::run_served;
use crate::status::{Refusal, Status};
use lt_args::{Mode, Request};
use lt_frontend::scenario_of;
use lt_io::{Files, Sink, Spawner};
use lt_parts::has_too_many_atoms;
use lt_term::Scenario;
use std::alloc::Global;

/// Does what is asked for with the scenario of a text, where it has one.
pub fn with_scenario<F: Files, P: Spawner, S: Sink>(
    alloc: Global,
    request: &Request<'_>,
    text: &[u8],
    files: &mut F,
    spawner: &mut P,
    trace: &mut S,
) -> CallResult
    requires within { IsWithin (request_of request.now) }
    requires short { length text.now ≤ longest_text }
    requires takes { takes_scenario request.now.mode ≡ true }
    ensures { AnswersText (request_of request.now) text.now
        (around (F.state files.old) (P.state spawner.old) (S.state trace.old))
        (around (F.state files.new) (P.state spawner.new) (S.state trace.new))
        (names_of result) result.status }
{
    // A law that the proof needs: where memory runs out, an answer is due all the same.
    contents_have_one_due_answer();
    match scenario_of(alloc, text, request.decimals, request.node) {
        Ok(scenario) => with_few_atoms(alloc, request, text, scenario, files, spawner, trace),
        Err(why) => CallResult::without_run(Status::from(why)),
    }
}

// Does it where no conjunct of the scenario's constraints has too many atoms.
fn with_few_atoms<F: Files, P: Spawner, S: Sink>(
    alloc: Global,
    request: &Request<'_>,
    text: &[u8],
    scenario: Scenario,
    files: &mut F,
    spawner: &mut P,
    trace: &mut S,
) -> CallResult
    requires within { IsWithin (request_of request.now) }
    requires short { length text.now ≤ longest_text }
    requires takes { takes_scenario request.now.mode ≡ true }
    requires scene { HasScene (request_of request.now) (record { scenario = text.now; replay = [] })
        (scene scenario) }
    ensures { AnswersText (request_of request.now) text.now
        (around (F.state files.old) (P.state spawner.old) (S.state trace.old))
        (around (F.state files.new) (P.state spawner.new) (S.state trace.new))
        (names_of result) result.status }
{
    // A law that the proof needs: where memory runs out, an answer is due all the same.
    contents_have_one_due_answer();
    match has_too_many_atoms(alloc, &scenario) {
        Ok(false) => by_mode(alloc, request, text, scenario, files, spawner, trace),
        Ok(true) => not_run(scenario, Status::Refused(Refusal::TooManyAtoms)),
        Err(_) => not_run(scenario, Status::Memory),
    }
}

// Runs the scenario, or checks a trace by it.
fn by_mode<F: Files, P: Spawner, S: Sink>(
    alloc: Global,
    request: &Request<'_>,
    text: &[u8],
    scenario: Scenario,
    files: &mut F,
    spawner: &mut P,
    trace: &mut S,
) -> CallResult
    requires within { IsWithin (request_of request.now) }
    requires short { length text.now ≤ longest_text }
    requires takes { takes_scenario request.now.mode ≡ true }
    requires scene { HasScene (request_of request.now) (record { scenario = text.now; replay = [] })
        (scene scenario) }
    requires few { HasFewAtoms (scene scenario) }
    ensures { AnswersText (request_of request.now) text.now
        (around (F.state files.old) (P.state spawner.old) (S.state trace.old))
        (around (F.state files.new) (P.state spawner.new) (S.state trace.new))
        (names_of result) result.status }
{
    match request.mode {
        Mode::Run | Mode::Campaign => {
            run_served(alloc, request, text, scenario, files, spawner, trace)
        }
        Mode::Check => {
            let status = check_trace(alloc, request, text, &scenario, files, trace);
            not_run(scenario, status)
        }
        Mode::Print | Mode::Stress(_) => unreachable!(),
    }
}

/// A call that ended so. Its scenario isn't run, but dropped, by this one function.
pub fn not_run(scenario: Scenario, status: Status) -> CallResult
    ensures status { result.status ≡ status }
    ensures names { names_of result ≡ [] }
{
    drop(scenario);
    CallResult::without_run(status)
}
