//! Campaigns of scenarios.

ghost use Rattle.std.specs.Prelude.{◌≡◌, ◌≤◌, ◌∷◌, ◌++◌, [], IfOk, OnOk, length, map};
ghost use Rattle.lt_args.specs.Asked.{request as request_of};
ghost use Rattle.lt_args.specs.Words.{IsWithin};
ghost use Rattle.lt_campaign.specs.EndView.{blamed_view};
ghost use Rattle.lt_campaign.specs.Few.{steps_of};
ghost use Rattle.lt_io.specs.Outside.{beside};
ghost use Rattle.lt_loop.specs.CoreView.{core_state};
ghost use Rattle.lt_loop.specs.Machine.{most_steps};
ghost use Rattle.lt_term.specs.Scene.{Scene};
ghost use Rattle.lt_term.specs.SceneView.{scene};
ghost use Rattle.lt_call.specs.Due.{HasScene, IsServed, plays_many};
ghost use Rattle.lt_call.specs.Given.{fate_of, names_by, status_by};
ghost use Rattle.lt_call.specs.Run.{AreFirstCores};
ghost use Rattle.lt_call.specs.inner.CallResultView.{names_of};
ghost use Rattle.lt_call.specs.inner.Parts.{AnswersRun};

use crate::call_result::CallResult;
use crate::cores::{core_of, sides_of};
use crate::status::{Device, Ending, Fate, Status};
use lt_args::Request;
use lt_campaign::{Blamed, CampaignEnd, Campaigned, Outcome, blame_has_a_cause, play_campaign};
use lt_frontend::{Unprepared, scenario_of, texts_have_one_scenario_answer};
use lt_io::{Sink, Spawner};
use lt_loop::Core;
use lt_play::Player;
use lt_step::Memory;
use lt_term::Scenario;
use std::alloc::Global;

/// Runs the scenario of a text as many times at once as is asked for.
pub(crate) fn campaign<P: Spawner, S: Sink>(
    alloc: Global,
    request: &Request<'_>,
    text: &[u8],
    scenario: Scenario,
    replay: &[u8],
    spawner: &mut P,
    trace: &mut S,
) -> CallResult
    requires within { IsWithin (request_of request.now) }
    requires scene { HasScene (request_of request.now) (record { scenario = text.now; replay = [] })
        (scene scenario) }
    requires served { IsServed (request_of request.now) (scene scenario) }
    ensures { AnswersRun (request_of request.now) replay.now (plays_many (scene scenario))
        (beside (P.state spawner.old) (S.state trace.old))
        (beside (P.state spawner.new) (S.state trace.new))
        (names_of result) result.status }
{
    // A law that the proof needs: a program is blamed only where a fault was counted.
    blame_has_a_cause::<Player>();
    let Ok(cores) = cores_of(alloc, request, text, scenario) else {
        return CallResult::without_run(Status::Memory);
    };
    let Campaigned { end, blamed } = play_campaign(
        alloc,
        cores,
        sides_of(request, replay),
        spawner,
        trace,
    );
    match end {
        CampaignEnd::Finished => finished(blamed),
        CampaignEnd::TraceWriteFailed => CallResult::without_run(Status::Device {
            device: Device::Trace,
            text: 0,
        }),
        CampaignEnd::Memory => CallResult::without_run(Status::Memory),
    }
}

// A campaign of which this session is the first that didn't end well, if there is one.
fn finished(blamed: Option<Blamed<Player>>) -> CallResult
    ensures status { result.status ≡ status_by (blamed_view blamed) }
    ensures names { names_of result ≡ names_by (blamed_view blamed) }
{
    match blamed {
        None => CallResult::without_run(Status::Done),
        Some(blamed) => CallResult {
            status: Status::Session {
                number: blamed.session,
                fate: fate(blamed.outcome),
            },
            core: blamed.core,
        },
    }
}

// How a session ended, with the number of its end line.
fn fate(outcome: Outcome) -> Fate
    requires { steps_of outcome ≤ most_steps }
    ensures { result ≡ fate_of outcome }
{
    match outcome {
        Outcome::Ended { end, steps } => Fate::Ran(Ending {
            end,
            at: end.number(steps),
        }),
        Outcome::Never(who) => Fate::Unstarted(who),
    }
}

// The cores of all sessions. The first has this scenario, and each other one the same, made of the text again.
fn cores_of(
    alloc: Global,
    request: &Request<'_>,
    text: &[u8],
    scenario: Scenario,
) -> Result<Vec<Core<Player>>, Memory>
    requires within { IsWithin (request_of request.now) }
    requires scene { HasScene (request_of request.now) (record { scenario = text.now; replay = [] })
        (scene scenario) }
    requires served { IsServed (request_of request.now) (scene scenario) }
    ensures count { IfOk result (λ cores. length cores.items ≡ request.now.count) }
    ensures first { IfOk result (λ cores. AreFirstCores (request_of request.now) (scene scenario)
        0 (map core_state cores.items)) }
{
    let mut cores = Vec::new(alloc);
    push(&mut cores, core_of(alloc, request, scenario, 0)?)?;
    for session in 1..request.count {
        let same = again(alloc, request, text)?;
        push(&mut cores, core_of(alloc, request, same, session)?)?;
    }
    Ok(cores)
}

// The scenario of a text that has one, made of the text once more.
fn again(alloc: Global, request: &Request<'_>, text: &[u8]) -> Result<Scenario, Memory>
    requires within { IsWithin (request_of request.now) }
    requires some { (s : Scene) × HasScene (request_of request.now)
        (record { scenario = text.now; replay = [] }) s }
    ensures { IfOk result (λ made. (s : Scene) → HasScene (request_of request.now)
        (record { scenario = text.now; replay = [] }) s → scene made ≡ s) }
{
    // A law that the proof needs: the text has one scenario.
    texts_have_one_scenario_answer();
    match scenario_of(alloc, text, request.decimals, request.node) {
        Ok(scenario) => Ok(scenario),
        Err(Unprepared::Refused(_)) => unreachable!(),
        Err(Unprepared::Memory) => Err(Memory),
    }
}

// Adds a core behind the others.
fn push(cores: &mut Vec<Core<Player>>, core: Core<Player>) -> Result<(), Memory>
    ensures { OnOk result (cores.new.items ≡ cores.old.items ++ core ∷ []) }
{
    match cores.push(core) {
        Ok(()) => Ok(()),
        Err(_) => Err(Memory),
    }
}
