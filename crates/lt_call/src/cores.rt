//! The core of a run of a scenario, as words ask for it.

ghost use Rattle.std.specs.Prelude.{◌≡◌, ◌<◌, ◌+◌, ◌%◌, ◌^◌, IfOk};
ghost use Rattle.std.specs.Option.{is_some};
ghost use Rattle.lt_args.specs.Asked.{request as request_of};
ghost use Rattle.lt_args.specs.Words.{IsWithin};
ghost use Rattle.lt_loop.specs.CoreView.{core_state};
ghost use Rattle.lt_loop.specs.InputSource.{talk_of, with_contents};
ghost use Rattle.lt_session.specs.SidesView.{inputs_of, oracle_of as session_oracle};
ghost use Rattle.lt_term.specs.SceneView.{scene};
ghost use Rattle.lt_call.specs.Due.{IsServed};
ghost use Rattle.lt_call.specs.Run.{IsFirstCore, oracle_of, session_request};

use lt_args::Request;
use lt_loop::{Core, Setup};
use lt_play::Player;
use lt_session::Sides;
use lt_step::Memory;
use lt_term::Scenario;
use std::alloc::Global;

/// The core of the run of a scenario in a session of this number, from 0, whose seed is as much greater, modulo 2^64.
///
/// # Errors
///
/// Want of memory.
pub(crate) fn core_of(
    alloc: Global,
    request: &Request<'_>,
    scenario: Scenario,
    session: u64,
) -> Result<Core<Player>, Memory>
    requires within { IsWithin (request_of request.now) }
    requires served { IsServed (request_of request.now) (scene scenario) }
    ensures small { request.now.seed < 2 ^ 64 }
    ensures first { IfOk result (λ core. IsFirstCore
        (session_request (request_of request.now) session) (scene scenario) (core_state core)) }
{
    let setup = setup(request, session);
    let player = Player::make(alloc, scenario, setup.seed, request.budget, request.draw)?;
    match Core::make(alloc, player, setup) {
        Ok(core) => Ok(core),
        Err(_) => Err(Memory),
    }
}

// What the core of the run of a session is told.
fn setup(request: &Request<'_>, session: u64) -> Setup
    ensures small { request.now.seed < 2 ^ 64 }
    ensures told { result ≡ record {
      seed = (request.now.seed + session) % 2 ^ 64;
      draw = request.now.draw;
      limit = request.now.limit;
      locals = request.now.locals;
      controller = talk_of (request_of request.now).inputs;
      oracle = is_some request.now.oracle;
    } }
{
    Setup {
        seed: request.seed.wrapping_add(session),
        draw: request.draw,
        limit: request.limit,
        locals: request.locals,
        controller: request.inputs.talk(),
        oracle: request.oracle.is_some(),
    }
}

/// Where the replies of the sides of a run come from: the controller's from these bytes, where an earlier trace gives them.
pub(crate) fn sides_of<'a>(request: &Request<'a>, replay: &'a [u8]) -> Sides<'a>
    ensures controller { inputs_of result ≡
        with_contents (request_of request.now).inputs replay.now }
    ensures oracle { session_oracle result.oracle ≡ oracle_of (request_of request.now).oracle }
{
    Sides {
        inputs: request.inputs,
        replay,
        oracle: request.oracle,
    }
}
