//! Sessions that are started.

ghost use Rattle.std.specs.Prelude.{◌≡◌, ◌+◌, ◌<◌, ◌≤◌, [], ◌∷◌, ◌++◌, length, map};
ghost use Rattle.std.specs.Vec.{vec_capacity};
ghost use Rattle.lt_loop.specs.CoreView.{core_state};
ghost use Rattle.lt_session.specs.SidesView.{inputs_of, oracle_of};
ghost use Rattle.lt_campaign.specs.RunView.{AllHaveKinds, session_view};
ghost use Rattle.lt_campaign.specs.inner.Starting.{StartsAll, StartsOne};

use crate::run::Run;
use crate::session::Session;
use lt_io::{Link, Spawner, StartRefusal};
use lt_loop::{Core, Machine, Wants};
use lt_rif::Who;
use lt_session::{Side, Sides, open};
use std::alloc::Global;

/// Memory ran out where a session was to be started.
#[derive(Clone, Copy)]
pub(crate) struct NoMemory;

/// Starts a session for each core, one after another, behind those that there are. Where memory runs out, what was started
/// is among the sessions too.
pub(crate) fn start_all<'a, M: Machine, P: Spawner>(
    alloc: Global,
    cores: Vec<Core<M>>,
    sides: Sides<'a>,
    spawner: &mut P,
    sessions: &mut Vec<Session<'a, M, P::L>>,
) -> Result<(), NoMemory>
    requires none { sessions.old.items ≡ [] }
    requires room { length cores.items ≤ vec_capacity sessions.old }
    ensures starts { StartsAll result (inputs_of sides.entry) (oracle_of sides.entry.oracle)
        (map core_state cores.items) (P.state spawner.old) (P.state spawner.new)
        (map (session_view P.L.state) sessions.new.items) }
    ensures kinds { AllHaveKinds (inputs_of sides.entry) (oracle_of sides.entry.oracle)
        sessions.new.items }
{
    for core in cores {
        start(alloc, core, sides, spawner, sessions)?;
    }
    Ok(())
}

// Starts a session, behind those that there are.
fn start<'a, M: Machine, P: Spawner>(
    alloc: Global,
    core: Core<M>,
    sides: Sides<'a>,
    spawner: &mut P,
    sessions: &mut Vec<Session<'a, M, P::L>>,
) -> Result<(), NoMemory>
    requires room { length sessions.old.items < vec_capacity sessions.old }
    ensures starts { StartsOne result (inputs_of sides.entry) (oracle_of sides.entry.oracle)
        (core_state core) (P.state spawner.old) (P.state spawner.new)
        (map (session_view P.L.state) sessions.old.items)
        (map (session_view P.L.state) sessions.new.items) }
    ensures kinds { AllHaveKinds (inputs_of sides.entry) (oracle_of sides.entry.oracle)
        sessions.old.items → AllHaveKinds (inputs_of sides.entry) (oracle_of sides.entry.oracle)
        sessions.new.items }
    ensures room { vec_capacity sessions.new ≡ vec_capacity sessions.old }
{
    let controller = match open(alloc, sides.controller_source(), spawner) {
        Ok(side) => side,
        Err(StartRefusal::Failed) => {
            add(unstarted(Who::Controller, None), sessions);
            return Ok(());
        }
        Err(StartRefusal::Memory) => return Err(NoMemory),
    };
    match open(alloc, sides.oracle_source(), spawner) {
        Ok(oracle) => {
            add(started(core, controller, oracle), sessions);
            Ok(())
        }
        Err(StartRefusal::Failed) => {
            add(unstarted(Who::Oracle, Some(controller)), sessions);
            Ok(())
        }
        Err(StartRefusal::Memory) => {
            add(unstarted(Who::Oracle, Some(controller)), sessions);
            Err(NoMemory)
        }
    }
}

// A session whose sides were opened.
fn started<'a, M: Machine, L>(
    core: Core<M>,
    controller: Side<'a, L>,
    oracle: Side<'a, L>,
) -> Session<'a, M, L>
    ensures { result ≡ Session.Started (record {
      core = core;
      controller = controller.entry;
      oracle = oracle.entry;
      wants = Wants.Turn;
      broken = None;
    }) }
{
    Session::Started(Run {
        core,
        controller,
        oracle,
        wants: Wants::Turn,
        broken: None,
    })
}

// A session the program of whose side could not be started.
fn unstarted<'a, M: Machine, L>(who: Who, controller: Option<Side<'a, L>>) -> Session<'a, M, L>
    ensures { result ≡ Session.Unstarted who controller.entry }
{
    Session::Unstarted { who, controller }
}

// Adds a session behind the others, for which there is room.
fn add<'a, M: Machine, L>(session: Session<'a, M, L>, sessions: &mut Vec<Session<'a, M, L>>)
    requires { length sessions.old.items < vec_capacity sessions.old }
    ensures added { sessions.new.items ≡ sessions.old.items ++ session.entry ∷ [] }
    ensures room { vec_capacity sessions.new ≡ vec_capacity sessions.old }
{
    sessions.push_reserved(session);
}
