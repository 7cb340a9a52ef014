//! A campaign, from its start to its end.

ghost use Rattle.std.specs.Prelude.{◌≡◌, [], None, map};
ghost use Rattle.lt_io.specs.Outside.{beside};
ghost use Rattle.lt_loop.specs.CoreView.{core_state};
ghost use Rattle.lt_loop.specs.InputSource.{InputSource};
ghost use Rattle.lt_session.specs.SidesView.{inputs_of, oracle_of};
ghost use Rattle.lt_campaign.specs.Campaign.{AllWantTurns, IsPlayed};
ghost use Rattle.lt_campaign.specs.EndView.{blamed_view};
ghost use Rattle.lt_campaign.specs.RunView.{AllHaveKinds, session_view};
ghost use Rattle.lt_campaign.specs.inner.Fitting.{AllFit};
ghost use Rattle.lt_campaign.specs.inner.Parting.{WritesAll};

use crate::campaign_end::{CampaignEnd, Campaigned};
use crate::closing::close_all;
use crate::framing::{put_end, room, settle};
use crate::rounds::{play_rounds, well_count};
use crate::session::Session;
use crate::starting::start_all;
use lt_io::{Failed, Link, Sink, Spawner};
use lt_loop::{Core, Machine};
use lt_session::Sides;
use std::alloc::Global;

/// Plays a campaign to its end: a session for each core, each with programs of its own beside it.
///
/// The programs are started first, session by session, the controller's before the oracle's; each link is given back once all
/// sessions have ended, in the same order. A session a program of which can't be started takes part in no round. Where memory
/// runs out before the first event, nothing is put out.
pub fn play_campaign<M: Machine, P: Spawner, S: Sink>(
    alloc: Global,
    cores: Vec<Core<M>>,
    sides: Sides<'_>,
    spawner: &mut P,
    trace: &mut S,
) -> Campaigned<M>
    requires { AllWantTurns (map core_state cores.items) }
    ensures { IsPlayed (inputs_of sides.entry) (oracle_of sides.entry.oracle)
        (map core_state cores.items)
        (beside (P.state spawner.old) (S.state trace.old))
        (beside (P.state spawner.new) (S.state trace.new))
        result.end (blamed_view result.blamed) }
{
    let Ok(mut sessions) = Vec::with_capacity(alloc, cores.len()) else {
        return unplayed(CampaignEnd::Memory);
    };
    let mut waiting = room(alloc);
    if start_all(alloc, cores, sides, spawner, &mut sessions).is_err() {
        close_all(sessions, spawner);
        return unplayed(CampaignEnd::Memory);
    }
    let played = play_sessions(&mut sessions, &mut waiting, trace);
    let blamed = close_all(sessions, spawner);
    match played {
        Ok(()) => Campaigned {
            end: CampaignEnd::Finished,
            blamed,
        },
        Err(Failed) => unplayed(CampaignEnd::TraceWriteFailed),
    }
}

// A campaign that ended so, of which no session is blamed.
fn unplayed<M: Machine>(end: CampaignEnd) -> Campaigned<M>
    ensures end { result.end ≡ end }
    ensures none { blamed_view result.blamed ≡ None }
{
    Campaigned { end, blamed: None }
}

// Lets sessions go in rounds until all have ended, and writes all that they have for the trace, and the line at the end.
fn play_sessions<M: Machine, L: Link, S: Sink>(
    sessions: &mut Vec<Session<'_, M, L>>,
    waiting: &mut Vec<u8>,
    trace: &mut S,
) -> Result<(), Failed>
    requires fit { AllFit (map (session_view L.state) sessions.old.items) }
    requires none { waiting.old.items ≡ [] }
    ensures writes { WritesAll result (map (session_view L.state) sessions.old.items)
        (map (session_view L.state) sessions.new.items) (S.state trace.old) (S.state trace.new) }
    ensures kinds { (c o : InputSource) → AllHaveKinds c o sessions.old.items →
        AllHaveKinds c o sessions.new.items }
{
    play_rounds(sessions, waiting, trace)?;
    put_end(sessions.len(), well_count(sessions), waiting, trace)?;
    settle(waiting, trace)
}
