//! Rounds of a campaign.

ghost use Rattle.std.specs.Prelude.{◌≡◌, ℕ, List, [], map};
ghost use Rattle.lt_io.specs.Sink.{Sink};
ghost use Rattle.lt_loop.specs.InputSource.{InputSource};
ghost use Rattle.lt_campaign.specs.Campaign.{ends_well, well_count};
ghost use Rattle.lt_campaign.specs.RunView.{AllHaveKinds, session_view};
ghost use Rattle.lt_campaign.specs.Session.{outcome_of};
ghost use Rattle.lt_campaign.specs.inner.Fitting.{AllFit};
ghost use Rattle.lt_campaign.specs.inner.Parting.{PutsRound, PutsRounds};
ghost use Rattle.lt_campaign.specs.inner.Rounding.{any_goes};
ghost use Rattle.lt_campaign.specs.inner.Writing.{HasText};

use crate::session::{Session, outcome, put_part};
use lt_io::{Failed, Link, Sink};
use lt_loop::Machine;

/// Lets sessions go in rounds until all have ended, and puts what they have for the trace.
pub(crate) fn play_rounds<M: Machine, L: Link, S: Sink>(
    sessions: &mut Vec<Session<'_, M, L>>,
    waiting: &mut Vec<u8>,
    trace: &mut S,
) -> Result<(), Failed>
    requires fit { AllFit (map (session_view L.state) sessions.old.items) }
    requires none { waiting.old.items ≡ [] }
    ensures puts { (start : Sink) (before : List ℕ) →
        HasText start (S.state trace.old) waiting.old.items before →
        PutsRounds result (map (session_view L.state) sessions.old.items)
        (map (session_view L.state) sessions.new.items)
        start (S.state trace.new) waiting.new.items before }
    ensures kinds { (c o : InputSource) → AllHaveKinds c o sessions.old.items →
        AllHaveKinds c o sessions.new.items }
{
    while any_goes(sessions) {
        round(sessions, waiting, trace)?;
    }
    Ok(())
}

// Lets each session take its part of a round, in their order.
fn round<M: Machine, L: Link, S: Sink>(
    sessions: &mut Vec<Session<'_, M, L>>,
    waiting: &mut Vec<u8>,
    trace: &mut S,
) -> Result<(), Failed>
    ensures puts { (start : Sink) (before : List ℕ) →
        HasText start (S.state trace.old) waiting.old.items before →
        PutsRound result (map (session_view L.state) sessions.old.items)
        (map (session_view L.state) sessions.new.items)
        start (S.state trace.new) waiting.new.items before }
    ensures kinds { (c o : InputSource) → AllHaveKinds c o sessions.old.items →
        AllHaveKinds c o sessions.new.items }
{
    let count = sessions.len();
    let mut number = 0;
    while number < count {
        put_part(&mut sessions[number], number, waiting, trace)?;
        number += 1;
    }
    Ok(())
}

// Whether any session goes on.
fn any_goes<M: Machine, L: Link>(sessions: &[Session<'_, M, L>]) -> bool
    ensures { result ≡ any_goes (map (session_view L.state) sessions.now) }
{
    for session in sessions {
        if outcome(session).is_none() {
            return true;
        }
    }
    false
}

/// How many sessions ended well.
pub(crate) fn well_count<M: Machine, L: Link>(sessions: &[Session<'_, M, L>]) -> usize
    ensures { result ≡ well_count (map (session_view L.state) sessions.now) }
{
    let mut count = 0;
    for session in sessions {
        count += usize::from(ends_well(session));
    }
    count
}

// Whether a session has ended well.
fn ends_well<M: Machine, L: Link>(session: &Session<'_, M, L>) -> bool
    ensures { result ≡ ends_well (outcome_of (session_view L.state session.now)) }
{
    match outcome(session) {
        Some(outcome) => outcome.is_well(),
        None => false,
    }
}
