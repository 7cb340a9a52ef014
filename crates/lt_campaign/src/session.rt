//! A session of a campaign.

ghost use Rattle.std.specs.Prelude.{◌≡◌, ℕ, List, OnErr, OnOk};
ghost use Rattle.lt_io.specs.Sink.{Sink};
ghost use Rattle.lt_loop.specs.CoreView.{core_state, last_text};
ghost use Rattle.lt_loop.specs.InputSource.{InputSource};
ghost use Rattle.lt_campaign.specs.Campaign.{IsCutText};
ghost use Rattle.lt_campaign.specs.Rounds.{part_text};
ghost use Rattle.lt_campaign.specs.Run.{traced};
ghost use Rattle.lt_campaign.specs.RunView.{HasKinds, session_view};
ghost use Rattle.lt_campaign.specs.Session.{outcome_of, run_outcome};
ghost use Rattle.lt_campaign.specs.inner.Parting.{PutsPart};
ghost use Rattle.lt_campaign.specs.inner.Writing.{HasText, PutsBehind};

use crate::campaign_end::Outcome;
use crate::framing::{put_frame, settle};
use crate::run::{Run, take_part};
use lt_io::{Failed, Link, Sink};
use lt_loop::{Core, Machine, PieceKind, Wants};
use lt_rif::Who;
use lt_session::Side;

/// A session: a run with its sides, or what is left of one that could not be started.
pub(crate) enum Session<'a, M: Machine, L> {
    /// It was started.
    Started(Run<'a, M, L>),

    /// The program of this side could not be started.
    Unstarted {
        who: Who,

        /// The controller's side, where that was opened.
        controller: Option<Side<'a, L>>,
    },
}

/// Lets a session take its part of a round, and puts what it has for the trace in a frame. Before a program is told something,
/// or waited for, the frames that wait are written.
pub(crate) fn put_part<M: Machine, L: Link, S: Sink>(
    session: &mut Session<'_, M, L>,
    number: usize,
    waiting: &mut Vec<u8>,
    trace: &mut S,
) -> Result<(), Failed>
    ensures puts { (start : Sink) (before : List ℕ) →
        HasText start (S.state trace.old) waiting.old.items before →
        PutsPart result number (session_view L.state session.old) (session_view L.state session.new)
        start (S.state trace.new) waiting.new.items before }
    ensures kinds { (c o : InputSource) → HasKinds c o session.old → HasKinds c o session.new }
{
    let Session::Started(run) = session else {
        return Ok(());
    };
    settle_for(run, waiting, trace)?;
    let kind = take_part(run);
    put_traced(kind, &run.core, number, waiting, trace)
}

// Puts the text of a core's last piece in a frame, where it is for the trace.
fn put_traced<M: Machine, S: Sink>(
    kind: Option<PieceKind>,
    core: &Core<M>,
    number: usize,
    waiting: &mut Vec<u8>,
    trace: &mut S,
) -> Result<(), Failed>
    ensures { (start : Sink) (before : List ℕ) →
        HasText start (S.state trace.old) waiting.old.items before →
        PutsBehind result start (S.state trace.new) waiting.new.items before
        (part_text number (traced kind (last_text core.now))) }
{
    match kind {
        Some(_) => put_frame(number, core.text(), waiting, trace),
        None => Ok(()),
    }
}

// Writes the frames that wait, where a program stands beside a run, which may be told something, or waited for.
fn settle_for<M: Machine, L, S: Sink>(
    run: &Run<'_, M, L>,
    waiting: &mut Vec<u8>,
    trace: &mut S,
) -> Result<(), Failed>
    ensures written { OnOk result ((start : Sink) (before : List ℕ) →
        HasText start (S.state trace.old) waiting.old.items before →
        HasText start (S.state trace.new) waiting.new.items before) }
    ensures cut { OnErr result ((start : Sink) (before : List ℕ) →
        HasText start (S.state trace.old) waiting.old.items before →
        IsCutText start (S.state trace.new) before before) }
{
    if has_program(run) {
        return settle(waiting, trace);
    }
    Ok(())
}

// Whether a program stands beside a run.
fn has_program<M: Machine, L>(run: &Run<'_, M, L>) -> bool {
    matches!(run.controller, Side::Program(_)) || matches!(run.oracle, Side::Program(_))
}

/// How a session ended, if it has.
pub(crate) fn outcome<M: Machine, L: Link>(session: &Session<'_, M, L>) -> Option<Outcome>
    ensures { result ≡ outcome_of (session_view L.state session.now) }
{
    match session {
        Session::Started(run) => run_outcome(run),
        Session::Unstarted { who, .. } => Some(Outcome::Never(*who)),
    }
}

// How a run ended, if it has: one that is to be told a fault goes on.
fn run_outcome<M: Machine, L>(run: &Run<'_, M, L>) -> Option<Outcome>
    ensures { result ≡ run_outcome run.now.broken run.now.wants (core_state run.now.core).written }
{
    match (run.broken, run.wants) {
        (None, Wants::Nothing(end)) => Some(Outcome::Ended {
            end,
            steps: run.core.steps(),
        }),
        _ => None,
    }
}
