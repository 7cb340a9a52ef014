//! The laws. The functions do nothing: their contracts say them.

ghost use Rattle.lt_campaign.specs.Alone.{RunsAreAlone};
ghost use Rattle.lt_campaign.specs.Cause.{BlameHasACause};
ghost use Rattle.lt_campaign.specs.Parts.{CutSessionsAreAlone, SessionsAreAlone, SessionsBegin};
ghost use Rattle.lt_campaign.specs.Whole.{UndisturbedSessionsAreWhole};

use lt_drive::undisturbed_runs_are_whole;
use lt_loop::Machine;

/// However often a run takes its part in rounds, it is driven so far as one that is alone, over its own links and a trace of
/// its own, to which all is written that it has for the trace.
pub fn runs_are_alone<M: Machine>()
    ensures { RunsAreAlone M.State }
{}

/// Whatever a campaign comes to, no count of faults of programs falls, and a program is blamed only where one rose.
pub fn blame_has_a_cause<M: Machine>()
    ensures { BlameHasACause M.State }
{}

/// However many rounds sessions go through, each takes its parts alone, and the text that belongs to it in the frames of the
/// trace is what it has for a trace of its own.
pub fn sessions_are_alone<M: Machine>()
    ensures { SessionsAreAlone M.State }
{}

/// The same holds where a write failed in a round.
pub fn cut_sessions_are_alone<M: Machine>()
    ensures { CutSessionsAreAlone M.State }
{}

/// Sessions that are started begin each with its core, and want a turn.
pub fn sessions_begin<M: Machine>()
    ensures { SessionsBegin M.State }
{}

/// Where both links of a session tell what they have left, and its run ended, but not by the fault of a side, what it had for
/// the trace is the trace of its run alone, on what they told.
pub fn undisturbed_sessions_are_whole<M: Machine>()
    ensures { UndisturbedSessionsAreWhole M.State }
{
    // A law that the proof needs: the same of runs over links.
    undisturbed_runs_are_whole::<M>();
}
