//! The laws. The functions do nothing: their contracts say them.

ghost use Rattle.lt_trace_laws.specs.Replay.{ReplaysAreTheSame};
ghost use Rattle.lt_trace_laws.specs.Shown.{PrefixesShowTheirRun, TracesShowTheirRun};

use lt_loop::{Machine, replies_fit};
use lt_rif::{room_is_enough, spelling_is_read, step_reads_back};

/// A run that is played again from its own trace has the same trace, and ends in the same way.
pub fn replays_are_the_same<M: Machine>()
    ensures { ReplaysAreTheSame M.State }
{
    // Laws that the proof needs: a step that was written is read back, steps are short, and replies fit.
    step_reads_back();
    room_is_enough();
    replies_fit();
}

/// A run is told by the replies that its steps show: the play on them is that run, up to a reply that was refused or missed.
pub fn traces_show_their_run<M: Machine>()
    ensures { TracesShowTheirRun M.State }
{
    // Laws that the proof needs: a step that was written is read back, lines are read, steps are short, and replies fit.
    step_reads_back();
    spelling_is_read();
    room_is_enough();
    replies_fit();
}

/// So is a run that was cut before its end: what it wrote to the trace is the prefix of what that play writes.
pub fn prefixes_show_their_run<M: Machine>()
    ensures { PrefixesShowTheirRun M.State }
{
    // Laws that the proof needs: a step that was written is read back, lines are read, steps are short, and replies fit.
    step_reads_back();
    spelling_is_read();
    room_is_enough();
    replies_fit();
}
