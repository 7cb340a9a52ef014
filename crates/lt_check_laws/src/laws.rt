//! Laws. The functions do nothing: their contracts say it.

ghost use Rattle.lt_check_laws.specs.Traces.{TracesAreLegal, TracesTellLegalRuns};
ghost use Rattle.lt_check_laws.specs.Written.{RunsAreLegal};

use lt_legal_laws::{instants_end, instants_follow};
use lt_loop::replies_fit;
use lt_macros::names_are_there;
use lt_rif::value_reads_back;
use lt_scenario_laws::{instants_give_their_own, scenarios_are_traceable};
use lt_trace::texts_have_one_reading;

/// What a run writes to its trace is a header, steps and an end, and these are a legal run.
pub fn runs_are_legal()
    ensures { RunsAreLegal }
{
    // Laws that the proof needs: a variable's range is one of its kind, each value is one of its variable, instants follow
    // and end as a legal run may, and replies fit.
    names_are_there();
    instants_give_their_own();
    instants_follow();
    instants_end();
    replies_fit();
}

/// The trace of a run with its locals tells a legal run.
pub fn traces_tell_legal_runs()
    ensures { TracesTellLegalRuns }
{
    // Laws that the proof needs: names and values have no line feed.
    runs_are_legal();
    scenarios_are_traceable();
    value_reads_back();
}

/// So each verdict on it is Legal, within the number of configurations and the budget of a check.
pub fn traces_are_legal()
    ensures { TracesAreLegal }
{
    // Laws that the proof needs: the trace tells a legal run, and a text tells one thing.
    traces_tell_legal_runs();
    texts_have_one_reading();
}
