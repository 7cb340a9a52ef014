//! The laws. The functions do nothing: their contracts say them.

ghost use Rattle.lt_call_laws.specs.Again.{ReplayedCallsAreTheSame};
ghost use Rattle.lt_call_laws.specs.Shown.{TracesOfCallsShowTheirRuns};

use lt_call::{contents_have_one_due_answer, uncut_calls_are_whole};
use lt_frontend::texts_have_one_scenario_answer;
use lt_loop::{giving_up_is_a_cut, plays_keep_to_their_rules};
use lt_play::Player;
use lt_scenario_laws::{
    scenario_prefixes_show_their_run, scenario_replays_are_the_same, scenario_traces_show_their_run,
};

/// A call that plays the trace of an earlier call again writes the same bytes, has the same status, and says the same.
pub fn replayed_calls_are_the_same()
    ensures { ReplayedCallsAreTheSame }
{
    contents_have_one_due_answer();
    texts_have_one_scenario_answer();
    uncut_calls_are_whole();
    scenario_replays_are_the_same();
}

/// The trace of a call is the one of the replies and the verdicts that its steps show, whatever its sides tell.
pub fn traces_of_calls_show_their_runs()
    ensures { TracesOfCallsShowTheirRuns }
{
    texts_have_one_scenario_answer();
    plays_keep_to_their_rules::<Player>();
    giving_up_is_a_cut::<Player>();
    scenario_traces_show_their_run();
    scenario_prefixes_show_their_run();
}
