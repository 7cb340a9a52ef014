//! Laws of whole calls. The functions do nothing: their contracts say it.

ghost use Rattle.lt_call.specs.Campaigns.{CampaignsAreTheirRuns};
ghost use Rattle.lt_call.specs.Cut.{CutCallsAreFronts};
ghost use Rattle.lt_call.specs.Laws.{AffordableCallsAreNotGivenUp, AffordableCallsAreWhole, ContentsHaveOneDueAnswer, RefusalsAreExact, RepliesAreMissedOnlySo, SameCallSameBytes, UncutCallsAreWhole, UndisturbedCallsAreUncut, WantOfMemoryWritesNothing};

use lt_campaign::{runs_are_alone, sessions_are_alone, sessions_begin};
use lt_frontend::{texts_have_one_printed_answer, texts_have_one_scenario_answer};
use lt_instant::affordable_instants_are_not_given_up;
use lt_loop::{affordable_runs_are_the_same, budgets_have_a_cause, plays_keep_to_their_rules};
use lt_play::Player;
use lt_session::{cut_sessions_are_fronts, plays_never_break, undisturbed_sessions_are_whole};
use lt_stress::{large_runs_are_one, numbers_have_scenes};
use lt_trace::texts_have_one_reading;

/// One answer is due to a request and the contents of its files.
pub fn contents_have_one_due_answer()
    ensures { ContentsHaveOneDueAnswer }
{
    texts_have_one_scenario_answer();
    texts_have_one_printed_answer();
    texts_have_one_reading();
    numbers_have_scenes();
}

/// Where files and programs tell what they have, what no device, no want of memory and no budget cuts short is done
/// whole.
pub fn uncut_calls_are_whole()
    ensures { UncutCallsAreWhole }
{
    contents_have_one_due_answer();
    undisturbed_sessions_are_whole::<Player>();
}

/// Where files and programs tell what they have, a call that a device cuts short writes nothing before its run, and in it the
/// first texts of what it would write, up to what cuts it, and the end line of a side's fault. One of which an instant is given
/// up writes the texts before that instant, which may be given up with that need, and the end line of a budget.
pub fn cut_calls_are_fronts()
    ensures { CutCallsAreFronts }
{
    contents_have_one_due_answer();
    cut_sessions_are_fronts::<Player>();
    plays_never_break::<Player>();
    undisturbed_sessions_are_whole::<Player>();
    budgets_have_a_cause::<Player>();
}

/// Where files and programs tell what they have, a call that nothing cuts short ends by a reply that is refused, or missing,
/// only where one is, behind whole ones of that side.
pub fn replies_are_missed_only_so()
    ensures { RepliesAreMissedOnlySo }
{
    uncut_calls_are_whole();
    lt_session::replies_are_missed_only_so::<Player>();
}

/// Two calls that ask for the same of the same contents and of the same streams, and that nothing cuts short, have the
/// same status and write the same bytes.
pub fn same_call_same_bytes()
    ensures { SameCallSameBytes }
{
    contents_have_one_due_answer();
    uncut_calls_are_whole();
    large_runs_are_one();
}

/// What is to be refused is refused so, and nothing is put out, unless a file could not be read or memory ran out.
pub fn refusals_are_exact()
    ensures { RefusalsAreExact }
{
    contents_have_one_due_answer();
}

/// Where no device failed, memory lasted and no instant was given up, nothing is cut short.
pub fn undisturbed_calls_are_uncut()
    ensures { UndisturbedCallsAreUncut }
{}

/// Where files and programs tell what they have, and each leaf at which the draws of the run arrive has a need within the
/// budget, no instant is given up.
pub fn affordable_calls_are_not_given_up()
    ensures { AffordableCallsAreNotGivenUp }
{
    contents_have_one_due_answer();
    plays_keep_to_their_rules::<Player>();
    affordable_runs_are_the_same::<Player>();
    affordable_instants_are_not_given_up();
    undisturbed_sessions_are_whole::<Player>();
}

/// Where, besides, no device failed, such a call does its work whole, or memory ran out and nothing was written.
pub fn affordable_calls_are_whole()
    ensures { AffordableCallsAreWhole }
{
    affordable_calls_are_not_given_up();
    undisturbed_calls_are_uncut();
    uncut_calls_are_whole();
    want_of_memory_writes_nothing();
}

/// Where memory ran out, nothing was written.
pub fn want_of_memory_writes_nothing()
    ensures { WantOfMemoryWritesNothing }
{}

/// Where no write to the trace failed, and memory lasted, a campaign went to its end, and each of its sessions had the run that
/// it would have alone: where its links tell what they have left, and neither a side's fault nor a budget ended it, the text
/// that belongs to it in the frames of the trace is the trace of a run of the same scenario with its seed.
pub fn campaigns_are_their_runs()
    ensures { CampaignsAreTheirRuns }
{
    sessions_begin::<Player>();
    runs_are_alone::<Player>();
    sessions_are_alone::<Player>();
    lt_campaign::undisturbed_sessions_are_whole::<Player>();
}
