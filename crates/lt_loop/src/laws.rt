//! Laws of replies, of plays and of whole runs, over the states of any machine. The functions do nothing: their contracts
//! say it.

ghost use Rattle.lt_loop.specs.Ending.{PlaysEnd};
ghost use Rattle.lt_loop.specs.Fits.{RepliesFit};
ghost use Rattle.lt_loop.specs.GivingUp.{AffordableRunsAreTheSame, BudgetsHaveACause, GivingUpIsACut, PlaysKeepToTheirRules};
ghost use Rattle.lt_loop.specs.Growing.{PlaysGrow};
ghost use Rattle.lt_loop.specs.Instants.{InstantsHaveFewPieces, RunsHaveFewPieces};
ghost use Rattle.lt_loop.specs.Run.{EndsAreFinal, EventsAreThePlay, FaultsAreCuts, RunsEnd, StepsAreCounted, TurnsGoOn, WantsAreTheStop};

use crate::machine::Machine;
use lt_rif::replies_grow;

/// Unless a fault ends the run, a core puts out the pieces with which the play begins on the bytes taken.
pub fn events_are_the_play<M: Machine>()
    ensures { EventsAreThePlay M.State }
{}

/// Where a core doesn't want a turn, they are all of them, and what it wants is where the play stops.
pub fn wants_are_the_stop<M: Machine>()
    ensures { WantsAreTheStop M.State }
{}

/// A fault of a side cuts the play: its end line is put out after what was put out before, at once.
pub fn faults_are_cuts<M: Machine>()
    ensures { FaultsAreCuts M.State }
{}

/// A turn that puts nothing out leaves a core that wants what the play on what it holds stops with.
pub fn turns_go_on<M: Machine>()
    ensures { TurnsGoOn M.State }
{}

/// The number of steps of a core is that of the steps that were put out, and its plan stays.
pub fn steps_are_counted<M: Machine>()
    ensures { StepsAreCounted M.State }
{}

/// Once the run has ended, no event takes anything, puts anything out, or changes how it ended.
pub fn ends_are_final<M: Machine>()
    ensures { EndsAreFinal M.State }
{}

/// A core is told no more events that it waits for than it has work left.
pub fn runs_end<M: Machine>()
    ensures { RunsEnd M.State }
{}

/// A play on two streams that have ended stops with an end of the run.
pub fn plays_end<M: Machine>()
    ensures { PlaysEnd M.State }
{}

/// A play on longer streams goes on from the play on shorter open ones: so nothing that comes later changes a piece
/// that was put out.
pub fn plays_grow<M: Machine>()
    ensures { PlaysGrow M.State }
{
    // A law that the proof needs: replies of open streams stay so.
    replies_grow();
}

/// A play in which an instant is given up is that of the run, which comes to no such instant, or it
/// is cut there: its end line comes behind the pieces before that instant, with the number of the
/// steps among them and 1.
pub fn giving_up_is_a_cut<M: Machine>()
    ensures { GivingUpIsACut M.State }
{}

/// Where no instant of the rules ends by a budget, no play does.
pub fn plays_keep_to_their_rules<M: Machine>()
    ensures { PlaysKeepToTheirRules M.State }
{}

/// Where no instant of the rules ends by a budget, a play in which one is given up ends so only where
/// the run comes to an instant that may be given up with that need.
pub fn budgets_have_a_cause<M: Machine>()
    ensures { BudgetsHaveACause M.State }
{}

/// A run that comes to no instant that may be given up is the same, whatever is given up.
pub fn affordable_runs_are_the_same<M: Machine>()
    ensures { AffordableRunsAreTheSame M.State }
{}

/// In each play an instant has four pieces at most: the outputs, the question, the step and the end line.
pub fn instants_have_few_pieces<M: Machine>()
    ensures { InstantsHaveFewPieces M.State }
{}

/// So it has in each run from the play's beginning on, whatever comes of the sides, faults too.
pub fn runs_have_few_pieces<M: Machine>()
    ensures { RunsHaveFewPieces M.State }
{}

/// A whole reply has a value for each slot that is kept, of the slot's kind and within its range.
pub fn replies_fit()
    ensures { RepliesFit }
{}
