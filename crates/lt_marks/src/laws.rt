//! What follows from the definitions. The functions do nothing: their contracts say it.

ghost use Rattle.std.specs.Prelude.{◌≤◌, ◌*◌, ℕ, IsTrue};
ghost use Rattle.lt_term.specs.Limits.{most_nodes};
ghost use Rattle.lt_term.specs.View.{process};
ghost use Rattle.lt_term.specs.Within.{Tests, passes};
ghost use Rattle.lt_marks.specs.Found.{LeavesAreNodes, WeightsAreNodes};
ghost use Rattle.lt_marks.specs.Narrow.{ChoicesStayNarrow, IsNarrow};
ghost use Rattle.lt_marks.specs.Start.{IsAtStart};
ghost use Rattle.lt_marks.specs.Turns.{NoTurnIsDone, StepsGrowByOne};
ghost use Rattle.lt_marks.specs.View.{body, nodes, standing};

use crate::track::Track;
use lt_term::{Scenario, turns_grow_by_one};

/// What is still to be done has no other numbers than the body.
pub fn numbers_stay(track: &Track)
    ensures { (tests : Tests ℕ) → IsTrue (passes tests (body track.now)) →
        IsTrue (passes tests (standing track.now)) }
{}

/// What stands at a path is a node of the tree: so what holds of each node holds of it.
pub fn arrivals_are_nodes()
    ensures leaves { LeavesAreNodes }
    ensures weights { WeightsAreNodes }
{}

/// The body of a scenario is at its beginning: so it is a term that [`track_of`](crate::track_of)
/// takes. None of its choices has more than 64 alternatives, and it has at most three nodes for each of the 100,000
/// terms that may stand in it: so [`node_count`](crate::node_count) can count them.
pub fn body_is_at_start(scenario: &Scenario)
    ensures begins { IsAtStart (process scenario.now.body) }
    ensures narrow { IsNarrow (process scenario.now.body) }
    ensures few { nodes (process scenario.now.body) ≤ 3 * most_nodes }
{}

/// No turn is done in a body; and behind each instant that a walk finds, and that
/// [`go_on`](crate::go_on) goes on from, at most one more is done.
pub fn steps_grow_by_one()
    ensures begins { NoTurnIsDone }
    ensures grow { StepsGrowByOne }
{
    turns_grow_by_one();
}

/// Where no choice of a body has more than 64 alternatives, no choice by weight of what is offered
/// has more parts.
pub fn choices_stay_narrow()
    ensures { ChoicesStayNarrow }
{}
