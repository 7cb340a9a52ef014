//! What follows from the definitions. The functions do nothing: their contracts say it.

ghost use Rattle.std.specs.Prelude.{IsTrue};
ghost use Rattle.lt_term.specs.Counted.{IsCounted, IsDoneTo};
ghost use Rattle.lt_term.specs.SceneView.{numbers_of};
ghost use Rattle.lt_term.specs.Size.{SizeIsWeight};
ghost use Rattle.lt_term.specs.Turns.{FewTurnsAreFew, TurnsGrowByOne};
ghost use Rattle.lt_term.specs.View.{process};
ghost use Rattle.lt_term.specs.Within.{passes};

use crate::scenario::Scenario;

/// The body of a scenario has no other numbers than the scenario, and none of its counted loops has done a
/// turn: so it is a term that [`offers`](crate::offers) takes.
#[tactic(auto, using(crate::proofs::Bodies::bodies))]
pub fn body_is_valid(scenario: &Scenario)
    ensures within { IsTrue (passes (numbers_of scenario.now) (process scenario.now.body)) }
    ensures counted { IsCounted (process scenario.now.body) }
    ensures unbegun { IsDoneTo 0 (process scenario.now.body) }
{}

/// The number of nodes of a term's tree is what the term weighs where each node weighs 1.
#[tactic(auto, using(crate::proofs::Sizes::size_is_weight))]
pub fn size_is_weight()
    ensures { SizeIsWeight }
{}

/// Of what a term offers, what comes next has at most one more turn done in its counted loops; and a bound of
/// such turns may be taken for a greater one.
#[tactic(auto, using(crate::proofs::TurnLemmas::turns))]
pub fn turns_grow_by_one()
    ensures grow { TurnsGrowByOne }
    ensures few { FewTurnsAreFew }
{}
