//! What is known in an instant.

ghost use Rattle.std.specs.Prelude.{◌≡◌, ◌≤◌};
ghost use Rattle.lt_num.specs.Bounds.{most_decimals};
ghost use Rattle.lt_instant.specs.Equipment.{IsPastOf};

use crate::earlier::Earlier;
use crate::past::Past;
use lt_draw::{Draw, StepWords};
use lt_formula::Known;
use lt_num::Value;
use lt_term::Scenario;

/// What is known in an instant before a leaf is taken.
#[derive(Drop)]
pub struct DrawContext<'a> {
    /// The scenario.
    pub scenario: &'a Scenario,

    /// What the run has behind it.
    pub past: &'a Past,

    /// The values of the inputs.
    pub inputs: &'a [Value],

    /// The words of the instant.
    pub words: &'a StepWords,

    /// The rule by which the run draws.
    pub draw: Draw,

    /// The greatest need that a search may have.
    pub budget: u64,

    ghost past_is: { IsPastOf scenario.now past.now },
    ghost step_is: { words.now.step ≡ past.now.step },
}

impl DrawContext<'_> {
    ghost use Rattle.lt_formula.specs.View.{valuation_of_known};
    ghost use Rattle.lt_term.specs.Configuration.{earlier_inputs, earlier_outputs};
    ghost use Rattle.lt_instant.specs.RunStateView.{previous_of};
    ghost use Rattle.lt_instant.specs.inner.DrawContextView.{scene_of, valuation_with};

    /// What is known, where variables were this in the instant before.
    pub fn known<'b>(&'b self, earlier: &'b Earlier) -> Known<'b>
        requires inputs { earlier.now.inputs.items ≡
            earlier_inputs (scene_of self.now) (previous_of self.now.past.now) }
        requires outputs { earlier.now.outputs.items ≡
            earlier_outputs (scene_of self.now) (previous_of self.now.past.now) }
        ensures known { valuation_of_known result ≡
            valuation_with self.now earlier.now.locals.items }
        ensures few { result.decimals ≤ most_decimals }
    {
        Known {
            inputs: self.inputs,
            pre_inputs: &earlier.inputs,
            pre_outputs: &earlier.outputs,
            pre_locals: &earlier.locals,
            decimals: self.scenario.decimals,
        }
    }
}
