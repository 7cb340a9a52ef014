//! Laws of what is made of texts.

ghost use Rattle.lt_frontend.specs.Laws.{TextsHaveOnePrintedAnswer, TextsHaveOneScenarioAnswer};

use lt_parser::one_answer_belongs_to_a_text;
use lt_types::well_typed_is_unrefused;

/// Each text has one answer as a scenario, where reals have so many decimals and this node is asked for.
pub fn texts_have_one_scenario_answer()
    ensures { TextsHaveOneScenarioAnswer }
{
    one_answer_belongs_to_a_text();
    well_typed_is_unrefused();
}

/// Each text has one answer in print.
pub fn texts_have_one_printed_answer()
    ensures { TextsHaveOnePrintedAnswer }
{
    one_answer_belongs_to_a_text();
}
