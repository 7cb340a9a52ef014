//! From a text to its scenario, or to its printed form.

ghost use Rattle.std.specs.Prelude.{◌≤◌, Err, IfErr, IfOk, Ok, string_bytes};
ghost use Rattle.lt_macros.specs.Answer.{asked_name};
ghost use Rattle.lt_num.specs.Bounds.{most_decimals};
ghost use Rattle.lt_term.specs.SceneView.{scene};
ghost use Rattle.lt_frontend.specs.Prepared.{IfRefused, IsPrintedAnswer, IsScenarioAnswer};

use crate::refusal::{Refusal, Unprepared};
use lt_expand::{expand, has_runs};
use lt_parser::{parse, print};
use lt_term::Scenario;
use lt_types::check;
use std::alloc::Global;

/// The scenario of the node of a text that is asked for, or of the first one where no name is given. A real has so many
/// decimals, 0 to 6.
///
/// # Errors
///
/// The first cause: the text spells no program, the program isn't well typed, its node has no scenario, or it runs others.
/// [`Unprepared::Memory`] where memory ran out, or the text has 2^32 bytes or more.
pub fn scenario_of(
    alloc: Global,
    text: &[u8],
    decimals: u32,
    node: Option<&str>,
) -> Result<Scenario, Unprepared>
    requires few { decimals ≤ most_decimals }
    ensures made { IfOk result (λ made.
        IsScenarioAnswer decimals (asked_name node.entry) text.now (Ok (scene made))) }
    ensures refused { IfErr result (λ why.
        IfRefused why (λ reason.
        IsScenarioAnswer decimals (asked_name node.entry) text.now (Err reason))) }
{
    let program = parse(alloc, text)?;
    let typed = check(alloc, program, decimals)?;
    let runs_others = has_runs(&typed, node);
    let made = expand(alloc, typed, node)?;
    if runs_others {
        return Err(Unprepared::Refused(Refusal::HasRuns));
    }
    Ok(made)
}

/// The program of a text as text: a line for each declaration, its tokens with one blank between two.
///
/// # Errors
///
/// The text spells no program; [`Unprepared::Memory`] where memory ran out, or the text has 2^32 bytes or more.
pub fn printed_text(alloc: Global, text: &[u8]) -> Result<String, Unprepared>
    ensures made { IfOk result (λ made. IsPrintedAnswer text.now (Ok (string_bytes made))) }
    ensures refused { IfErr result (λ why.
        IfRefused why (λ reason. IsPrintedAnswer text.now (Err reason))) }
{
    let printed = print(alloc, text)?;
    Ok(printed)
}
