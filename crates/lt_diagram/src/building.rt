//! The diagram of a formula.

ghost use Rattle.std.specs.Prelude.{◌≡◌, ◌<◌, ◌≤◌, ℕ, Bool, Err, IfOk, IsTrue, ◌↔◌};
ghost use Rattle.lt_diagram.specs.Choice.{truth_of};
ghost use Rattle.lt_diagram.specs.DiagramView.{IsReduced, NamesBelow, diagram_choice};
ghost use Rattle.lt_diagram.specs.Flags.{are_flags, says};
ghost use Rattle.lt_diagram.specs.Limits.{most_flags};
ghost use Rattle.lt_diagram.specs.declared.refusal.DiagramRefusal.TheVariants.{TooManyAtoms};
ghost use Rattle.lt_space.specs.FormulaView.{formula_view};

use crate::diagram::Diagram;
use crate::growing::Growing;
use crate::refusal::DiagramRefusal;
use lt_formula::Memory;
use lt_space::Formula;
use std::alloc::Global;

// How many flags a diagram may be over.
const MOST_FLAGS: u32 = 16;

/// The diagram of a formula whose atoms are flags, with numbers below `flags`.
///
/// Each connective is a choice between two diagrams by a third, and goes down one flag at a time: so it takes at most
/// 2^17 steps, whatever the size of its parts. What the parts of a formula leave behind stays in the list of branches, also
/// where the whole doesn't need it.
///
/// # Errors
///
/// `TooManyAtoms` exactly where `flags` is more than 16; else only want of memory.
pub fn build(alloc: Global, formula: &Formula, flags: u32) -> Result<Diagram, DiagramRefusal>
    requires { IsTrue (are_flags flags (formula_view formula.now)) }
    ensures too_many { (result ≡ Err TooManyAtoms) ↔ (most_flags < flags) }
    ensures names { IfOk result (NamesBelow flags) }
    ensures reduced { IfOk result IsReduced }
    ensures says { IfOk result (λ diagram. (truths : ℕ → Bool) →
        truth_of truths (diagram_choice diagram) ≡ says truths (formula_view formula.now)) }
{
    if flags > MOST_FLAGS {
        return Err(DiagramRefusal::TooManyAtoms);
    }
    match build_few(alloc, formula, flags) {
        Ok(diagram) => Ok(diagram),
        Err(Memory) => Err(DiagramRefusal::Memory),
    }
}

// The diagram of a formula of few flags.
fn build_few(alloc: Global, formula: &Formula, flags: u32) -> Result<Diagram, Memory>
    requires few { flags ≤ most_flags }
    requires flags { IsTrue (are_flags flags (formula_view formula.now)) }
    ensures names { IfOk result (NamesBelow flags) }
    ensures says { IfOk result (λ diagram. (truths : ℕ → Bool) →
        truth_of truths (diagram_choice diagram) ≡ says truths (formula_view formula.now)) }
{
    let mut growing = Growing::new(alloc, flags as usize);
    let root = growing.grow(formula)?;
    let nodes = growing.branches().to_vec(alloc)?;
    Ok(Diagram::new(nodes, root))
}
