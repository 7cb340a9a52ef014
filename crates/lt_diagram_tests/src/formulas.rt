//! Formulas of flags from their texts, and their diagrams.

ghost use Rattle.std.specs.Prelude.{◌≡◌, ◌≤◌, IfOk};
ghost use Rattle.lt_diagram.specs.DiagramView.{NamesBelow};
ghost use Rattle.lt_diagram.specs.Flags.{are_flags};
ghost use Rattle.lt_space.specs.FormulaView.{formula_view};

use lt_diagram::{Diagram, DiagramRefusal, build};
use lt_space::{Atom, Formula};
use std::alloc::Global;
use std::test::Fail;

/// The diagram of a formula over so many flags, or why there is none.
pub(crate) fn diagram_of(
    alloc: Global,
    formula: &Formula,
    flags: u32,
) -> Result<Result<Diagram, DiagramRefusal>, Fail>
    ensures { IfOk result (λ built. IfOk built (NamesBelow flags)) }
{
    if !are_flags(formula, flags) {
        return Err(Fail::new("there are other atoms"));
    }
    Ok(build(alloc, formula, flags))
}

// Whether all atoms of a formula are flags below this one.
fn are_flags(formula: &Formula, below: u32) -> bool
    ensures { result ≡ are_flags below (formula_view formula.now) }
{
    match formula {
        Formula::Truth(_) => true,
        Formula::Atom(Atom::Flag(flag)) => *flag < below,
        Formula::Atom(Atom::Compare(..)) => false,
        Formula::Not(part) => are_flags(part, below),
        Formula::And(left, right) => are_flags(left, below) && are_flags(right, below),
        Formula::Or(left, right) => are_flags(left, below) && are_flags(right, below),
        Formula::Xor(left, right) => are_flags(left, below) && are_flags(right, below),
        Formula::If(condition, first, second) => {
            are_flags(condition, below) && (are_flags(first, below) && are_flags(second, below))
        }
    }
}

/// The formula of a text, in which each connective stands behind its parts: `0 1 and 2 not xor` is the `xor` of 0 and 1, and
/// of what denies 2. A number is the flag of that number.
pub(crate) fn formula_of(alloc: Global, text: &str) -> Result<Formula, Fail> {
    let mut parts = Vec::new(alloc);
    for word in text.split(' ') {
        let formula = part_of(alloc, &mut parts, word)?;
        parts.push(formula)?;
    }
    match parts.pop() {
        Some(formula) => Ok(formula),
        None => Err(Fail::new("there is no formula")),
    }
}

// What a word makes of the last parts, which are parts no more.
fn part_of(alloc: Global, parts: &mut Vec<Formula>, word: &str) -> Result<Formula, Fail> {
    match word {
        "true" => Ok(Formula::Truth(true)),
        "false" => Ok(Formula::Truth(false)),
        "not" => Ok(Formula::Not(last(alloc, parts)?)),
        "if" => {
            let second = last(alloc, parts)?;
            let first = last(alloc, parts)?;
            Ok(Formula::If(last(alloc, parts)?, first, second))
        }
        "and" | "or" | "xor" => {
            let right = last(alloc, parts)?;
            Ok(joined(word, last(alloc, parts)?, right))
        }
        _ => Ok(Formula::Atom(Atom::Flag(word.parse()?))),
    }
}

// Two parts, joined by a connective.
fn joined(word: &str, left: Box<Formula>, right: Box<Formula>) -> Formula {
    match word {
        "and" => Formula::And(left, right),
        "or" => Formula::Or(left, right),
        _ => Formula::Xor(left, right),
    }
}

// The last part.
fn last(alloc: Global, parts: &mut Vec<Formula>) -> Result<Box<Formula>, Fail> {
    match parts.pop() {
        Some(part) => Ok(Box::new(alloc, part)?),
        None => Err(Fail::new("a part is missing")),
    }
}
