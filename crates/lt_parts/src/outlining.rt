//! Outlines of Booleans.

ghost use Rattle.std.specs.Prelude.{◌<◌, IfOk};
ghost use Rattle.lt_formula.specs.View.{table_kinds, table_len};
ghost use Rattle.lt_parts.specs.Outline.{Outlines, OutlinesComparison, atoms_in};
ghost use Rattle.lt_parts.specs.Part.{IsFlagOf, at};
ghost use Rattle.lt_parts.specs.inner.Flags.{HasFlag, HaveFlags, IsFlagAt};
ghost use Rattle.lt_space.specs.FormulaView.{boxed_view, formula_view};

use crate::collecting::is_comparison;
use indexmap::IndexSet;
use lt_formula::{BinaryOperator, Memory, Shape, Table};
use lt_space::{Atom, Formula, connected};
use std::alloc::Global;

/// The outline of a Boolean, with a flag for each of its atoms, which is the atom's place among these numbers. They have
/// each of its atoms.
///
/// # Errors
///
/// Want of memory.
#[cycle(outline)]
pub(crate) fn outline(
    alloc: Global,
    table: &Table,
    exp: u32,
    atoms: &IndexSet<u32>,
) -> Result<Formula, Memory>
    requires within { exp < table_len table.now }
    requires flags { HaveFlags table.now atoms.now.keys
        (atoms_in (table_kinds table.now) (at table.now exp)) }
    ensures { IfOk result (λ formula.
        Outlines (IsFlagOf table.now atoms.now.keys) (table_kinds table.now) (at table.now exp)
        (formula_view formula)) }
{
    if table.facts(exp).is_known {
        return Ok(flag(exp, atoms));
    }
    match table.shape(exp) {
        Shape::Constant(..) | Shape::Variable(..) | Shape::Previous(..) => Ok(flag(exp, atoms)),
        Shape::Unary(_, part) => Ok(Formula::Not(boxed_outline(alloc, table, part, atoms)?)),
        Shape::Binary(operator, left, right) => {
            if is_comparison(table, left) {
                return comparison(alloc, operator, exp, atoms);
            }
            let first = boxed_outline(alloc, table, left, atoms)?;
            let second = boxed_outline(alloc, table, right, atoms)?;
            connected(alloc, operator, first, second).map_err(|_| Memory)
        }
        Shape::Choice(condition, first, second) => {
            let test = boxed_outline(alloc, table, condition, atoms)?;
            let yes = boxed_outline(alloc, table, first, atoms)?;
            let no = boxed_outline(alloc, table, second, atoms)?;
            Ok(Formula::If(test, yes, no))
        }
    }
}

// The same in a box.
#[cycle(outline)]
fn boxed_outline(
    alloc: Global,
    table: &Table,
    exp: u32,
    atoms: &IndexSet<u32>,
) -> Result<Box<Formula>, Memory>
    requires within { exp < table_len table.now }
    requires flags { HaveFlags table.now atoms.now.keys
        (atoms_in (table_kinds table.now) (at table.now exp)) }
    ensures { IfOk result (λ formula.
        Outlines (IsFlagOf table.now atoms.now.keys) (table_kinds table.now) (at table.now exp)
        (boxed_view formula)) }
{
    let formula = outline(alloc, table, exp, atoms)?;
    Ok(Box::new(alloc, formula)?)
}

// The outline of an operator on two numbers.
fn comparison(
    alloc: Global,
    operator: BinaryOperator,
    exp: u32,
    atoms: &IndexSet<u32>,
) -> Result<Formula, Memory>
    requires { HasFlag atoms.now.keys exp }
    ensures { IfOk result (λ formula.
        OutlinesComparison (λ f. IsFlagAt atoms.now.keys exp f) operator (formula_view formula)) }
{
    let formula = flag(exp, atoms);
    match operator {
        BinaryOperator::Ne => Ok(Formula::Not(Box::new(alloc, formula)?)),
        _ => Ok(formula),
    }
}

// The flag of an atom that is among these.
fn flag(exp: u32, atoms: &IndexSet<u32>) -> Formula
    requires { HasFlag atoms.now.keys exp }
    ensures { IsFlagAt atoms.now.keys exp (formula_view result) }
{
    let place = atoms.get_index_of(&exp).unwrap();
    Formula::Atom(Atom::Flag(place as u32))
}
