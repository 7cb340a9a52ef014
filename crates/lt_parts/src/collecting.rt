//! Expressions of a constraint, as they occur.

ghost use Rattle.std.specs.Prelude.{◌≡◌, ◌<◌, ◌++◌, [], ◌∷◌, OnOk};
ghost use Rattle.lt_formula.specs.View.{table_kinds, table_len};
ghost use Rattle.lt_parts.specs.Outline.{atoms_in, conjuncts_of, is_comparison, is_conjunction};
ghost use Rattle.lt_parts.specs.Part.{at};
ghost use Rattle.lt_parts.specs.inner.Collected.{Collects};

use lt_formula::{BinaryOperator, Memory, Shape, Table};
use lt_num::Kind;

/// Puts the conjuncts of a constraint behind numbers that are there: the parts of its outermost `and`s, in their order.
pub(crate) fn collect_conjuncts(table: &Table, exp: u32, found: &mut Vec<u32>) -> Result<(), Memory>
    requires { exp < table_len table.now }
    ensures { OnOk result (Collects table.now
        (conjuncts_of (table_kinds table.now) (at table.now exp)) found.old.items found.new.items) }
{
    match table.shape(exp) {
        Shape::Binary(operator, left, right) => {
            if !is_conjunction(table, operator, left) {
                return put(exp, found);
            }
            collect_conjuncts(table, left, found)?;
            collect_conjuncts(table, right, found)
        }
        _ => put(exp, found),
    }
}

/// Puts the atoms of a Boolean behind numbers that are there, as they occur from left to right.
pub(crate) fn collect_atoms(table: &Table, exp: u32, found: &mut Vec<u32>) -> Result<(), Memory>
    requires { exp < table_len table.now }
    ensures { OnOk result (Collects table.now (atoms_in (table_kinds table.now) (at table.now exp))
        found.old.items found.new.items) }
{
    if table.facts(exp).is_known {
        return put(exp, found);
    }
    match table.shape(exp) {
        Shape::Constant(..) | Shape::Variable(..) | Shape::Previous(..) => put(exp, found),
        Shape::Unary(_, part) => collect_atoms(table, part, found),
        Shape::Binary(_, left, right) => {
            if is_comparison(table, left) {
                return put(exp, found);
            }
            collect_atoms(table, left, found)?;
            collect_atoms(table, right, found)
        }
        Shape::Choice(condition, first, second) => {
            collect_atoms(table, condition, found)?;
            collect_atoms(table, first, found)?;
            collect_atoms(table, second, found)
        }
    }
}

/// Whether an operator with this left part is one on numbers.
pub(crate) fn is_comparison(table: &Table, left: u32) -> bool
    requires { left < table_len table.now }
    ensures { result ≡ is_comparison (table_kinds table.now) (at table.now left) }
{
    match table.facts(left).kind {
        Kind::Bool => false,
        Kind::Int | Kind::Real => true,
    }
}

// Whether it is an `and` of Booleans.
fn is_conjunction(table: &Table, operator: BinaryOperator, left: u32) -> bool
    requires { left < table_len table.now }
    ensures { result ≡ is_conjunction (table_kinds table.now) operator (at table.now left) }
{
    if is_comparison(table, left) {
        return false;
    }
    match operator {
        BinaryOperator::And => true,
        _ => false,
    }
}

// Puts a number behind others.
fn put(exp: u32, found: &mut Vec<u32>) -> Result<(), Memory>
    ensures { OnOk result (found.new.items ≡ found.old.items ++ exp ∷ []) }
{
    found.push(exp)?;
    Ok(())
}
