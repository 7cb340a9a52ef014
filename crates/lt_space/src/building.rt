//! Formulas of Booleans over the outputs and locals of an instant.

ghost use Rattle.std.specs.Prelude.{◌≡◌, ◌<◌, ◌≤◌, Ok, IsTrue, unsigned_abs};
ghost use Rattle.lt_num.specs.Bounds.{most_decimals};
ghost use Rattle.lt_linear.specs.Form.{is_bounded};
ghost use Rattle.lt_space.specs.Formula.{negation};
ghost use Rattle.lt_space.specs.FormulaView.{boxed_view, formula_view};
ghost use Rattle.lt_space.specs.Meaning.{binary_formula, choice_formula, compared, comparison, connected, factor_of, formula_of, known_formula, settled_truth};
ghost use Rattle.lt_space.specs.Refusal.{Tells};
ghost use Rattle.lt_space.specs.inner.Both.{both, boxed_views};
ghost use Rattle.lt_formula.specs.Kinds.{HasFewVariables};
ghost use Rattle.lt_formula.specs.Table.{spelled};
ghost use Rattle.lt_formula.specs.View.{table_expressions, table_kinds, table_len, valuation_of_known};

use crate::forming::{both_forms, power_of_ten};
use crate::formula::{Atom, Formula, Relation};
use crate::refusal::FormulaRefusal;
use lt_formula::{BinaryOperator, Known, Shape, Table, known_value, settled};
use lt_linear::{Form, form_compare};
use lt_num::{Arith, Kind};
use std::alloc::Global;

/// The formula of a Boolean over the outputs and locals, or the first fault that its evaluation from left to
/// right meets. What is known is a truth. The right part of `and`, `or` and `=>` isn't evaluated where the left
/// one is known and settles them, and of a choice whose condition is known only the chosen part is.
///
/// # Errors
///
/// [`FormulaRefusal::Fault`] with that fault, and [`FormulaRefusal::Memory`].
#[cycle(formula_of)]
#[tactic(auto, using(crate::proofs::Tellings::tellings, crate::proofs::Tellings::knowns))]
pub fn formula_of(
    alloc: Global,
    table: &Table,
    exp: u32,
    known: &Known<'_>,
) -> Result<Formula, FormulaRefusal>
    requires within { exp < table_len table.now }
    requires few { HasFewVariables (table_kinds table.now) }
    requires decimals { known.now.decimals ≤ most_decimals }
    ensures { Tells formula_view result
        (formula_of (valuation_of_known known.now) (table_kinds table.now)
        (spelled (table_expressions table.now) exp)) }
{
    if table.facts(exp).is_known {
        return known_formula(table, exp, known);
    }
    match table.shape(exp) {
        Shape::Constant(..) | Shape::Previous(..) => known_formula(table, exp, known),
        Shape::Variable(role, place) => {
            Ok(Formula::Atom(Atom::Flag(table.number_of(role, place))))
        }
        Shape::Unary(_, part) => {
            let formula = boxed_formula(alloc, table, part, known)?;
            Ok(Formula::Not(formula))
        }
        Shape::Binary(operator, left, right) => {
            binary_formula(alloc, table, operator, left, right, known)
        }
        Shape::Choice(condition, first, second) => {
            choice_formula(alloc, table, condition, first, second, known)
        }
    }
}

// The same in a box.
#[cycle(formula_of)]
#[tactic(auto, using(crate::proofs::Tellings::tellings))]
fn boxed_formula(
    alloc: Global,
    table: &Table,
    exp: u32,
    known: &Known<'_>,
) -> Result<Box<Formula>, FormulaRefusal>
    requires within { exp < table_len table.now }
    requires few { HasFewVariables (table_kinds table.now) }
    requires decimals { known.now.decimals ≤ most_decimals }
    ensures { Tells boxed_view result
        (formula_of (valuation_of_known known.now) (table_kinds table.now)
        (spelled (table_expressions table.now) exp)) }
{
    let formula = formula_of(alloc, table, exp, known)?;
    boxed(alloc, formula)
}

// Two of them, or the first fault that their evaluation meets.
#[cycle(formula_of)]
#[tactic(auto, using(crate::proofs::Tellings::tellings))]
fn both_formulas(
    alloc: Global,
    table: &Table,
    left: u32,
    right: u32,
    known: &Known<'_>,
) -> Result<(Box<Formula>, Box<Formula>), FormulaRefusal>
    requires left { left < table_len table.now }
    requires right { right < table_len table.now }
    requires few { HasFewVariables (table_kinds table.now) }
    requires decimals { known.now.decimals ≤ most_decimals }
    ensures { Tells boxed_views result
        (both (formula_of (valuation_of_known known.now) (table_kinds table.now)
        (spelled (table_expressions table.now) left))
        (formula_of (valuation_of_known known.now) (table_kinds table.now)
        (spelled (table_expressions table.now) right))) }
{
    let first = boxed_formula(alloc, table, left, known)?;
    let second = boxed_formula(alloc, table, right, known)?;
    Ok((first, second))
}

// The formula of an operator on two parts that are not both known.
#[cycle(formula_of)]
#[tactic(auto, using(crate::proofs::Tellings::tellings))]
fn binary_formula(
    alloc: Global,
    table: &Table,
    operator: BinaryOperator,
    left: u32,
    right: u32,
    known: &Known<'_>,
) -> Result<Formula, FormulaRefusal>
    requires left { left < table_len table.now }
    requires right { right < table_len table.now }
    requires few { HasFewVariables (table_kinds table.now) }
    requires decimals { known.now.decimals ≤ most_decimals }
    ensures { Tells formula_view result
        (binary_formula operator (valuation_of_known known.now) (table_kinds table.now)
        (spelled (table_expressions table.now) left) (spelled (table_expressions table.now) right)
        (formula_of (valuation_of_known known.now) (table_kinds table.now)
        (spelled (table_expressions table.now) left))
        (formula_of (valuation_of_known known.now) (table_kinds table.now)
        (spelled (table_expressions table.now) right))) }
{
    let kind = table.facts(left).kind;
    if !matches!(kind, Kind::Bool) {
        let (first, second) = both_forms(alloc, table, left, right, known)?;
        return comparison(alloc, operator, kind, known.decimals, &first, &second);
    }
    if let Some(truth) = settled_truth(table, operator, left, known)? {
        return Ok(Formula::Truth(truth));
    }
    let (first, second) = both_formulas(alloc, table, left, right, known)?;
    connected(alloc, operator, first, second)
}

// The formula of a choice that isn't known.
#[cycle(formula_of)]
#[tactic(auto, using(crate::proofs::Tellings::tellings))]
fn choice_formula(
    alloc: Global,
    table: &Table,
    condition: u32,
    first: u32,
    second: u32,
    known: &Known<'_>,
) -> Result<Formula, FormulaRefusal>
    requires condition { condition < table_len table.now }
    requires first { first < table_len table.now }
    requires second { second < table_len table.now }
    requires few { HasFewVariables (table_kinds table.now) }
    requires decimals { known.now.decimals ≤ most_decimals }
    ensures { Tells formula_view result
        (choice_formula (valuation_of_known known.now) (table_kinds table.now)
        (spelled (table_expressions table.now) condition)
        (formula_of (valuation_of_known known.now) (table_kinds table.now)
        (spelled (table_expressions table.now) condition))
        (formula_of (valuation_of_known known.now) (table_kinds table.now)
        (spelled (table_expressions table.now) first))
        (formula_of (valuation_of_known known.now) (table_kinds table.now)
        (spelled (table_expressions table.now) second))) }
{
    if table.facts(condition).is_known {
        return if known_value(table, condition, known)?.is_true() {
            formula_of(alloc, table, first, known)
        } else {
            formula_of(alloc, table, second, known)
        };
    }
    let test = boxed_formula(alloc, table, condition, known)?;
    let (yes, no) = both_formulas(alloc, table, first, second, known)?;
    Ok(Formula::If(test, yes, no))
}

// The formula of a known Boolean.
fn known_formula(table: &Table, exp: u32, known: &Known<'_>) -> Result<Formula, FormulaRefusal>
    requires within { exp < table_len table.now }
    requires decimals { known.now.decimals ≤ most_decimals }
    ensures { Tells formula_view result
        (known_formula (valuation_of_known known.now) (table_kinds table.now)
        (spelled (table_expressions table.now) exp)) }
{
    let value = known_value(table, exp, known)?;
    Ok(Formula::Truth(value.is_true()))
}

/// The truth that an operator has by its left part alone, where this is known and settles it.
pub(crate) fn settled_truth(
    table: &Table,
    operator: BinaryOperator,
    left: u32,
    known: &Known<'_>,
) -> Result<Option<bool>, Arith>
    requires within { left < table_len table.now }
    requires decimals { known.now.decimals ≤ most_decimals }
    ensures { result ≡ settled_truth (valuation_of_known known.now) (table_kinds table.now) operator
        (spelled (table_expressions table.now) left) }
{
    if !table.facts(left).is_known {
        return Ok(None);
    }
    Ok(settled(operator, known_value(table, left, known)?))
}

/// What an operator on Booleans gives on two formulas.
///
/// # Errors
///
/// [`FormulaRefusal::Memory`].
pub fn connected(
    alloc: Global,
    operator: BinaryOperator,
    left: Box<Formula>,
    right: Box<Formula>,
) -> Result<Formula, FormulaRefusal>
    ensures { Tells formula_view result
        (Ok (connected operator (formula_view left.value) (formula_view right.value))) }
{
    match operator {
        BinaryOperator::And => Ok(Formula::And(left, right)),
        BinaryOperator::Or => Ok(Formula::Or(left, right)),
        BinaryOperator::Implies => {
            let denied = boxed(alloc, Formula::Not(left))?;
            Ok(Formula::Or(denied, right))
        }
        BinaryOperator::Xor | BinaryOperator::Ne => Ok(Formula::Xor(left, right)),
        _ => denied(alloc, Formula::Xor(left, right)),
    }
}

// The negation of a formula.
fn denied(alloc: Global, formula: Formula) -> Result<Formula, FormulaRefusal>
    ensures { Tells formula_view result (Ok (negation (formula_view formula))) }
{
    let part = boxed(alloc, formula)?;
    Ok(Formula::Not(part))
}

// A formula in a box.
fn boxed(alloc: Global, formula: Formula) -> Result<Box<Formula>, FormulaRefusal>
    ensures { Tells boxed_view result (Ok (formula_view formula)) }
{
    Ok(Box::new(alloc, formula)?)
}

// What an operator gives on two forms of a kind.
fn comparison(
    alloc: Global,
    operator: BinaryOperator,
    kind: Kind,
    decimals: u32,
    a: &Form,
    b: &Form,
) -> Result<Formula, FormulaRefusal>
    requires first { IsTrue (is_bounded a.now) }
    requires second { IsTrue (is_bounded b.now) }
    requires decimals { decimals ≤ most_decimals }
    ensures { Tells formula_view result (Ok (comparison operator kind decimals a.now b.now)) }
{
    match operator {
        BinaryOperator::Eq => compared(alloc, kind, decimals, a, b, Relation::Equal),
        BinaryOperator::Ne => {
            let equal = compared(alloc, kind, decimals, a, b, Relation::Equal)?;
            denied(alloc, equal)
        }
        BinaryOperator::Lt => compared(alloc, kind, decimals, a, b, Relation::Below),
        BinaryOperator::Le => compared(alloc, kind, decimals, a, b, Relation::NotAbove),
        BinaryOperator::Gt => compared(alloc, kind, decimals, b, a, Relation::Below),
        BinaryOperator::Ge => compared(alloc, kind, decimals, b, a, Relation::NotAbove),
        _ => Ok(Formula::Truth(false)),
    }
}

// The atom that the difference of two forms of a kind is.
fn compared(
    alloc: Global,
    kind: Kind,
    decimals: u32,
    a: &Form,
    b: &Form,
    relation: Relation,
) -> Result<Formula, FormulaRefusal>
    requires first { IsTrue (is_bounded a.now) }
    requires second { IsTrue (is_bounded b.now) }
    requires decimals { decimals ≤ most_decimals }
    ensures { Tells formula_view result (Ok (compared kind decimals a.now b.now relation)) }
{
    let difference = form_compare(alloc, a, b, factor_of(kind, decimals))?;
    Ok(Formula::Atom(Atom::Compare(difference, relation)))
}

/// What the coefficients of an atom are multiplied by.
pub(crate) fn factor_of(kind: Kind, decimals: u32) -> i64
    requires { decimals ≤ most_decimals }
    ensures value { result ≡ factor_of kind decimals }
    ensures most { unsigned_abs result ≤ 1_000_000 }
{
    match kind {
        Kind::Real => 1,
        Kind::Bool | Kind::Int => power_of_ten(decimals),
    }
}
