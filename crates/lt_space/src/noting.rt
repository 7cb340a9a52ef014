//! What a load notes of the expressions that it evaluated.

ghost use Rattle.std.specs.Prelude.{◌≡◌, ◌<◌, ◌≤◌, ◌&&◌, IsTrue, map, nat_lt, length};
ghost use Rattle.std.specs.List.{list_all};
ghost use Rattle.lt_num.specs.Bounds.{most_decimals};
ghost use Rattle.lt_formula.specs.Expression.{binary, choice, unary};
ghost use Rattle.lt_formula.specs.Kinds.{variables_of};
ghost use Rattle.lt_formula.specs.Limits.{most_variables};
ghost use Rattle.lt_formula.specs.Table.{HasEachOnce, spelled};
ghost use Rattle.lt_formula.specs.Valuation.{value_under};
ghost use Rattle.lt_formula.specs.View.{table_expressions, table_kinds, table_len, valuation_of_known};
ghost use Rattle.lt_space.specs.Evaluated.{EvaluateSome, Evaluates, is_and, is_divided, is_settled, is_truth};
ghost use Rattle.lt_space.specs.Meaning.{formula_of, is_boolean, is_known, settled_truth};
ghost use Rattle.lt_space.specs.inner.Memo.{memo_numbers};
ghost use Rattle.lt_space.specs.inner.Noted.{AreDue, AreNoted, EvaluatesWithin, IsDue, Notes, at};
ghost use Rattle.lt_space.specs.inner.Work.{formula_due};

use crate::building::settled_truth;
use crate::memo::Memo;
use crate::visiting::visit;
use crate::work::Work;
use lt_formula::{BinaryOperator, Known, Shape, Table, UnaryOperator, known_value};
use lt_num::Kind;

/// Notes the gate of an expression, and those of all that its evaluation evaluates, each of them once. The evaluation
/// has no fault.
#[cycle(note)]
pub(crate) fn note(table: &Table, exp: u32, known: &Known<'_>, work: &mut Work, noted: &mut Memo)
    requires within { exp < table_len table.now }
    requires few { variables_of (table_kinds table.now) ≤ most_variables }
    requires decimals { known.now.decimals ≤ most_decimals }
    requires once { HasEachOnce (table_expressions table.now) }
    requires noted { AreNoted (valuation_of_known known.now) table.now work.old
        (memo_numbers noted.old) }
    requires due { IsDue (formula_due (valuation_of_known known.now) table.now exp) }
    ensures { Notes (valuation_of_known known.now) table.now (λ k.
        Evaluates (valuation_of_known known.now) (table_kinds table.now) (at table.now exp)
        (at table.now k)) work.old work.new (memo_numbers noted.old) (memo_numbers noted.new) }
{
    if noted.find(exp).is_some() {
        return;
    }
    let gate = visit(table, exp, known, work).unwrap();
    note_parts(table, exp, known, work, noted);
    noted.keep(exp, gate);
}

/// Notes what the evaluation of the constraints of a list evaluates. It has no fault.
pub(crate) fn note_all(
    table: &Table,
    wanted: &[u32],
    known: &Known<'_>,
    work: &mut Work,
    noted: &mut Memo,
)
    requires within { IsTrue (list_all (λ exp. nat_lt exp (table_len table.now)) wanted.now) }
    requires few { variables_of (table_kinds table.now) ≤ most_variables }
    requires decimals { known.now.decimals ≤ most_decimals }
    requires once { HasEachOnce (table_expressions table.now) }
    requires noted { AreNoted (valuation_of_known known.now) table.now work.old
        (memo_numbers noted.old) }
    requires due { AreDue (valuation_of_known known.now) table.now wanted.now }
    ensures { Notes (valuation_of_known known.now) table.now (λ k.
        EvaluateSome (valuation_of_known known.now) (table_kinds table.now)
        (map (at table.now) wanted.now) (at table.now k)) work.old work.new (memo_numbers noted.old)
        (memo_numbers noted.new) }
{
    let mut rest = wanted;
    while let Some((exp, more)) = rest.split_first() {
        note(table, *exp, known, work, noted);
        rest = more;
    }
}

// Notes what the evaluation of an expression evaluates beside it.
#[cycle(note)]
fn note_parts(table: &Table, exp: u32, known: &Known<'_>, work: &mut Work, noted: &mut Memo)
    requires within { exp < table_len table.now }
    requires few { variables_of (table_kinds table.now) ≤ most_variables }
    requires decimals { known.now.decimals ≤ most_decimals }
    requires once { HasEachOnce (table_expressions table.now) }
    requires noted { AreNoted (valuation_of_known known.now) table.now work.old
        (memo_numbers noted.old) }
    requires due { IsDue (formula_due (valuation_of_known known.now) table.now exp) }
    ensures { Notes (valuation_of_known known.now) table.now (λ k.
        EvaluatesWithin (valuation_of_known known.now) (table_kinds table.now) (at table.now exp)
        (at table.now k)) work.old work.new (memo_numbers noted.old) (memo_numbers noted.new) }
{
    match table.shape(exp) {
        Shape::Constant(..) | Shape::Variable(..) | Shape::Previous(..) => {}
        Shape::Unary(operator, part) => {
            note_one(table, operator, part, known, work, noted);
        }
        Shape::Binary(operator, left, right) => {
            note_two(table, operator, left, right, known, work, noted);
        }
        Shape::Choice(condition, first, second) => {
            note_choice(table, condition, first, second, known, work, noted);
        }
    }
}

// The same of an operator on one part.
#[cycle(note)]
fn note_one(
    table: &Table,
    operator: UnaryOperator,
    part: u32,
    known: &Known<'_>,
    work: &mut Work,
    noted: &mut Memo,
)
    requires part { part < table_len table.now }
    requires few { variables_of (table_kinds table.now) ≤ most_variables }
    requires decimals { known.now.decimals ≤ most_decimals }
    requires once { HasEachOnce (table_expressions table.now) }
    requires noted { AreNoted (valuation_of_known known.now) table.now work.old
        (memo_numbers noted.old) }
    requires due { IsDue (formula_of (valuation_of_known known.now) (table_kinds table.now)
        (unary operator (at table.now part))) }
    ensures { Notes (valuation_of_known known.now) table.now (λ k.
        EvaluatesWithin (valuation_of_known known.now) (table_kinds table.now)
        (unary operator (at table.now part)) (at table.now k)) work.old work.new
        (memo_numbers noted.old) (memo_numbers noted.new) }
{
    if table.facts(part).is_known {
        return;
    }
    note(table, part, known, work, noted);
}

// The same of an operator on two parts.
#[cycle(note)]
fn note_two(
    table: &Table,
    operator: BinaryOperator,
    left: u32,
    right: u32,
    known: &Known<'_>,
    work: &mut Work,
    noted: &mut Memo,
)
    requires left { left < table_len table.now }
    requires right { right < table_len table.now }
    requires few { variables_of (table_kinds table.now) ≤ most_variables }
    requires decimals { known.now.decimals ≤ most_decimals }
    requires once { HasEachOnce (table_expressions table.now) }
    requires noted { AreNoted (valuation_of_known known.now) table.now work.old
        (memo_numbers noted.old) }
    requires due { IsDue (formula_of (valuation_of_known known.now) (table_kinds table.now)
        (binary operator (at table.now left) (at table.now right))) }
    ensures { Notes (valuation_of_known known.now) table.now (λ k.
        EvaluatesWithin (valuation_of_known known.now) (table_kinds table.now)
        (binary operator (at table.now left) (at table.now right)) (at table.now k)) work.old
        work.new (memo_numbers noted.old) (memo_numbers noted.new) }
{
    if !is_divided(table, operator, left, right) {
        return;
    }
    note(table, left, known, work, noted);
    if is_settled(table, operator, left, known) {
        return;
    }
    note(table, right, known, work, noted);
}

// The same of a choice.
#[cycle(note)]
fn note_choice(
    table: &Table,
    condition: u32,
    first: u32,
    second: u32,
    known: &Known<'_>,
    work: &mut Work,
    noted: &mut Memo,
)
    requires condition { condition < table_len table.now }
    requires first { first < table_len table.now }
    requires second { second < table_len table.now }
    requires few { variables_of (table_kinds table.now) ≤ most_variables }
    requires decimals { known.now.decimals ≤ most_decimals }
    requires once { HasEachOnce (table_expressions table.now) }
    requires noted { AreNoted (valuation_of_known known.now) table.now work.old
        (memo_numbers noted.old) }
    requires due { IsDue (formula_of (valuation_of_known known.now) (table_kinds table.now)
        (choice (at table.now condition) (at table.now first) (at table.now second))) }
    ensures { Notes (valuation_of_known known.now) table.now (λ k.
        EvaluatesWithin (valuation_of_known known.now) (table_kinds table.now)
        (choice (at table.now condition) (at table.now first) (at table.now second))
        (at table.now k)) work.old work.new (memo_numbers noted.old) (memo_numbers noted.new) }
{
    if are_known(table, condition, first, second) {
        return;
    }
    note(table, condition, known, work, noted);
    if !table.facts(condition).is_known {
        note(table, first, known, work, noted);
        note(table, second, known, work, noted);
        return;
    }
    if is_truth(table, condition, known) {
        note(table, first, known, work, noted);
        return;
    }
    note(table, second, known, work, noted);
}

// Whether the parts of an operator are evaluated one by one: where they are Booleans that aren't both known, and where
// it is `and`.
fn is_divided(table: &Table, operator: BinaryOperator, left: u32, right: u32) -> bool
    requires left { left < table_len table.now }
    requires right { right < table_len table.now }
    ensures { result ≡ is_divided (table_kinds table.now) operator (at table.now left)
        (at table.now right) }
{
    let first = table.facts(left);
    if !is_boolean(first.kind) {
        return false;
    }
    if is_and(operator) || !first.is_known {
        return true;
    }
    !table.facts(right).is_known
}

// Whether operators on values of a kind are connectives.
fn is_boolean(kind: Kind) -> bool
    ensures { result ≡ is_boolean kind }
{
    match kind {
        Kind::Bool => true,
        Kind::Int | Kind::Real => false,
    }
}

// Whether an operator is `and`.
fn is_and(operator: BinaryOperator) -> bool
    ensures { result ≡ is_and operator }
{
    match operator {
        BinaryOperator::And => true,
        _ => false,
    }
}

// Whether three expressions are known.
fn are_known(table: &Table, a: u32, b: u32, c: u32) -> bool
    requires a { a < table_len table.now }
    requires b { b < table_len table.now }
    requires c { c < table_len table.now }
    ensures { result ≡ (is_known (table_kinds table.now) (at table.now a) &&
        (is_known (table_kinds table.now) (at table.now b) &&
        is_known (table_kinds table.now) (at table.now c))) }
{
    table.facts(a).is_known && table.facts(b).is_known && table.facts(c).is_known
}

// Whether the left part of an operator is known and settles it.
fn is_settled(table: &Table, operator: BinaryOperator, left: u32, known: &Known<'_>) -> bool
    requires within { left < table_len table.now }
    requires decimals { known.now.decimals ≤ most_decimals }
    ensures { result ≡ is_settled
        (settled_truth (valuation_of_known known.now) (table_kinds table.now) operator
        (spelled (table_expressions table.now) left)) }
{
    matches!(settled_truth(table, operator, left, known), Ok(Some(_)))
}

// Whether a known Boolean is true.
fn is_truth(table: &Table, exp: u32, known: &Known<'_>) -> bool
    requires within { exp < table_len table.now }
    requires decimals { known.now.decimals ≤ most_decimals }
    ensures { result ≡ is_truth
        (value_under (valuation_of_known known.now) (table_kinds table.now)
        (spelled (table_expressions table.now) exp)) }
{
    match known_value(table, exp, known) {
        Ok(value) => value.is_true(),
        Err(_) => false,
    }
}
