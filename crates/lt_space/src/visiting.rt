//! Gates of Booleans over the outputs and locals of an instant, without memory.

ghost use Rattle.std.specs.Prelude.{◌≡◌, ◌<◌, ◌≤◌, ◌+◌, Ok, Err};
ghost use Rattle.lt_num.specs.Bounds.{most_decimals};
ghost use Rattle.lt_formula.specs.Kinds.{variables_of};
ghost use Rattle.lt_formula.specs.Limits.{most_variables};
ghost use Rattle.lt_formula.specs.Table.{spelled};
ghost use Rattle.lt_formula.specs.View.{table_expressions, table_kinds, table_len, valuation_of_known};
ghost use Rattle.lt_space.specs.Meaning.{after, binary_formula, choice_formula, comparison, kind_of, known_formula};
ghost use Rattle.lt_space.specs.inner.Measures.{form_due};
ghost use Rattle.lt_space.specs.inner.Work.{AwaitsGate, IsReady, Visits, formula_due};

use crate::building::settled_truth;
use crate::circuit::Gate;
use crate::measuring::measure;
use crate::work::{Scale, Work, compare, connect};
use lt_formula::{BinaryOperator, Known, Shape, Table, known_value};
use lt_num::{Arith, Kind};

/// The number of the gate of an expression, which is worked out once; or the first fault that its evaluation meets.
#[cycle(visit)]
pub(crate) fn visit(
    table: &Table,
    exp: u32,
    known: &Known<'_>,
    work: &mut Work,
) -> Result<u32, Arith>
    requires within { exp < table_len table.now }
    requires few { variables_of (table_kinds table.now) ≤ most_variables }
    requires decimals { known.now.decimals ≤ most_decimals }
    requires ready { IsReady (valuation_of_known known.now) table.now work.old }
    ensures { Visits (valuation_of_known known.now) table.now (exp + 1) 0
        (formula_due (valuation_of_known known.now) table.now exp) result work.old work.new }
{
    if let Some(gate) = work.memo.find(exp) {
        return Ok(gate);
    }
    let gate = evaluate(table, exp, known, work)?;
    work.memo.keep(exp, gate);
    Ok(gate)
}

// The number of the gate of an expression that has none yet.
#[cycle(visit)]
fn evaluate(table: &Table, exp: u32, known: &Known<'_>, work: &mut Work) -> Result<u32, Arith>
    requires within { exp < table_len table.now }
    requires few { variables_of (table_kinds table.now) ≤ most_variables }
    requires decimals { known.now.decimals ≤ most_decimals }
    requires ready { AwaitsGate (valuation_of_known known.now) table.now exp work.old }
    ensures { Visits (valuation_of_known known.now) table.now exp 1
        (formula_due (valuation_of_known known.now) table.now exp) result work.old work.new }
{
    if table.facts(exp).is_known {
        return known_gate(table, exp, known, work);
    }
    match table.shape(exp) {
        Shape::Constant(..) | Shape::Previous(..) => known_gate(table, exp, known, work),
        Shape::Variable(role, place) => {
            Ok(work.circuit.push(Gate::Flag(table.number_of(role, place))))
        }
        Shape::Unary(_, part) => {
            let gate = visit(table, part, known, work)?;
            Ok(work.circuit.push(Gate::Not(gate)))
        }
        Shape::Binary(operator, left, right) => {
            binary_gate(table, exp, operator, left, right, known, work)
        }
        Shape::Choice(condition, first, second) => {
            choice_gate(table, exp, condition, first, second, known, work)
        }
    }
}

// The number of the gate of an operator on two parts that are not both known.
#[cycle(visit)]
fn binary_gate(
    table: &Table,
    exp: u32,
    operator: BinaryOperator,
    left: u32,
    right: u32,
    known: &Known<'_>,
    work: &mut Work,
) -> Result<u32, Arith>
    requires left { left < exp }
    requires right { right < exp }
    requires few { variables_of (table_kinds table.now) ≤ most_variables }
    requires decimals { known.now.decimals ≤ most_decimals }
    requires ready { AwaitsGate (valuation_of_known known.now) table.now exp work.old }
    ensures { Visits (valuation_of_known known.now) table.now exp 1
        (binary_formula operator (valuation_of_known known.now) (table_kinds table.now)
        (spelled (table_expressions table.now) left) (spelled (table_expressions table.now) right)
        (formula_due (valuation_of_known known.now) table.now left)
        (formula_due (valuation_of_known known.now) table.now right)) result work.old work.new }
{
    let kind = table.facts(left).kind;
    if !matches!(kind, Kind::Bool) {
        return comparison_gate(table, exp, operator, left, right, known, work);
    }
    if let Some(truth) = settled_truth(table, operator, left, known)? {
        return Ok(work.circuit.push(Gate::Truth(truth)));
    }
    let first = visit(table, left, known, work)?;
    let second = visit(table, right, known, work)?;
    Ok(connect(&mut work.circuit, operator, first, second))
}

// The number of the gate of a choice that isn't known.
#[cycle(visit)]
fn choice_gate(
    table: &Table,
    exp: u32,
    condition: u32,
    first: u32,
    second: u32,
    known: &Known<'_>,
    work: &mut Work,
) -> Result<u32, Arith>
    requires condition { condition < exp }
    requires first { first < exp }
    requires second { second < exp }
    requires few { variables_of (table_kinds table.now) ≤ most_variables }
    requires decimals { known.now.decimals ≤ most_decimals }
    requires ready { AwaitsGate (valuation_of_known known.now) table.now exp work.old }
    ensures { Visits (valuation_of_known known.now) table.now exp 1
        (choice_formula (valuation_of_known known.now) (table_kinds table.now)
        (spelled (table_expressions table.now) condition)
        (formula_due (valuation_of_known known.now) table.now condition)
        (formula_due (valuation_of_known known.now) table.now first)
        (formula_due (valuation_of_known known.now) table.now second)) result work.old work.new }
{
    if table.facts(condition).is_known {
        return if known_value(table, condition, known)?.is_true() {
            visit(table, first, known, work)
        } else {
            visit(table, second, known, work)
        };
    }
    let test = visit(table, condition, known, work)?;
    let yes = visit(table, first, known, work)?;
    let no = visit(table, second, known, work)?;
    Ok(work.circuit.push(Gate::If(test, yes, no)))
}

// The number of the gate of an operator on two numbers.
fn comparison_gate(
    table: &Table,
    exp: u32,
    operator: BinaryOperator,
    left: u32,
    right: u32,
    known: &Known<'_>,
    work: &mut Work,
) -> Result<u32, Arith>
    requires left { left < exp }
    requires right { right < exp }
    requires few { variables_of (table_kinds table.now) ≤ most_variables }
    requires decimals { known.now.decimals ≤ most_decimals }
    requires ready { AwaitsGate (valuation_of_known known.now) table.now exp work.old }
    ensures { Visits (valuation_of_known known.now) table.now exp 1
        (after (form_due (valuation_of_known known.now) table.now left) (λ f.
        after (form_due (valuation_of_known known.now) table.now right)
        (λ h. Ok (comparison operator (kind_of (table_kinds table.now) (spelled (table_expressions table.now) left)) known.now.decimals f h)))) result work.old work.new }
{
    let scale = Scale {
        kind: table.facts(left).kind,
        decimals: known.decimals,
    };
    let first = measure(table, left, known, &mut work.measures)?;
    let second = measure(table, right, known, &mut work.measures)?;
    Ok(compare(
        &mut work.circuit,
        &mut work.measures,
        operator,
        scale,
        first,
        second,
    ))
}

// The number of the gate of a known Boolean.
fn known_gate(table: &Table, exp: u32, known: &Known<'_>, work: &mut Work) -> Result<u32, Arith>
    requires within { exp < table_len table.now }
    requires decimals { known.now.decimals ≤ most_decimals }
    requires ready { AwaitsGate (valuation_of_known known.now) table.now exp work.old }
    ensures { Visits (valuation_of_known known.now) table.now exp 1
        (known_formula (valuation_of_known known.now) (table_kinds table.now)
        (spelled (table_expressions table.now) exp)) result work.old work.new }
{
    let value = known_value(table, exp, known)?;
    Ok(work.circuit.push(Gate::Truth(value.is_true())))
}
