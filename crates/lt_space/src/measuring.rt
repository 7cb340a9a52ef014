//! Forms of numbers over the outputs and locals of an instant, without memory.

ghost use Rattle.std.specs.Prelude.{◌≡◌, ◌<◌, ◌≤◌, ◌+◌, Ok, Err, IsTrue};
ghost use Rattle.lt_num.specs.Bounds.{most_decimals};
ghost use Rattle.lt_num.specs.Value.{raw_of};
ghost use Rattle.lt_formula.specs.Expression.{binary};
ghost use Rattle.lt_formula.specs.Kinds.{HasFewVariables};
ghost use Rattle.lt_formula.specs.Table.{spelled};
ghost use Rattle.lt_formula.specs.View.{table_expressions, table_kinds, table_len, valuation_of_known};
ghost use Rattle.lt_space.specs.Meaning.{binary_form, form_of, known_form};
ghost use Rattle.lt_space.specs.inner.Measures.{AreReady, AwaitForm, Gives, form_due};

use crate::forming::{decimals_of, power_of_ten};
use crate::measures::Measures;
use lt_formula::{BinaryOperator, Known, Shape, Table, known_value};
use lt_num::{Arith, Fixed, add};

/// The number of the form of an expression, which is worked out once; or the first fault that its evaluation meets.
#[cycle(measure)]
pub(crate) fn measure(
    table: &Table,
    exp: u32,
    known: &Known<'_>,
    measures: &mut Measures,
) -> Result<u32, Arith>
    requires within { exp < table_len table.now }
    requires few { HasFewVariables (table_kinds table.now) }
    requires decimals { known.now.decimals ≤ most_decimals }
    requires ready { AreReady (valuation_of_known known.now) table.now measures.old }
    ensures { Gives (valuation_of_known known.now) table.now (exp + 1) 0
        (form_due (valuation_of_known known.now) table.now exp) result measures.old measures.new }
{
    if let Some(form) = measures.memo.find(exp) {
        return Ok(form);
    }
    let form = evaluate(table, exp, known, measures)?;
    measures.memo.keep(exp, form);
    Ok(form)
}

// The number of the form of an expression that has none yet.
#[cycle(measure)]
fn evaluate(
    table: &Table,
    exp: u32,
    known: &Known<'_>,
    measures: &mut Measures,
) -> Result<u32, Arith>
    requires within { exp < table_len table.now }
    requires few { HasFewVariables (table_kinds table.now) }
    requires decimals { known.now.decimals ≤ most_decimals }
    requires ready { AwaitForm (valuation_of_known known.now) table.now exp measures.old }
    ensures { Gives (valuation_of_known known.now) table.now exp 1
        (form_due (valuation_of_known known.now) table.now exp) result measures.old measures.new }
{
    if table.facts(exp).is_known {
        return known_form(table, exp, known, measures);
    }
    match table.shape(exp) {
        Shape::Constant(..) | Shape::Previous(..) => known_form(table, exp, known, measures),
        Shape::Variable(role, place) => {
            let kind = table.facts(exp).kind;
            let coefficient = power_of_ten(decimals_of(kind, known.decimals));
            Ok(measures.put_variable(table.number_of(role, place), coefficient))
        }
        Shape::Unary(_, part) => {
            let form = measure(table, part, known, measures)?;
            measures.put_negative(form)
        }
        Shape::Binary(operator, left, right) => {
            binary_form(table, exp, operator, left, right, known, measures)
        }
        Shape::Choice(condition, first, second) => {
            if known_value(table, condition, known)?.is_true() {
                measure(table, first, known, measures)
            } else {
                measure(table, second, known, measures)
            }
        }
    }
}

// The number of the form of an operator on two numbers that are not both known.
#[cycle(measure)]
fn binary_form(
    table: &Table,
    exp: u32,
    operator: BinaryOperator,
    left: u32,
    right: u32,
    known: &Known<'_>,
    measures: &mut Measures,
) -> Result<u32, Arith>
    requires left { left < exp }
    requires right { right < exp }
    requires spells { spelled (table_expressions table.now) exp ≡
        binary operator (spelled (table_expressions table.now) left)
        (spelled (table_expressions table.now) right) }
    requires few { HasFewVariables (table_kinds table.now) }
    requires decimals { known.now.decimals ≤ most_decimals }
    requires ready { AwaitForm (valuation_of_known known.now) table.now exp measures.old }
    ensures { Gives (valuation_of_known known.now) table.now exp 1
        (binary_form operator (valuation_of_known known.now) (table_kinds table.now)
        (spelled (table_expressions table.now) left) (spelled (table_expressions table.now) right)
        (form_due (valuation_of_known known.now) table.now left)
        (form_due (valuation_of_known known.now) table.now right)) result measures.old measures.new }
{
    match operator {
        BinaryOperator::Add => {
            let first = measure(table, left, known, measures)?;
            let second = measure(table, right, known, measures)?;
            measures.put_sum(first, second)
        }
        BinaryOperator::Sub => {
            let first = measure(table, left, known, measures)?;
            let second = measure(table, right, known, measures)?;
            measures.put_difference(first, second)
        }
        BinaryOperator::Mul => product_form(table, exp, left, right, known, measures),
        BinaryOperator::Div => {
            let form = measure(table, left, known, measures)?;
            let by = known_value(table, right, known)?;
            measures.put_quotient(form, Fixed { raw: by.raw() }, known.decimals)
        }
        _ => known_form(table, exp, known, measures),
    }
}

// The number of the form of a product: one of its factors is known.
#[cycle(measure)]
fn product_form(
    table: &Table,
    exp: u32,
    left: u32,
    right: u32,
    known: &Known<'_>,
    measures: &mut Measures,
) -> Result<u32, Arith>
    requires left { left < exp }
    requires right { right < exp }
    requires few { HasFewVariables (table_kinds table.now) }
    requires decimals { known.now.decimals ≤ most_decimals }
    requires ready { AwaitForm (valuation_of_known known.now) table.now exp measures.old }
    ensures { Gives (valuation_of_known known.now) table.now exp 1
        (binary_form BinaryOperator.Mul (valuation_of_known known.now) (table_kinds table.now)
        (spelled (table_expressions table.now) left) (spelled (table_expressions table.now) right)
        (form_due (valuation_of_known known.now) table.now left)
        (form_due (valuation_of_known known.now) table.now right)) result measures.old measures.new }
{
    let facts = table.facts(left);
    let decimals = decimals_of(facts.kind, known.decimals);
    if facts.is_known {
        let by = known_value(table, left, known)?;
        let form = measure(table, right, known, measures)?;
        measures.put_multiple(form, Fixed { raw: by.raw() }, decimals)
    } else {
        let form = measure(table, left, known, measures)?;
        let by = known_value(table, right, known)?;
        measures.put_multiple(form, Fixed { raw: by.raw() }, decimals)
    }
}

// The number of the form of a known number.
fn known_form(
    table: &Table,
    exp: u32,
    known: &Known<'_>,
    measures: &mut Measures,
) -> Result<u32, Arith>
    requires within { exp < table_len table.now }
    requires decimals { known.now.decimals ≤ most_decimals }
    requires ready { AwaitForm (valuation_of_known known.now) table.now exp measures.old }
    ensures { Gives (valuation_of_known known.now) table.now exp 1
        (known_form (valuation_of_known known.now) (table_kinds table.now)
        (spelled (table_expressions table.now) exp)) result measures.old measures.new }
{
    let value = known_value(table, exp, known)?;
    let number = add(Fixed { raw: value.raw() }, Fixed { raw: 0 })?;
    Ok(measures.put_constant(number.raw))
}
