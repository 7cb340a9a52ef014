//! Forms of numbers over the outputs and locals of an instant.

ghost use Rattle.std.specs.Prelude.{◌≡◌, ◌<◌, ◌≤◌, ◌^◌, Ok, IfOk, IsTrue, pos, unsigned_abs};
ghost use Rattle.lt_num.specs.Bounds.{most_decimals};
ghost use Rattle.lt_linear.specs.Form.{constant_form, form_difference, form_divided, is_bounded, variable_form};
ghost use Rattle.lt_linear.specs.Refusal.{TellsForm};
ghost use Rattle.lt_num.specs.Value.{raw_of};
ghost use Rattle.lt_formula.specs.Expression.{binary};
ghost use Rattle.lt_space.specs.Meaning.{FormAnswer, after, binary_form, decimals_of, form_of, form_times, known_form};
ghost use Rattle.lt_space.specs.Refusal.{Tells, same};
ghost use Rattle.lt_space.specs.inner.Both.{both};
ghost use Rattle.lt_formula.specs.Kinds.{HasFewVariables};
ghost use Rattle.lt_formula.specs.Table.{spelled};
ghost use Rattle.lt_formula.specs.Valuation.{value_under};
ghost use Rattle.lt_formula.specs.View.{table_expressions, table_kinds, table_len, valuation_of_known};

use crate::refusal::FormulaRefusal;
use lt_formula::{BinaryOperator, Known, Shape, Table, known_value};
use lt_linear::{Form, NumRefusal, form_add, form_divide, form_scale, form_sub};
use lt_num::{Fixed, Kind, Value, add};
use std::alloc::Global;

/// The form of a number over the outputs and locals, or the first fault that its evaluation meets.
#[cycle(form_value)]
#[tactic(auto, using(crate::proofs::Tellings::tellings, crate::proofs::Tellings::knowns))]
pub(crate) fn form_value(
    alloc: Global,
    table: &Table,
    exp: u32,
    known: &Known<'_>,
) -> Result<Form, FormulaRefusal>
    requires within { exp < table_len table.now }
    requires few { HasFewVariables (table_kinds table.now) }
    requires decimals { known.now.decimals ≤ most_decimals }
    ensures told { Tells same result
        (form_of (valuation_of_known known.now) (table_kinds table.now)
        (spelled (table_expressions table.now) exp)) }
    ensures bounded { IfOk result (λ form. IsTrue (is_bounded form)) }
{
    if table.facts(exp).is_known {
        return known_form(alloc, table, exp, known);
    }
    match table.shape(exp) {
        Shape::Constant(..) | Shape::Previous(..) => known_form(alloc, table, exp, known),
        Shape::Variable(role, place) => {
            let kind = table.facts(exp).kind;
            variable_form(alloc, table.number_of(role, place), kind, known.decimals)
        }
        Shape::Unary(_, part) => {
            let form = form_value(alloc, table, part, known)?;
            negative_form(alloc, &form)
        }
        Shape::Binary(operator, left, right) => {
            binary_form(alloc, table, exp, operator, left, right, known)
        }
        Shape::Choice(condition, first, second) => {
            if known_value(table, condition, known)?.is_true() {
                form_value(alloc, table, first, known)
            } else {
                form_value(alloc, table, second, known)
            }
        }
    }
}

// The form of an operator on two numbers that are not both known.
#[cycle(form_value)]
#[tactic(auto, using(crate::proofs::Tellings::tellings))]
fn binary_form(
    alloc: Global,
    table: &Table,
    exp: u32,
    operator: BinaryOperator,
    left: u32,
    right: u32,
    known: &Known<'_>,
) -> Result<Form, FormulaRefusal>
    requires within { exp < table_len table.now }
    requires left { left < exp }
    requires right { right < exp }
    requires spells { spelled (table_expressions table.now) exp ≡
        binary operator (spelled (table_expressions table.now) left)
        (spelled (table_expressions table.now) right) }
    requires few { HasFewVariables (table_kinds table.now) }
    requires decimals { known.now.decimals ≤ most_decimals }
    ensures told { Tells same result
        (binary_form operator (valuation_of_known known.now) (table_kinds table.now)
        (spelled (table_expressions table.now) left) (spelled (table_expressions table.now) right)
        (form_of (valuation_of_known known.now) (table_kinds table.now)
        (spelled (table_expressions table.now) left))
        (form_of (valuation_of_known known.now) (table_kinds table.now)
        (spelled (table_expressions table.now) right))) }
    ensures bounded { IfOk result (λ form. IsTrue (is_bounded form)) }
{
    match operator {
        BinaryOperator::Add => {
            let (first, second) = both_forms(alloc, table, left, right, known)?;
            formed(form_add(alloc, &first, &second))
        }
        BinaryOperator::Sub => {
            let (first, second) = both_forms(alloc, table, left, right, known)?;
            formed(form_sub(alloc, &first, &second))
        }
        BinaryOperator::Mul => product_form(alloc, table, left, right, known),
        BinaryOperator::Div => {
            let form = form_value(alloc, table, left, known)?;
            form_over_known(alloc, table, &form, right, known)
        }
        _ => known_form(alloc, table, exp, known),
    }
}

/// The forms of two numbers, or the first fault that their evaluation meets.
#[cycle(form_value)]
#[tactic(auto, using(crate::proofs::Tellings::tellings))]
pub(crate) fn both_forms(
    alloc: Global,
    table: &Table,
    left: u32,
    right: u32,
    known: &Known<'_>,
) -> Result<(Form, Form), FormulaRefusal>
    requires left { left < table_len table.now }
    requires right { right < table_len table.now }
    requires few { HasFewVariables (table_kinds table.now) }
    requires decimals { known.now.decimals ≤ most_decimals }
    ensures told { Tells same result
        (both (form_of (valuation_of_known known.now) (table_kinds table.now)
        (spelled (table_expressions table.now) left))
        (form_of (valuation_of_known known.now) (table_kinds table.now)
        (spelled (table_expressions table.now) right))) }
    ensures first { IfOk result (λ forms. IsTrue (is_bounded forms.0)) }
    ensures second { IfOk result (λ forms. IsTrue (is_bounded forms.1)) }
{
    let first = form_value(alloc, table, left, known)?;
    let second = form_value(alloc, table, right, known)?;
    Ok((first, second))
}

// The form of a product: one of its factors is known.
#[cycle(form_value)]
#[tactic(auto, using(crate::proofs::Tellings::tellings))]
fn product_form(
    alloc: Global,
    table: &Table,
    left: u32,
    right: u32,
    known: &Known<'_>,
) -> Result<Form, FormulaRefusal>
    requires left { left < table_len table.now }
    requires right { right < table_len table.now }
    requires few { HasFewVariables (table_kinds table.now) }
    requires decimals { known.now.decimals ≤ most_decimals }
    ensures told { Tells same result
        (binary_form BinaryOperator.Mul (valuation_of_known known.now) (table_kinds table.now)
        (spelled (table_expressions table.now) left) (spelled (table_expressions table.now) right)
        (form_of (valuation_of_known known.now) (table_kinds table.now)
        (spelled (table_expressions table.now) left))
        (form_of (valuation_of_known known.now) (table_kinds table.now)
        (spelled (table_expressions table.now) right))) }
    ensures bounded { IfOk result (λ form. IsTrue (is_bounded form)) }
{
    let facts = table.facts(left);
    if facts.is_known {
        let by = known_value(table, left, known)?;
        let form = form_value(alloc, table, right, known)?;
        form_times(alloc, facts.kind, known.decimals, &form, by)
    } else {
        let form = form_value(alloc, table, left, known)?;
        form_times_known(alloc, table, facts.kind, &form, right, known)
    }
}

// A form with the other sign.
fn negative_form(alloc: Global, form: &Form) -> Result<Form, FormulaRefusal>
    ensures told { Tells same result (form_difference (constant_form (pos 0)) form.now) }
    ensures bounded { IfOk result (λ form. IsTrue (is_bounded form)) }
{
    let zero = Form::of_constant(alloc, 0);
    formed(form_sub(alloc, &zero, form))
}

// A form times a known number of a kind.
fn form_times(
    alloc: Global,
    kind: Kind,
    decimals: u32,
    form: &Form,
    by: Value,
) -> Result<Form, FormulaRefusal>
    requires { decimals ≤ most_decimals }
    ensures told { Tells same result (form_times kind decimals form.now (raw_of by)) }
    ensures bounded { IfOk result (λ form. IsTrue (is_bounded form)) }
{
    let by = Fixed { raw: by.raw() };
    formed(form_scale(alloc, form, by, decimals_of(kind, decimals)))
}

// A form of a kind times what is known of an expression.
fn form_times_known(
    alloc: Global,
    table: &Table,
    kind: Kind,
    form: &Form,
    factor: u32,
    known: &Known<'_>,
) -> Result<Form, FormulaRefusal>
    requires within { factor < table_len table.now }
    requires decimals { known.now.decimals ≤ most_decimals }
    ensures told { Tells same result
        (after (value_under (valuation_of_known known.now) (table_kinds table.now)
        (spelled (table_expressions table.now) factor)) (λ by.
        form_times kind known.now.decimals form.now (raw_of by))) }
    ensures bounded { IfOk result (λ form. IsTrue (is_bounded form)) }
{
    let by = known_value(table, factor, known)?;
    form_times(alloc, kind, known.decimals, form, by)
}

// A form divided by what is known of an expression.
fn form_over_known(
    alloc: Global,
    table: &Table,
    form: &Form,
    divisor: u32,
    known: &Known<'_>,
) -> Result<Form, FormulaRefusal>
    requires within { divisor < table_len table.now }
    requires decimals { known.now.decimals ≤ most_decimals }
    ensures told { Tells same result
        (after (value_under (valuation_of_known known.now) (table_kinds table.now)
        (spelled (table_expressions table.now) divisor)) (λ by.
        form_divided form.now (raw_of by) known.now.decimals)) }
    ensures bounded { IfOk result (λ form. IsTrue (is_bounded form)) }
{
    let by = known_value(table, divisor, known)?;
    let by = Fixed { raw: by.raw() };
    formed(form_divide(alloc, form, by, known.decimals))
}

// What a call on forms answered.
fn formed(answer: Result<Form, NumRefusal>) -> Result<Form, FormulaRefusal>
    ensures told { (due : FormAnswer) → TellsForm answer due → Tells same result due }
    ensures bounded { IfOk answer (λ form. IsTrue (is_bounded form)) →
        IfOk result (λ form. IsTrue (is_bounded form)) }
{
    Ok(answer?)
}

// The form of a known number.
fn known_form(
    alloc: Global,
    table: &Table,
    exp: u32,
    known: &Known<'_>,
) -> Result<Form, FormulaRefusal>
    requires within { exp < table_len table.now }
    requires decimals { known.now.decimals ≤ most_decimals }
    ensures told { Tells same result
        (known_form (valuation_of_known known.now) (table_kinds table.now)
        (spelled (table_expressions table.now) exp)) }
    ensures bounded { IfOk result (λ form. IsTrue (is_bounded form)) }
{
    let value = known_value(table, exp, known)?;
    let number = add(Fixed { raw: value.raw() }, Fixed { raw: 0 })?;
    Ok(Form::of_constant(alloc, number.raw))
}

// A variable of a kind, with so many decimals.
fn variable_form(
    alloc: Global,
    variable: u32,
    kind: Kind,
    decimals: u32,
) -> Result<Form, FormulaRefusal>
    requires { decimals ≤ most_decimals }
    ensures told { Tells same result
        (Ok (variable_form variable (pos (10 ^ decimals_of kind decimals)))) }
    ensures bounded { IfOk result (λ form. IsTrue (is_bounded form)) }
{
    let coefficient = power_of_ten(decimals_of(kind, decimals));
    Ok(Form::of_variable(alloc, variable, coefficient)?)
}

/// What numbers of a kind have as decimals, where a real has so many: an int has none.
pub(crate) fn decimals_of(kind: Kind, decimals: u32) -> u32
    requires { decimals ≤ most_decimals }
    ensures value { result ≡ decimals_of kind decimals }
    ensures most { result ≤ most_decimals }
{
    match kind {
        Kind::Real => decimals,
        Kind::Bool | Kind::Int => 0,
    }
}

/// 10 to a power of at most 6: how many raw numbers of a real with so many decimals a unit has.
pub fn power_of_ten(exponent: u32) -> i64
    requires { exponent ≤ most_decimals }
    ensures value { result ≡ pos (10 ^ exponent) }
    ensures most { unsigned_abs result ≤ 1_000_000 }
{
    match exponent {
        0 => 1,
        1 => 10,
        2 => 100,
        3 => 1_000,
        4 => 10_000,
        5 => 100_000,
        _ => 1_000_000,
    }
}
