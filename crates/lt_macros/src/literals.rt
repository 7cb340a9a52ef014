//! What literals, types and operators of a text are in a scenario.

ghost use Rattle.std.specs.Prelude.{◌≡◌, ◌≤◌, IfOk, pos, neg_ℤ, if◌then◌else◌};
ghost use Rattle.lt_ast.specs.Literals.{figure_text};
ghost use Rattle.lt_ast.specs.Syntax.{Figure};
ghost use Rattle.lt_ast.specs.View.{figure, written_range, written_step};
ghost use Rattle.lt_num.specs.Bounds.{most_decimals, most_raw};
ghost use Rattle.lt_num.specs.Literal.{IsLiteral};
ghost use Rattle.lt_types.specs.Literal.{raw_of};
ghost use Rattle.lt_macros.specs.Literals.{binary_operator as binary_of, capped, decimals_of as kind_decimals, from_to, kind_of as kind_for, limited, most_unranged, number_at as number_for, range_of as range_for, step_raw, unary_operator as unary_of, written_points};
ghost use Rattle.lt_macros.specs.Placed.{meaningless as nothing_said, unwritten_weight as weight_for};
ghost use Rattle.lt_macros.specs.Tree.{placed};

use crate::tree::Placed;
use lt_ast::{BinOp, Literal, Range as WrittenRange, Span, TypeName, UnOp};
use lt_formula::{BinaryOperator, Memory, Role, UnaryOperator};
use lt_num::{Kind, Range, Value, read};
use std::alloc::Global;

// The first raw number that is past the bound of 10^12.
const PAST_MOST: i64 = 1_000_000_000_001;

// The place of what isn't written.
const NOWHERE: Span = Span { start: 0, end: 0 };

// The kind of a type's values; a trace has none.
pub(crate) fn kind_of(type_name: TypeName) -> Kind
    ensures { result ≡ kind_for type_name }
{
    match type_name {
        TypeName::Bool | TypeName::Trace => Kind::Bool,
        TypeName::Int => Kind::Int,
        TypeName::Real => Kind::Real,
    }
}

// An operator with one operand.
#[inline(never)]
pub(crate) fn unary_operator(operator: UnOp) -> UnaryOperator
    ensures { result ≡ unary_of operator }
{
    match operator {
        UnOp::Not => UnaryOperator::Not,
        UnOp::Neg => UnaryOperator::Neg,
    }
}

// An operator between its operands; the two quotients are one.
#[inline(never)]
pub(crate) fn binary_operator(operator: BinOp) -> BinaryOperator
    ensures { result ≡ binary_of operator }
{
    match operator {
        BinOp::And => BinaryOperator::And,
        BinOp::Or => BinaryOperator::Or,
        BinOp::Xor => BinaryOperator::Xor,
        BinOp::Implies => BinaryOperator::Implies,
        BinOp::Eq => BinaryOperator::Eq,
        BinOp::Ne => BinaryOperator::Ne,
        BinOp::Lt => BinaryOperator::Lt,
        BinOp::Le => BinaryOperator::Le,
        BinOp::Gt => BinaryOperator::Gt,
        BinOp::Ge => BinaryOperator::Ge,
        BinOp::Add => BinaryOperator::Add,
        BinOp::Sub => BinaryOperator::Sub,
        BinOp::Mul => BinaryOperator::Mul,
        BinOp::Div | BinOp::DivWord => BinaryOperator::Div,
        BinOp::Mod => BinaryOperator::Mod,
    }
}

// What stands for what means nothing: `false`.
#[inline(never)]
pub(crate) fn meaningless() -> Placed
    ensures { placed result ≡ nothing_said }
{
    Placed::Constant(Kind::Bool, Value::Bool(false), NOWHERE)
}

// The weight of an alternative that has none: 1.
pub(crate) fn unwritten_weight() -> Placed
    ensures { placed result ≡ weight_for }
{
    Placed::Constant(Kind::Int, Value::Num(1), NOWHERE)
}

// The constant that a number stands for.
#[inline(never)]
pub(crate) fn number_at(alloc: Global, decimals: u32, literal: &Literal) -> Result<Placed, Memory>
    requires { decimals ≤ most_decimals }
    ensures { IfOk result (λ e. placed e ≡ number_for decimals (figure literal.now)) }
{
    let kind = kind_of(literal.type_name());
    let raw = capped_raw(alloc, decimals_of(decimals, kind), literal)?;
    Ok(Placed::Constant(kind, Value::Num(raw), literal.span))
}

// The raw numbers of a variable's values.
pub(crate) fn range_of(
    alloc: Global,
    decimals: u32,
    role: Role,
    kind: Kind,
    range: &Option<WrittenRange>,
) -> Result<Range, Memory>
    requires { decimals ≤ most_decimals }
    ensures { IfOk result (λ r. r ≡ range_for decimals role kind (written_range range.now)) }
{
    match kind {
        Kind::Bool => Ok(Range {
            low: 0,
            high: 1,
            step: 1,
        }),
        Kind::Int | Kind::Real => match range {
            None => Ok(unranged(role)),
            Some(range) => read_range(alloc, decimals_of(decimals, kind), range),
        },
    }
}

// The points of a range, with so many decimals: never none.
fn read_range(alloc: Global, decimals: u32, range: &WrittenRange) -> Result<Range, Memory>
    requires { decimals ≤ most_decimals }
    ensures { IfOk result (λ r. r ≡ written_points decimals
        (record {
          low = figure range.now.low;
          high = figure range.now.high;
          step = written_step range.now.step;
        })) }
{
    let low = limited_raw(alloc, decimals, &range.low)?;
    let high = limited_raw(alloc, decimals, &range.high)?;
    Ok(Range {
        low,
        high: low.max(high),
        step: read_step(alloc, decimals, &range.step)?,
    })
}

// The raw number of a step, with so many decimals; 1 where none is written.
fn read_step(alloc: Global, decimals: u32, step: &Option<Literal>) -> Result<i64, Memory>
    requires { decimals ≤ most_decimals }
    ensures { IfOk result (λ raw. raw ≡ step_raw decimals (written_step step.now)) }
{
    match step {
        None => Ok(1),
        Some(step) => {
            let raw = limited_raw(alloc, decimals, step)?;
            Ok(raw.max(1))
        }
    }
}

// The raw numbers of a number's values where no range is written.
fn unranged(role: Role) -> Range
    ensures { result ≡ from_to (neg_ℤ (pos (most_unranged role))) (pos (most_unranged role)) }
{
    match role {
        Role::Input => Range {
            low: -1_000_000_000_000,
            high: 1_000_000_000_000,
            step: 1,
        },
        Role::Output | Role::Local => Range {
            low: -10_000,
            high: 10_000,
            step: 1,
        },
    }
}

// How many decimals the numbers of a kind have, where reals have this many.
fn decimals_of(decimals: u32, kind: Kind) -> u32
    requires { decimals ≤ most_decimals }
    ensures value { result ≡ kind_decimals decimals kind }
    ensures few { result ≤ most_decimals }
{
    match kind {
        Kind::Bool | Kind::Int => 0,
        Kind::Real => decimals,
    }
}

// The raw number of a literal; where it is past the bound, the first one that is.
fn capped_raw(alloc: Global, decimals: u32, literal: &Literal) -> Result<i64, Memory>
    requires { decimals ≤ most_decimals }
    ensures { IfOk result (λ raw. raw ≡ capped (raw_of decimals (figure literal.now))) }
{
    // Without a minus its text is its letters.
    if literal.minus {
        let text = literal.signed_text(alloc)?;
        Ok(capped_number(text.as_bytes(), decimals))
    } else {
        Ok(capped_number(literal.text.as_str().as_bytes(), decimals))
    }
}

// The raw number that the text of a literal is read as; where it is past the bound, the first one that is.
fn capped_number(text: &[u8], decimals: u32) -> i64
    requires literal { IsLiteral text.now }
    requires decimals { decimals ≤ most_decimals }
    ensures { (f : Figure) → text.now ≡ figure_text f →
        result ≡ capped (raw_of decimals f) }
{
    match read(text, decimals) {
        Ok(number) => number.raw,
        Err(_) => PAST_MOST,
    }
}

// The raw number of an end of a range, or of its step; where it is past the bound, the nearest one within it.
fn limited_raw(alloc: Global, decimals: u32, end: &Literal) -> Result<i64, Memory>
    requires { decimals ≤ most_decimals }
    ensures { IfOk result (λ raw. raw ≡ limited (raw_of decimals (figure end.now))) }
{
    let text = end.signed_text(alloc)?;
    match read(text.as_bytes(), decimals) {
        Ok(number) => Ok(number.raw),
        Err(_) => Ok(farthest(end.minus)),
    }
}

// The raw number that is farthest from 0 within the bound, below 0 or above.
fn farthest(below: bool) -> i64
    ensures { result ≡ (if below then neg_ℤ (pos most_raw) else pos most_raw) }
{
    if below {
        -1_000_000_000_000
    } else {
        1_000_000_000_000
    }
}
