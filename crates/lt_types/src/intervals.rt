//! Ranges of groups.

ghost use Rattle.std.specs.Prelude.{◌≡◌, ◌≤◌, [], string_bytes, IfOk, int_lt, not, pos};
ghost use Rattle.lt_ast.specs.View.{figure, written_range, written_step};
ghost use Rattle.lt_num.specs.Bounds.{most_decimals};
ghost use Rattle.lt_types.specs.inner.Checks.{Checks};
ghost use Rattle.lt_ast.specs.Literals.{figure_text, figure_type};
ghost use Rattle.lt_types.specs.Literal.{raw_of};
ghost use Rattle.lt_types.specs.Refusals.{end_size, end_type, range_of, range_refusals, step_type, unless};

use crate::kinds::is_same;
use crate::refusal::TypeRefusal;
use lt_ast::{Literal, Range, TypeName};
use lt_num::{Fixed, read};
use std::alloc::Global;

// The range of a group of this type.
#[tactic(auto, using(crate::proofs::Leading::leads))]
pub(crate) fn check_range(
    alloc: Global,
    decimals: u32,
    kind: TypeName,
    range: &Option<Range>,
) -> Result<(), TypeRefusal>
    requires few { decimals ≤ most_decimals }
    ensures { Checks result (range_refusals decimals kind (written_range range.now)) }
{
    match (kind, range) {
        (TypeName::Int, Some(range)) => check_ends(alloc, 0, kind, range),
        (TypeName::Real, Some(range)) => check_ends(alloc, decimals, kind, range),
        _ => Ok(()),
    }
}

// A range of numbers of a type, with so many decimals.
fn check_ends(
    alloc: Global,
    decimals: u32,
    kind: TypeName,
    range: &Range,
) -> Result<(), TypeRefusal>
    requires few { decimals ≤ most_decimals }
    ensures { Checks result
        (range_of decimals kind (record {
          low = figure range.now.low;
          high = figure range.now.high;
          step = written_step range.now.step;
        })) }
{
    check_end_kind(kind, &range.low)?;
    check_end_kind(kind, &range.high)?;
    check_step_kind(kind, &range.step)?;
    let low = read_end(alloc, decimals, &range.low)?;
    let high = read_end(alloc, decimals, &range.high)?;
    match &range.step {
        None => check_order(&range.low, low, high),
        Some(step) => {
            let number = read_end(alloc, decimals, step)?;
            check_order(&range.low, low, high)?;
            check_leads_on(step, number)
        }
    }
}

// That the low end of a range isn't over the high one.
#[tactic(auto, using(crate::proofs::Leading::leads))]
fn check_order(end: &Literal, low: Fixed, high: Fixed) -> Result<(), TypeRefusal>
    ensures { Checks result
        (unless (not (int_lt high.raw low.raw)) (TypeRefusal.EmptyRange end.now.span)) }
{
    if high.raw < low.raw {
        return Err(TypeRefusal::EmptyRange(end.span));
    }
    Ok(())
}

// That the step of a range, which is this number, leads on.
#[tactic(auto, using(crate::proofs::Leading::leads))]
fn check_leads_on(step: &Literal, number: Fixed) -> Result<(), TypeRefusal>
    ensures { Checks result
        (unless (not (int_lt number.raw (pos 1))) (TypeRefusal.BadStep step.now.span)) }
{
    if number.raw < 1 {
        return Err(TypeRefusal::BadStep(step.span));
    }
    Ok(())
}

// That the step of a range, where it has one, is a literal of the type.
fn check_step_kind(kind: TypeName, step: &Option<Literal>) -> Result<(), TypeRefusal>
    ensures { Checks result (step_type kind (written_step step.now)) }
{
    match step {
        None => Ok(()),
        Some(step) => check_end_kind(kind, step),
    }
}

// That an end of a range, or its step, is a literal of the type.
#[tactic(auto, using(crate::proofs::Leading::leads))]
fn check_end_kind(kind: TypeName, end: &Literal) -> Result<(), TypeRefusal>
    ensures { Checks result (end_type kind (figure end.now)) }
{
    if is_same(end.type_name(), kind) {
        return Ok(());
    }
    Err(TypeRefusal::Mismatch(end.span))
}

// The number that an end of a range, or its step, is.
#[tactic(auto, using(crate::proofs::Leading::leads))]
fn read_end(alloc: Global, decimals: u32, end: &Literal) -> Result<Fixed, TypeRefusal>
    requires few { decimals ≤ most_decimals }
    ensures size { Checks result (end_size decimals (figure end.now)) }
    ensures raw { IfOk result (λ number. number.raw ≡ raw_of decimals (figure end.now)) }
{
    let text = end.signed_text(alloc)?;
    match read(text.as_bytes(), decimals) {
        Ok(number) => Ok(number),
        Err(_) => Err(TypeRefusal::RangeTooLarge(end.span)),
    }
}
