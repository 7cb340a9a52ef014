//! Sums, differences, multiples and quotients of linear forms.

ghost use Rattle.std.specs.Prelude.{◌≡◌, ◌≤◌, ℤ, IfOk, IsTrue, unsigned_abs};
ghost use Rattle.lt_num.specs.Bounds.{most_decimals};
ghost use Rattle.lt_linear.specs.Draft.{lent_form};
ghost use Rattle.lt_linear.specs.Form.{form_by, form_compared, form_difference, form_divided, form_scaled, form_sum, is_bounded};
ghost use Rattle.lt_linear.specs.Refusal.{TellsForm};
ghost use Rattle.lt_linear.specs.inner.Merging.{IsOperation, combined, is_usable};

use crate::draft::{Draft, FormRef};
use crate::form::Form;
use crate::merging::Operation;
use crate::refusal::NumRefusal;
use lt_num::Fixed;
use std::alloc::{AllocError, Global};

/// The sum of two forms: that of their coefficients, variable by variable, and that of their constants.
///
/// # Errors
///
/// [`NumRefusal::Overflow`] where one of these sums is past 10^12 in size, and [`NumRefusal::Memory`].
pub fn form_add(alloc: Global, a: &Form, b: &Form) -> Result<Form, NumRefusal>
    ensures told { TellsForm result (form_sum a.now b.now) }
    ensures bounded { IfOk result (λ form. IsTrue (is_bounded form)) }
{
    form_by(alloc, Operation::Sum, a.lend(), b.lend())
}

/// The difference of two forms: that of their coefficients and constants.
///
/// # Errors
///
/// [`NumRefusal::Overflow`] where one of these is past 10^12 in size, and [`NumRefusal::Memory`].
pub fn form_sub(alloc: Global, a: &Form, b: &Form) -> Result<Form, NumRefusal>
    ensures told { TellsForm result (form_difference a.now b.now) }
    ensures bounded { IfOk result (λ form. IsTrue (is_bounded form)) }
{
    form_by(alloc, Operation::Difference, a.lend(), b.lend())
}

/// A form times a number with so many decimals, 0 to 6: each coefficient and the constant is multiplied and
/// rounded once. An int has no decimals.
///
/// # Errors
///
/// [`NumRefusal::Overflow`] where one of these is past 10^12 in size, and [`NumRefusal::Memory`].
pub fn form_scale(alloc: Global, a: &Form, by: Fixed, decimals: u32) -> Result<Form, NumRefusal>
    requires { decimals ≤ most_decimals }
    ensures told { TellsForm result (form_scaled a.now by.raw decimals) }
    ensures bounded { IfOk result (λ form. IsTrue (is_bounded form)) }
{
    form_by(
        alloc,
        Operation::Scaled(by, decimals),
        a.lend(),
        FormRef::zero(),
    )
}

/// A form divided by a number with so many decimals, 0 to 6: each coefficient and the constant is divided and
/// rounded once.
///
/// # Errors
///
/// [`NumRefusal::DivisionByZero`] where the number is 0, [`NumRefusal::Overflow`] where a coefficient or the
/// constant is past 10^12 in size, and [`NumRefusal::Memory`].
pub fn form_divide(alloc: Global, a: &Form, by: Fixed, decimals: u32) -> Result<Form, NumRefusal>
    requires { decimals ≤ most_decimals }
    ensures told { TellsForm result (form_divided a.now by.raw decimals) }
    ensures bounded { IfOk result (λ form. IsTrue (is_bounded form)) }
{
    if by.raw == 0 {
        return Err(NumRefusal::DivisionByZero);
    }
    form_by(
        alloc,
        Operation::Divided(by, decimals),
        a.lend(),
        FormRef::zero(),
    )
}

/// The difference of two forms, which a comparison compares with 0: exactly, with its coefficients times a
/// factor of at most 10^6, and its constant without it. No number of the two forms is past 10^12 in size.
///
/// # Errors
///
/// Want of memory.
pub fn form_compare(alloc: Global, a: &Form, b: &Form, factor: i64) -> Result<Form, AllocError>
    requires first { IsTrue (is_bounded a.now) }
    requires second { IsTrue (is_bounded b.now) }
    requires factor { unsigned_abs factor ≤ 1_000_000 }
    ensures { IfOk result (λ form. form ≡ form_compared factor a.now b.now) }
{
    let (first, second) = (a.lend(), b.lend());
    let mut draft = Draft::for_both(alloc, first, second)?;
    draft.set_comparison(first, second, factor);
    Ok(draft.into_form())
}

// The form whose coefficients and constant are what an operation gives on those of two forms.
fn form_by(
    alloc: Global,
    operation: Operation,
    a: FormRef<'_>,
    b: FormRef<'_>,
) -> Result<Form, NumRefusal>
    requires operation { IsOperation operation }
    requires usable { (raw : ℤ) → IsTrue (is_usable operation raw) }
    ensures told { TellsForm result
        (form_by (combined operation) (lent_form a.entry) (lent_form b.entry)) }
    ensures bounded { IfOk result (λ form. IsTrue (is_bounded form)) }
{
    let mut draft = Draft::for_both(alloc, a, b)?;
    match draft.set_by(operation, a, b) {
        Ok(()) => Ok(draft.into_form()),
        Err(_) => Err(NumRefusal::Overflow),
    }
}
