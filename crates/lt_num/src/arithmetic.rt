//! Sums, products and quotients: the exact result, rounded once.

ghost use Rattle.std.specs.Prelude.{◌≡◌, ◌≢◌, ◌^◌, ◌≤◌, pos, ◌+ℤ◌, ◌-ℤ◌, ◌*ℤ◌, unsigned_abs, Err};
ghost use Rattle.lt_num.specs.Answer.{bounded, IsRounded};
ghost use Rattle.lt_num.specs.Bounds.{most_decimals};
ghost use Rattle.lt_num.specs.Rounding.{nearest};

use crate::fault::Arith;
use crate::fixed::Fixed;

// How large in size a raw number may be: `most_raw` of `specs/Bounds.antt`.
const MOST: u128 = 1_000_000_000_000;

/// The sum.
///
/// # Errors
///
/// [`Arith::Overflow`] where the raw sum is past 10^12 in size.
pub fn add(a: Fixed, b: Fixed) -> Result<Fixed, Arith>
    ensures { result ≡ bounded (a.raw +ℤ b.raw) }
{
    within(i128::from(a.raw) + i128::from(b.raw))
}

/// The difference.
///
/// # Errors
///
/// [`Arith::Overflow`] where the raw difference is past 10^12 in size.
pub fn sub(a: Fixed, b: Fixed) -> Result<Fixed, Arith>
    ensures { result ≡ bounded (a.raw -ℤ b.raw) }
{
    within(i128::from(a.raw) - i128::from(b.raw))
}

/// The product of two numbers with so many decimals, 0 to 6, rounded to as many.
///
/// # Errors
///
/// [`Arith::Overflow`] where the rounded raw product is past 10^12 in size.
pub fn mul(a: Fixed, b: Fixed, decimals: u32) -> Result<Fixed, Arith>
    requires { decimals ≤ most_decimals }
    ensures rounded { IsRounded (a.raw *ℤ b.raw) (pos (10 ^ decimals)) result }
    ensures value { result ≡ bounded (nearest (a.raw *ℤ b.raw) (pos (10 ^ decimals))) }
{
    rounded(
        i128::from(a.raw) * i128::from(b.raw),
        i128::from(power_of_ten(decimals)),
    )
}

/// The quotient of two reals with so many decimals, 0 to 6, rounded to as many.
///
/// # Errors
///
/// [`Arith::DivisionByZero`] where `b` is 0, and else [`Arith::Overflow`] where the rounded raw
/// quotient is past 10^12 in size.
pub fn div(a: Fixed, b: Fixed, decimals: u32) -> Result<Fixed, Arith>
    requires { decimals ≤ most_decimals }
    ensures by_zero { b.raw ≡ pos 0 → result ≡ Err Arith.DivisionByZero }
    ensures rounded { b.raw ≢ pos 0 → IsRounded (a.raw *ℤ pos (10 ^ decimals)) b.raw result }
    ensures value { b.raw ≢ pos 0 →
        result ≡ bounded (nearest (a.raw *ℤ pos (10 ^ decimals)) b.raw) }
{
    if b.raw == 0 {
        return Err(Arith::DivisionByZero);
    }
    rounded(scaled(i128::from(a.raw), decimals), i128::from(b.raw))
}

/// 10 to a power of at most 17.
pub(crate) fn power_of_ten(exponent: u32) -> u64
    requires { exponent ≤ 17 }
    ensures value { result ≡ 10 ^ exponent }
    ensures least { 1 ≤ result }
    ensures most { result ≤ 100_000_000_000_000_000 }
{
    10u64.pow(exponent)
}

/// A number times 10 to the power of `decimals`.
pub(crate) fn scaled(value: i128, decimals: u32) -> i128
    requires value { unsigned_abs value ≤ 2 ^ 64 }
    requires decimals { decimals ≤ most_decimals }
    ensures value { result ≡ value *ℤ pos (10 ^ decimals) }
    ensures bound { unsigned_abs result ≤ 2 ^ 126 }
{
    value * i128::from(power_of_ten(decimals))
}

/// The whole number nearest to a rational, as a value.
pub(crate) fn rounded(numerator: i128, divisor: i128) -> Result<Fixed, Arith>
    requires numerator { unsigned_abs numerator ≤ 2 ^ 126 }
    requires divisor { unsigned_abs divisor ≤ 2 ^ 64 }
    requires not_zero { divisor ≢ pos 0 }
    ensures { result ≡ bounded (nearest numerator divisor) }
{
    let (above, below) = (numerator.unsigned_abs(), divisor.unsigned_abs());
    let size = (2 * above + below) / (2 * below);
    if size > MOST {
        return Err(Arith::Overflow);
    }
    let raw = size as i64;
    let negative = (numerator < 0) != (divisor < 0);
    Ok(Fixed {
        raw: if negative { -raw } else { raw },
    })
}

/// A raw number, where it is within bounds.
pub(crate) fn within(raw: i128) -> Result<Fixed, Arith>
    ensures { result ≡ bounded raw }
{
    if raw.unsigned_abs() > MOST {
        return Err(Arith::Overflow);
    }
    Ok(Fixed { raw: raw as i64 })
}
