//! Products and quotients of ints: they are whole, and nothing is rounded.

ghost use Rattle.std.specs.Prelude.{◌≡◌};
ghost use Rattle.lt_num.specs.Answer.{whole_product, whole_quotient, whole_remainder};

use crate::arithmetic::within;
use crate::fault::Arith;
use crate::fixed::Fixed;

/// The product of two ints.
///
/// # Errors
///
/// [`Arith::Overflow`] where it is past 10^12 in size.
pub fn product(a: Fixed, b: Fixed) -> Result<Fixed, Arith>
    ensures { result ≡ whole_product a.raw b.raw }
{
    within(i128::from(a.raw) * i128::from(b.raw))
}

/// The quotient of two ints, without its fraction.
///
/// # Errors
///
/// [`Arith::DivisionByZero`] where `b` is 0, and else [`Arith::Overflow`] where the quotient is past
/// 10^12 in size.
pub fn quotient(a: Fixed, b: Fixed) -> Result<Fixed, Arith>
    ensures { result ≡ whole_quotient a.raw b.raw }
{
    if b.raw == 0 {
        return Err(Arith::DivisionByZero);
    }
    within(i128::from(a.raw) / i128::from(b.raw))
}

/// What is left of an int by such a quotient: it has the sign of the first one.
///
/// # Errors
///
/// [`Arith::DivisionByZero`] where `b` is 0, and else [`Arith::Overflow`] where the rest is past 10^12
/// in size.
pub fn remainder(a: Fixed, b: Fixed) -> Result<Fixed, Arith>
    ensures { result ≡ whole_remainder a.raw b.raw }
{
    if b.raw == 0 {
        return Err(Arith::DivisionByZero);
    }
    within(i128::from(a.raw) % i128::from(b.raw))
}
