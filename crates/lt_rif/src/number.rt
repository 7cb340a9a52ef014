//! The numbers that words write.

ghost use Rattle.std.specs.Prelude.{◌≡◌, ◌≤◌, position, Some};
ghost use Rattle.std.specs.List.{before_first, after_first};
ghost use Rattle.std.specs.Option.{option_copied};
ghost use Rattle.std.specs.Str.Parse.{starts_with_minus, without_leading_sign};
ghost use Rattle.lt_num.specs.Rounding.{with_sign};
ghost use Rattle.lt_num.specs.Bounds.{most_decimals};
ghost use Rattle.lt_rif.specs.Judgement.{bounded_raw};
ghost use Rattle.lt_rif.specs.inner.Decimal.{after_mark, IsMove, IsScaled};
ghost use Rattle.lt_rif.specs.Number.{is_mark, is_point, raw_written, truth_written, int_written, real_written};

use crate::decimal::{MOST, digits_of, rounded};
use crate::fault::ValueFault;
use lt_num::Kind;

// The most digits of an int, and of a real before its point and after it.
const MOST_DIGITS: usize = 18;

// The most digits of an exponent.
const MOST_EXPONENT_DIGITS: usize = 3;

/// The raw number of the value of a kind that a word writes. Reals have so many decimals, 0 to 6.
///
/// # Errors
///
/// [`ValueFault::NotAValue`] where the word writes no value of that kind, and
/// [`ValueFault::OutOfRange`] where the raw number is past 10^12 in size.
#[tactic(auto, unfolding(crate::specs::Number::raw_written))]
pub fn raw_of_word(kind: Kind, word: &[u8], decimals: u32) -> Result<i64, ValueFault>
    requires { decimals ≤ most_decimals }
    ensures { result ≡ bounded_raw (raw_written decimals kind word.now) }
{
    match kind {
        Kind::Bool => truth_of(word),
        Kind::Int => int_of(word),
        Kind::Real => real_of(word, decimals),
    }
}

// The truth that a word writes.
fn truth_of(word: &[u8]) -> Result<i64, ValueFault>
    ensures { result ≡ bounded_raw (truth_written word.now) }
{
    match word {
        b"t" | b"T" | b"true" | b"1" => Ok(1),
        b"f" | b"F" | b"false" | b"0" => Ok(0),
        _ => Err(ValueFault::NotAValue),
    }
}

// The int that a word writes.
fn int_of(word: &[u8]) -> Result<i64, ValueFault>
    ensures { result ≡ bounded_raw (int_written word.now) }
{
    let (negative, digits) = split_sign(word);
    match digits_of(digits, 1, MOST_DIGITS) {
        Some(size) => bounded(negative, u128::from(size)),
        None => Err(ValueFault::NotAValue),
    }
}

// The real that a word writes, rounded to so many decimals.
fn real_of(word: &[u8], decimals: u32) -> Result<i64, ValueFault>
    requires { decimals ≤ most_decimals }
    ensures { result ≡ bounded_raw (real_written decimals word.now) }
{
    let (negative, number) = split_sign(word);
    match scaled_of(number) {
        Some(scaled) => match rounded(scaled.size, scaled.right + decimals, scaled.left) {
            Some(size) => bounded(negative, size),
            None => Err(ValueFault::OutOfRange),
        },
        None => Err(ValueFault::NotAValue),
    }
}

/// A whole number of which the point moves: to the right by so many places, and to the left by so many.
#[derive(Clone, Copy, PartialEq, Eq)]
pub struct Scaled {
    pub size: u128,
    pub right: u32,
    pub left: u32,
}

// The real that a text writes which has no sign.
fn scaled_of(number: &[u8]) -> Option<Scaled>
    ensures { IsScaled number.now result }
{
    let (mantissa, exponent) = split_at_mark(number);
    let (whole, decimals) = split_at_point(mantissa);
    if whole.is_empty() && decimals.is_empty() {
        return None;
    }
    let before = digits_of(whole, 0, MOST_DIGITS)?;
    let after = digits_of(decimals, 0, MOST_DIGITS)?;
    let (right, left) = places_of(exponent)?;
    let places = decimals.len() as u32;
    Some(Scaled {
        size: u128::from(before) * 10u128.pow(places) + u128::from(after),
        right,
        left: places + left,
    })
}

// By how many places an exponent moves the point: to the right, and to the left.
fn places_of(exponent: Option<&[u8]>) -> Option<(u32, u32)>
    ensures { IsMove (option_copied exponent.entry) result }
{
    let Some(exponent) = exponent else {
        return Some((0, 0));
    };
    let (negative, digits) = split_sign(exponent);
    let places = digits_of(digits, 1, MOST_EXPONENT_DIGITS)? as u32;
    Some(if negative { (0, places) } else { (places, 0) })
}

// Whether a minus stands first, and what stands after a sign.
fn split_sign(word: &[u8]) -> (bool, &[u8])
    ensures minus { result.0 ≡ starts_with_minus word.now }
    ensures after { result.1.now ≡ without_leading_sign word.now }
{
    match word {
        [b'-', after @ ..] => (true, after),
        [b'+', after @ ..] => (false, after),
        _ => (false, word),
    }
}

// What stands before the mark of an exponent, and what stands after it, where there is one.
fn split_at_mark(number: &[u8]) -> (&[u8], Option<&[u8]>)
    ensures before { result.0.now ≡ before_first is_mark number.now }
    ensures after { option_copied result.1 ≡ after_mark number.now }
{
    match mark_in(number) {
        Some(mark) => (&number[..mark], Some(&number[mark + 1..])),
        None => (number, None),
    }
}

// Where the first mark of an exponent is.
fn mark_in(number: &[u8]) -> Option<usize>
    ensures { result ≡ position is_mark number.now }
{
    number
        .iter()
        .position(|byte| *byte == b'e' || *byte == b'E')
}

// What stands before the point, and what stands after it.
fn split_at_point(mantissa: &[u8]) -> (&[u8], &[u8])
    ensures before { result.0.now ≡ before_first is_point mantissa.now }
    ensures after { result.1.now ≡ after_first is_point mantissa.now }
{
    match point_in(mantissa) {
        Some(point) => (&mantissa[..point], &mantissa[point + 1..]),
        None => (mantissa, &[]),
    }
}

// Where the first point is.
fn point_in(mantissa: &[u8]) -> Option<usize>
    ensures { result ≡ position is_point mantissa.now }
{
    mantissa.iter().position(|byte| *byte == b'.')
}

// The raw number of this size, below 0 or not.
fn bounded(negative: bool, size: u128) -> Result<i64, ValueFault>
    ensures { result ≡ bounded_raw (Some (with_sign negative size)) }
{
    if size > MOST {
        return Err(ValueFault::OutOfRange);
    }
    let raw = size as i64;
    Ok(if negative { -raw } else { raw })
}
