//! Reals with two decimals.

ghost use Rattle.std.specs.Prelude.{◌≡◌, ◌≢◌, ◌≤◌, ◌↔◌, ℤ, unsigned_abs, IsTrue, IfSome, IfNone};
ghost use Rattle.lt_num.specs.Bounds.{most_raw};
ghost use Rattle.lt_num.specs.Literal.{IsLiteral, IsNumber, continues_number, is_number, without_minus};
ghost use Rattle.lt_num.specs.Text.{text_of};
ghost use Rattle.lt_plants.specs.Replies.{decimals};

use crate::digits::all_digits;
use lt_num::{Fixed, print, read, text_reads_back};

// How many decimals a plant's reals have.
const DECIMALS: u32 = 2;

/// The real that is printed as this text, of at most 10^12 hundredths in size.
pub fn real_of(text: &[u8]) -> Option<Fixed>
    ensures some { IfSome result (λ real. text.now ≡ text_of decimals real.raw) }
    ensures within { IfSome result (λ real. unsigned_abs real.raw ≤ most_raw) }
    ensures none { IfNone result ((raw : ℤ) → unsigned_abs raw ≤ most_raw →
        text.now ≢ text_of decimals raw) }
{
    text_reads_back();
    if !is_literal(text) {
        return None;
    }
    match read(text, DECIMALS) {
        Ok(real) => printed_as(real, text),
        Err(_) => None,
    }
}

// The real, where it is printed as this text.
fn printed_as(real: Fixed, text: &[u8]) -> Option<Fixed>
    ensures some { IfSome result (λ printed. (printed ≡ real) ×
        (text.now ≡ text_of decimals real.raw)) }
    ensures none { IfNone result (text.now ≢ text_of decimals real.raw) }
{
    let mut printed = [0; 24];
    let count = print(real, DECIMALS, &mut printed);
    if &printed[..count] == text {
        Some(real)
    } else {
        None
    }
}

// Whether a text is a literal.
fn is_literal(text: &[u8]) -> bool
    ensures { IsTrue result ↔ IsLiteral text.now }
{
    match text {
        [b'-', number @ ..] => is_short_number(number),
        _ => is_short_number(text),
    }
}

// Whether a text is a number with no more digits than one may have.
fn is_short_number(text: &[u8]) -> bool
    ensures { IsTrue result ↔ IsNumber text.now }
{
    is_number(text) && text.iter().filter(|byte| byte.is_ascii_digit()).count() <= 18
}

// Whether a text is digits, which may have a point after the first ones.
fn is_number(text: &[u8]) -> bool
    ensures { result ≡ is_number text.now }
{
    match text {
        [first, more @ ..] => first.is_ascii_digit() && continues_number(more),
        [] => false,
    }
}

// Whether a text may follow the first digit of a number.
#[tactic(auto, using(crate::proofs::Reals::after_digits))]
fn continues_number(text: &[u8]) -> bool
    ensures { result ≡ continues_number text.now }
{
    for (place, byte) in text.iter().enumerate() {
        if byte.is_ascii_digit() {
            continue;
        }
        if *byte == b'.' {
            return all_digits(&text[place + 1..]);
        }
        return false;
    }
    true
}
