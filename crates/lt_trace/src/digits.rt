//! Numbers in decimal digits.

ghost use Rattle.std.specs.Prelude.{◌≡◌, ◌<◌, ◌≤◌, ◌+◌, ◌*◌, ◌^◌, ℕ, true, IfSome, None, Some, SomeIff, decimal};
ghost use Rattle.std.specs.Str.{all_ascii_digits};
ghost use Rattle.std.specs.Str.Parse.{digits_value};

/// The number that a text may be written of: that of a text of decimal digits. Whoever asks for it writes it again, and
/// compares.
pub fn number_in(text: &[u8]) -> Option<u128>
    ensures { (n : ℕ) → n < 2 ^ 128 → text.now ≡ decimal n → result ≡ Some n }
{
    digits_in(text)
}

// The number that digits write, however many zeros stand first, if it has 128 bits.
fn digits_in(text: &[u8]) -> Option<u128>
    ensures some { IfSome result (λ v. v ≡ digits_value 10 text.now) }
    ensures none { result ≡ None → all_ascii_digits text.now ≡ true →
        2 ^ 128 ≤ digits_value 10 text.now }
{
    let mut number: u128 = 0;
    for byte in text {
        if !byte.is_ascii_digit() {
            return None;
        }
        match with_digit(number, *byte - b'0') {
            Some(next) => number = next,
            None => return None,
        }
    }
    Some(number)
}

// A number with one more digit.
fn with_digit(number: u128, digit: u8) -> Option<u128>
    ensures { SomeIff result (number * 10 + digit < 2 ^ 128) (number * 10 + digit) }
{
    match number.checked_mul(10) {
        Some(tens) => tens.checked_add(u128::from(digit)),
        None => None,
    }
}
