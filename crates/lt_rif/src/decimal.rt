//! Digits, and rounding.

ghost use Rattle.std.specs.Prelude.{◌≡◌, ◌*◌, ◌^◌, ◌<◌, ◌≤◌, length, IfSome, MatchOption};
ghost use Rattle.lt_num.specs.Bounds.{most_raw};
ghost use Rattle.lt_rif.specs.inner.Decimal.{digits_written, rounded_quotient};

/// The most that a raw number may be in size.
pub const MOST: u128 = 1_000_000_000_000;

/// The number that a text writes that is digits alone, from `least` to `most` of them.
pub fn digits_of(text: &[u8], least: usize, most: usize) -> Option<u64>
    requires { most ≤ 18 }
    ensures value { result ≡ digits_written least most text.now }
    ensures small { IfSome result (λ number. number < 10 ^ length text.now) }
{
    if text.len() < least || text.len() > most {
        return None;
    }
    let mut number: u64 = 0;
    for byte in text {
        if !byte.is_ascii_digit() {
            return None;
        }
        number = number * 10 + u64::from(*byte - b'0');
    }
    Some(number)
}

/// The whole number nearest to a number of which the point moves, or none where it is past the bound of
/// raw numbers.
pub fn rounded(size: u128, right: u32, left: u32) -> Option<u128>
    requires size { size < 10 ^ 36 }
    requires right { right ≤ 2000 }
    requires left { left ≤ 2000 }
    ensures { MatchOption result (most_raw < rounded_quotient (size * 10 ^ right) (10 ^ left)) (λ r.
        r ≡ rounded_quotient (size * 10 ^ right) (10 ^ left)) }
{
    if right >= left {
        enlarged(size, right - left)
    } else {
        Some(reduced(size, left - right))
    }
}

// A number with so many zeros after it, or none where that is past the bound.
fn enlarged(size: u128, zeros: u32) -> Option<u128>
    ensures { MatchOption result (most_raw < size * 10 ^ zeros) (λ r. r ≡ size * 10 ^ zeros) }
{
    if size == 0 {
        return Some(0);
    }
    if zeros > 12 || size > MOST {
        return None;
    }
    Some(size * 10u128.pow(zeros))
}

// A number without so many of its last digits, rounded. With more than 36 digits fewer nothing is left.
fn reduced(size: u128, digits: u32) -> u128
    requires { size < 10 ^ 36 }
    ensures { result ≡ rounded_quotient size (10 ^ digits) }
{
    if digits > 36 {
        return 0;
    }
    let unit = 10u128.pow(digits);
    (2 * size + unit) / (2 * unit)
}
