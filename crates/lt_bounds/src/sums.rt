//! The least and the greatest value of a term, and the least value of a row.

ghost use Rattle.std.specs.Prelude.{◌≡◌, ◌<◌, ◌≤◌, ◌*◌, ◌^◌, suc, length, unsigned_abs};
ghost use Rattle.lt_bounds.specs.Ranges.{size_of, AreSome};
ghost use Rattle.lt_bounds.specs.Rows.{reach};
ghost use Rattle.lt_bounds.specs.Tightening.{least_of, least_sum, greatest_of};

use lt_num::Interval;

/// The least value of a coefficient times a number of a range. The coefficient's size times that of the range
/// is below 2^126.
pub fn least_of(coefficient: i128, range: Interval) -> i128
    requires { unsigned_abs coefficient * size_of range < 2 ^ 126 }
    ensures value { result ≡ least_of coefficient range }
    ensures bound { unsigned_abs result ≤ unsigned_abs coefficient * size_of range }
{
    if coefficient < 0 {
        coefficient * i128::from(range.high)
    } else {
        coefficient * i128::from(range.low)
    }
}

/// The greatest value of a coefficient times a number of a range. The coefficient's size times that of the range
/// is below 2^126.
pub fn greatest_of(coefficient: i128, range: Interval) -> i128
    requires { unsigned_abs coefficient * size_of range < 2 ^ 126 }
    ensures value { result ≡ greatest_of coefficient range }
    ensures bound { unsigned_abs result ≤ unsigned_abs coefficient * size_of range }
{
    if coefficient < 0 {
        coefficient * i128::from(range.low)
    } else {
        coefficient * i128::from(range.high)
    }
}

// The least value of a row within ranges.
pub(crate) fn least_sum(row: &[i128], ranges: &[Interval]) -> i128
    requires width { length row.now ≡ suc (length ranges.now) }
    requires some { AreSome ranges.now }
    requires reach { reach row.now ranges.now < 2 ^ 126 }
    ensures value { result ≡ least_sum row.now ranges.now }
    ensures bound { unsigned_abs result < 2 ^ 126 }
{
    let mut sum = row[ranges.len()];
    for i in 0..ranges.len() {
        sum += least_of(row[i], ranges[i]);
    }
    sum
}
