//! Products that stop at the greatest need.

ghost use Rattle.std.specs.Prelude.{◌≡◌, ◌≤◌, ◌*◌, ◌^◌, All, min};
ghost use Rattle.lt_num.specs.Range.{HasPoints, count_of};
ghost use Rattle.lt_need.specs.Need.{most_need};
ghost use Rattle.lt_need.specs.inner.Points.{marked_points, points_in};

use crate::hard::is_marked;
use lt_num::Range;

// Where a need stops: `most_need`.
const MOST: u128 = 1 << 127;

/// A number times the points of the variables that have a mark, but not more than where needs stop.
pub(crate) fn times_points(need: u128, marks: &[bool], ranges: &[Range]) -> u128
    requires need { need ≤ most_need }
    requires points { All HasPoints ranges.now }
    ensures { result ≡ min (need * marked_points marks.now 0 ranges.now) most_need }
{
    let mut product = need;
    for variable in 0..ranges.len() {
        let points = points_in(is_marked(marks, variable), ranges[variable]);
        product = times(product, points);
    }
    product
}

// How many points a variable has, where it counts.
fn points_in(counts: bool, range: Range) -> u128
    requires { HasPoints range }
    ensures { result ≡ points_in counts range }
{
    if counts { count_of(range) } else { 1 }
}

// How many points a range has.
fn count_of(range: Range) -> u128
    requires { HasPoints range }
    ensures { result ≡ count_of range }
{
    u128::from(range.high.abs_diff(range.low) / range.step.unsigned_abs()) + 1
}

/// A number times a power of three, but not more than where needs stop.
pub(crate) fn times_threes(need: u128, count: usize) -> u128
    requires { need ≤ most_need }
    ensures { result ≡ min (need * 3 ^ count) most_need }
{
    let mut product = need;
    for _ in 0..count {
        product = times(product, 3);
    }
    product
}

// A product, but not more than where needs stop.
fn times(need: u128, count: u128) -> u128
    ensures { result ≡ min (need * count) most_need }
{
    need.saturating_mul(count).min(MOST)
}
