//! Targets in ranges.

ghost use Rattle.std.specs.Prelude.{◌≡◌, ◌%◌, ◌/◌, unsigned_abs};
ghost use Rattle.std.specs.Int.{int_gap};
ghost use Rattle.lt_num.specs.Range.{HasPoints, IsPoint, count_of};
ghost use Rattle.lt_draw.specs.Target.{target_of};

use lt_num::Range;

/// The point of a range that a word aims at: as many steps above the low end as the remainder of the word by the
/// count of the range's points.
pub fn target(range: Range, word: u64) -> i64
    requires { HasPoints range }
    ensures target { result ≡ target_of range word }
    ensures point { IsPoint range result }
{
    let above = place(range, word) * range.step.unsigned_abs();
    (i128::from(range.low) + i128::from(above)) as i64
}

// The place of that point.
fn place(range: Range, word: u64) -> u64
    requires { HasPoints range }
    ensures { result ≡ word % count_of range }
{
    let last = steps_within(range);
    // All the 64-bit numbers are one more than a word can count, and then the word is its own remainder.
    match last.checked_add(1) {
        Some(count) => word % count,
        None => word,
    }
}

// How many steps a range has. Most have a step of 1, which needs no division.
fn steps_within(range: Range) -> u64
    requires { HasPoints range }
    ensures { result ≡ int_gap range.low range.high / unsigned_abs range.step }
{
    let span = range.high.abs_diff(range.low);
    if range.step == 1 {
        span
    } else {
        span / range.step.unsigned_abs()
    }
}
