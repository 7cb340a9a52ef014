//! Tightening of ranges by rows.

ghost use Rattle.std.specs.Prelude.{◌≡◌, ◌≢◌, ◌<◌, ◌≤◌, ◌-◌, ◌*◌, ◌^◌, suc, length, pos, neg_ℤ, negsuc, ◌-ℤ◌, ◌≤ℤ◌, unsigned_abs, IfSome};
ghost use Rattle.std.specs.Int.{int_div_euclid};
ghost use Rattle.lt_bounds.specs.Rows.{rows_of, reach, ReachesAll, AreWholeRows};
ghost use Rattle.lt_bounds.specs.Tightening.{tightened, told, least_of, least_sum, cut, where_some, is_broken, row_taken, rows_taken};
ghost use Rattle.lt_bounds.specs.Ranges.{size_of, AreSome, IsNarrower};
ghost use Rattle.lt_bounds.specs.inner.Passed.{passed, IsKept};

use crate::rows::Rows;
use crate::sums::{least_of, least_sum};
use lt_num::Interval;

/// What tightening finds.
#[derive(Clone, Copy, Debug, PartialEq, Eq)]
pub enum Tight {
    /// A range would be left without a number, or a row without a variable is over 0: no point of the ranges
    /// satisfies all rows. The step that would have emptied the range isn't done.
    Empty,

    /// Each point that satisfies all rows is one of the ranges as they are now.
    Narrowed,
}

// What a pass, or one row of it, did.
#[derive(Clone, Copy, PartialEq, Eq)]
enum Passed {
    // A range would be without a number.
    Empty,

    // No range was changed.
    Kept,

    // Some range may have been changed.
    Changed,
}

/// Tightens ranges, one for each variable, by whole rows: in at most 8 passes over the rows. Each range has a
/// number before and, also where the answer is [`Tight::Empty`], after it; none gets wider.
///
/// For each row, the sizes of its coefficients times those of the ranges, and that of its constant, are below 2^126
/// in sum.
pub fn tighten(ranges: &mut [Interval], rows: &Rows) -> Tight
    requires whole { AreWholeRows rows.now.width rows.now.cells.items ranges.old }
    requires some { AreSome ranges.old }
    requires reaches { ReachesAll (rows_of rows.now) ranges.old }
    ensures outcome { told result ranges.new ≡ tightened (rows_of rows.now) ranges.old }
    ensures narrower { IsNarrower ranges.old ranges.new }
{
    for _ in 0..8u32 {
        match pass(ranges, rows) {
            Passed::Empty => return Tight::Empty,
            Passed::Kept => return Tight::Narrowed,
            Passed::Changed => {}
        }
    }
    Tight::Narrowed
}

// One pass over the rows.
fn pass(ranges: &mut [Interval], rows: &Rows) -> Passed
    requires whole { AreWholeRows rows.now.width rows.now.cells.items ranges.old }
    requires some { AreSome ranges.old }
    requires reaches { ReachesAll (rows_of rows.now) ranges.old }
    ensures outcome { passed result ranges.new ≡ rows_taken (rows_of rows.now) ranges.old }
    ensures kept { IsKept result → ranges.new ≡ ranges.old }
    ensures narrower { IsNarrower ranges.old ranges.new }
{
    let mut changed = false;
    let mut rest: &[i128] = &rows.cells;
    while !rest.is_empty() {
        let (row, after) = rest.split_at(rows.width);
        match take_row(ranges, row) {
            Passed::Empty => return Passed::Empty,
            Passed::Changed => changed = true,
            Passed::Kept => {}
        }
        rest = after;
    }
    if changed {
        Passed::Changed
    } else {
        Passed::Kept
    }
}

// Takes the variables of a row, in order.
fn take_row(ranges: &mut [Interval], row: &[i128]) -> Passed
    requires width { length row.now ≡ suc (length ranges.old) }
    requires some { AreSome ranges.old }
    requires reach { reach row.now ranges.old < 2 ^ 126 }
    ensures outcome { passed result ranges.new ≡ row_taken row.now ranges.old }
    ensures kept { IsKept result → ranges.new ≡ ranges.old }
    ensures narrower { IsNarrower ranges.old ranges.new }
{
    if is_broken(row) {
        return Passed::Empty;
    }
    let least = least_sum(row, ranges);
    let mut changed = false;
    for i in 0..ranges.len() {
        let range = ranges[i];
        let Some(cut) = cut_in_row(row[i], least, range) else {
            return Passed::Empty;
        };
        if cut != range {
            ranges[i] = cut;
            changed = true;
        }
    }
    if changed {
        Passed::Changed
    } else {
        Passed::Kept
    }
}

// Whether a row has no coefficient but 0, and a constant over 0.
fn is_broken(row: &[i128]) -> bool
    requires { 0 < length row.now }
    ensures { result ≡ is_broken row.now (length row.now - 1) }
{
    let variables = row.len() - 1;
    for i in 0..variables {
        if row[i] != 0 {
            return false;
        }
    }
    row[variables] > 0
}

/// The range that a term of a row leaves to its variable, where `least` is the row's least value; none where it has no
/// number.
pub fn cut_in_row(coefficient: i128, least: i128, range: Interval) -> Option<Interval>
    requires some { range.low ≤ℤ range.high }
    requires reach { unsigned_abs coefficient * size_of range < 2 ^ 126 }
    requires least { unsigned_abs least < 2 ^ 126 }
    ensures value { result ≡ where_some
        (cut coefficient (least -ℤ least_of coefficient range) range) }
    ensures inside { IfSome result (λ r. (range.low ≤ℤ r.low) × (r.low ≤ℤ r.high) ×
        (r.high ≤ℤ range.high)) }
{
    let others = least - least_of(coefficient, range);
    cut(coefficient, others, range)
}

// The range that a term leaves to its variable where the others are at least `others`; none where it has
// no number.
fn cut(coefficient: i128, others: i128, range: Interval) -> Option<Interval>
    requires some { range.low ≤ℤ range.high }
    requires others { unsigned_abs others < 2 ^ 127 }
    ensures value { result ≡ where_some (cut coefficient others range) }
    ensures inside { IfSome result (λ r. (range.low ≤ℤ r.low) × (r.low ≤ℤ r.high) ×
        (r.high ≤ℤ range.high)) }
{
    if coefficient == 0 {
        return Some(range);
    }
    let bound = quotient(others, coefficient);
    let (low, high) = (i128::from(range.low), i128::from(range.high));
    if coefficient > 0 {
        if bound < low {
            None
        } else if bound < high {
            Some(Interval {
                low: range.low,
                high: bound as i64,
            })
        } else {
            Some(range)
        }
    } else if bound > high {
        None
    } else if bound > low {
        Some(Interval {
            low: bound as i64,
            high: range.high,
        })
    } else {
        Some(range)
    }
}

// Minus a number, divided by a coefficient: rounded down where that is positive, and else up.
fn quotient(others: i128, coefficient: i128) -> i128
    requires others { unsigned_abs others < 2 ^ 127 }
    requires coefficient { coefficient ≢ pos 0 }
    ensures { result ≡ int_div_euclid (neg_ℤ others) coefficient }
{
    match coefficient {
        1 => -others,
        -1 => others,
        _ => long_quotient(-others, coefficient),
    }
}

// A number divided by another one, in Euclid's way. Most have 64 bits, whose quotients take less time.
fn long_quotient(number: i128, divisor: i128) -> i128
    requires number { unsigned_abs number < 2 ^ 127 }
    requires divisor { divisor ≢ pos 0 }
    requires several { divisor ≢ negsuc 0 }
    ensures { result ≡ int_div_euclid number divisor }
{
    match (i64::try_from(number), i64::try_from(divisor)) {
        (Ok(short), Ok(by)) => i128::from(short.div_euclid(by)),
        _ => number.div_euclid(divisor),
    }
}
