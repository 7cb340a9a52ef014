//! Values by their places, and places by their values.

ghost use Rattle.std.specs.Prelude.{◌≡◌, ◌≢◌, ◌≤◌, ◌*◌, ◌<ℤ◌, ◌≤ℤ◌, ◌*ℤ◌, ◌+ℤ◌, IfSome, MatchOption, ℤ, neg_ℤ, pos, unsigned_abs};
ghost use Rattle.std.specs.Int.{int_div_euclid};
ghost use Rattle.lt_bounds.specs.Places.{IsScaled, values_within};
ghost use Rattle.lt_formula.specs.Translation.{value_by};
ghost use Rattle.lt_num.specs.Bounds.{most_raw};
ghost use Rattle.lt_num.specs.Interval.{IsWithin};

use lt_formula::Scale;
use lt_num::Interval;

/// The value at a place.
pub fn value_at(scale: Scale, place: i64) -> i64
    requires base { unsigned_abs scale.base ≤ most_raw }
    requires value { unsigned_abs (value_by scale place) ≤ most_raw }
    ensures { result ≡ value_by scale place }
{
    scale.base + scale.slope * place
}

/// Between which values those at the places of an interval lie.
pub fn values_within(scale: Scale, places: Interval) -> Interval
    requires scaled { IsScaled scale places }
    ensures value { result ≡ values_within scale places }
{
    let one = value_at(scale, places.low);
    let other = value_at(scale, places.high);
    if scale.slope < 0 {
        Interval {
            low: other,
            high: one,
        }
    } else {
        Interval {
            low: one,
            high: other,
        }
    }
}

/// The places of an interval whose values lie between some; none, where there is no such place.
pub fn places_within(scale: Scale, places: Interval, values: Interval) -> Option<Interval>
    requires scaled { IsScaled scale places }
    requires low { unsigned_abs values.low ≤ most_raw }
    requires high { unsigned_abs values.high ≤ most_raw }
    ensures kept { (place : ℤ) → IsWithin places place → IsWithin values (value_by scale place) →
        MatchOption result ⊥ (λ r. IsWithin r place) }
    ensures inside { IfSome result (λ r. (places.low ≤ℤ r.low) × (r.low ≤ℤ r.high) ×
        (r.high ≤ℤ places.high)) }
{
    let rise = rise_within(scale, values);
    let step = size_of(scale.slope);
    let low = rounded_up(rise.low, step).max(places.low);
    let high = rounded_down(rise.high, step).min(places.high);
    if high < low {
        None
    } else {
        Some(Interval { low, high })
    }
}

// Between which numbers a place times the size of the slope is, where its value lies between some.
fn rise_within(scale: Scale, values: Interval) -> Interval
    requires base { unsigned_abs scale.base ≤ most_raw }
    requires low { unsigned_abs values.low ≤ most_raw }
    requires high { unsigned_abs values.high ≤ most_raw }
    ensures kept { (place : ℤ) → IsWithin values (value_by scale place) →
        IsWithin result (pos (unsigned_abs scale.slope) *ℤ place) }
    ensures low { unsigned_abs result.low ≤ 2 * most_raw }
    ensures high { unsigned_abs result.high ≤ 2 * most_raw }
{
    if scale.slope < 0 {
        Interval {
            low: scale.base - values.high,
            high: scale.base - values.low,
        }
    } else {
        Interval {
            low: values.low - scale.base,
            high: values.high - scale.base,
        }
    }
}

// The size of a slope.
fn size_of(slope: i64) -> i64
    requires { unsigned_abs slope ≤ most_raw }
    ensures { result ≡ pos (unsigned_abs slope) }
{
    if slope < 0 { -slope } else { slope }
}

/// The part of an interval of values between whose ends the values of places lie; none, where no place has a value in the
/// interval.
pub fn points_within(scale: Scale, values: Interval) -> Option<Interval>
    requires slope { scale.slope ≢ pos 0 }
    requires steep { unsigned_abs scale.slope ≤ most_raw }
    requires base { unsigned_abs scale.base ≤ most_raw }
    requires some { values.low ≤ℤ values.high }
    requires low { unsigned_abs values.low ≤ most_raw }
    requires high { unsigned_abs values.high ≤ most_raw }
    ensures kept { (place : ℤ) → IsWithin values (value_by scale place) →
        MatchOption result ⊥ (λ r. IsWithin r (value_by scale place)) }
    ensures inside { IfSome result (λ r. (values.low ≤ℤ r.low) × (r.low ≤ℤ r.high) ×
        (r.high ≤ℤ values.high)) }
{
    let step = size_of(scale.slope);
    if step == 1 {
        return Some(values);
    }
    let low = scale.base - multiple_under(scale.base - values.low, step);
    let high = scale.base + multiple_under(values.high - scale.base, step);
    if high < low {
        None
    } else {
        Some(Interval { low, high })
    }
}

/// The greatest multiple of a step that isn't over a number.
pub fn multiple_under(number: i64, step: i64) -> i64
    requires number { unsigned_abs number ≤ 8 * most_raw }
    requires step { (pos 0 <ℤ step) × (step ≤ℤ pos most_raw) }
    ensures under { result ≤ℤ number }
    ensures near { number ≤ℤ (result +ℤ pos most_raw) }
    ensures greatest { (times : ℤ) → (step *ℤ times) ≤ℤ number → (step *ℤ times) ≤ℤ result }
{
    step * rounded_down(number, step)
}

// A number by a step, rounded down.
fn rounded_down(number: i64, step: i64) -> i64
    requires number { unsigned_abs number ≤ 8 * most_raw }
    requires step { pos 0 <ℤ step }
    ensures value { result ≡ int_div_euclid number step }
    ensures size { unsigned_abs result ≤ 8 * most_raw }
{
    if step == 1 {
        number
    } else {
        number.div_euclid(step)
    }
}

// A number by a step, rounded up.
fn rounded_up(number: i64, step: i64) -> i64
    requires number { unsigned_abs number ≤ 8 * most_raw }
    requires step { pos 0 <ℤ step }
    ensures value { result ≡ neg_ℤ (int_div_euclid (neg_ℤ number) step) }
    ensures size { unsigned_abs result ≤ 8 * most_raw }
{
    -rounded_down(-number, step)
}
