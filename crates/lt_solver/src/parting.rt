//! The first place of a variable, in a direction, of which something is left in a box: parts of its places of which nothing is
//! left are passed by.

ghost use Rattle.std.specs.Prelude.{◌≡◌, ◌≢◌, ◌<◌, ◌≤◌, ◌+◌, ◌≤ℤ◌, ◌<ℤ◌, ◌+ℤ◌, ◌-ℤ◌, IfSome, MatchOption, ℤ, List, false, true, length, pos, slice_set, unsigned_abs, vec_capacity};
ghost use Rattle.lt_bounds.specs.Places.{AreScaled};
ghost use Rattle.lt_bounds.specs.Ranges.{range_at};
ghost use Rattle.lt_formula.specs.Box.{IsInBox};
ghost use Rattle.lt_formula.specs.Solution.{comes_before};
ghost use Rattle.lt_num.specs.Bounds.{most_raw};
ghost use Rattle.lt_num.specs.Interval.{IsWithin};
ghost use Rattle.lt_propagation.specs.Domains.{AreDomains};
ghost use Rattle.lt_propagation.specs.Ties.{AreTies};
ghost use Rattle.lt_space.specs.CircuitView.{circuit_len};
ghost use Rattle.lt_space.specs.SpaceView.{space_circuit, space_decimals, space_root};
ghost use Rattle.lt_solver.specs.inner.Classified.{passes};
ghost use Rattle.lt_solver.specs.inner.Dive.{Covers};
ghost use Rattle.lt_solver.specs.inner.Drawing.{IsFirstLeft, Passes, place_of, place_only};

use crate::corners::first_end;
use crate::diving::{Pace, last_tried, pace_after_none, pace_after_some};
use crate::widening::copy_box;
use lt_bounds::{places_within, values_within};
use lt_formula::Scale;
use lt_num::Interval;
use lt_propagation::{RefuteScratch, propagate};
use lt_space::Space;

// How many parts of a variable's places are looked at for the first one that is left.
const MOST_PARTS: usize = 32;

/// The first place of a variable in a direction that something is left of in the box, from one on up to one of which it is known.
/// The room has the wide box of that then. None, where it isn't found at once.
pub(crate) fn first_left(
    space: &Space,
    same: &[u32],
    scales: &[Scale],
    i: usize,
    start: i64,
    stop: i64,
    is_down: bool,
    left: &mut u64,
    current: &[Interval],
    widened: &[Interval],
    room: &mut RefuteScratch,
) -> Option<i64>
    requires ties { AreTies (space_circuit space.now) same.now }
    requires within { i < length current.now }
    requires scaled { AreScaled scales.now current.now }
    requires long { length widened.now ≡
        length current.now + circuit_len (space_circuit space.now) }
    requires domains { AreDomains widened.now }
    requires covers { Covers (space_decimals space.now) (space_circuit space.now)
        (space_root space.now) scales.now current.now widened.now }
    requires start { IsWithin (range_at current.now i) start }
    requires stop { IsWithin (range_at current.now i) stop }
    requires order { comes_before is_down stop start ≡ false }
    requires copy { length widened.now ≤ vec_capacity room.old.current }
    ensures first { IfSome result (λ place. IsFirstLeft (passes space.now scales.now) current.now i
        is_down start stop place) }
    ensures covers { IfSome result (λ place. place ≢ stop →
        Covers (space_decimals space.now) (space_circuit space.now) (space_root space.now)
        scales.now (slice_set current.now i (place_only place)) room.new.current.items) }
    ensures long { IfSome result (λ place. place ≢ stop →
        length room.new.current.items ≡ length widened.now) }
    ensures domains { IfSome result (λ place. place ≢ stop → AreDomains room.new.current.items) }
    ensures copy { vec_capacity room.old.current ≤ vec_capacity room.new.current }
    ensures kleenes { vec_capacity room.new.kleenes ≡ vec_capacity room.old.kleenes }
{
    let mut place = start;
    let mut pace = Pace::One;
    for _ in 0..MOST_PARTS {
        if place == stop {
            return Some(place);
        }
        *left = left
            .saturating_sub(room.propagator.agenda.take_work())
            .checked_sub(1)?;
        let part = part_from(place, stop, pace, is_down);
        match places_left(space, same, scales, i, part, current, widened, room) {
            None => {
                place = place_behind(part, is_down);
                pace = pace_after_none(pace);
            }
            Some(places) => {
                place = first_end(places, is_down);
                if places.low == places.high {
                    return Some(place);
                }
                pace = pace_after_some(pace, places);
            }
        }
    }
    None
}

// Some of the places from one on in a direction, up to the one before another: as many as are tried at once.
fn part_from(place: i64, stop: i64, pace: Pace, is_down: bool) -> Interval
    requires place { unsigned_abs place ≤ most_raw }
    requires stop { unsigned_abs stop ≤ most_raw }
    requires apart { place ≢ stop }
    requires order { comes_before is_down stop place ≡ false }
    ensures down { is_down ≡ true →
        (result.high ≡ place) × (stop <ℤ result.low) × (result.low ≤ℤ place) }
    ensures up { is_down ≡ false →
        (result.low ≡ place) × (result.high <ℤ stop) × (place ≤ℤ result.high) }
{
    if is_down {
        Interval {
            low: -last_tried(pace, -place, -(stop + 1)),
            high: place,
        }
    } else {
        Interval {
            low: place,
            high: last_tried(pace, place, stop - 1),
        }
    }
}

// The place behind a part in a direction.
fn place_behind(part: Interval, is_down: bool) -> i64
    requires low { unsigned_abs part.low ≤ most_raw }
    requires high { unsigned_abs part.high ≤ most_raw }
    ensures down { is_down ≡ true → result ≡ part.low -ℤ pos 1 }
    ensures up { is_down ≡ false → result ≡ part.high +ℤ pos 1 }
{
    if is_down { part.low - 1 } else { part.high + 1 }
}

// The places that are left of a part of a variable's in the box. The room has the wide box of that part then.
fn places_left(
    space: &Space,
    same: &[u32],
    scales: &[Scale],
    i: usize,
    part: Interval,
    current: &[Interval],
    widened: &[Interval],
    room: &mut RefuteScratch,
) -> Option<Interval>
    requires ties { AreTies (space_circuit space.now) same.now }
    requires within { i < length current.now }
    requires scaled { AreScaled scales.now current.now }
    requires long { length widened.now ≡
        length current.now + circuit_len (space_circuit space.now) }
    requires domains { AreDomains widened.now }
    requires covers { Covers (space_decimals space.now) (space_circuit space.now)
        (space_root space.now) scales.now current.now widened.now }
    requires low { (range_at current.now i).low ≤ℤ part.low }
    requires some { part.low ≤ℤ part.high }
    requires high { part.high ≤ℤ (range_at current.now i).high }
    requires copy { length widened.now ≤ vec_capacity room.old.current }
    ensures kept { (places : List ℤ) →
        Passes (passes space.now scales.now) (slice_set current.now i part) places →
        MatchOption result ⊥ (λ r. IsWithin r (place_of places i)) }
    ensures inside { IfSome result (λ r. (part.low ≤ℤ r.low) × (r.low ≤ℤ r.high) ×
        (r.high ≤ℤ part.high)) }
    ensures covers { IfSome result (λ _. Covers (space_decimals space.now) (space_circuit space.now)
        (space_root space.now) scales.now (slice_set current.now i part) room.new.current.items) }
    ensures long { length room.new.current.items ≡ length widened.now }
    ensures domains { AreDomains room.new.current.items }
    ensures copy { vec_capacity room.old.current ≤ vec_capacity room.new.current }
    ensures kleenes { vec_capacity room.new.kleenes ≡ vec_capacity room.old.kleenes }
{
    if !is_left(space, same, scales, i, part, current, widened, room) {
        return None;
    }
    let values: &[Interval] = &room.current;
    places_within(scales[i], part, values[i])
}

/// Whether anything is left of a part of a variable's places in the box. The room has the wide box of that then.
pub(crate) fn is_left(
    space: &Space,
    same: &[u32],
    scales: &[Scale],
    i: usize,
    part: Interval,
    current: &[Interval],
    widened: &[Interval],
    room: &mut RefuteScratch,
) -> bool
    requires ties { AreTies (space_circuit space.now) same.now }
    requires within { i < length current.now }
    requires scaled { AreScaled scales.now current.now }
    requires long { length widened.now ≡
        length current.now + circuit_len (space_circuit space.now) }
    requires domains { AreDomains widened.now }
    requires covers { Covers (space_decimals space.now) (space_circuit space.now)
        (space_root space.now) scales.now current.now widened.now }
    requires low { (range_at current.now i).low ≤ℤ part.low }
    requires some { part.low ≤ℤ part.high }
    requires high { part.high ≤ℤ (range_at current.now i).high }
    requires copy { length widened.now ≤ vec_capacity room.old.current }
    ensures covers { result ≡ true → Covers (space_decimals space.now) (space_circuit space.now)
        (space_root space.now) scales.now (slice_set current.now i part) room.new.current.items }
    ensures none { result ≡ false → (places : List ℤ) →
        IsInBox (slice_set current.now i part) places →
        passes space.now scales.now places ≡ false }
    ensures long { length room.new.current.items ≡ length widened.now }
    ensures domains { AreDomains room.new.current.items }
    ensures copy { vec_capacity room.old.current ≤ vec_capacity room.new.current }
    ensures kleenes { vec_capacity room.new.kleenes ≡ vec_capacity room.old.kleenes }
{
    copy_box(widened, &mut room.current);
    room.current[i] = values_within(scales[i], part);
    room.propagator.note(i);
    propagate(
        space.circuit(),
        same,
        space.root(),
        space.decimals(),
        scales,
        &mut room.current,
        &mut room.propagator,
    )
}

/// The interval of one place.
pub(crate) fn only(place: i64) -> Interval
    ensures { result ≡ place_only place }
{
    Interval {
        low: place,
        high: place,
    }
}
