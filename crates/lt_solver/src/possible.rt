//! Points that pass with the least and the greatest place that a variable has in such points.

ghost use Rattle.std.specs.Prelude.{◌≡◌, ◌<◌, ◌≤◌, ◌+◌, ◌≤ℤ◌, IfSome, ℤ, List, false, true, length, slice_set, vec_capacity};
ghost use Rattle.lt_bounds.specs.Places.{AreScaled};
ghost use Rattle.lt_bounds.specs.Ranges.{range_at};
ghost use Rattle.lt_formula.specs.Solution.{comes_before};
ghost use Rattle.lt_num.specs.Interval.{IsWithin};
ghost use Rattle.lt_propagation.specs.Domains.{AreDomains};
ghost use Rattle.lt_propagation.specs.Ties.{AreTies};
ghost use Rattle.lt_space.specs.CircuitView.{circuit_len};
ghost use Rattle.lt_space.specs.SpaceView.{space_circuit, space_decimals, space_root};
ghost use Rattle.lt_solver.specs.inner.Classified.{passes};
ghost use Rattle.lt_solver.specs.inner.Dive.{Covers};
ghost use Rattle.lt_solver.specs.inner.Begun.{IsCopied};
ghost use Rattle.lt_solver.specs.inner.Drawing.{IsFirstLeft, Passes, place_of, place_only};
ghost use Rattle.lt_solver.specs.inner.Ends.{AreEnds};

use crate::corners::{CornerMisses, passes_at_corner};
use crate::parting::{first_left, only};
use crate::recalling::Recall;
use crate::widening::copy_box;
use crate::witnessing::is_found;
use lt_formula::Scale;
use lt_num::Interval;
use lt_propagation::RefuteScratch;
use lt_space::Space;

/// Finds points that pass with the least and the greatest place of a variable, of those in a part of its places: `lowest` becomes
/// the one, and `highest` the other. `highest` is a point that passes before. It says whether both were found at once.
pub(crate) fn are_ends_found(
    space: &Space,
    same: &[u32],
    scales: &[Scale],
    starts: &[i64],
    i: usize,
    part: Interval,
    left: &mut u64,
    current: &[Interval],
    widened: &[Interval],
    point: &mut Vec<Interval>,
    room: &mut RefuteScratch,
    recall: &mut Recall,
    misses: &mut CornerMisses,
    highest: &mut [i64],
    lowest: &mut [i64],
) -> bool
    requires ties { AreTies (space_circuit space.now) same.now }
    requires copied { recall.old.is_copied ≡ true → IsCopied recall.old space.now }
    requires within { i < length current.now }
    requires scaled { AreScaled scales.now current.now }
    requires starts { length starts.now ≡ length current.now }
    requires long { length widened.now ≡
        length current.now + circuit_len (space_circuit space.now) }
    requires domains { AreDomains widened.now }
    requires covers { Covers (space_decimals space.now) (space_circuit space.now)
        (space_root space.now) scales.now current.now widened.now }
    requires part { (range_at current.now i).low ≤ℤ part.low ×
        (part.low ≤ℤ part.high) × (part.high ≤ℤ (range_at current.now i).high) }
    requires all { (places : List ℤ) → Passes (passes space.now scales.now) current.now places →
        IsWithin part (place_of places i) }
    requires highest { Passes (passes space.now scales.now) current.now highest.old }
    requires lowest { length lowest.old ≡ length current.now }
    requires point { length current.now ≤ vec_capacity point.old }
    requires copy { length widened.now ≤ vec_capacity room.old.current }
    requires kleenes { circuit_len (space_circuit space.now) ≤ vec_capacity room.old.kleenes }
    ensures ends { result ≡ true →
        AreEnds (passes space.now scales.now) current.now i lowest.new highest.new }
    ensures point { vec_capacity point.old ≤ vec_capacity point.new }
    ensures copy { vec_capacity room.old.current ≤ vec_capacity room.new.current }
    ensures kleenes { vec_capacity room.new.kleenes ≡ vec_capacity room.old.kleenes }
    ensures circuit { recall.new.circuit ≡ recall.old.circuit }
    ensures decimals { recall.new.decimals ≡ recall.old.decimals }
    ensures flag { recall.new.is_copied ≡ recall.old.is_copied }
{
    if recall.is_copied && recall.tell_ends(space, scales, current, i, lowest, highest) {
        return true;
    }
    if !is_first_found(
        space,
        same,
        scales,
        starts,
        i,
        part.low,
        false,
        left,
        current,
        widened,
        point,
        room,
        &mut misses.low,
        highest,
        lowest,
    ) {
        return false;
    }
    if !is_first_found(
        space,
        same,
        scales,
        starts,
        i,
        part.high,
        true,
        left,
        current,
        widened,
        point,
        room,
        &mut misses.high,
        lowest,
        highest,
    ) {
        return false;
    }
    if recall.is_copied {
        recall.keep_ends(space, scales, current, i, lowest, highest);
    }
    true
}

// Finds a point of a box that passes with the first place of a variable in a direction that such a point has: none comes before
// an end. `known` is a point that passes; `places` becomes the one that is found.
fn is_first_found(
    space: &Space,
    same: &[u32],
    scales: &[Scale],
    starts: &[i64],
    i: usize,
    end: i64,
    is_down: bool,
    left: &mut u64,
    current: &[Interval],
    widened: &[Interval],
    point: &mut Vec<Interval>,
    room: &mut RefuteScratch,
    misses: &mut u32,
    known: &[i64],
    places: &mut [i64],
) -> bool
    requires ties { AreTies (space_circuit space.now) same.now }
    requires within { i < length current.now }
    requires scaled { AreScaled scales.now current.now }
    requires starts { length starts.now ≡ length current.now }
    requires long { length widened.now ≡
        length current.now + circuit_len (space_circuit space.now) }
    requires domains { AreDomains widened.now }
    requires covers { Covers (space_decimals space.now) (space_circuit space.now)
        (space_root space.now) scales.now current.now widened.now }
    requires end { IsWithin (range_at current.now i) end }
    requires first { (other : List ℤ) → Passes (passes space.now scales.now) current.now other →
        comes_before is_down (place_of other i) end ≡ false }
    requires known { Passes (passes space.now scales.now) current.now known.now }
    requires places { length places.old ≡ length current.now }
    requires point { length current.now ≤ vec_capacity point.old }
    requires copy { length widened.now ≤ vec_capacity room.old.current }
    requires kleenes { circuit_len (space_circuit space.now) ≤ vec_capacity room.old.kleenes }
    ensures found { result ≡ true → Passes (passes space.now scales.now) current.now places.new }
    ensures first { result ≡ true → (other : List ℤ) →
        Passes (passes space.now scales.now) current.now other →
        comes_before is_down (place_of other i) (place_of places.new i) ≡ false }
    ensures point { vec_capacity point.old ≤ vec_capacity point.new }
    ensures copy { vec_capacity room.old.current ≤ vec_capacity room.new.current }
    ensures kleenes { vec_capacity room.new.kleenes ≡ vec_capacity room.old.kleenes }
{
    let stop = known[i];
    if stop == end {
        places.copy_from_slice(known);
        return true;
    }
    if passes_at_corner(space, scales, is_down, current, widened, misses, places) {
        return true;
    }
    places.copy_from_slice(known);
    first_found(
        space, same, scales, starts, i, end, stop, is_down, left, current, widened, point, room,
        places,
    )
    .is_some()
}

// The first place of a variable in a direction that some point of the box that passes has, from one on up to one that is that of
// `witness`; then that is such a point. None, where it isn't found at once.
fn first_found(
    space: &Space,
    same: &[u32],
    scales: &[Scale],
    starts: &[i64],
    i: usize,
    start: i64,
    stop: i64,
    is_down: bool,
    left: &mut u64,
    current: &[Interval],
    widened: &[Interval],
    point: &mut Vec<Interval>,
    room: &mut RefuteScratch,
    witness: &mut [i64],
) -> Option<i64>
    requires ties { AreTies (space_circuit space.now) same.now }
    requires within { i < length current.now }
    requires scaled { AreScaled scales.now current.now }
    requires starts { length starts.now ≡ length current.now }
    requires long { length widened.now ≡
        length current.now + circuit_len (space_circuit space.now) }
    requires domains { AreDomains widened.now }
    requires covers { Covers (space_decimals space.now) (space_circuit space.now)
        (space_root space.now) scales.now current.now widened.now }
    requires start { IsWithin (range_at current.now i) start }
    requires order { comes_before is_down stop start ≡ false }
    requires witness { Passes (passes space.now scales.now) current.now witness.old }
    requires stop { place_of witness.old i ≡ stop }
    requires point { length current.now ≤ vec_capacity point.old }
    requires copy { length widened.now ≤ vec_capacity room.old.current }
    requires kleenes { circuit_len (space_circuit space.now) ≤ vec_capacity room.old.kleenes }
    ensures first { IfSome result (λ place. IsFirstLeft (passes space.now scales.now) current.now i
        is_down start stop place) }
    ensures found { IfSome result (λ place.
        Passes (passes space.now scales.now) current.now witness.new) }
    ensures place { IfSome result (λ place. place_of witness.new i ≡ place) }
    ensures point { vec_capacity point.old ≤ vec_capacity point.new }
    ensures copy { vec_capacity room.old.current ≤ vec_capacity room.new.current }
    ensures kleenes { vec_capacity room.new.kleenes ≡ vec_capacity room.old.kleenes }
{
    let place = first_left(
        space, same, scales, i, start, stop, is_down, left, current, widened, room,
    )?;
    if place == stop {
        return Some(place);
    }
    if is_found_at(
        space, same, scales, starts, i, place, current, point, room, witness,
    ) {
        Some(place)
    } else {
        None
    }
}

// Whether a point that passes is found at a place of a variable, of which the room has the wide box; it is written then.
fn is_found_at(
    space: &Space,
    same: &[u32],
    scales: &[Scale],
    starts: &[i64],
    i: usize,
    place: i64,
    current: &[Interval],
    point: &mut Vec<Interval>,
    room: &mut RefuteScratch,
    witness: &mut [i64],
) -> bool
    requires ties { AreTies (space_circuit space.now) same.now }
    requires within { i < length current.now }
    requires scaled { AreScaled scales.now current.now }
    requires starts { length starts.now ≡ length current.now }
    requires witness { length witness.old ≡ length current.now }
    requires place { IsWithin (range_at current.now i) place }
    requires long { length room.old.current.items ≡
        length current.now + circuit_len (space_circuit space.now) }
    requires domains { AreDomains room.old.current.items }
    requires covers { Covers (space_decimals space.now) (space_circuit space.now)
        (space_root space.now) scales.now (slice_set current.now i (place_only place))
        room.old.current.items }
    requires point { length current.now ≤ vec_capacity point.old }
    requires kleenes { circuit_len (space_circuit space.now) ≤ vec_capacity room.old.kleenes }
    ensures found { result ≡ true → Passes (passes space.now scales.now)
        (slice_set current.now i (place_only place)) witness.new }
    ensures point { vec_capacity point.old ≤ vec_capacity point.new }
    ensures copy { vec_capacity room.new.current ≡ vec_capacity room.old.current }
    ensures kleenes { vec_capacity room.new.kleenes ≡ vec_capacity room.old.kleenes }
{
    copy_box(current, point);
    point[i] = only(place);
    is_found(space, same, scales, starts, point, room, witness)
}
