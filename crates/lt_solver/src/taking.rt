//! A variable that is drawn is fixed: at the first place from its aim on that a point has that passes.

ghost use Rattle.std.specs.Prelude.{◌≡◌, ◌<◌, ◌≤◌, ◌+◌, false, true, length, slice_set, vec_capacity};
ghost use Rattle.lt_bounds.specs.Places.{AreScaled};
ghost use Rattle.lt_bounds.specs.Ranges.{range_at};
ghost use Rattle.lt_formula.specs.Box.{IsInBox};
ghost use Rattle.lt_formula.specs.Solution.{comes_before};
ghost use Rattle.lt_num.specs.Interval.{IsWithin};
ghost use Rattle.lt_propagation.specs.Domains.{AreDomains};
ghost use Rattle.lt_propagation.specs.Ties.{AreTies};
ghost use Rattle.lt_space.specs.CircuitView.{circuit_len};
ghost use Rattle.lt_space.specs.SpaceView.{space_circuit, space_decimals, space_root};
ghost use Rattle.lt_solver.specs.inner.Classified.{passes};
ghost use Rattle.lt_solver.specs.inner.Dive.{Covers, IsDiving};
ghost use Rattle.lt_solver.specs.inner.Drawing.{IsTaken, Passes, place_of, place_only};

use crate::diving::is_any_open;
use crate::first_point::is_plainly_true;
use crate::parting::{first_left, is_left, only};
use crate::witnessing::is_witness_found;
use lt_formula::Scale;
use lt_num::Interval;
use lt_propagation::RefuteScratch;
use lt_space::Space;

/// Fixes a variable at the first place in a direction that some point of the box that passes has, from one on up to one that is that
/// of `witness`; then that is such a point. It says whether that was found at once. `spare` is room for a point.
pub(crate) fn take(
    space: &Space,
    same: &[u32],
    scales: &[Scale],
    starts: &[i64],
    i: usize,
    start: i64,
    stop: i64,
    is_down: bool,
    left: &mut u64,
    current: &mut [Interval],
    widened: &mut [Interval],
    point: &mut Vec<Interval>,
    room: &mut RefuteScratch,
    misses: &mut u32,
    witness: &mut [i64],
    spare: &mut [i64],
) -> bool
    requires ties { AreTies (space_circuit space.now) same.now }
    requires place { i < length starts.now }
    requires dives { IsDiving (space_decimals space.now) (space_circuit space.now)
        (space_root space.now) scales.now starts.now i current.old widened.old }
    requires start { IsWithin (range_at current.old i) start }
    requires order { comes_before is_down stop start ≡ false }
    requires witness { Passes (passes space.now scales.now) current.old witness.old }
    requires stop { place_of witness.old i ≡ stop }
    requires spare { length spare.old ≡ length current.old }
    requires point { length current.old ≤ vec_capacity point.old }
    requires copy { length widened.old ≤ vec_capacity room.old.current }
    requires kleenes { circuit_len (space_circuit space.now) ≤ vec_capacity room.old.kleenes }
    ensures dives { result ≡ true → IsDiving (space_decimals space.now) (space_circuit space.now)
        (space_root space.now) scales.now starts.now (i + 1) current.new widened.new }
    ensures taken { result ≡ true → IsTaken (passes space.now scales.now) current.old current.new i
        is_down start stop }
    ensures witness { result ≡ true → Passes (passes space.now scales.now) current.new witness.new }
    ensures point { vec_capacity point.old ≤ vec_capacity point.new }
    ensures copy { vec_capacity room.old.current ≤ vec_capacity room.new.current }
    ensures kleenes { vec_capacity room.new.kleenes ≡ vec_capacity room.old.kleenes }
{
    if is_last_open(scales, widened, i)
        && passes_with(space, scales, i, start, current, witness, spare)
    {
        witness.copy_from_slice(spare);
        current[i] = only(start);
        return true;
    }
    let Some(place) = first_left(
        space, same, scales, i, start, stop, is_down, left, current, widened, room,
    ) else {
        return false;
    };
    if place == stop {
        return is_fixed_at(space, same, scales, i, place, current, widened, room);
    }
    current[i] = only(place);
    widened.copy_from_slice(&room.current);
    is_witness_found(
        space, same, scales, starts, current, widened, point, room, misses, witness, spare,
    )
}

// Whether no variable behind one has several values.
fn is_last_open(scales: &[Scale], widened: &[Interval], i: usize) -> bool
    requires place { i < length scales.now }
    requires long { length scales.now ≤ length widened.now }
{
    !is_any_open(&widened[i + 1..scales.len()])
}

// Whether a point with one place changed is found to pass as it stands; it is written then.
fn passes_with(
    space: &Space,
    scales: &[Scale],
    i: usize,
    place: i64,
    current: &[Interval],
    witness: &[i64],
    changed: &mut [i64],
) -> bool
    requires within { i < length current.now }
    requires scaled { AreScaled scales.now current.now }
    requires place { IsWithin (range_at current.now i) place }
    requires witness { IsInBox current.now witness.now }
    requires changed { length changed.old ≡ length current.now }
    ensures found { result ≡ true →
        Passes (passes space.now scales.now) (slice_set current.now i (place_only place)) changed.new }
{
    changed.copy_from_slice(witness);
    changed[i] = place;
    is_plainly_true(
        space.circuit(),
        space.root(),
        space.decimals(),
        scales,
        changed,
        current,
    )
}

// Fixes a variable at a place of the box, and propagates that; says whether anything is left.
fn is_fixed_at(
    space: &Space,
    same: &[u32],
    scales: &[Scale],
    i: usize,
    place: i64,
    current: &mut [Interval],
    widened: &mut [Interval],
    room: &mut RefuteScratch,
) -> bool
    requires ties { AreTies (space_circuit space.now) same.now }
    requires within { i < length current.old }
    requires scaled { AreScaled scales.now current.old }
    requires long { length widened.old ≡
        length current.old + circuit_len (space_circuit space.now) }
    requires domains { AreDomains widened.old }
    requires covers { Covers (space_decimals space.now) (space_circuit space.now)
        (space_root space.now) scales.now current.old widened.old }
    requires place { IsWithin (range_at current.old i) place }
    requires copy { length widened.old ≤ vec_capacity room.old.current }
    ensures current { result ≡ true → current.new ≡ slice_set current.old i (place_only place) }
    ensures covers { result ≡ true →
        Covers (space_decimals space.now) (space_circuit space.now) (space_root space.now)
        scales.now (slice_set current.old i (place_only place)) widened.new }
    ensures same { result ≡ true → widened.new ≡ room.new.current.items }
    ensures domains { result ≡ true → AreDomains widened.new }
    ensures copy { vec_capacity room.old.current ≤ vec_capacity room.new.current }
    ensures kleenes { vec_capacity room.new.kleenes ≡ vec_capacity room.old.kleenes }
{
    let part = only(place);
    if !is_left(space, same, scales, i, part, current, widened, room) {
        return false;
    }
    current[i] = part;
    widened.copy_from_slice(&room.current);
    true
}
