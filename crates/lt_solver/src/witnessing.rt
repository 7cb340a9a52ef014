//! Points of a box that pass: its corner, or the end of a dive.

ghost use Rattle.std.specs.Prelude.{◌≡◌, ◌≤◌, ◌+◌, true, length, vec_capacity};
ghost use Rattle.lt_bounds.specs.Places.{AreScaled};
ghost use Rattle.lt_bounds.specs.Ranges.{AreSome};
ghost use Rattle.lt_formula.specs.Box.{IsInBox};
ghost use Rattle.lt_propagation.specs.Domains.{AreDomains};
ghost use Rattle.lt_propagation.specs.Ties.{AreTies};
ghost use Rattle.lt_space.specs.CircuitView.{circuit_len};
ghost use Rattle.lt_space.specs.SpaceView.{space_circuit, space_decimals, space_root};
ghost use Rattle.lt_solver.specs.inner.Classified.{passes};
ghost use Rattle.lt_solver.specs.inner.Dive.{Covers};
ghost use Rattle.lt_solver.specs.inner.Drawing.{Passes};

use crate::classifying::kleene_within;
use crate::corners::passes_at_corner;
use crate::diving::dive;
use crate::widening::copy_box;
use lt_formula::Scale;
use lt_num::Interval;
use lt_propagation::{Kleene, RefuteScratch};
use lt_space::Space;

/// Finds a point of a box that passes, at its corner or by a dive, and writes it; says whether there was one. `spare` is room for
/// a point.
pub(crate) fn is_witness_found(
    space: &Space,
    same: &[u32],
    scales: &[Scale],
    starts: &[i64],
    current: &[Interval],
    widened: &[Interval],
    point: &mut Vec<Interval>,
    room: &mut RefuteScratch,
    misses: &mut u32,
    witness: &mut [i64],
    spare: &mut [i64],
) -> bool
    requires ties { AreTies (space_circuit space.now) same.now }
    requires scaled { AreScaled scales.now current.now }
    requires starts { length starts.now ≡ length current.now }
    requires long { length widened.now ≡
        length current.now + circuit_len (space_circuit space.now) }
    requires domains { AreDomains widened.now }
    requires covers { Covers (space_decimals space.now) (space_circuit space.now)
        (space_root space.now) scales.now current.now widened.now }
    requires witness { length witness.old ≡ length current.now }
    requires spare { length spare.old ≡ length current.now }
    requires point { length current.now ≤ vec_capacity point.old }
    requires copy { length widened.now ≤ vec_capacity room.old.current }
    requires kleenes { circuit_len (space_circuit space.now) ≤ vec_capacity room.old.kleenes }
    ensures found { result ≡ true → Passes (passes space.now scales.now) current.now witness.new }
    ensures point { vec_capacity point.old ≤ vec_capacity point.new }
    ensures copy { vec_capacity room.old.current ≤ vec_capacity room.new.current }
    ensures kleenes { vec_capacity room.new.kleenes ≡ vec_capacity room.old.kleenes }
{
    if passes_at_corner(space, scales, false, current, widened, misses, spare) {
        witness.copy_from_slice(spare);
        return true;
    }
    copy_box(widened, &mut room.current);
    copy_box(current, point);
    is_found(space, same, scales, starts, point, room, witness)
}

/// Whether a dive from a box, of which the room has the wide box, ends at a point that passes; it is written then.
pub(crate) fn is_found(
    space: &Space,
    same: &[u32],
    scales: &[Scale],
    starts: &[i64],
    point: &mut [Interval],
    room: &mut RefuteScratch,
    witness: &mut [i64],
) -> bool
    requires ties { AreTies (space_circuit space.now) same.now }
    requires scaled { AreScaled scales.now point.old }
    requires starts { length starts.now ≡ length point.old }
    requires witness { length witness.old ≡ length point.old }
    requires long { length room.old.current.items ≡
        length point.old + circuit_len (space_circuit space.now) }
    requires domains { AreDomains room.old.current.items }
    requires covers { Covers (space_decimals space.now) (space_circuit space.now)
        (space_root space.now) scales.now point.old room.old.current.items }
    requires kleenes { circuit_len (space_circuit space.now) ≤ vec_capacity room.old.kleenes }
    ensures found { result ≡ true →
        Passes (passes space.now scales.now) point.old witness.new }
    ensures copy { vec_capacity room.new.current ≡ vec_capacity room.old.current }
    ensures kleenes { vec_capacity room.new.kleenes ≡ vec_capacity room.old.kleenes }
{
    if !dive(
        space.circuit(),
        same,
        space.root(),
        space.decimals(),
        scales,
        starts,
        point,
        &mut room.current,
        &mut room.stack,
        &mut room.propagator,
    ) {
        return false;
    }
    match kleene_within(space, scales, point, &mut room.current, &mut room.kleenes) {
        Kleene::True => {}
        Kleene::False => return false,
        Kleene::Unknown => return false,
    }
    write_first_places(point, witness);
    true
}

// Writes the low ends of a box.
fn write_first_places(places: &[Interval], lows: &mut [i64])
    requires long { length lows.old ≡ length places.now }
    ensures { AreSome places.now → IsInBox places.now lows.new }
{
    for i in 0..lows.len() {
        lows[i] = places[i].low;
    }
}
