//! What is drawn inside of what is possible, out of one box that has each point that passes. It is propagated once, and again
//! where a variable is fixed. Corners of boxes and dives find points that pass.

ghost use Rattle.std.specs.Prelude.{◌≡◌, ◌<◌, ◌≤◌, ◌+◌, ◌%◌, ◌≤ℤ◌, ◌+ℤ◌, Some, ℤ, List, if◌then◌else◌, true, length, pos, unsigned_abs, vec_capacity};
ghost use Rattle.std.specs.Int.{int_gap};
ghost use Rattle.lt_bounds.specs.Places.{AreScaled};
ghost use Rattle.lt_formula.specs.Inside.{inside_solution};
ghost use Rattle.lt_formula.specs.Translation.{values_at};
ghost use Rattle.lt_num.specs.declared.range.Range.{Range};
ghost use Rattle.lt_num.specs.Bounds.{most_raw};
ghost use Rattle.lt_propagation.specs.Ties.{AreTies};
ghost use Rattle.lt_space.specs.CircuitView.{circuit_len};
ghost use Rattle.lt_space.specs.Formula.{holds};
ghost use Rattle.lt_space.specs.SpaceView.{space_circuit, space_decimals, space_formula, space_root};
ghost use Rattle.lt_solver.specs.inner.Classified.{passes};
ghost use Rattle.lt_solver.specs.inner.Dive.{IsDiving};
ghost use Rattle.lt_solver.specs.inner.Begun.{IsCopied};
ghost use Rattle.lt_solver.specs.inner.Drawing.{IsDrawn, Passes, TellsRanges};

use crate::answering::mark_at;
use crate::corners::CornerMisses;
use crate::possible::are_ends_found;
use crate::recalling::Recall;
use crate::taking::take;
use lt_bounds::places_within;
use lt_formula::Scale;
use lt_num::Interval;
use lt_propagation::RefuteScratch;
use lt_space::Space;

// How many gates and terms are looked at in all.
const MOST_LOOKS: u64 = 20_000;

/// Draws one variable after another; says whether all were found at once.
pub(crate) fn draw_all(
    space: &Space,
    same: &[u32],
    scales: &[Scale],
    starts: &[i64],
    words: &[u64],
    down: &[bool],
    current: &mut [Interval],
    widened: &mut [Interval],
    point: &mut Vec<Interval>,
    room: &mut RefuteScratch,
    recall: &mut Recall,
    misses: &mut CornerMisses,
    witness: &mut [i64],
    found: &mut [i64],
) -> bool
    requires ties { AreTies (space_circuit space.now) same.now }
    requires copied { recall.old.is_copied ≡ true → IsCopied recall.old space.now }
    requires words { length words.now ≡ length starts.now }
    requires dives { IsDiving (space_decimals space.now) (space_circuit space.now)
        (space_root space.now) scales.now starts.now 0 current.old widened.old }
    requires witness { Passes (passes space.now scales.now) current.old witness.old }
    requires found { length found.old ≡ length current.old }
    requires point { length current.old ≤ vec_capacity point.old }
    requires copy { length widened.old ≤ vec_capacity room.old.current }
    requires kleenes { circuit_len (space_circuit space.now) ≤ vec_capacity room.old.kleenes }
    ensures drawn { result ≡ true → (ranges : List Range) →
        TellsRanges (λ vs. holds (space_decimals space.now) vs (space_formula space.now))
        scales.now current.old ranges →
        inside_solution (λ vs. holds (space_decimals space.now) vs (space_formula space.now))
        ranges words.now down.now ≡ Some (values_at scales.now witness.new) }
    ensures scaled { result ≡ true → AreScaled scales.now current.new }
    ensures witness { result ≡ true → Passes (passes space.now scales.now) current.new witness.new }
    ensures point { vec_capacity point.old ≤ vec_capacity point.new }
    ensures copy { vec_capacity room.old.current ≤ vec_capacity room.new.current }
    ensures kleenes { vec_capacity room.new.kleenes ≡ vec_capacity room.old.kleenes }
    ensures circuit { recall.new.circuit ≡ recall.old.circuit }
{
    let mut left = MOST_LOOKS;
    for i in 0..starts.len() {
        let word = words[i];
        let is_down = mark_at(down, i);
        if !draw_one(
            space, same, scales, starts, i, word, is_down, &mut left, current, widened, point,
            room, recall, misses, witness, found,
        ) {
            return false;
        }
    }
    true
}

// Draws the place of a variable and fixes it, where those before it are fixed; says whether that was found at once. The box has
// each point that passes, and the wide box its values. `witness` is a point that passes, before and after; `found` is room.
fn draw_one(
    space: &Space,
    same: &[u32],
    scales: &[Scale],
    starts: &[i64],
    i: usize,
    word: u64,
    is_down: bool,
    left: &mut u64,
    current: &mut [Interval],
    widened: &mut [Interval],
    point: &mut Vec<Interval>,
    room: &mut RefuteScratch,
    recall: &mut Recall,
    misses: &mut CornerMisses,
    witness: &mut [i64],
    found: &mut [i64],
) -> bool
    requires ties { AreTies (space_circuit space.now) same.now }
    requires copied { recall.old.is_copied ≡ true → IsCopied recall.old space.now }
    requires place { i < length starts.now }
    requires dives { IsDiving (space_decimals space.now) (space_circuit space.now)
        (space_root space.now) scales.now starts.now i current.old widened.old }
    requires witness { Passes (passes space.now scales.now) current.old witness.old }
    requires found { length found.old ≡ length current.old }
    requires point { length current.old ≤ vec_capacity point.old }
    requires copy { length widened.old ≤ vec_capacity room.old.current }
    requires kleenes { circuit_len (space_circuit space.now) ≤ vec_capacity room.old.kleenes }
    ensures dives { result ≡ true → IsDiving (space_decimals space.now) (space_circuit space.now)
        (space_root space.now) scales.now starts.now (i + 1) current.new widened.new }
    ensures drawn { result ≡ true → IsDrawn (passes space.now scales.now) current.old current.new
        i word is_down }
    ensures witness { result ≡ true → Passes (passes space.now scales.now) current.new witness.new }
    ensures point { vec_capacity point.old ≤ vec_capacity point.new }
    ensures copy { vec_capacity room.old.current ≤ vec_capacity room.new.current }
    ensures kleenes { vec_capacity room.new.kleenes ≡ vec_capacity room.old.kleenes }
    ensures circuit { recall.new.circuit ≡ recall.old.circuit }
    ensures decimals { recall.new.decimals ≡ recall.old.decimals }
    ensures flag { recall.new.is_copied ≡ recall.old.is_copied }
{
    let Some(part) = places_within(scales[i], current[i], widened[i]) else {
        return false;
    };
    // One place is left, which the wide box and the witness have already.
    if part.low == part.high {
        current[i] = part;
        return true;
    }
    if !are_ends_found(
        space, same, scales, starts, i, part, left, current, widened, point, room, recall, misses,
        witness, found,
    ) {
        return false;
    }
    let low = found[i];
    let high = witness[i];
    let aim = aim_between(low, high, word);
    let stop = end_of(is_down, low, high, found, witness);
    take(
        space,
        same,
        scales,
        starts,
        i,
        aim,
        stop,
        is_down,
        left,
        current,
        widened,
        point,
        room,
        &mut misses.low,
        witness,
        found,
    )
}

// The end of a part in a direction, and a point with that: `high_places` have the high end, and become those with the low one where
// that is it.
fn end_of(is_down: bool, low: i64, high: i64, low_places: &[i64], high_places: &mut [i64]) -> i64
    requires { length low_places.now ≡ length high_places.old }
    ensures stop { result ≡ (if is_down then low else high) }
    ensures places { high_places.new ≡ (if is_down then low_places.now else high_places.old) }
{
    if !is_down {
        return high;
    }
    high_places.copy_from_slice(low_places);
    low
}

// The place at which a word aims between two.
fn aim_between(low: i64, high: i64, word: u64) -> i64
    requires order { low ≤ℤ high }
    requires small_low { unsigned_abs low ≤ most_raw }
    requires small_high { unsigned_abs high ≤ most_raw }
    ensures { result ≡ low +ℤ pos (word % (int_gap low high + 1)) }
{
    low + (word % (high.abs_diff(low) + 1)) as i64
}
