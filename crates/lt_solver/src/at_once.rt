//! Solutions that are drawn inside and found at once: without a search, and with nothing given up but themselves.

ghost use Rattle.std.specs.Prelude.{◌≡◌, ◌≤◌, IsTrue, List, ℕ, length, true, vec_capacity};
ghost use Rattle.lt_bounds.specs.Places.{AreScaled};
ghost use Rattle.lt_bounds.specs.Ranges.{AreSome};
ghost use Rattle.lt_formula.specs.Inside.{inside_solution};
ghost use Rattle.lt_formula.specs.Limits.{most_variables};
ghost use Rattle.lt_formula.specs.Solution.{IsPointOf};
ghost use Rattle.lt_num.specs.declared.range.Range.{Range};
ghost use Rattle.lt_propagation.specs.Ties.{AreTies};
ghost use Rattle.lt_space.specs.CircuitView.{circuit_len};
ghost use Rattle.lt_space.specs.Formula.{holds};
ghost use Rattle.lt_space.specs.Scope.{ranges_in};
ghost use Rattle.lt_space.specs.SpaceView.{space_circuit, space_decimals, space_formula, space_root};
ghost use Rattle.lt_solver.specs.Domains.{are_domains};
ghost use Rattle.lt_solver.specs.inner.Begun.{IsCopied};
ghost use Rattle.lt_solver.specs.inner.Classified.{passes};
ghost use Rattle.lt_solver.specs.inner.Dive.{IsDiving};
ghost use Rattle.lt_solver.specs.inner.Drawing.{Passes, TellsRanges};
ghost use Rattle.lt_solver.specs.inner.Ended.{IsEnd};
ghost use Rattle.lt_solver.specs.inner.Known.{Knows};
ghost use Rattle.lt_solver.specs.inner.Roomy.{IsRoomy, IsWide};

use crate::answering::{write_first, write_places};
use crate::classifying::{BoxRoom, first_open};
use crate::drawing::draw_all;
use crate::recalling::Recall;
use crate::search::SearchEnd;
use crate::search_scratch::SearchScratch;
use crate::widening::{propagate_box, widen};
use crate::witnessing::is_witness_found;
use lt_formula::Scale;
use lt_num::{Interval, Range};
use lt_space::Space;

/// Finds the solution of a space that is drawn inside of what is possible, and writes it; or tells that there is none; or gives up
/// where that isn't found at once. `targets` are points of the ranges, and are changed.
pub(crate) fn draw_at_once(
    space: &Space,
    scope: &[bool],
    ranges: &[Range],
    words: &[u64],
    down: &[bool],
    targets: &mut [i64],
    room: &mut SearchScratch,
    values: &mut [i64],
) -> SearchEnd
    requires domains { IsTrue (are_domains ranges.now) }
    requires few { length ranges.now ≤ most_variables }
    requires words { length words.now ≡ length ranges.now }
    requires targets { length targets.old ≡ length ranges.now }
    requires points { IsPointOf ranges.now targets.old }
    requires values { length values.old ≡ length ranges.now }
    requires roomy { IsRoomy (length ranges.now) (circuit_len (space_circuit space.now)) room.old }
    requires knows { Knows room.old }
    ensures found { IsEnd result
        (inside_solution (λ vs. holds (space_decimals space.now) vs (space_formula space.now))
        (ranges_in scope.now ranges.now) words.now down.now) values.new }
    ensures roomy { (gates : ℕ) → IsRoomy (length ranges.now) gates room.old →
        IsRoomy (length ranges.now) gates room.new }
    ensures gates { vec_capacity room.new.boxes.refuter.kleenes ≡
        vec_capacity room.old.boxes.refuter.kleenes }
    ensures knows { Knows room.new }
{
    let is_known = room.is_known(space, scope);
    write_places(
        scope,
        ranges,
        targets,
        &[],
        &mut room.scales,
        &mut room.current,
        &mut room.starts,
    );
    room.prepare(space, scope, is_known);
    draw_prepared(space, words, down, targets, room, values)
}

// The same, of a room that has the places of all variables upward and is prepared. `witness` is room.
fn draw_prepared(
    space: &Space,
    words: &[u64],
    down: &[bool],
    witness: &mut [i64],
    room: &mut SearchScratch,
    values: &mut [i64],
) -> SearchEnd
    requires scaled { AreScaled room.old.scales.items room.old.current.items }
    requires starts { length room.old.starts.items ≡ length room.old.current.items }
    requires words { length words.now ≡ length room.old.current.items }
    requires witness { length witness.old ≡ length room.old.current.items }
    requires values { length values.old ≡ length room.old.current.items }
    requires ties { AreTies (space_circuit space.now) room.old.same.items }
    requires due { room.old.boxes.recall.is_due ≡ true → IsCopied room.old.boxes.recall space.now }
    requires copied { room.old.boxes.recall.is_copied ≡ true → IsCopied room.old.boxes.recall space.now }
    requires roomy { IsRoomy (length room.old.current.items) (circuit_len (space_circuit space.now))
        room.old }
    ensures found { (ranges : List Range) →
        TellsRanges (λ vs. holds (space_decimals space.now) vs (space_formula space.now))
        room.old.scales.items room.old.current.items ranges → IsEnd result
        (inside_solution (λ vs. holds (space_decimals space.now) vs (space_formula space.now))
        ranges words.now down.now) values.new }
    ensures roomy { (gates : ℕ) → IsRoomy (length room.old.current.items) gates room.old →
        IsRoomy (length room.old.current.items) gates room.new }
    ensures gates { vec_capacity room.new.boxes.refuter.kleenes ≡
        vec_capacity room.old.boxes.refuter.kleenes }
    ensures knows { Knows room.old → Knows room.new }
{
    widen(space, &room.scales, &room.current, &mut room.boxes.widened);
    if !propagate_box(
        space,
        &room.same,
        &room.scales,
        &mut room.current,
        &mut room.boxes.widened,
        &mut room.boxes.refuter.propagator,
        &mut room.boxes.recall,
    ) {
        return SearchEnd::Infeasible;
    }
    // A dive that fails costs much here, since all is left to searches then.
    room.boxes.refuter.propagator.agenda.be_thorough(true);
    draw_propagated(space, words, down, witness, room, values)
}

// The same, of a room whose box is propagated.
fn draw_propagated(
    space: &Space,
    words: &[u64],
    down: &[bool],
    witness: &mut [i64],
    room: &mut SearchScratch,
    values: &mut [i64],
) -> SearchEnd
    requires dives { IsDiving (space_decimals space.now) (space_circuit space.now)
        (space_root space.now) room.old.scales.items room.old.starts.items 0
        room.old.current.items room.old.boxes.widened.items }
    requires words { length words.now ≡ length room.old.current.items }
    requires witness { length witness.old ≡ length room.old.current.items }
    requires values { length values.old ≡ length room.old.current.items }
    requires ties { AreTies (space_circuit space.now) room.old.same.items }
    requires copied { room.old.boxes.recall.is_copied ≡ true → IsCopied room.old.boxes.recall space.now }
    requires roomy { IsRoomy (length room.old.current.items) (circuit_len (space_circuit space.now))
        room.old }
    ensures found { (ranges : List Range) →
        TellsRanges (λ vs. holds (space_decimals space.now) vs (space_formula space.now))
        room.old.scales.items room.old.current.items ranges → IsEnd result
        (inside_solution (λ vs. holds (space_decimals space.now) vs (space_formula space.now))
        ranges words.now down.now) values.new }
    ensures roomy { (variables gates : ℕ) → IsRoomy variables gates room.old →
        IsRoomy variables gates room.new }
    ensures gates { vec_capacity room.new.boxes.refuter.kleenes ≡
        vec_capacity room.old.boxes.refuter.kleenes }
    ensures knows { Knows room.old → Knows room.new }
{
    if !is_witness_at_hand(
        space,
        &room.same,
        &room.scales,
        &room.starts,
        &room.current,
        &mut room.boxes,
        &mut room.corner_misses.low,
        witness,
        values,
    ) {
        return SearchEnd::GivenUp;
    }
    if !draw_all(
        space,
        &room.same,
        &room.scales,
        &room.starts,
        words,
        down,
        &mut room.current,
        &mut room.boxes.widened,
        &mut room.boxes.point,
        &mut room.boxes.refuter,
        &mut room.boxes.recall,
        &mut room.corner_misses,
        witness,
        values,
    ) {
        return SearchEnd::GivenUp;
    }
    write_first(&room.scales, witness, &room.current, values);
    SearchEnd::Solved
}

// Finds a point of a box that passes, and writes it; says whether there was one. `spare` is room for a point.
fn is_witness_at_hand(
    space: &Space,
    same: &[u32],
    scales: &[Scale],
    starts: &[i64],
    current: &[Interval],
    boxes: &mut BoxRoom,
    misses: &mut u32,
    witness: &mut [i64],
    spare: &mut [i64],
) -> bool
    requires ties { AreTies (space_circuit space.now) same.now }
    requires copied { boxes.old.recall.is_copied ≡ true → IsCopied boxes.old.recall space.now }
    requires dives { IsDiving (space_decimals space.now) (space_circuit space.now)
        (space_root space.now) scales.now starts.now 0 current.now boxes.old.widened.items }
    requires witness { length witness.old ≡ length current.now }
    requires spare { length spare.old ≡ length current.now }
    requires wide { IsWide (length current.now) (circuit_len (space_circuit space.now)) boxes.old }
    ensures found { result ≡ true → Passes (passes space.now scales.now) current.now witness.new }
    ensures widened { boxes.new.widened ≡ boxes.old.widened }
    ensures recall { boxes.new.recall ≡ boxes.old.recall }
    ensures wide { (variables gates : ℕ) → IsWide variables gates boxes.old →
        IsWide variables gates boxes.new }
    ensures kleenes { vec_capacity boxes.new.refuter.kleenes ≡
        vec_capacity boxes.old.refuter.kleenes }
{
    if is_witness_told(space, scales, current, &boxes.recall, witness, spare) {
        return true;
    }
    is_witness_found(
        space,
        same,
        scales,
        starts,
        current,
        &boxes.widened,
        &mut boxes.point,
        &mut boxes.refuter,
        misses,
        witness,
        spare,
    )
}

// Whether a point of a box that passes is kept; it is written then. `spare` is room for a point.
fn is_witness_told(
    space: &Space,
    scales: &[Scale],
    current: &[Interval],
    recall: &Recall,
    witness: &mut [i64],
    spare: &mut [i64],
) -> bool
    requires copied { recall.now.is_copied ≡ true → IsCopied recall.now space.now }
    requires some { AreSome current.now }
    ensures { result ≡ true → Passes (passes space.now scales.now) current.now witness.new }
{
    if !recall.is_copied {
        return false;
    }
    let Some(i) = first_open(current) else {
        return false;
    };
    recall.tell_ends(space, scales, current, i, spare, witness)
}
