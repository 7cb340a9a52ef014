//! Corners of boxes: the places of all variables that come first in a direction. Where bounds and differences alone narrowed a box,
//! they pass, and nothing has to be propagated to see that.

ghost use Rattle.std.specs.Prelude.{◌≡◌, ◌<◌, ◌≤◌, ◌++◌, ℕ, List, ℤ, false, if◌then◌else◌, length, true};
ghost use Rattle.lt_bounds.specs.Places.{AreScaled};
ghost use Rattle.lt_formula.specs.Box.{IsInBox};
ghost use Rattle.lt_formula.specs.Solution.{comes_before};
ghost use Rattle.lt_formula.specs.Translation.{values_at};
ghost use Rattle.lt_propagation.specs.Domains.{AreDomains};
ghost use Rattle.lt_space.specs.SpaceView.{space_circuit, space_decimals, space_root};
ghost use Rattle.lt_solver.specs.inner.Classified.{passes};
ghost use Rattle.lt_solver.specs.inner.Dive.{Covers};
ghost use Rattle.lt_solver.specs.inner.Drawing.{Passes, place_of};

use crate::first_point::{is_due, is_plainly_true};
use lt_bounds::places_within;
use lt_formula::Scale;
use lt_num::Interval;
use lt_space::Space;

/// How many corners weren't found to pass, one after the other.
#[derive(Clone, Copy)]
pub(crate) struct CornerMisses {
    /// Of those with the least places.
    pub(crate) low: u32,

    /// Of those with the greatest places.
    pub(crate) high: u32,
}

/// Whether the corner of a box in a direction is looked at and found to pass; its places are written then. The wide box has the
/// values of what passes. `misses` counts the corners that weren't found to, one after the other: after many only some are
/// looked at.
pub(crate) fn passes_at_corner(
    space: &Space,
    scales: &[Scale],
    is_down: bool,
    current: &[Interval],
    widened: &[Interval],
    misses: &mut u32,
    places: &mut [i64],
) -> bool
    requires scaled { AreScaled scales.now current.now }
    requires long { length current.now ≤ length widened.now }
    requires domains { AreDomains widened.now }
    requires covers { Covers (space_decimals space.now) (space_circuit space.now)
        (space_root space.now) scales.now current.now widened.now }
    requires places { length places.old ≡ length current.now }
    ensures found { result ≡ true → Passes (passes space.now scales.now) current.now places.new }
    ensures first { result ≡ true → (i : ℕ) → i < length current.now → (other : List ℤ) →
        Passes (passes space.now scales.now) current.now other →
        comes_before is_down (place_of other i) (place_of places.new i) ≡ false }
{
    if is_due(*misses)
        && write_corner(scales, is_down, current, widened, places)
        && is_plainly_true(
            space.circuit(),
            space.root(),
            space.decimals(),
            scales,
            places,
            current,
        )
    {
        *misses = 0;
        return true;
    }
    *misses = misses.wrapping_add(1);
    false
}

// Writes the first place in a direction of each variable, of those in a box whose values lie in a wide one; says whether each
// variable has one.
fn write_corner(
    scales: &[Scale],
    is_down: bool,
    current: &[Interval],
    values: &[Interval],
    places: &mut [i64],
) -> bool
    requires scaled { AreScaled scales.now current.now }
    requires long { length current.now ≤ length values.now }
    requires domains { AreDomains values.now }
    requires places { length places.old ≡ length current.now }
    ensures inside { result ≡ true → IsInBox current.now places.new }
    ensures first { result ≡ true → (i : ℕ) → i < length current.now → (other more : List ℤ) →
        IsInBox current.now other → IsInBox values.now (values_at scales.now other ++ more) →
        comes_before is_down (place_of other i) (place_of places.new i) ≡ false }
{
    for j in 0..places.len() {
        let Some(part) = places_within(scales[j], current[j], values[j]) else {
            return false;
        };
        places[j] = first_end(part, is_down);
    }
    true
}

/// The end of an interval that comes first in a direction.
pub(crate) fn first_end(part: Interval, is_down: bool) -> i64
    ensures { result ≡ (if is_down then part.high else part.low) }
{
    if is_down { part.high } else { part.low }
}
