//! How much work a search may need.

ghost use Rattle.std.specs.Prelude.{◌≡◌, ◌<◌, ◌≤◌, All, ℕ, false, length, slice_index_or};
ghost use Rattle.lt_num.specs.Range.{HasPoints};
ghost use Rattle.lt_space.specs.Absorbed.{absorbed};
ghost use Rattle.lt_space.specs.Circuit.{formula_at};
ghost use Rattle.lt_space.specs.CircuitView.{circuit_formulas, circuit_len};
ghost use Rattle.lt_need.specs.Need.{atoms_of, is_hard_variable, need, variables_in};
ghost use Rattle.lt_need.specs.ScratchView.{scratch_gates, scratch_hard};

use crate::conjuncts::choices_of;
use crate::faces::find_faces;
use crate::gathering::gather;
use crate::hard::mark_hard;
use crate::need_scratch::NeedScratch;
use crate::product::{times_points, times_threes};
use lt_num::Range;
use lt_space::Circuit;

/// The need of a search for values of the variables of a scope, within ranges, at which the formula of a gate holds:
/// 180 for each variable of the scope and once more, times the points of its hard variables, times three for each
/// choice of its conjuncts, and 2^127 where that is greater. Afterwards [`NeedScratch::hard`] has its hard variables.
///
/// The scope has a mark for each variable and the ranges a range, by its number. A hard variable that is out of scope
/// has the points of its range nonetheless, and one without a range counts once.
pub fn measure(
    circuit: &Circuit,
    root: u32,
    scope: &[bool],
    ranges: &[Range],
    room: &mut NeedScratch,
) -> u128
    requires root { root < circuit_len circuit.now }
    requires room { circuit_len circuit.now ≤ scratch_gates room.old }
    requires points { All HasPoints ranges.now }
    ensures need { result ≡
        need (formula_at (circuit_formulas circuit.now) root) scope.now ranges.now }
    ensures hard { (i : ℕ) → slice_index_or (scratch_hard room.new) i false ≡ is_hard_variable ranges.now
        (atoms_of (absorbed (formula_at (circuit_formulas circuit.now) root))) i }
    ensures gates { scratch_gates room.new ≡ scratch_gates room.old }
{
    find_faces(circuit, root, &mut room.faces);
    gather(
        circuit,
        &room.faces,
        root,
        &mut room.gathering.marks,
        &mut room.gathering.reached,
    );
    mark_hard(
        circuit,
        &room.gathering.reached,
        ranges,
        &mut room.owners,
        &mut room.shared,
        &mut room.hard,
    );
    let choices = choices_of(
        circuit,
        &room.faces,
        root,
        &mut room.weights,
        &mut room.gathering,
    );
    let variables = 180 * (variables_in(scope) as u128 + 1);
    times_threes(times_points(variables, &room.hard, ranges), choices)
}

/// How many variables a scope has.
pub(crate) fn variables_in(scope: &[bool]) -> usize
    ensures value { result ≡ variables_in scope.now }
    ensures most { result ≤ length scope.now }
{
    let mut count = 0;
    for place in 0..scope.len() {
        if scope[place] {
            count += 1;
        }
    }
    count
}
