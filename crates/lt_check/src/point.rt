//! Whether a circuit's formula holds at a point.

ghost use Rattle.std.specs.Prelude.{◌≡◌, ◌≤◌, ◌<◌, IsTrue, length, map, vec_capacity};
ghost use Rattle.std.specs.List.{list_all};
ghost use Rattle.lt_linear.specs.Form.{is_raw};
ghost use Rattle.lt_num.specs.Bounds.{most_decimals};
ghost use Rattle.lt_space.specs.Circuit.{formula_at};
ghost use Rattle.lt_space.specs.CircuitView.{circuit_formulas, circuit_len};
ghost use Rattle.lt_space.specs.Formula.{holds};
ghost use Rattle.lt_check.specs.inner.Point.{point_of};

use lt_num::Interval;
use lt_propagation::{Kleene, evaluate};
use lt_space::Circuit;

/// Whether the formula of a gate holds at these raw numbers. `points` is room for a range of each of them, and `kleenes` for a
/// truth value of each gate.
pub fn holds_at(
    circuit: &Circuit,
    root: u32,
    decimals: u32,
    values: &[i64],
    points: &mut Vec<Interval>,
    kleenes: &mut Vec<Kleene>,
) -> bool
    requires root { root < circuit_len circuit.now }
    requires decimals { decimals ≤ most_decimals }
    requires values { IsTrue (list_all is_raw values.now) }
    requires points_room { length values.now ≤ vec_capacity points.old }
    requires room { circuit_len circuit.now ≤ vec_capacity kleenes.old }
    ensures holds { result ≡ holds decimals values.now
        (formula_at (circuit_formulas circuit.now) root) }
    ensures points_room { vec_capacity points.new ≡ vec_capacity points.old }
    ensures room { vec_capacity kleenes.new ≡ vec_capacity kleenes.old }
{
    write_points(values, points);
    match evaluate(circuit, root, decimals, points, kleenes) {
        Kleene::True => true,
        // At a point nothing is left open.
        Kleene::False | Kleene::Unknown => false,
    }
}

// Writes numbers as ranges that have one number alone.
fn write_points(values: &[i64], points: &mut Vec<Interval>)
    requires { length values.now ≤ vec_capacity points.old }
    ensures points { points.new.items ≡ map point_of values.now }
    ensures room { vec_capacity points.new ≡ vec_capacity points.old }
{
    points.clear();
    for value in values {
        points.push_reserved(Interval {
            low: *value,
            high: *value,
        });
    }
}
