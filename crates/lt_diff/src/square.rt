//! A square of cells: a row and a column for each variable.

ghost use Rattle.std.specs.Prelude.{◌≡◌, ◌≢◌, ◌*◌, ◌<◌, ◌≤◌, ℕ, ℤ, pos, neg_ℤ, ◌≤ℤ◌, length, get_or};
ghost use Rattle.lt_diff.specs.Bounds.{HaveNoBounds, IsBounded, StaysStated, cell_of, no_bound};
ghost use Rattle.lt_diff.specs.Limits.{most_bound, most_variables};
ghost use Rattle.lt_diff.specs.Closing.{AreStated};

/// The cell of two variables for which no bound is stated.
pub(crate) const NO_BOUND: i64 = i64::MAX;

/// Takes all bounds back.
pub(crate) fn clear_bounds(cells: &mut [i64], size: usize)
    requires square { length cells.old ≡ size * size }
    requires few { size ≤ most_variables }
    ensures { HaveNoBounds size (cell_of size cells.new) }
{
    cells.fill(NO_BOUND);
    for variable in 0..size {
        cells[variable * size + variable] = 0;
    }
}

/// States a bound of `a` over `b`.
pub(crate) fn state(cells: &mut [i64], size: usize, a: usize, b: usize, most: i64)
    requires square { length cells.old ≡ size * size }
    requires few { size ≤ most_variables }
    requires a { a < size }
    requires b { b < size }
    requires low { neg_ℤ (pos most_bound) ≤ℤ most }
    requires high { most ≤ℤ pos most_bound }
    requires stated { AreStated size (cell_of size cells.old) }
    ensures cells { IsBounded size a b most (cell_of size cells.old) (cell_of size cells.new) }
    ensures stated { AreStated size (cell_of size cells.new) }
    ensures own { cell_of size cells.new a b ≢ no_bound }
    ensures kept { StaysStated size (cell_of size cells.old) (cell_of size cells.new) }
{
    let place = a * size + b;
    cells[place] = cells[place].min(most);
}

/// Minus the cells of the first row.
pub(crate) fn negate_row(cells: &[i64], size: usize, into: &mut [i64])
    requires some { 0 < size }
    requires square { length cells.now ≡ size * size }
    requires few { size ≤ most_variables }
    requires len { length into.old ≡ size }
    requires low { (a : ℕ) → a < size →
        neg_ℤ (pos 9223372036854775807) ≤ℤ cell_of size cells.now 0 a }
    ensures { (a : ℕ) → a < size → get_or into.new a (pos 0) ≡ neg_ℤ (cell_of size cells.now 0 a) }
{
    for variable in 0..size {
        into[variable] = -cells[variable];
    }
}
