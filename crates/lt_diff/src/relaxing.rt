//! One pivot of a closure.

ghost use Rattle.std.specs.Prelude.{◌≡◌, ◌≢◌, ◌*◌, ◌<◌, ◌≤◌, ◌↔◌, ℕ, ℤ, Bool, true, false, pos, ◌≤ℤ◌, length};
ghost use Rattle.lt_diff.specs.Bounds.{AreLess, HasSameSolutions, StaysStated, cell_of};
ghost use Rattle.lt_diff.specs.Limits.{most_variables};
ghost use Rattle.lt_diff.specs.Closing.{AreStated, AreWithin, IsClosed, IsWithin};
ghost use Rattle.lt_diff.specs.Walks.{HasNegativeCycle};
ghost use Rattle.lt_diff.specs.inner.Pivots.{HasNegative, IsFlat, IsPivoted, IsRelaxed};

use crate::square::NO_BOUND;

// Closes the bounds of a square of cells; false where they contradict each other.
pub(crate) fn close(cells: &mut [i64], size: usize) -> bool
    requires square { length cells.old ≡ size * size }
    requires some { 0 < size }
    requires few { size ≤ most_variables }
    requires stated { AreStated size (cell_of size cells.old) }
    ensures cycle { result ≡ false ↔ HasNegativeCycle size (cell_of size cells.old) }
    ensures closed { result ≡ true → IsClosed size (cell_of size cells.new) }
    ensures stated { result ≡ true → AreStated size (cell_of size cells.new) }
    ensures same { result ≡ true →
        HasSameSolutions size (cell_of size cells.old) (cell_of size cells.new) }
    ensures less { result ≡ true → AreLess size (cell_of size cells.old) (cell_of size cells.new) }
    ensures kept { result ≡ true →
        StaysStated size (cell_of size cells.old) (cell_of size cells.new) }
{
    if !is_flat(cells, size) {
        return false;
    }
    for pivot in 0..size {
        relax(cells, size, pivot);
        if !is_flat(cells, size) {
            return false;
        }
    }
    true
}

// Whether no variable is to be under itself.
fn is_flat(cells: &[i64], size: usize) -> bool
    requires square { length cells.now ≡ size * size }
    requires few { size ≤ most_variables }
    ensures flat { result ≡ true → IsFlat size (cell_of size cells.now) }
    ensures negative { result ≡ false → HasNegative size (cell_of size cells.now) }
{
    for variable in 0..size {
        if cells[variable * size + variable] < 0 {
            return false;
        }
    }
    true
}

// Relaxes each cell by way of `pivot`: the bound that follows from two bounds through it is stated too.
fn relax(cells: &mut [i64], size: usize, pivot: usize)
    requires square { length cells.old ≡ size * size }
    requires few { size ≤ most_variables }
    requires pivot { pivot < size }
    requires within { AreWithin 67600000000000000 size (cell_of size cells.old) }
    requires flat { pos 0 ≤ℤ cell_of size cells.old pivot pivot }
    ensures { IsPivoted size pivot (cell_of size cells.old) (cell_of size cells.new) }
{
    for row in 0..size {
        if row != pivot {
            relax_row(cells, size, pivot, row);
        }
    }
}

// Relaxes the cells of a row.
fn relax_row(cells: &mut [i64], size: usize, pivot: usize, row: usize)
    requires square { length cells.old ≡ size * size }
    requires few { size ≤ most_variables }
    requires pivot { pivot < size }
    requires row { row < size }
    requires apart { row ≢ pivot }
    requires first { IsWithin 67600000000000000 (cell_of size cells.old row pivot) }
    requires second { (b : ℕ) → b < size →
        IsWithin 67600000000000000 (cell_of size cells.old pivot b) }
    ensures relaxed { (b : ℕ) → b < size →
        IsRelaxed (cell_of size cells.old row b) (cell_of size cells.old row pivot)
        (cell_of size cells.old pivot b) (cell_of size cells.new row b) }
    ensures others { (a b : ℕ) → b < size → a ≢ row →
        cell_of size cells.new a b ≡ cell_of size cells.old a b }
{
    let first = cells[row * size + pivot];
    if first == NO_BOUND {
        return;
    }
    for column in 0..size {
        let second = cells[pivot * size + column];
        cells[row * size + column] = relaxed(cells[row * size + column], first, second);
    }
}

// What a cell becomes: the sum of two others, where both are stated and it is less.
fn relaxed(cell: i64, first: i64, second: i64) -> i64
    requires first { IsWithin 67600000000000000 first }
    requires second { IsWithin 67600000000000000 second }
    ensures { IsRelaxed cell first second result }
{
    if first == NO_BOUND {
        return cell;
    }
    if second == NO_BOUND {
        return cell;
    }
    let sum = first + second;
    if sum < cell { sum } else { cell }
}
