//! Bounds on differences of variables, by a cell for each two of them.

ghost use Rattle.lt_diff.specs.Limits.{most_bound, most_variables};
ghost use Rattle.std.specs.Prelude.{◌≡◌, ◌≢◌, ◌*◌, ◌<◌, ◌≤◌, ℕ, ℤ, pos, ◌≤ℤ◌, length, get_or};

use crate::relaxing::close;
use crate::square::{NO_BOUND, clear_bounds, negate_row, state};
use lt_formula::Memory;
use std::alloc::Global;

/// How much one variable may be over another, for at most 129 variables, of which variable 0 is the constant 0.
///
/// Bounds are stated one by one with [`bound`](Matrix::bound), before and behind a [`close`](Matrix::close) that answers
/// true; only [`clear`](Matrix::clear) takes them back. No call but [`make`](Matrix::make) takes memory.
#[derive(Debug, Drop)]
pub struct Matrix {
    size: usize,
    cells: Vec<i64>,
    ghost some: { 0 < size },
    ghost few: { size ≤ most_variables },
    ghost square: { length cells.items ≡ size * size },
}

impl Matrix {
    ghost use Rattle.std.specs.Prelude.{◌↔◌, IsTrue, Bool, true, false, IfOk, MatchOption, neg_ℤ};
    ghost use Rattle.lt_diff.specs.Bounds.{AreLess, HaveNoBounds, HasLeasts, HasSameSolutions, IsBounded, IsSolution, StaysStated, no_bound};
    ghost use Rattle.lt_diff.specs.Closing.{AreStated, IsClosed};
    ghost use Rattle.lt_diff.specs.MatrixView.{matrix_cell, matrix_size};
    ghost use Rattle.lt_diff.specs.Walks.{HasNegativeCycle};

    /// A matrix of so many variables, from 1 to 129 with the constant 0, for which no bound is stated.
    ///
    /// # Errors
    ///
    /// Want of memory.
    pub fn make(alloc: Global, size: usize) -> Result<Matrix, Memory>
        requires some { 0 < size }
        requires few { size ≤ most_variables }
        ensures size { IfOk result (λ m. matrix_size m ≡ size) }
        ensures cells { IfOk result (λ m. HaveNoBounds size (matrix_cell m)) }
        ensures stated { IfOk result (λ m. AreStated size (matrix_cell m)) }
    {
        let mut matrix = Matrix {
            size,
            cells: vec![in alloc; 0; size * size]?,
        };
        matrix.clear();
        Ok(matrix)
    }

    /// How many variables it has, with the constant 0.
    pub fn size(&self) -> usize
        ensures { result ≡ matrix_size self.now }
    {
        self.size
    }

    /// How much one variable may be over another; nothing, where no bound is stated.
    pub fn most(&self, a: usize, b: usize) -> Option<i64>
        requires a { a < matrix_size self.now }
        requires b { b < matrix_size self.now }
        ensures { MatchOption result (matrix_cell self.now a b ≡ no_bound)
            (λ most. (matrix_cell self.now a b ≡ most) × (matrix_cell self.now a b ≢ no_bound)) }
    {
        let most = self.cells[a * self.size + b];
        if most == NO_BOUND { None } else { Some(most) }
    }

    /// Takes all bounds back. It may be called at any time, and is all that may be called once the bounds contradict each
    /// other.
    pub fn clear(&mut self)
        ensures size { matrix_size self.new ≡ matrix_size self.old }
        ensures cells { HaveNoBounds (matrix_size self.old) (matrix_cell self.new) }
        ensures stated { AreStated (matrix_size self.old) (matrix_cell self.new) }
    {
        clear_bounds(&mut self.cells, self.size);
    }

    /// States that variable `a` minus variable `b` is at most `most`, which is at most 4 * 10^12 in size: no difference of
    /// two numbers of a scenario is larger.
    pub fn bound(&mut self, a: usize, b: usize, most: i64)
        requires a { a < matrix_size self.old }
        requires b { b < matrix_size self.old }
        requires low { neg_ℤ (pos most_bound) ≤ℤ most }
        requires high { most ≤ℤ pos most_bound }
        requires stated { AreStated (matrix_size self.old) (matrix_cell self.old) }
        ensures size { matrix_size self.new ≡ matrix_size self.old }
        ensures cells { IsBounded (matrix_size self.old) a b most (matrix_cell self.old)
            (matrix_cell self.new) }
        ensures stated { AreStated (matrix_size self.old) (matrix_cell self.new) }
        ensures own { matrix_cell self.new a b ≢ no_bound }
        ensures kept { StaysStated (matrix_size self.old) (matrix_cell self.old)
            (matrix_cell self.new) }
    {
        state(&mut self.cells, self.size, a, b, most);
    }

    /// Whether the bounds don't contradict each other: false exactly where going round from some variable back to it, by
    /// bounds that were stated, sums to less than 0. After true each two variables have the bound that follows from all, the
    /// same values meet the bounds as before, no bound is lost, and further ones may be stated.
    pub fn close(&mut self) -> bool
        requires stated { AreStated (matrix_size self.old) (matrix_cell self.old) }
        ensures size { matrix_size self.new ≡ matrix_size self.old }
        ensures cycle { result ≡ false ↔
            HasNegativeCycle (matrix_size self.old) (matrix_cell self.old) }
        ensures closed { result ≡ true → IsClosed (matrix_size self.old) (matrix_cell self.new) }
        ensures stated { result ≡ true → AreStated (matrix_size self.old) (matrix_cell self.new) }
        ensures same { result ≡ true →
            HasSameSolutions (matrix_size self.old) (matrix_cell self.old) (matrix_cell self.new) }
        ensures less { result ≡ true →
            AreLess (matrix_size self.old) (matrix_cell self.old) (matrix_cell self.new) }
        ensures kept { result ≡ true →
            StaysStated (matrix_size self.old) (matrix_cell self.old) (matrix_cell self.new) }
    {
        close(&mut self.cells, self.size)
    }

    /// The least value of each variable that closed bounds allow, where each variable has a lower bound. They are all taken at
    /// once: together they meet the bounds, and no values that do are smaller anywhere.
    pub fn least_point(&self, into: &mut [i64])
        requires len { length into.old ≡ matrix_size self.now }
        requires closed { IsClosed (matrix_size self.now) (matrix_cell self.now) }
        requires leasts { HasLeasts (matrix_size self.now) (matrix_cell self.now) }
        ensures solution { IsSolution (matrix_size self.now) (matrix_cell self.now) (λ a.
            get_or into.new a (pos 0)) }
        ensures least { (value : ℕ → ℤ) →
            IsSolution (matrix_size self.now) (matrix_cell self.now) value → (a : ℕ) →
            a < matrix_size self.now → get_or into.new a (pos 0) ≤ℤ value a }
    {
        negate_row(&self.cells, self.size, into);
    }
}
