//! Numbers that are kept of expressions.

ghost use Rattle.std.specs.Prelude.{◌≡◌, ◌<◌, ℕ, Some, IfOk, IsTrue, length, slice_set};
ghost use Rattle.lt_space.specs.inner.Kept.{are_free, number_at};
ghost use Rattle.lt_space.specs.inner.Cell.{are_past, number_in};

use std::alloc::{AllocError, Global};

// A number, with the stamp of the memo when it was written.
#[derive(Clone, Copy)]
struct Cell {
    stamp: u32,
    number: u32,
}

// A cell that no memo has written.
const UNWRITTEN: Cell = Cell {
    stamp: 0,
    number: 0,
};

/// Numbers that are kept of expressions, by the numbers of these. A clearing takes all away, and doesn't cost more
/// where there are many: a cell whose stamp isn't that of the memo keeps none.
#[derive(Drop)]
pub(crate) struct Memo {
    cells: Vec<Cell>,
    stamp: u32,
    ghost past: { IsTrue (are_past stamp cells.items) },
}

impl Memo {
    ghost use Rattle.lt_space.specs.inner.Memo.{memo_numbers};

    /// A memo for so many expressions. It keeps none.
    #[tactic(auto, using(crate::proofs::Memos::unwrittens))]
    pub(crate) fn make(alloc: Global, count: usize) -> Result<Memo, AllocError>
        ensures len { IfOk result (λ memo. length (memo_numbers memo) ≡ count) }
        ensures free { IfOk result (λ memo. IsTrue (are_free (memo_numbers memo))) }
    {
        Ok(Memo {
            cells: vec![in alloc; UNWRITTEN; count]?,
            stamp: 1,
        })
    }

    /// The number of an expression, if there is one.
    pub(crate) fn find(&self, exp: u32) -> Option<u32>
        requires { exp < length (memo_numbers self.now) }
        ensures { result ≡ number_at (memo_numbers self.now) exp }
    {
        self.number_in(self.cells[exp as usize])
    }

    /// Keeps a number of an expression.
    pub(crate) fn keep(&mut self, exp: u32, number: u32)
        requires { exp < length (memo_numbers self.old) }
        ensures { memo_numbers self.new ≡ slice_set (memo_numbers self.old) exp (Some number) }
    {
        self.cells[exp as usize] = Cell {
            stamp: self.stamp,
            number,
        };
    }

    /// Takes all numbers away.
    pub(crate) fn clear(&mut self)
        ensures len { length (memo_numbers self.new) ≡ length (memo_numbers self.old) }
        ensures free { IsTrue (are_free (memo_numbers self.new)) }
    {
        if self.stamp == u32::MAX {
            self.restart();
        } else {
            self.stamp += 1;
        }
    }

    // Takes all numbers away where no later stamp is left.
    #[tactic(auto, using(crate::proofs::Memos::unwrittens))]
    fn restart(&mut self)
        ensures len { length (memo_numbers self.new) ≡ length (memo_numbers self.old) }
        ensures free { IsTrue (are_free (memo_numbers self.new)) }
    {
        self.cells.fill(UNWRITTEN);
        self.stamp = 1;
    }

    // The number in a cell, if it was written since the last clearing.
    fn number_in(&self, cell: Cell) -> Option<u32>
        ensures { result ≡ number_in self.now.stamp cell }
    {
        if cell.stamp == self.stamp {
            Some(cell.number)
        } else {
            None
        }
    }
}
