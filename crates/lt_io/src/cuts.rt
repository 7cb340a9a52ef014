//! The pieces in which an object in memory gives or takes bytes.

ghost use Rattle.std.specs.Prelude.{◌≡◌, ◌<◌, ◌≤◌, ℕ, List, drop, vec_len};
ghost use Rattle.lt_io.specs.Cuts.{most_of};

use std::marker::Model;

// The most bytes of each piece still to come, in turn.
#[derive(Drop)]
pub(crate) struct Cuts {
    all: Vec<usize>,
    // How many of them were used.
    used: usize,
}

impl Model for Cuts {
    ghost Value = { List ℕ };

    ghost view = { λ c. drop c.used c.all.items };

    ghost invariant = { λ c. c.used ≤ vec_len c.all };
}

impl Cuts {
    // These cuts, of which none was used.
    pub(crate) fn new(all: Vec<usize>) -> Self
        ensures { result ≡ all.items }
    {
        Cuts { all, used: 0 }
    }

    // The most bytes of the next piece, in this much space. Its cut is used.
    #[tactic(auto, using(crate::proofs::Pieces::drop_one_more))]
    pub(crate) fn next(&mut self, space: usize) -> usize
        ensures most { result ≡ most_of self.old space }
        ensures some { 0 < space → 0 < result }
        ensures used { self.new ≡ drop 1 self.old }
    {
        let Some(cut) = self.all[self.used..].first().copied() else {
            return space;
        };
        self.used += 1;
        cut.max(1).min(space)
    }
}
