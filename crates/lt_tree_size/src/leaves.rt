//! The tallies of trees of one node.

ghost use Rattle.std.specs.Prelude.{ℕ, List};
ghost use Rattle.lt_term.specs.Process.{Process};
ghost use Rattle.lt_term.specs.Tree.{Lasts, go, leaf, no_branch, nothing, raised, vanish, weighted};
ghost use Rattle.lt_tree_size.specs.TallyView.{IsTally};

use crate::tally::Tally;

/// A leaf that vanishes.
pub fn one_vanish() -> Tally
    ensures { IsTally result (leaf vanish) }
{
    Tally {
        nodes: 1,
        vanishes: 1,
        goes: 0,
    }
}

/// A leaf that goes on.
pub fn one_go() -> Tally
    ensures { (cs : List ℕ) (ls : Lasts) (n : Process ℕ) → IsTally result (leaf (go cs ls n)) }
{
    Tally {
        nodes: 1,
        vanishes: 0,
        goes: 1,
    }
}

/// Any other node: a leaf at which nothing can be done or that raises an exception, and a choice by weight of nothing.
pub fn one_other() -> Tally
    ensures nothing { IsTally result (leaf nothing) }
    ensures raised { (z : ℕ) → IsTally result (leaf (raised z)) }
    ensures none { (ls : Lasts) → IsTally result (weighted ls no_branch) }
{
    Tally {
        nodes: 1,
        vanishes: 0,
        goes: 0,
    }
}
