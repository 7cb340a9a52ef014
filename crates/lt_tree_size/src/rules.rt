//! The tallies of the trees of terms, from those of their parts.

ghost use Rattle.std.specs.Prelude.{◌≤◌, ℕ, List};
ghost use Rattle.lt_term.specs.Offers.{TermTree, in_catch, in_par, in_seq};
ghost use Rattle.lt_term.specs.Process.{Process};
ghost use Rattle.lt_term.specs.Tree.{Branches, Lasts, Weight, branch, ordered, weighted, with_leaves};
ghost use Rattle.lt_tree_size.specs.Tally.{beside_instant};
ghost use Rattle.lt_tree_size.specs.TallyView.{IsRaised, IsTally};

use crate::capped::{grown, joined};
use crate::tally::Tally;

/// A first part, with a second one in place of each leaf that vanishes.
pub fn followed(first: Tally, second: Tally) -> Tally
    ensures { (b : Process ℕ) (u t : TermTree ℕ) → IsTally first t → IsTally second u →
        IsTally result (with_leaves (in_seq b u) t) }
{
    let nodes = grown(first.nodes, first.vanishes, second.nodes);
    let vanishes = joined(0, first.vanishes, second.vanishes);
    let goes = joined(first.goes, first.vanishes, second.goes);
    Tally {
        nodes,
        vanishes,
        goes,
    }
}

/// Two sides at once.
pub fn beside(first: Tally, second: Tally) -> Tally
    ensures { (u t : TermTree ℕ) → IsTally first t → IsTally second u →
        IsTally result (with_leaves (in_par u) t) }
{
    let leaves = joined(first.vanishes, 1, first.goes);
    let nodes = grown(first.nodes, leaves, second.nodes);
    let vanishes = joined(0, first.vanishes, second.vanishes);
    let alone = joined(0, first.vanishes, second.goes);
    let either = joined(second.vanishes, 1, second.goes);
    let goes = joined(alone, first.goes, either);
    Tally {
        nodes,
        vanishes,
        goes,
    }
}

/// A part, with a handler in place of each leaf that raises its exception, of which there are so
/// many.
pub fn caught(part: Tally, raised: u32, handler: Tally) -> Tally
    requires { raised ≤ 65537 }
    ensures { (z : ℕ) (h : Process ℕ) (u t : TermTree ℕ) → IsTally part t →
        IsRaised raised z t → IsTally handler u →
        IsTally result (with_leaves (in_catch z h u) t) }
{
    let nodes = grown(part.nodes, raised, handler.nodes);
    let vanishes = joined(part.vanishes, raised, handler.vanishes);
    let goes = joined(part.goes, raised, handler.goes);
    Tally {
        nodes,
        vanishes,
        goes,
    }
}

/// A choice between two trees.
pub fn either(first: Tally, second: Tally) -> Tally
    ensures { (t u : TermTree ℕ) → IsTally first t → IsTally second u →
        IsTally result (ordered t u) }
{
    let below = joined(first.nodes, 1, second.nodes);
    let nodes = joined(1, 1, below);
    let vanishes = joined(first.vanishes, 1, second.vanishes);
    let goes = joined(first.goes, 1, second.goes);
    Tally {
        nodes,
        vanishes,
        goes,
    }
}

/// A choice by weight with one more part before its others.
pub fn with_part(part: Tally, others: Tally) -> Tally
    ensures { (w : Weight ℕ) (ls : Lasts) (t : TermTree ℕ) (bs : Branches ℕ (Process ℕ)) →
        IsTally part t → IsTally others (weighted ls bs) →
        IsTally result (weighted ls (branch w t bs)) }
{
    let nodes = joined(others.nodes, 1, part.nodes);
    let vanishes = joined(part.vanishes, 1, others.vanishes);
    let goes = joined(part.goes, 1, others.goes);
    Tally {
        nodes,
        vanishes,
        goes,
    }
}

/// A second side beside one instant of the first: what vanishes goes on too.
pub fn alongside(second: Tally) -> Tally
    ensures { (cs : List ℕ) (ls : Lasts) (n : Process ℕ) (u : TermTree ℕ) →
        IsTally second u → IsTally result (beside_instant cs ls n u) }
{
    let goes = joined(second.vanishes, 1, second.goes);
    Tally {
        nodes: second.nodes,
        vanishes: 0,
        goes,
    }
}
