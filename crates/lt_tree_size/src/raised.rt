//! How many leaves of a tree raise an exception, from those of the trees of its parts.
//!
//! Each number is exact up to 65,537, which stands for more.

ghost use Rattle.std.specs.Prelude.{◌≡◌, ◌≤◌, ℕ, if◌then◌else◌, nat_eq};
ghost use Rattle.lt_term.specs.Offers.{TermTree, in_catch, in_par, in_seq};
ghost use Rattle.lt_term.specs.Process.{Process};
ghost use Rattle.lt_term.specs.Tree.{Branches, Lasts, Weight, branch, ordered, weighted, with_leaves};
ghost use Rattle.lt_tree_size.specs.TallyView.{IsRaised, IsTally};

use crate::capped::joined;
use crate::tally::Tally;

/// A first part, with a second one in place of each leaf that vanishes.
pub fn raised_in_turn(first: Tally, raised: u32, second: u32) -> u32
    requires raised { raised ≤ 65537 }
    requires second { second ≤ 65537 }
    ensures few { result ≤ 65537 }
    ensures is { (z : ℕ) (b : Process ℕ) (u t : TermTree ℕ) →
        IsTally first t → IsRaised raised z t → IsRaised second z u →
        IsRaised result z (with_leaves (in_seq b u) t) }
{
    joined(raised, first.vanishes, second)
}

/// Two sides at once.
pub fn raised_beside(first: Tally, raised: u32, second: u32) -> u32
    requires raised { raised ≤ 65537 }
    requires second { second ≤ 65537 }
    ensures few { result ≤ 65537 }
    ensures is { (z : ℕ) (u t : TermTree ℕ) →
        IsTally first t → IsRaised raised z t → IsRaised second z u →
        IsRaised result z (with_leaves (in_par u) t) }
{
    let leaves = joined(first.vanishes, 1, first.goes);
    joined(raised, leaves, second)
}

/// A part with a handler: so many leaves of the part raise the exception in question, and so many the one that is handled.
pub fn raised_past(raised: u32, is_handled: bool, handled: u32, handler: u32) -> u32
    requires raised { raised ≤ 65537 }
    requires handled { handled ≤ 65537 }
    requires handler { handler ≤ 65537 }
    ensures few { result ≤ 65537 }
    ensures is { (y z : ℕ) (h : Process ℕ) (u t : TermTree ℕ) → is_handled ≡ nat_eq y z →
        IsRaised raised y t → IsRaised handled z t → IsRaised handler y u →
        IsRaised result y (with_leaves (in_catch z h u) t) }
{
    let kept = unless(is_handled, raised);
    joined(kept, handled, handler)
}

/// A choice between two trees, or among a first one and others.
pub fn raised_in_either(first: u32, others: u32) -> u32
    requires first { first ≤ 65537 }
    requires others { others ≤ 65537 }
    ensures few { result ≤ 65537 }
    ensures two { (z : ℕ) (t u : TermTree ℕ) →
        IsRaised first z t → IsRaised others z u → IsRaised result z (ordered t u) }
    ensures more { (z : ℕ) (w : Weight ℕ) (ls : Lasts) (t : TermTree ℕ)
        (bs : Branches ℕ (Process ℕ)) → IsRaised first z t → IsRaised others z (weighted ls bs) →
        IsRaised result z (weighted ls (branch w t bs)) }
{
    joined(first, 1, others)
}

// A number, or 0 where it is not to count.
fn unless(is_handled: bool, number: u32) -> u32
    ensures few { result ≤ number }
    ensures is { result ≡ (if is_handled then 0 else number) }
{
    if is_handled { 0 } else { number }
}
