//! What parts of a tree weigh where their leaves stand for other trees.

ghost use Rattle.std.specs.Prelude.{◌≡◌, ◌<◌, ◌≤◌, ◌+◌, ◌++◌, ◌-◌, ◌*◌, ℕ, List, length, slice_index_or, vec_capacity};
ghost use Rattle.lt_num.specs.declared.kind.Kind.{Kind};
ghost use Rattle.lt_tree_size.specs.Tally.{raises};
ghost use Rattle.lt_term.specs.Offers.{offers_of, offers_of_each};
ghost use Rattle.lt_term.specs.Process.{count, loop};
ghost use Rattle.lt_term.specs.Size.{Weights, capped, tree_weight};
ghost use Rattle.lt_walk.specs.inner.Context.{AreWeights, IsContext, IsWeight};
ghost use Rattle.lt_walk.specs.inner.Spot.{weights_before};
ghost use Rattle.lt_marks.specs.Tallied.{AreTallied, IsTallied};
ghost use Rattle.lt_marks.specs.View.{begun, body, choices_of, nodes_of_each};

use crate::leaf_weights::LeafWeights;
use lt_marks::{Parts, Track, part_raises, part_tally};
use lt_tree_size::{grown, joined};

/// What the tree of a part weighs, at its beginning or where the run stands.
pub(crate) fn weigh(
    part: &Box<Track>,
    is_fresh: bool,
    leaf_weights: LeafWeights,
    weights: &[u32],
) -> u32
    requires tallied { IsTallied part.now.value }
    requires weights { AreWeights weights.now }
    ensures weight { IsWeight result }
    ensures is { (kinds : List Kind) (w : Weights) →
        IsContext leaf_weights.vanish leaf_weights.go weights.now w →
        result ≡ capped (tree_weight w (offers_of kinds (begun is_fresh part.now.value))) }
{
    let tally = part_tally(part, is_fresh);
    let some = grown(tally.nodes, tally.vanishes, leaf_weights.vanish);
    let mut all = grown(some, tally.goes, leaf_weights.go);
    for exception in 0..weights.len() {
        all = with_raised(all, part, is_fresh, exception as u32, weights[exception]);
    }
    all
}

// So much, and what the leaves of a part that raise an exception weigh more than 1.
fn with_raised(number: u32, part: &Box<Track>, is_fresh: bool, exception: u32, weight: u32) -> u32
    requires tallied { IsTallied part.now.value }
    requires number { IsWeight number }
    requires weight { IsWeight weight }
    ensures weight { IsWeight result }
    ensures is { (kinds : List Kind) (x m : ℕ) → 1 ≤ x → 1 ≤ m → number ≡ capped x →
        weight ≡ capped m → result ≡
        capped (x + raises exception (offers_of kinds (begun is_fresh part.now.value)) * (m - 1)) }
{
    if weight == 1 {
        return number;
    }
    let raised = part_raises(part, is_fresh, exception);
    grown(number, raised, weight)
}

/// What a leaf weighs that raises an exception.
pub(crate) fn weight_at(weights: &[u32], exception: u32) -> u32
    requires within { exception < length weights.now }
    ensures is { result ≡ slice_index_or weights.now exception 0 }
{
    weights[exception as usize]
}

/// What a loop weighs that begins a turn, whether it is counted or not. A turn that takes no instant is none.
pub(crate) fn weigh_loop(again: &Box<Track>, leaf_weights: LeafWeights, weights: &[u32]) -> u32
    requires tallied { IsTallied again.now.value }
    requires weights { AreWeights weights.now }
    ensures weight { IsWeight result }
    ensures loops { (kinds : List Kind) (w : Weights) →
        IsContext leaf_weights.vanish leaf_weights.go weights.now w →
        result ≡ capped (tree_weight w (offers_of kinds (loop (body again.now.value)))) }
    ensures counts { (i done : ℕ) (kinds : List Kind) (w : Weights) →
        IsContext leaf_weights.vanish leaf_weights.go weights.now w →
        result ≡ capped (tree_weight w (offers_of kinds (count i done (body again.now.value)))) }
{
    let inside = LeafWeights {
        vanish: 1,
        go: leaf_weights.go,
    };
    let turn = weigh(again, true, inside, weights);
    let parts = joined(turn, 1, leaf_weights.vanish);
    joined(parts, 1, 1)
}

/// Puts how many nodes stand before each of some terms to choose from, behind so many.
#[cycle(before)]
pub(crate) fn put_before(
    among: &Parts,
    nodes: u32,
    leaf_weights: LeafWeights,
    weights: &[u32],
    before: &mut Vec<u32>,
)
    requires tallied { AreTallied among.now }
    requires weights { AreWeights weights.now }
    requires few { nodes ≤ 65537 }
    requires room { length before.old.items + nodes_of_each (choices_of among.now) ≤ vec_capacity before.old }
    ensures puts { (kinds : List Kind) (w : Weights) (n : ℕ) → IsContext leaf_weights.vanish leaf_weights.go weights.now w → nodes ≡ capped n →
        before.new.items ≡ before.old.items ++ weights_before w n (offers_of_each kinds (choices_of among.now)) }
    ensures room { vec_capacity before.new ≡ vec_capacity before.old }
{
    if let Parts::Part(_, part, rest) = among {
        before.push_reserved(nodes);
        let first = weigh(part, true, leaf_weights, weights);
        put_before(rest, joined(nodes, 1, first), leaf_weights, weights, before);
    }
}
