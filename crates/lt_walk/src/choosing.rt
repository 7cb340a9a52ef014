//! Choices on a walk.

ghost use Rattle.std.specs.Prelude.{◌≡◌, ◌≤◌, ◌++◌, ℕ, List, [], ◌∷◌, None, Some, map};
ghost use Rattle.std.specs.Option.{option_to_list};
ghost use Rattle.lt_num.specs.declared.kind.Kind.{Kind};
ghost use Rattle.lt_walk.specs.Asked.{Chosen, IsChoice};
ghost use Rattle.lt_walk.specs.inner.Context.{AreWeights};
ghost use Rattle.lt_walk.specs.inner.Underway.{IsAtChoice, IsAtOrder};
ghost use Rattle.lt_term.specs.Offers.{TermTree, offers_of, offers_of_each};
ghost use Rattle.lt_term.specs.TreeView.{weight};
ghost use Rattle.lt_term.specs.Tree.{branch, leaf, more, no_branch, stop, vanish};
ghost use Rattle.lt_marks.specs.Choices.{weights_in};
ghost use Rattle.lt_marks.specs.Tallied.{AreTallied, IsTallied};
ghost use Rattle.lt_marks.specs.View.{begun, body, choices_of, nodes_of_each};
ghost use Rattle.lt_marks.specs.Walk.{held, capacities};

use crate::chooser::Chooser;
use crate::leaf_weights::LeafWeights;
use crate::weighing::{put_before, weigh};
use lt_marks::{Parts, Track, Walk, meet_turns, meet_weights};

/// Chooses a side of an order, of which this is the first.
pub(crate) fn choose_side<M, C: Chooser<M>>(
    first: &Box<Track>,
    is_fresh: bool,
    walk: &Walk,
    leaf_weights: LeafWeights,
    context: &M,
    chooser: &mut C,
) -> Option<u32>
    requires tallied { IsTallied first.now.value }
    requires weights { AreWeights walk.now.raised.items }
    requires asked { (kinds : List Kind) × (whole : TermTree ℕ) × (most : ℕ) ×
        IsAtOrder (C.is_at chooser.old context.now) whole most (C.come chooser.old) leaf_weights.vanish leaf_weights.go
        walk.now.raised.items (offers_of kinds (begun is_fresh first.now.value)) }
    ensures come { C.come chooser.new ≡ C.come chooser.old ++ option_to_list result }
    ensures ends { result ≡ None → C.left chooser.new ≡ [] }
    ensures at { (kinds : List Kind) (whole : TermTree ℕ) (most : ℕ) →
        IsAtOrder (C.is_at chooser.old context.now) whole most (C.come chooser.old) leaf_weights.vanish leaf_weights.go
        walk.now.raised.items (offers_of kinds (begun is_fresh first.now.value)) →
        Chosen (C.is_at chooser.new context.now whole most) (C.has_stopped chooser.new context.now whole most) result }
{
    match chooser.given() {
        Some(choice) => Some(choice),
        None => chooser.side(context, weigh(first, is_fresh, leaf_weights, &walk.raised)),
    }
}

/// Chooses one of some terms. Where it stops there, the walk has their weights.
pub(crate) fn choose_part<M, C: Chooser<M>>(
    among: &Parts,
    walk: &mut Walk,
    leaf_weights: LeafWeights,
    context: &M,
    chooser: &mut C,
) -> Option<u32>
    requires tallied { AreTallied among.now }
    requires weights { AreWeights walk.old.raised.items }
    requires room { nodes_of_each (choices_of among.now) ≤ (capacities walk.old).weights }
    requires room_before { nodes_of_each (choices_of among.now) ≤ (capacities walk.old).before }
    requires none { walk.old.weights.items ≡ [] }
    requires asked { (kinds : List Kind) × (whole : TermTree ℕ) × (most : ℕ) ×
        IsAtChoice (C.is_at chooser.old context.now) whole most (C.come chooser.old) walk.old.scope.items leaf_weights.vanish leaf_weights.go
        walk.old.raised.items (offers_of_each kinds (choices_of among.now)) }
    ensures come { C.come chooser.new ≡ C.come chooser.old ++ option_to_list result }
    ensures ends { result ≡ None → C.left chooser.new ≡ [] }
    ensures at { (kinds : List Kind) (whole : TermTree ℕ) (most : ℕ) →
        IsAtChoice (C.is_at chooser.old context.now) whole most (C.come chooser.old) walk.old.scope.items leaf_weights.vanish leaf_weights.go
        walk.old.raised.items (offers_of_each kinds (choices_of among.now)) →
        Chosen (C.is_at chooser.new context.now whole most) (C.has_stopped chooser.new context.now whole most) result }
    ensures goes { (choice : ℕ) → result ≡ Some choice → walk.new.weights.items ≡ [] }
    ensures stops { result ≡ None → (left : List ℕ) →
        held left walk.new ≡ record (held left walk.old) { weights = weights_in (choices_of among.now) } }
    ensures constraints { walk.new.constraints ≡ walk.old.constraints }
    ensures lasts { walk.new.lasts ≡ walk.old.lasts }
    ensures scope { walk.new.scope ≡ walk.old.scope }
    ensures raised { walk.new.raised ≡ walk.old.raised }
    ensures capacities { capacities walk.new ≡ capacities walk.old }
{
    match chooser.given() {
        Some(choice) => Some(choice),
        None => {
            meet_weights(walk, among);
            walk.before.clear();
            put_before(among, 0, leaf_weights, &walk.raised, &mut walk.before);
            choose_weighed(walk, context, chooser)
        }
    }
}

/// Chooses one more turn of a counted loop, of which so many are done, or its end.
pub(crate) fn choose_turn<M, C: Chooser<M>>(
    again: &Box<Track>,
    counter: u32,
    done: u64,
    walk: &mut Walk,
    leaf_weights: LeafWeights,
    context: &M,
    chooser: &mut C,
) -> Option<u32>
    requires tallied { IsTallied again.now.value }
    requires weights { AreWeights walk.old.raised.items }
    requires room { 2 ≤ (capacities walk.old).weights }
    requires room_before { 2 ≤ (capacities walk.old).before }
    requires none { walk.old.weights.items ≡ [] }
    requires asked { (kinds : List Kind) × (whole : TermTree ℕ) × (most : ℕ) ×
        IsAtChoice (C.is_at chooser.old context.now) whole most (C.come chooser.old) walk.old.scope.items leaf_weights.vanish leaf_weights.go
        walk.old.raised.items
        (branch (more counter done) (offers_of kinds (body again.now.value)) (branch (stop counter done) (leaf vanish) no_branch)) }
    ensures come { C.come chooser.new ≡ C.come chooser.old ++ option_to_list result }
    ensures ends { result ≡ None → C.left chooser.new ≡ [] }
    ensures at { (kinds : List Kind) (whole : TermTree ℕ) (most : ℕ) →
        IsAtChoice (C.is_at chooser.old context.now) whole most (C.come chooser.old) walk.old.scope.items leaf_weights.vanish leaf_weights.go
        walk.old.raised.items
        (branch (more counter done) (offers_of kinds (body again.now.value)) (branch (stop counter done) (leaf vanish) no_branch)) →
        Chosen (C.is_at chooser.new context.now whole most) (C.has_stopped chooser.new context.now whole most) result }
    ensures goes { (choice : ℕ) → result ≡ Some choice → walk.new.weights.items ≡ [] }
    ensures stops { result ≡ None → (left : List ℕ) →
        held left walk.new ≡ record (held left walk.old) { weights = more counter done ∷ stop counter done ∷ [] } }
    ensures constraints { walk.new.constraints ≡ walk.old.constraints }
    ensures lasts { walk.new.lasts ≡ walk.old.lasts }
    ensures scope { walk.new.scope ≡ walk.old.scope }
    ensures raised { walk.new.raised ≡ walk.old.raised }
    ensures capacities { capacities walk.new ≡ capacities walk.old }
{
    match chooser.given() {
        Some(choice) => Some(choice),
        None => {
            meet_turns(walk, counter, done);
            let turn = weigh(again, true, leaf_weights, &walk.raised);
            walk.before.clear();
            walk.before.push_reserved(0);
            walk.before.push_reserved(turn);
            choose_weighed(walk, context, chooser)
        }
    }
}

// Chooses by the weights that a walk has met.
fn choose_weighed<M, C: Chooser<M>>(walk: &mut Walk, context: &M, chooser: &mut C) -> Option<u32>
    requires ends { C.left chooser.old ≡ [] }
    requires asked { (whole : TermTree ℕ) × (most : ℕ) × C.is_at chooser.old context.now whole most ×
        IsChoice whole (C.come chooser.old) walk.old.scope.items (map weight walk.old.weights.items) walk.old.before.items }
    ensures come { C.come chooser.new ≡ C.come chooser.old ++ option_to_list result }
    ensures left { C.left chooser.new ≡ [] }
    ensures at { (whole : TermTree ℕ) (most : ℕ) → C.is_at chooser.old context.now whole most →
        IsChoice whole (C.come chooser.old) walk.old.scope.items (map weight walk.old.weights.items) walk.old.before.items →
        Chosen (C.is_at chooser.new context.now whole most) (C.has_stopped chooser.new context.now whole most) result }
    ensures goes { (choice : ℕ) → result ≡ Some choice → walk.new.weights.items ≡ [] }
    ensures stops { result ≡ None → walk.new.weights.items ≡ walk.old.weights.items }
    ensures constraints { walk.new.constraints ≡ walk.old.constraints }
    ensures lasts { walk.new.lasts ≡ walk.old.lasts }
    ensures scope { walk.new.scope ≡ walk.old.scope }
    ensures raised { walk.new.raised ≡ walk.old.raised }
    ensures capacities { capacities walk.new ≡ capacities walk.old }
{
    let choice = chooser.part(context, &walk.scope, &walk.weights, &walk.before)?;
    walk.weights.clear();
    Some(choice)
}
