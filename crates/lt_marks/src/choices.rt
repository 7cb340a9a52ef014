//! The choices that terms offer by weight.

ghost use Rattle.std.specs.Prelude.{◌≡◌, ◌<◌, ◌≤◌, ◌+◌, ◌++◌, ℕ, List, [], ◌∷◌, length, map};
ghost use Rattle.lt_term.specs.Tree.{expression, more, stop, weights_of};
ghost use Rattle.lt_term.specs.TreeView.{weight};
ghost use Rattle.lt_marks.specs.Choices.{weights_in};
ghost use Rattle.lt_marks.specs.View.{choices_of, nodes_of_each};
ghost use Rattle.lt_marks.specs.Walk.{held, capacities};

use crate::track::Parts;
use crate::walk::Walk;
use lt_num::{Kind, Value};
use lt_term::{Last, Var, Weight};

/// Meets the weights of a counted loop: of one more turn, and of the end.
pub fn meet_turns(walk: &mut Walk, counter: u32, done: u64)
    requires { 2 ≤ (capacities walk.old).weights }
    ensures holds { (left : List ℕ) →
        held left walk.new ≡
        record (held left walk.old) { weights = more counter done ∷ stop counter done ∷ [] } }
    ensures constraints { walk.new.constraints ≡ walk.old.constraints }
    ensures lasts { walk.new.lasts ≡ walk.old.lasts }
    ensures scope { walk.new.scope ≡ walk.old.scope }
    ensures before { walk.new.before ≡ walk.old.before }
    ensures raised { walk.new.raised ≡ walk.old.raised }
    ensures capacities { capacities walk.new ≡ capacities walk.old }
{
    walk.weights.clear();
    walk.weights.push_reserved(Weight::More { counter, done });
    walk.weights.push_reserved(Weight::Stop { counter, done });
}

/// Meets the weights of some terms to choose from.
pub fn meet_weights(walk: &mut Walk, parts: &Parts)
    requires { nodes_of_each (choices_of parts.now) ≤ (capacities walk.old).weights }
    ensures holds { (left : List ℕ) →
        held left walk.new ≡
        record (held left walk.old) { weights = weights_in (choices_of parts.now) } }
    ensures constraints { walk.new.constraints ≡ walk.old.constraints }
    ensures lasts { walk.new.lasts ≡ walk.old.lasts }
    ensures scope { walk.new.scope ≡ walk.old.scope }
    ensures before { walk.new.before ≡ walk.old.before }
    ensures raised { walk.new.raised ≡ walk.old.raised }
    ensures capacities { capacities walk.new ≡ capacities walk.old }
{
    walk.weights.clear();
    push_weights(walk, parts);
}

// Puts the weights of some terms behind others.
#[cycle(weights)]
fn push_weights(walk: &mut Walk, parts: &Parts)
    requires { length walk.old.weights.items + nodes_of_each (choices_of parts.now) ≤
        (capacities walk.old).weights }
    ensures holds { (left : List ℕ) →
        held left walk.new ≡
        record (held left walk.old) {
          weights = map weight walk.old.weights.items ++
              weights_in (choices_of parts.now);
        } }
    ensures constraints { walk.new.constraints ≡ walk.old.constraints }
    ensures lasts { walk.new.lasts ≡ walk.old.lasts }
    ensures scope { walk.new.scope ≡ walk.old.scope }
    ensures before { walk.new.before ≡ walk.old.before }
    ensures raised { walk.new.raised ≡ walk.old.raised }
    ensures capacities { capacities walk.new ≡ capacities walk.old }
{
    if let Parts::Part(number, _, rest) = parts {
        walk.weights.push_reserved(Weight::Exp(*number));
        push_weights(walk, rest);
    }
}
