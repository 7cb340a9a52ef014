//! Who chooses where a walk goes on.

ghost use Rattle.std.specs.Prelude.{◌≡◌, ◌++◌, ℕ, List, [], None, map};
ghost use Rattle.std.specs.Option.{option_to_list};
ghost use Rattle.lt_walk.specs.Asked.{Chosen, IsChoice, IsOrder};
ghost use Rattle.lt_term.specs.Offers.{TermTree};
ghost use Rattle.lt_term.specs.TreeView.{weight};

use lt_term::{Last, Weight};

/// Chooses the parts of choices that a walk goes on with.
pub trait Chooser<M> {
    // The choices of its path that were taken, and those that are left.
    ghost come: { Self → List ℕ };

    ghost left: { Self → List ℕ };

    // It stands at the node to which its path leads in a tree, with so many nodes left at most.
    ghost is_at: { Self → M → TermTree ℕ → ℕ → Type 0 };

    // It goes on from there no further.
    ghost has_stopped: { Self → M → TermTree ℕ → ℕ → Type 0 };

    /// The next choice of its path, if there is one left.
    fn given(&mut self) -> Option<u32>
        ensures come { come self.new ≡ come self.old ++ option_to_list result }
        ensures left { left self.old ≡ option_to_list result ++ left self.new }
        ensures ends { result ≡ None → left self.old ≡ [] }
        ensures at { (context : M) (whole : TermTree ℕ) (most : ℕ) →
            is_at self.old context whole most → is_at self.new context whole most };

    /// Which side of the order at the end of its path to go on with, of which the first has so many nodes; none to stop there.
    fn side(&mut self, context: &M, nodes: u32) -> Option<u32>
        requires ends { left self.old ≡ [] }
        requires asked { (whole : TermTree ℕ) × (most : ℕ) × is_at self.old context.now whole most ×
            IsOrder whole (come self.old) nodes }
        ensures come { come self.new ≡ come self.old ++ option_to_list result }
        ensures left { left self.new ≡ [] }
        ensures at { (whole : TermTree ℕ) (most : ℕ) → is_at self.old context.now whole most →
            IsOrder whole (come self.old) nodes →
            Chosen (is_at self.new context.now whole most) (has_stopped self.new context.now whole most) result };

    /// Which part of the choice at the end of its path to go on with, where these locals are in scope of the weights, and
    /// before each part stand so many nodes; none to stop there.
    fn part(
        &mut self,
        context: &M,
        scope: &[(u32, Last)],
        weights: &[Weight],
        before: &[u32],
    ) -> Option<u32>
        requires ends { left self.old ≡ [] }
        requires asked { (whole : TermTree ℕ) × (most : ℕ) × is_at self.old context.now whole most ×
            IsChoice whole (come self.old) scope.now (map weight weights.now) before.now }
        ensures come { come self.new ≡ come self.old ++ option_to_list result }
        ensures left { left self.new ≡ [] }
        ensures at { (whole : TermTree ℕ) (most : ℕ) → is_at self.old context.now whole most →
            IsChoice whole (come self.old) scope.now (map weight weights.now) before.now →
            Chosen (is_at self.new context.now whole most) (has_stopped self.new context.now whole most) result };
}
