//! Walks along paths.

ghost use Rattle.std.specs.Prelude.{◌≡◌, ◌<◌, ◌≤◌, ◌+◌, ◌++◌, ℕ, List, [], ◌∷◌, IfOk, length, map, take, vec_capacity};
ghost use Rattle.lt_marks.specs.Walk.{IsRoomy, State, closed, held, capacities, setting_out, settled};

use lt_term::{Last, Weight};
use std::alloc::{AllocError, Global};

/// What stands where a walk ends.
#[derive(Clone, Copy)]
pub enum Reached {
    /// A leaf: the term is over, and takes no instant.
    Vanish,

    /// A leaf at which nothing can be done.
    Nothing,

    /// A leaf: an exception is raised.
    Raised(u32),

    /// A leaf: one instant, in which the constraints hold that the walk has met.
    Go,

    /// A choice between two trees, by their order.
    Ordered,

    /// A choice among trees, by the weights that the walk has met.
    Weighted,
}

/// What a walk along a path takes with it. All its room is reserved when it is made.
#[derive(Drop)]
pub struct Walk {
    /// The constraints of the instant that was reached.
    pub constraints: Vec<u32>,

    /// The locals in scope of the instant that was reached.
    pub lasts: Vec<(u32, Last)>,

    /// The locals in scope of the weights that were reached.
    pub scope: Vec<(u32, Last)>,

    /// These weights.
    pub weights: Vec<Weight>,

    /// How many nodes stand before each of the parts that have these weights.
    pub before: Vec<u32>,

    /// What leaves weigh that raise an exception, by the number of the exception.
    pub raised: Vec<u32>,
}

impl Walk {
    /// A walk in terms of at most so many nodes, where leaves that raise exceptions weigh this.
    pub fn make(alloc: Global, nodes: usize, raised: Vec<u32>) -> Result<Walk, AllocError>
        ensures roomy { IfOk result (IsRoomy nodes) }
        ensures constraints { IfOk result (λ walk. (capacities walk).constraints ≡ nodes) }
        ensures lasts { IfOk result (λ walk. (capacities walk).lasts ≡ nodes) }
        ensures raised { IfOk result (λ walk. walk.raised.items ≡ raised.items) }
    {
        Ok(Walk {
            constraints: Vec::with_capacity(alloc, nodes)?,
            lasts: Vec::with_capacity(alloc, nodes)?,
            scope: Vec::with_capacity(alloc, nodes)?,
            weights: Vec::with_capacity(alloc, nodes)?,
            before: Vec::with_capacity(alloc, nodes)?,
            raised,
        })
    }

    /// Sets out from the root.
    pub fn set_out(&mut self)
        ensures holds { (left : List ℕ) → held left self.new ≡ setting_out left }
        ensures raised { self.new.raised ≡ self.old.raised }
        ensures capacities { capacities self.new ≡ capacities self.old }
        ensures constraints { self.new.constraints.items ≡ [] }
        ensures lasts { self.new.lasts.items ≡ [] }
        ensures scope { self.new.scope.items ≡ [] }
        ensures weights { self.new.weights.items ≡ [] }
    {
        self.constraints.clear();
        self.lasts.clear();
        self.scope.clear();
        self.weights.clear();
    }

    /// Meets a constraint.
    pub fn meet(&mut self, constraint: u32)
        requires { length self.old.constraints.items < (capacities self.old).constraints }
        ensures holds { (left : List ℕ) →
            held left self.new ≡
            record (held left self.old) { constraints = self.old.constraints.items ++ constraint ∷ [] } }
        ensures len { length self.new.constraints.items ≡ length self.old.constraints.items + 1 }
        ensures lasts { self.new.lasts ≡ self.old.lasts }
        ensures scope { self.new.scope ≡ self.old.scope }
        ensures weights { self.new.weights ≡ self.old.weights }
        ensures raised { self.new.raised ≡ self.old.raised }
        ensures capacities { capacities self.new ≡ capacities self.old }
    {
        self.constraints.push_reserved(constraint);
    }

    /// Takes all constraints but the first ones back, where no instant was reached.
    pub fn settle(&mut self, reached: Reached, constraints: usize)
        ensures holds { (left : List ℕ) →
            held left self.new ≡ settled reached constraints (held left self.old) }
        ensures few { length self.new.constraints.items ≤ length self.old.constraints.items }
        ensures lasts { self.new.lasts ≡ self.old.lasts }
        ensures scope { self.new.scope ≡ self.old.scope }
        ensures weights { self.new.weights ≡ self.old.weights }
        ensures raised { self.new.raised ≡ self.old.raised }
        ensures capacities { capacities self.new ≡ capacities self.old }
    {
        match reached {
            Reached::Go => {}
            _ => self.constraints.truncate(constraints),
        }
    }

    /// Takes all constraints and locals of an instant back but the first ones.
    pub fn keep(&mut self, constraints: usize, lasts: usize)
        ensures holds { (left : List ℕ) →
            held left self.new ≡
            record (held left self.old)
            { constraints = take constraints self.old.constraints.items; lasts = take lasts self.old.lasts.items } }
        ensures few_constraints { length self.new.constraints.items ≤ length self.old.constraints.items }
        ensures few_lasts { length self.new.lasts.items ≤ length self.old.lasts.items }
        ensures scope { self.new.scope ≡ self.old.scope }
        ensures weights { self.new.weights ≡ self.old.weights }
        ensures raised { self.new.raised ≡ self.old.raised }
        ensures capacities { capacities self.new ≡ capacities self.old }
    {
        self.constraints.truncate(constraints);
        self.lasts.truncate(lasts);
    }

    /// Enters the scope of a local.
    pub fn open(&mut self, local: u32, last: Last)
        requires lasts { length self.old.lasts.items < (capacities self.old).lasts }
        requires scope { length self.old.scope.items < (capacities self.old).scope }
        ensures holds { (left : List ℕ) →
            held left self.new ≡
            record (held left self.old) {
              lasts = self.old.lasts.items ++ (local, last) ∷
                  [];
              scope = self.old.scope.items ++ (local, last) ∷ [];
            } }
        ensures len_lasts { length self.new.lasts.items ≡ length self.old.lasts.items + 1 }
        ensures len_scope { length self.new.scope.items ≡ length self.old.scope.items + 1 }
        ensures constraints { self.new.constraints ≡ self.old.constraints }
        ensures weights { self.new.weights ≡ self.old.weights }
        ensures raised { self.new.raised ≡ self.old.raised }
        ensures capacities { capacities self.new ≡ capacities self.old }
    {
        self.lasts.push_reserved((local, last));
        self.scope.push_reserved((local, last));
    }

    /// Leaves the scope of a local: an instant keeps the locals in scope of instants, and a choice
    /// by weight those of weights; all others but the first ones are taken back.
    pub fn close(&mut self, reached: Reached, lasts: usize, scope: usize)
        ensures holds { (left : List ℕ) →
            held left self.new ≡ closed reached lasts scope (held left self.old) }
        ensures few_lasts { length self.new.lasts.items ≤ length self.old.lasts.items }
        ensures few_scope { length self.new.scope.items ≤ length self.old.scope.items }
        ensures constraints { self.new.constraints ≡ self.old.constraints }
        ensures weights { self.new.weights ≡ self.old.weights }
        ensures raised { self.new.raised ≡ self.old.raised }
        ensures capacities { capacities self.new ≡ capacities self.old }
    {
        match reached {
            Reached::Go => self.scope.truncate(scope),
            Reached::Weighted => self.lasts.truncate(lasts),
            _ => {
                self.lasts.truncate(lasts);
                self.scope.truncate(scope);
            }
        }
    }
}
