//! What is live.

ghost use Rattle.std.specs.Prelude.{◌≡◌, ℕ, Bool, IfErr, IfOk};
ghost use Rattle.lt_legal.specs.Asked.{IsHaltOf};

use crate::halt::Halt;

/// What tells whether a live leaf can be reached in a tree, by the number of the tree's node.
pub trait Alive {
    // it can be asked
    ghost ready: { Self → Type 0 };

    // what is told of the tree of a number
    ghost live: { Self → ℕ → Bool };

    // a search in the tree of a number may be given up with this need
    ghost may_give_up: { Self → ℕ → ℕ → Type 0 };

    /// Whether a live leaf can be reached in the tree of this number.
    ///
    /// # Errors
    ///
    /// Want of memory, or a search that was given up.
    fn is_live(&mut self, number: u32) -> Result<bool, Halt>
        requires { ready self.old }
        ensures ready { ready self.new }
        ensures told { IfOk result (λ lives. lives ≡ live self.old number) }
        ensures halts { IfErr result (IsHaltOf (may_give_up self.old number)) }
        ensures same { live self.new ≡ live self.old }
        ensures same_needs { (k need : ℕ) → may_give_up self.new k need →
            may_give_up self.old k need };
}
