//! Terms as keys.

ghost use Rattle.std.specs.Prelude.{◌≡◌};
ghost use Rattle.std.specs.Hash as fed;
ghost use Rattle.lt_term.specs.View.{process};
ghost use Rattle.lt_same_term.specs.Alike.{alike};
ghost use Rattle.lt_same_term.specs.Hash.{hash_of};
ghost use Rattle.std.specs.Cmp.{on_equiv, partial_equiv_from_equiv};
ghost use Rattle.lt_same_term.proofs.Public.{alike_equiv, alike_fed};

use lt_same_term::{hash_of, same};
use lt_term::Term;
use std::hash::{Hash, Hasher};

/// A term as a key of a set: two keys are equal where their terms are the same.
#[derive(Drop)]
pub(crate) struct TermKey {
    /// The term.
    pub term: Term,

    // Its hash, which is asked for more often than it is made.
    hash: u64,
    ghost determined: { hash ≡ hash_of (process term) },
}

impl TermKey {
    /// The key of a term.
    pub fn new(term: Term) -> TermKey
        ensures { process result.term ≡ process term }
    {
        let hash = hash_of(&term);
        TermKey { term, hash }
    }
}

impl PartialEq for TermKey {
    ghost eq = { λ a b. alike (process a.term) (process b.term) };

    ghost laws = { partial_equiv_from_equiv (on_equiv (λ a. process a.term) alike_equiv) };

    fn eq(&self, other: &TermKey) -> bool {
        self.hash == other.hash && same(&self.term, &other.term)
    }
}

impl Eq for TermKey {
    ghost laws = { on_equiv (λ a. process a.term) alike_equiv };
}

impl Hash for TermKey {
    ghost hash_input = { λ a. fed.u64 (hash_of (process a.term)) };

    ghost respects_eq = { λ a b h. alike_fed.fed (process a.term) (process b.term) h };

    fn hash<H: Hasher>(&self, state: &mut H) {
        self.hash.hash(state);
    }
}
