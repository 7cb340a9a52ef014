//! What stands before a place of an expansion.

ghost use Rattle.std.specs.Prelude.{◌≡◌, ◌≤◌, ◌+◌, ◌-◌, IfOk, OnOk};
ghost use Rattle.lt_macros.specs.Denotation.{behind_counter, behind_local, behind_term};
ghost use Rattle.lt_macros.specs.inner.Numbers.{numbers_view};

use lt_formula::Memory;

/// How many terms stand before a place, and how many of them declare a local or have a counter.
#[derive(Clone, Copy)]
pub(crate) struct Numbers {
    /// The terms.
    pub(crate) term: u32,

    /// Those that declare a local: the number of the next one.
    pub(crate) local: u32,

    /// Those that have a counter: the number of the next one.
    pub(crate) counter: u32,
}

impl Numbers {
    // Before the first term.
    pub(crate) fn start() -> Numbers
        ensures { numbers_view result ≡ record { term = 0; local = 0; counter = 0 } }
    {
        Numbers {
            term: 0,
            local: 0,
            counter: 0,
        }
    }

    // Behind one more term. No expansion of a text that fits in memory has too many.
    pub(crate) fn behind_term(self) -> Result<Numbers, Memory>
        ensures { IfOk result (λ n. numbers_view n ≡ behind_term (numbers_view self)) }
    {
        Ok(Numbers {
            term: self.term.checked_add(1).ok_or(Memory)?,
            ..self
        })
    }

    // Behind one more that declares a local.
    pub(crate) fn behind_local(self) -> Result<Numbers, Memory>
        ensures { IfOk result (λ n. numbers_view n ≡ behind_local (numbers_view self)) }
    {
        Ok(Numbers {
            term: self.term.checked_add(1).ok_or(Memory)?,
            local: self.local.checked_add(1).ok_or(Memory)?,
            ..self
        })
    }

    // Behind one more that has a counter.
    pub(crate) fn behind_counter(self) -> Result<Numbers, Memory>
        ensures { IfOk result (λ n. numbers_view n ≡ behind_counter (numbers_view self)) }
    {
        Ok(Numbers {
            term: self.term.checked_add(1).ok_or(Memory)?,
            counter: self.counter.checked_add(1).ok_or(Memory)?,
            ..self
        })
    }

    // Behind more terms that declare locals, so that the next local gets this number.
    pub(crate) fn behind_locals(self, next: u32) -> Result<Numbers, Memory>
        requires { self.local ≤ next }
        ensures { IfOk result (λ n.
            numbers_view n ≡ record {
              term = self.term
                  + (next - self.local);
              local = next;
              counter = self.counter;
            }) }
    {
        Ok(Numbers {
            term: self.term.checked_add(next - self.local).ok_or(Memory)?,
            local: next,
            ..self
        })
    }
}
