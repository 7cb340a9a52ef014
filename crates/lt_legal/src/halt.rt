//! Why a question isn't answered.

ghost use Rattle.std.specs.Prelude.{◌≡◌};

use lt_term::Memory;
use std::alloc::AllocError;

/// Why a question isn't answered.
#[derive(Clone, Copy, Debug, PartialEq, Eq)]
pub enum Halt {
    /// Memory ran out.
    Memory,

    /// A search was given up. This is its need, which is over the budget.
    Over(u128),
}

impl From<AllocError> for Halt {
    ghost use Rattle.lt_legal.specs.declared.halt.Halt.{Halt};

    ghost from_gives = { λ _ halt. halt ≡ Halt.Memory };

    fn from(_error: AllocError) -> Halt {
        Halt::Memory
    }
}

impl From<Memory> for Halt {
    ghost use Rattle.lt_legal.specs.declared.halt.Halt.{Halt};

    ghost from_gives = { λ _ halt. halt ≡ Halt.Memory };

    fn from(_error: Memory) -> Halt {
        Halt::Memory
    }
}
