//! What keeps a call on forms from an answer.

use std::alloc::{AllocError, AllocFailed};

/// Why there is no form.
#[derive(Clone, Copy, Debug, PartialEq, Eq)]
pub enum NumRefusal {
    /// A coefficient or the constant is past 10^12 in size.
    Overflow,

    /// The divisor is 0.
    DivisionByZero,

    /// The text isn't that of a form.
    Malformed,

    /// Memory ran out.
    Memory,
}

impl From<AllocError> for NumRefusal {
    ghost use Rattle.std.specs.Prelude.{◌≡◌};
    ghost use Rattle.lt_linear.specs.declared.refusal.NumRefusal.TheVariants as refusal;

    ghost from_gives = { λ _ given. given ≡ refusal.Memory };

    fn from(_error: AllocError) -> NumRefusal {
        NumRefusal::Memory
    }
}

impl<T: Drop> From<AllocFailed<T>> for NumRefusal {
    ghost use Rattle.std.specs.Prelude.{◌≡◌};
    ghost use Rattle.lt_linear.specs.declared.refusal.NumRefusal.TheVariants as refusal;

    ghost from_gives = { λ _ given. given ≡ refusal.Memory };

    fn from(_error: AllocFailed<T>) -> NumRefusal {
        NumRefusal::Memory
    }
}
