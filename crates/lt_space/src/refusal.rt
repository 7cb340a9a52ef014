//! What keeps an expression from being a formula.

use lt_linear::NumRefusal;
use lt_num::Arith;
use std::alloc::{AllocError, AllocFailed};

/// Why there is no formula.
#[derive(Clone, Copy)]
pub enum FormulaRefusal {
    /// The first fault that the evaluation meets.
    Fault(Arith),

    /// Memory ran out.
    Memory,
}

impl From<Arith> for FormulaRefusal {
    ghost use Rattle.std.specs.Prelude.{◌≡◌};
    ghost use Rattle.lt_space.specs.declared.refusal.FormulaRefusal.TheVariants as refusal;

    ghost from_gives = { λ fault given. given ≡ refusal.Fault fault };

    fn from(fault: Arith) -> FormulaRefusal {
        FormulaRefusal::Fault(fault)
    }
}

impl From<NumRefusal> for FormulaRefusal {
    ghost use Rattle.std.specs.Prelude.{◌≡◌};
    ghost use Rattle.lt_space.specs.Refusal.{refusal_of};

    ghost from_gives = { λ refusal given. given ≡ refusal_of refusal };

    fn from(refusal: NumRefusal) -> FormulaRefusal {
        match refusal {
            NumRefusal::Overflow => FormulaRefusal::Fault(Arith::Overflow),
            NumRefusal::DivisionByZero => FormulaRefusal::Fault(Arith::DivisionByZero),
            NumRefusal::Malformed | NumRefusal::Memory => FormulaRefusal::Memory,
        }
    }
}

impl From<AllocError> for FormulaRefusal {
    ghost use Rattle.std.specs.Prelude.{◌≡◌};
    ghost use Rattle.lt_space.specs.declared.refusal.FormulaRefusal.TheVariants as refusal;

    ghost from_gives = { λ _ given. given ≡ refusal.Memory };

    fn from(_error: AllocError) -> FormulaRefusal {
        FormulaRefusal::Memory
    }
}

impl<T: Drop> From<AllocFailed<T>> for FormulaRefusal {
    ghost use Rattle.std.specs.Prelude.{◌≡◌};
    ghost use Rattle.lt_space.specs.declared.refusal.FormulaRefusal.TheVariants as refusal;

    ghost from_gives = { λ _ given. given ≡ refusal.Memory };

    fn from(_error: AllocFailed<T>) -> FormulaRefusal {
        FormulaRefusal::Memory
    }
}
