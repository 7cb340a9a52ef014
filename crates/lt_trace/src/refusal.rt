//! Why a text is no trace.

use std::alloc::AllocError;

/// Why a text tells nothing.
#[derive(Clone, Copy, Debug, PartialEq, Eq)]
pub enum TraceRefusal {
    /// The line of this number, from 1, is the first that is none of a trace. Behind the last line it is the one that is
    /// missing.
    BadLine(usize),

    /// Memory ran out.
    Memory,
}

impl From<AllocError> for TraceRefusal {
    ghost use Rattle.std.specs.Prelude.{◌≡◌};
    ghost use Rattle.lt_trace.specs.declared.refusal.TraceRefusal.{TraceRefusal};

    ghost from_gives = { λ _ refusal. refusal ≡ TraceRefusal.Memory };

    fn from(_error: AllocError) -> TraceRefusal {
        TraceRefusal::Memory
    }
}
