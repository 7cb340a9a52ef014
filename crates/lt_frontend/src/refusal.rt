//! Why nothing is made of a text.

use lt_expand::ExpandRefusal;
use lt_formula::Memory;
use lt_parser::ParseRefusal;
use lt_types::TypeRefusal;
use std::alloc::{AllocError, AllocFailed};
use thiserror::Error;

/// Why a text is refused, with the place that is to blame. A want of memory is told as [`Unprepared::Memory`] instead.
#[derive(Clone, Copy, Debug, PartialEq, Eq, Error)]
pub enum Refusal {
    /// It spells no program.
    #[error("{0}")]
    Text(ParseRefusal),

    /// Its program isn't well typed.
    #[error("{0}")]
    Types(TypeRefusal),

    /// Its node has no scenario.
    #[error("{0}")]
    Expand(ExpandRefusal),

    /// Its node runs others, and so has no scenario alone.
    #[error("the node runs others")]
    HasRuns,

    /// A constraint of its node, or of one that is run, has a conjunct of more than 16 atoms.
    #[error("a constraint has a conjunct of more than 16 atoms")]
    TooManyAtoms,
}

/// Why nothing was made of a text.
#[derive(Clone, Copy, Debug, PartialEq, Eq, Error)]
pub enum Unprepared {
    /// The text is refused.
    #[error("{0}")]
    Refused(Refusal),

    /// Memory ran out, or the text has 2^32 bytes or more.
    #[error("out of memory")]
    Memory,
}

impl Refusal {
    ghost use Rattle.std.specs.Prelude.{◌≡◌};
    ghost use Rattle.lt_frontend.specs.Codes.{refusal_code, refusal_place};

    /// Its code in messages: the word of the layer that refuses, a point, and what it is called there.
    pub fn code(self) -> &'static str
        ensures { result.now ≡ refusal_code self }
    {
        match self {
            Refusal::Text(refusal) => refusal.code(),
            Refusal::Types(refusal) => refusal.code(),
            Refusal::Expand(refusal) => refusal.code(),
            Refusal::HasRuns => "run.HasRuns",
            Refusal::TooManyAtoms => "run.TooManyAtoms",
        }
    }

    /// Where in the text the cause is, in bytes from 0; none where that is at no one place.
    pub fn place(self) -> Option<usize>
        ensures { result ≡ refusal_place self }
    {
        match self {
            Refusal::Text(refusal) => refusal.place(),
            Refusal::Types(refusal) => refusal.place(),
            Refusal::Expand(refusal) => refusal.place(),
            Refusal::HasRuns | Refusal::TooManyAtoms => None,
        }
    }
}

impl From<ParseRefusal> for Unprepared {
    ghost use Rattle.std.specs.Prelude.{◌≡◌};
    ghost use Rattle.lt_frontend.specs.inner.Wants.{of_text};

    ghost from_gives = { λ refusal why. why ≡ of_text refusal };

    fn from(refusal: ParseRefusal) -> Unprepared {
        match refusal {
            ParseRefusal::Memory => Unprepared::Memory,
            other => Unprepared::Refused(Refusal::Text(other)),
        }
    }
}

impl From<TypeRefusal> for Unprepared {
    ghost use Rattle.std.specs.Prelude.{◌≡◌};
    ghost use Rattle.lt_frontend.specs.inner.Wants.{of_types};

    ghost from_gives = { λ refusal why. why ≡ of_types refusal };

    fn from(refusal: TypeRefusal) -> Unprepared {
        match refusal {
            TypeRefusal::Memory => Unprepared::Memory,
            other => Unprepared::Refused(Refusal::Types(other)),
        }
    }
}

impl From<ExpandRefusal> for Unprepared {
    ghost use Rattle.std.specs.Prelude.{◌≡◌};
    ghost use Rattle.lt_frontend.specs.inner.Wants.{of_expansion};

    ghost from_gives = { λ refusal why. why ≡ of_expansion refusal };

    fn from(refusal: ExpandRefusal) -> Unprepared {
        match refusal {
            ExpandRefusal::Memory => Unprepared::Memory,
            other => Unprepared::Refused(Refusal::Expand(other)),
        }
    }
}

impl From<AllocError> for Unprepared {
    ghost use Rattle.std.specs.Prelude.{◌≡◌};
    ghost use Rattle.lt_frontend.specs.declared.refusal.Unprepared.TheVariants as unprepared;

    ghost from_gives = { λ _ why. why ≡ unprepared.Memory };

    fn from(_error: AllocError) -> Unprepared {
        Unprepared::Memory
    }
}

impl From<Memory> for Unprepared {
    ghost use Rattle.std.specs.Prelude.{◌≡◌};
    ghost use Rattle.lt_frontend.specs.declared.refusal.Unprepared.TheVariants as unprepared;

    ghost from_gives = { λ _ why. why ≡ unprepared.Memory };

    fn from(_error: Memory) -> Unprepared {
        Unprepared::Memory
    }
}

impl<T: Drop> From<AllocFailed<T>> for Unprepared {
    ghost use Rattle.std.specs.Prelude.{◌≡◌};
    ghost use Rattle.lt_frontend.specs.declared.refusal.Unprepared.TheVariants as unprepared;

    ghost from_gives = { λ _ why. why ≡ unprepared.Memory };

    fn from(_error: AllocFailed<T>) -> Unprepared {
        Unprepared::Memory
    }
}
