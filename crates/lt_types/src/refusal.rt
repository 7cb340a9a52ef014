//! Why a program is not well typed.

use lt_ast::Span;
use std::alloc::{AllocError, AllocFailed};
use thiserror::Error;

/// A rule that a program breaks, with the place that breaks it.
#[derive(Clone, Copy, Debug, PartialEq, Eq, Error)]
pub enum TypeRefusal {
    /// Nothing of this name is visible here.
    #[error("nothing of the name at byte {} is known there", .0.start)]
    Unknown(Span),

    /// The name was declared before in the same list or among the text's declarations.
    #[error("the name at byte {} is declared twice", .0.start)]
    Twice(Span),

    /// This has not the type that is wanted here, or may not stand here.
    #[error("what stands at byte {} is of another type than is wanted", .0.start)]
    Mismatch(Span),

    /// The name is used with another number of arguments than it has parameters.
    #[error("the name at byte {} takes another number of arguments", .0.start)]
    Arity(Span),

    /// `pre` is given a name that is no variable.
    #[error("the name at byte {} has no value of the instant before", .0.start)]
    PreOfExpression(Span),

    /// The range begins above its end.
    #[error("the range at byte {} is empty", .0.start)]
    EmptyRange(Span),

    /// An end of the range, or its step, is too large a number.
    #[error("the number at byte {} is too large", .0.start)]
    RangeTooLarge(Span),

    /// No node is declared.
    #[error("no node is declared")]
    NoNode,

    /// Memory ran out.
    #[error("out of memory")]
    Memory,

    /// The step of the range leads no further: once it is rounded, it is 0 or less.
    #[error("the step at byte {} leads no further", .0.start)]
    BadStep(Span),
}

impl TypeRefusal {
    ghost use Rattle.std.specs.Prelude.{◌≡◌};
    ghost use Rattle.lt_types.specs.Codes.{type_code, type_place};

    /// Its code in messages: `type`, a point, and what it is called.
    pub fn code(self) -> &'static str
        ensures { result.now ≡ type_code self }
    {
        match self {
            TypeRefusal::Unknown(_) => "type.Unknown",
            TypeRefusal::Twice(_) => "type.Twice",
            TypeRefusal::Mismatch(_) => "type.Mismatch",
            TypeRefusal::Arity(_) => "type.Arity",
            TypeRefusal::PreOfExpression(_) => "type.PreOfExpression",
            TypeRefusal::EmptyRange(_) => "type.EmptyRange",
            TypeRefusal::RangeTooLarge(_) => "type.RangeTooLarge",
            TypeRefusal::NoNode => "type.NoNode",
            TypeRefusal::Memory => "type.Memory",
            TypeRefusal::BadStep(_) => "type.BadStep",
        }
    }

    /// Where in the text the rule is broken, in bytes from 0; none where that is at no one place.
    pub fn place(self) -> Option<usize>
        ensures { result ≡ type_place self }
    {
        match self {
            TypeRefusal::Unknown(span)
            | TypeRefusal::Twice(span)
            | TypeRefusal::Mismatch(span)
            | TypeRefusal::Arity(span)
            | TypeRefusal::PreOfExpression(span)
            | TypeRefusal::EmptyRange(span)
            | TypeRefusal::RangeTooLarge(span)
            | TypeRefusal::BadStep(span) => Some(span.start as usize),
            TypeRefusal::NoNode | TypeRefusal::Memory => None,
        }
    }
}

impl<T: Drop> From<AllocFailed<T>> for TypeRefusal {
    ghost use Rattle.std.specs.Prelude.{◌≡◌};
    ghost use Rattle.lt_types.specs.declared.refusal.TypeRefusal.TheVariants.{Memory};

    ghost from_gives = { λ _ e. e ≡ Memory };

    fn from(_error: AllocFailed<T>) -> TypeRefusal {
        TypeRefusal::Memory
    }
}

impl From<AllocError> for TypeRefusal {
    ghost use Rattle.std.specs.Prelude.{◌≡◌};
    ghost use Rattle.lt_types.specs.declared.refusal.TypeRefusal.TheVariants.{Memory};

    ghost from_gives = { λ _ e. e ≡ Memory };

    fn from(_error: AllocError) -> TypeRefusal {
        TypeRefusal::Memory
    }
}
