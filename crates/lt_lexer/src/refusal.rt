//! Why a text has no tokens.

ghost use Rattle.std.specs.Prelude.{◌≡◌};

use std::alloc::{AllocError, AllocFailed};
use thiserror::Error;

/// Why a text has no tokens, with the place of the byte at which that shows, from 0.
#[derive(Clone, Copy, Debug, PartialEq, Eq, Error)]
pub enum LexRefusal {
    /// No token, blank or comment begins with this byte.
    #[error("no token begins at byte {0}")]
    BadByte(usize),

    /// The comment that begins here has no end.
    #[error("the comment at byte {0} is not closed")]
    OpenComment(usize),

    /// The number that begins here has more than 18 digits.
    #[error("the number at byte {0} has more than 18 digits")]
    NumberTooLong(usize),

    /// Memory ran out, or the text has 2^32 bytes or more.
    #[error("out of memory")]
    Memory,
}

impl LexRefusal {
    ghost use Rattle.lt_lexer.specs.Refusals.{lex_code, lex_place};

    /// Its code, by which a call tells it: `lex.` and the name of the variant.
    pub fn code(self) -> &'static str
        ensures { result.now ≡ lex_code self }
    {
        match self {
            LexRefusal::BadByte(_) => "lex.BadByte",
            LexRefusal::OpenComment(_) => "lex.OpenComment",
            LexRefusal::NumberTooLong(_) => "lex.NumberTooLong",
            LexRefusal::Memory => "lex.Memory",
        }
    }

    /// The place of the byte at which it shows, where it has one.
    pub fn place(self) -> Option<usize>
        ensures { result ≡ lex_place self }
    {
        match self {
            LexRefusal::BadByte(place)
            | LexRefusal::OpenComment(place)
            | LexRefusal::NumberTooLong(place) => Some(place),
            LexRefusal::Memory => None,
        }
    }
}

impl From<AllocError> for LexRefusal {
    ghost use Rattle.std.specs.Prelude.{◌≡◌};
    ghost use Rattle.lt_lexer.specs.declared.refusal.LexRefusal.TheVariants.{Memory};

    ghost from_gives = { λ _ e. e ≡ Memory };

    fn from(_error: AllocError) -> LexRefusal {
        LexRefusal::Memory
    }
}

impl<T: Drop> From<AllocFailed<T>> for LexRefusal {
    ghost use Rattle.lt_lexer.specs.declared.refusal.LexRefusal.TheVariants.{Memory};

    ghost from_gives = { λ _ e. e ≡ Memory };

    fn from(_error: AllocFailed<T>) -> LexRefusal {
        LexRefusal::Memory
    }
}
