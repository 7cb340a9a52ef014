//! Why tokens, or a text, are no program.

use lt_lexer::LexRefusal;
use std::alloc::{AllocError, AllocFailed};
use thiserror::Error;

/// Why a text is no program. Places count bytes from 0.
#[derive(Clone, Copy, Debug, PartialEq, Eq, Error)]
pub enum ParseRefusal {
    /// It has no tokens, for the lexer's reason.
    #[error("{0}")]
    Lex(LexRefusal),

    /// The token that begins here is the first that no program has there; at the text's length, the text ends too early.
    #[error("no program goes on at byte {0}")]
    Unexpected(usize),

    /// The token that begins here opens a level of nesting more than may be open.
    #[error("more than 200 levels are open at byte {0}")]
    TooDeep(usize),

    /// Memory ran out, or the text has 2^32 bytes or more.
    #[error("out of memory")]
    Memory,
}

impl ParseRefusal {
    ghost use Rattle.std.specs.Prelude.{◌≡◌};
    ghost use Rattle.lt_parser.specs.Refusals.{parse_code, parse_place};

    /// Its code, by which a call tells it: the word of the layer that refuses, and the name of the variant.
    pub fn code(self) -> &'static str
        ensures { result.now ≡ parse_code self }
    {
        match self {
            ParseRefusal::Lex(refusal) => refusal.code(),
            ParseRefusal::Unexpected(_) => "parse.Unexpected",
            ParseRefusal::TooDeep(_) => "parse.TooDeep",
            ParseRefusal::Memory => "parse.Memory",
        }
    }

    /// The place of the byte at which it shows, where it has one.
    pub fn place(self) -> Option<usize>
        ensures { result ≡ parse_place self }
    {
        match self {
            ParseRefusal::Lex(refusal) => refusal.place(),
            ParseRefusal::Unexpected(place) | ParseRefusal::TooDeep(place) => Some(place),
            ParseRefusal::Memory => None,
        }
    }
}

impl From<LexRefusal> for ParseRefusal {
    ghost use Rattle.std.specs.Prelude.{◌≡◌};
    ghost use Rattle.lt_parser.specs.Refusals.{of_lexer};

    ghost from_gives = { λ refusal result. result ≡ of_lexer refusal };

    fn from(refusal: LexRefusal) -> ParseRefusal {
        match refusal {
            LexRefusal::Memory => ParseRefusal::Memory,
            other => ParseRefusal::Lex(other),
        }
    }
}

impl From<AllocError> for ParseRefusal {
    ghost use Rattle.std.specs.Prelude.{◌≡◌};
    ghost use Rattle.lt_parser.specs.declared.refusal.ParseRefusal.TheVariants.{Memory};

    ghost from_gives = { λ _ e. e ≡ Memory };

    fn from(_error: AllocError) -> ParseRefusal {
        ParseRefusal::Memory
    }
}

impl<T: Drop> From<AllocFailed<T>> for ParseRefusal {
    ghost use Rattle.std.specs.Prelude.{◌≡◌};
    ghost use Rattle.lt_parser.specs.declared.refusal.ParseRefusal.TheVariants.{Memory};

    ghost from_gives = { λ _ e. e ≡ Memory };

    fn from(_error: AllocFailed<T>) -> ParseRefusal {
        ParseRefusal::Memory
    }
}

/// Why tokens are no program.
#[derive(Clone, Copy, Debug)]
pub(crate) enum Refusal {
    /// So many tokens were left, from the first on that has no place there, or 0 at the end.
    Unexpected(usize),

    /// So many tokens were left, from the one on that opens a level too many.
    TooDeep(usize),

    /// Memory ran out.
    Memory,
}

impl From<AllocError> for Refusal {
    ghost use Rattle.std.specs.Prelude.{◌≡◌};
    ghost use Rattle.lt_parser.specs.declared.refusal.Refusal.TheVariants.{Memory};

    ghost from_gives = { λ _ e. e ≡ Memory };

    fn from(_error: AllocError) -> Refusal {
        Refusal::Memory
    }
}

impl<T: Drop> From<AllocFailed<T>> for Refusal {
    ghost use Rattle.std.specs.Prelude.{◌≡◌};
    ghost use Rattle.lt_parser.specs.declared.refusal.Refusal.TheVariants.{Memory};

    ghost from_gives = { λ _ e. e ≡ Memory };

    fn from(_error: AllocFailed<T>) -> Refusal {
        Refusal::Memory
    }
}
