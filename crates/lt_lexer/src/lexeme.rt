//! Tokens as they are read.

ghost use Rattle.std.specs.Prelude.{◌≡◌, ◌+◌, ◌<◌, ◌^◌, length, true};
ghost use Rattle.lt_ast.specs.Signs.{spelled};
ghost use Rattle.lt_ast.specs.declared.sign.Sign.TheVariants.{Number};
ghost use Rattle.lt_lexer.specs.Spelled.{has_own_letters};
ghost use Rattle.lt_num.specs.Literal.{IsNumber};

use lt_ast::{Sign, Span};

/// A token as a grammar takes it. The letters of a number are one, and a keyword or a symbol has those of its sign.
#[derive(Clone, Copy)]
pub struct Lexeme<'a> {
    /// Which sign it is.
    pub sign: Sign,

    /// The place of its first letter. A text has many tokens, and where one ends follows from its letters.
    pub start: u32,

    /// Its letters. They stand last, so that the sign and the place share a word.
    pub text: &'a str,

    pub ghost number: { sign ≡ Number → IsNumber text.now },
    pub ghost spelled: { has_own_letters sign ≡ true → text.now ≡ spelled sign },
    pub ghost ends: { start + length text.now < 2 ^ 32 },
}

impl Lexeme<'_> {
    ghost use Rattle.lt_lexer.specs.Source.{lexeme_span};

    /// Where it stands.
    pub fn span(&self) -> Span
        ensures { result ≡ lexeme_span self.now }
    {
        Span {
            start: self.start,
            end: self.start + self.text.len() as u32,
        }
    }
}
