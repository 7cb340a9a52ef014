//! Tokens.

ghost use Rattle.std.specs.Prelude.{◌≡◌};
ghost use Rattle.lt_num.specs.Literal.{IsNumber};
ghost use Rattle.lt_lexer.specs.Source.{IsTokenOf, token_bytes, IsSign, IsReadAs};
ghost use Rattle.lt_lexer.specs.declared.token.TokenKind.{TokenKind};

use crate::lexeme::Lexeme;
use crate::spelling::sign_spelled;
use lt_ast::{Sign, Span};
use std::str;

/// What a token is.
#[derive(Clone, Copy, Debug, PartialEq, Eq)]
pub enum TokenKind {
    /// A letter, and letters, digits and `_` after it.
    Word,

    /// Digits, and maybe a point after them, with or without digits after it.
    Number,

    /// A [`Sign`] that is no word and no number.
    Symbol,
}

/// A token: what it is, and where it stands in its text. Each question to it takes that text.
#[derive(Clone, Copy, Debug, PartialEq, Eq)]
pub struct Token {
    /// What it is.
    pub kind: TokenKind,

    /// Where it stands.
    pub span: Span,
}

impl Token {
    /// Its bytes, in the text that it is a token of. Those of a number are a number.
    pub fn bytes<'a>(&self, text: &'a [u8]) -> &'a [u8]
        requires { IsTokenOf text.now self.now }
        ensures bytes { result.now ≡ token_bytes text.now self.now }
        ensures number { self.now.kind ≡ TokenKind.Number → IsNumber result.now }
    {
        &text[self.span.start as usize..self.span.end as usize]
    }

    /// Those bytes as letters.
    pub fn letters<'a>(&self, text: &'a [u8]) -> &'a str
        requires { IsTokenOf text.now self.now }
        ensures bytes { result.now ≡ token_bytes text.now self.now }
        ensures number { self.now.kind ≡ TokenKind.Number → IsNumber result.now }
    {
        str::from_utf8(self.bytes(text)).unwrap()
    }

    /// What it is read as: its sign, its letters and its place.
    pub fn lexeme<'a>(&self, text: &'a [u8]) -> Lexeme<'a>
        requires { IsTokenOf text.now self.now }
        ensures { IsReadAs text.now self.now result }
    {
        // That its end is a number of 32 bits is known once it is read.
        let Span { start, end: _end } = self.span;
        let sign = self.sign(text);
        Lexeme {
            sign,
            text: self.spelling(text, sign),
            start,
        }
    }

    // Which sign it is.
    fn sign(&self, text: &[u8]) -> Sign
        requires { IsTokenOf text.now self.now }
        ensures { IsSign text.now self.now result }
    {
        match self.kind {
            TokenKind::Number => Sign::Number,
            _ => sign_spelled(self.bytes(text)).unwrap_or(Sign::Name),
        }
    }

    // Its letters: those of its sign, where that has some of its own.
    fn spelling<'a>(&self, text: &'a [u8], sign: Sign) -> &'a str
        requires token { IsTokenOf text.now self.now }
        requires sign { IsSign text.now self.now sign }
        ensures { result.now ≡ token_bytes text.now self.now }
    {
        match sign {
            Sign::Name | Sign::Number => self.letters(text),
            _ => sign.text(),
        }
    }
}
