//! The pieces that a text divides into.

ghost use Rattle.std.specs.Option.{option_map};
ghost use Rattle.std.specs.Prelude.{◌≡◌, ◌<◌, ◌≤◌, ◌+◌, length, None, Some, IfSome};
ghost use Rattle.lt_lexer.specs.inner.Reading.{closed, next_of, next_comment, next_number, next_symbol, fraction, Gives};
ghost use Rattle.lt_lexer.specs.inner.Spelling.{first_symbol};

use crate::byte::{digits, is_blank, line_bytes, word_bytes};
use crate::refusal::LexRefusal;
use crate::spelling::first_symbol;
use crate::token::TokenKind;

// How many digits a number may have: `most_digits` of lt_num's `specs/Bounds.antt`.
const MOST_DIGITS: usize = 18;

/// A blank, a comment or a token at the front of a text.
#[derive(Clone, Copy)]
pub struct Piece {
    /// What it is, where it is a token.
    pub kind: Option<TokenKind>,

    /// How many bytes it has.
    pub len: usize,
}

impl Piece {
    fn passed_over(len: usize) -> Piece
        ensures kind { result.kind ≡ None }
        ensures len { result.len ≡ len }
    {
        Piece { kind: None, len }
    }

    fn token(kind: TokenKind, len: usize) -> Piece
        ensures kind { result.kind ≡ Some kind }
        ensures len { result.len ≡ len }
    {
        Piece {
            kind: Some(kind),
            len,
        }
    }
}

/// The first piece of a text that isn't over, and that stands at a place.
#[tactic(auto, using(crate::proofs::Giving::giving))]
pub fn first_piece(text: &[u8], place: usize) -> Result<Piece, LexRefusal>
    requires { 0 < length text.now }
    ensures { Gives place result (next_of text.now) }
{
    let first = text[0];
    if is_blank(first) {
        Ok(Piece::passed_over(1))
    } else if first.is_ascii_alphabetic() {
        Ok(Piece::token(TokenKind::Word, 1 + word_bytes(&text[1..])))
    } else if first.is_ascii_digit() {
        number(text, place)
    } else if text.starts_with(b"--") {
        Ok(Piece::passed_over(2 + line_bytes(&text[2..])))
    } else if text.starts_with(b"(*") {
        comment(&text[2..], place)
    } else {
        symbol(text, place)
    }
}

// The block comment at `place`; `inside` is the text after its `(*`.
fn comment(inside: &[u8], place: usize) -> Result<Piece, LexRefusal>
    ensures { Gives place result (next_comment (closed inside.now)) }
{
    match close(inside) {
        Some(len) => Ok(Piece::passed_over(2 + len + 2)),
        None => Err(LexRefusal::OpenComment(place)),
    }
}

// How many bytes stand before the first `*)`.
#[tactic(auto, using(crate::proofs::Giving::closing))]
fn close(inside: &[u8]) -> Option<usize>
    ensures close { result ≡ option_map (λ parts. length parts.inside) (closed inside.now) }
    ensures within { IfSome result (λ len. len + 2 ≤ length inside.now) }
{
    let mut len = 0;
    let mut rest = inside;
    while let [_, behind @ ..] = rest {
        if rest.starts_with(b"*)") {
            return Some(len);
        }
        len += 1;
        rest = behind;
    }
    None
}

// The number at `place`; `text` begins with its first digit.
#[tactic(auto, using(crate::proofs::Giving::giving))]
fn number(text: &[u8], place: usize) -> Result<Piece, LexRefusal>
    ensures { Gives place result (next_number text.now) }
{
    let whole = digits(text);
    let fraction = fraction(&text[whole..]);
    if whole + fraction.saturating_sub(1) <= MOST_DIGITS {
        Ok(Piece::token(TokenKind::Number, whole + fraction))
    } else {
        Err(LexRefusal::NumberTooLong(place))
    }
}

// How many bytes of a number follow its whole part: a point, and digits. `text` is what stands after
// the whole part.
#[tactic(auto, using(crate::proofs::Digits::fraction_cases))]
fn fraction(text: &[u8]) -> usize
    ensures count { result ≡ length (fraction text.now) }
    ensures within { result ≤ length text.now }
{
    if text.starts_with(b".") {
        1 + digits(&text[1..])
    } else {
        0
    }
}

// The symbol at a place.
fn symbol(text: &[u8], place: usize) -> Result<Piece, LexRefusal>
    ensures { Gives place result (next_symbol text.now (first_symbol text.now)) }
{
    match first_symbol(text) {
        Some(sign) => Ok(Piece::token(TokenKind::Symbol, sign.text().len())),
        None => Err(LexRefusal::BadByte(place)),
    }
}
