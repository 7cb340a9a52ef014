//! From a text to its tokens.

ghost use Rattle.std.specs.Prelude.{◌≡◌, ◌<◌, ◌^◌, ◌⊎◌, List, IfOk, IfErr, length};
ghost use Rattle.lt_lexer.specs.Tokenization.{IsTokenization, IsRefusal};
ghost use Rattle.lt_lexer.specs.Source.{TextIsReadAs, AnswersTokens, AnswersRefusal};
ghost use Rattle.lt_lexer.specs.declared.token.Token.{Token};
ghost use Rattle.lt_lexer.specs.declared.refusal.LexRefusal.{LexRefusal};

use crate::lexeme::Lexeme;
use crate::piece::first_piece;
use crate::refusal::LexRefusal;
use crate::token::Token;
use lt_ast::Span;
use std::alloc::Global;

// The most bytes of a text that is read: each place in it is a number of 32 bits.
const MOST_BYTES: usize = 4_294_967_295;

/// The tokens of a text from end to end, in their order.
///
/// A text that has none is refused with the first place from the left at which the rules fail. The one
/// answer that the text doesn't determine is [`LexRefusal::Memory`], which each text of 2^32 bytes or more
/// gets.
pub fn lex<'a>(alloc: Global, text: &'a [u8]) -> Result<Vec<Lexeme<'a>>, LexRefusal>
    // What is answered are the text's tokens, each with its sign and its letters ..
    ensures found { IfOk result (λ v. TextIsReadAs text.now v.items) }
    // .. and what are the text's tokens is answered, unless memory runs out.
    ensures only { (tokens : List Token) →
        IsTokenization text.now tokens → AnswersTokens text.now tokens result }

    // What is refused is refused rightly ..
    ensures refused { IfErr result (λ refusal.
        (refusal ≡ LexRefusal.Memory) ⊎ IsRefusal text.now refusal) }
    // .. and what is to be refused is refused so, unless memory runs out.
    ensures refuses { (refusal : LexRefusal) →
        IsRefusal text.now refusal → AnswersRefusal refusal result }
{
    if text.len() > MOST_BYTES {
        return Err(LexRefusal::Memory);
    }
    tokens_of(alloc, text)
}

// The tokens of a text, piece by piece. There is room at once for one in every two bytes, and few texts have more.
//
// That room is taken, given back, and taken again. The C library asks the system for a block of over 128 KiB by itself, with
// pages that are all new. Once it got one back, it takes blocks of up to that size from its heap: so the pages of the tokens
// are there for what is made when they are gone.
fn tokens_of<'a>(alloc: Global, text: &'a [u8]) -> Result<Vec<Lexeme<'a>>, LexRefusal>
    requires { length text.now < 2 ^ 32 }
    ensures found { IfOk result (λ v. TextIsReadAs text.now v.items) }
    ensures refused { IfErr result (λ refusal.
        (refusal ≡ LexRefusal.Memory) ⊎ IsRefusal text.now refusal) }
{
    let most = text.len() / 2;
    drop(Vec::<Lexeme<'a>>::with_capacity(alloc, most)?);
    let mut tokens = Vec::with_capacity(alloc, most)?;
    let mut rest = text;
    while !rest.is_empty() {
        let start = text.len() - rest.len();
        let piece = first_piece(rest, start)?;
        if let Some(kind) = piece.kind {
            let span = Span {
                start: start as u32,
                end: (start + piece.len) as u32,
            };
            let token = Token { kind, span };
            tokens.push(token.lexeme(text))?;
        }
        rest = &rest[piece.len..];
    }
    Ok(tokens)
}
