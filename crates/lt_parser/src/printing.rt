//! From a text to its program in print.
//!
//! What a program is printed as has the tokens that spell it, and those are the text's: the tokens that were read are
//! written, and the tree of a declaration tells no more than where it ends.

ghost use Rattle.std.specs.Prelude.{◌≡◌, ◌≤◌, ◌-◌, ◌⊎◌, ◌++◌, length, map, take, IfErr, IfOk, OnOk, string_bytes};
ghost use Rattle.lt_ast.specs.Printed.{line, spaced, spaced_token};
ghost use Rattle.lt_grammar.specs.PrintedText.{IsPrintOf};
ghost use Rattle.lt_parser.specs.Text.{IsRefusal};
ghost use Rattle.lt_grammar.specs.Written.{written_of};
ghost use Rattle.lt_parser.specs.inner.Printing.{PrintsAs};
ghost use Rattle.lt_parser.specs.inner.Tokens.{lexeme_of, lexemes};
ghost use Rattle.lt_parser.specs.declared.refusal.ParseRefusal.{ParseRefusal};

use crate::declarations::parse_declaration;
use crate::refusal::{ParseRefusal, Refusal};
use crate::text::placed;
use lt_lexer::{Lexeme, lex};
use std::alloc::{AllocError, Global};
use std::mem;

/// What the program that a text spells is printed as: a line for each declaration, its tokens with one blank between two.
///
/// The trees of declarations aren't given back: a call prints one text and ends, and to give back each part of a large
/// tree takes a quarter of the call's time.
///
/// # Errors
///
/// Those of [`parse`](crate::parse).
pub fn print(alloc: Global, text: &[u8]) -> Result<String, ParseRefusal>
    ensures found { IfOk result (λ made. IsPrintOf text.now (string_bytes made)) }
    ensures refused { IfErr result
        (λ refusal. (refusal ≡ ParseRefusal.Memory) ⊎ IsRefusal text.now refusal) }
{
    let tokens = lex(alloc, text)?;
    match print_program(alloc, &tokens) {
        Ok(printed) => Ok(printed),
        Err(refusal) => Err(placed(text, &tokens, refusal)),
    }
}

// The lines of declarations up to the end of the tokens.
fn print_program<'a>(alloc: Global, tokens: &'a [Lexeme<'a>]) -> Result<String, Refusal>
    ensures { PrintsAs (lexemes tokens.now) result }
{
    let mut out = String::new(alloc);
    if tokens.is_empty() {
        return Ok(out);
    }
    let (first, mut rest) = parse_declaration(alloc, tokens)?;
    mem::forget(first);
    put_first(&mut out, tokens, rest.len())?;
    while !rest.is_empty() {
        let (declared, behind) = parse_declaration(alloc, rest)?;
        mem::forget(declared);
        put_first(&mut out, rest, behind.len())?;
        rest = behind;
    }
    Ok(out)
}

// A line of all tokens but the last, of which so many are left.
fn put_first(out: &mut String, tokens: &[Lexeme<'_>], left: usize) -> Result<(), AllocError>
    requires { left ≤ length tokens.now }
    ensures { OnOk result (string_bytes out.new ≡
        string_bytes out.old ++
        line (map written_of (lexemes (take (length tokens.now - left) tokens.now)))) }
{
    put_line(out, &tokens[..tokens.len() - left])
}

// Tokens with one blank between two, and a line feed.
fn put_line(out: &mut String, tokens: &[Lexeme<'_>]) -> Result<(), AllocError>
    ensures { OnOk result (string_bytes out.new ≡
        string_bytes out.old ++ line (map written_of (lexemes tokens.now))) }
{
    if let Some((first, rest)) = tokens.split_first() {
        out.push_str(first.text)?;
        put_tokens(out, rest)?;
    }
    out.push_str("\n")
}

// Tokens, each after a blank.
fn put_tokens(out: &mut String, tokens: &[Lexeme<'_>]) -> Result<(), AllocError>
    ensures { OnOk result (string_bytes out.new ≡
        string_bytes out.old ++ spaced (map written_of (lexemes tokens.now))) }
{
    for token in tokens {
        put_token(out, token)?;
    }
    Ok(())
}

// A token after a blank.
fn put_token(out: &mut String, token: &Lexeme<'_>) -> Result<(), AllocError>
    ensures { OnOk result (string_bytes out.new ≡
        string_bytes out.old ++ spaced_token (written_of (lexeme_of token.now))) }
{
    out.push_str(" ")?;
    out.push_str(token.text)
}
