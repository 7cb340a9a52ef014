//! From a text to its program, or to the one expression that it is.

ghost use Rattle.std.specs.Prelude.{◌≡◌, ◌≤◌, ◌⊎◌, List, IfErr, IfOk, length};
ghost use Rattle.lt_ast.specs.Syntax.{Declaration, Exp};
ghost use Rattle.lt_ast.specs.View.{exp, program};
ghost use Rattle.lt_parser.specs.inner.Tokens.{lexemes};
ghost use Rattle.lt_parser.specs.inner.Placing.{IsPlaced, IsWithin, last_of};
ghost use Rattle.lt_grammar.specs.Text.{IsExpressionOf, IsProgramOf, start_of};
ghost use Rattle.lt_parser.specs.Text.{AnswersExpression, AnswersProgram, AnswersRefusal, IsExpressionRefusal, IsRefusal};
ghost use Rattle.lt_parser.specs.declared.refusal.ParseRefusal.{ParseRefusal};

use crate::declarations::parse_program;
use crate::expressions::parse_whole_expr;
use crate::refusal::{ParseRefusal, Refusal};
use lt_ast::{Expr, Program};
use lt_lexer::{Lexeme, lex};
use std::alloc::Global;

/// The program that a text spells.
///
/// A text that spells none is refused at the first token that no program has after the tokens before it, or at the one
/// that opens a level of nesting too many, whichever comes first. The one answer that the text doesn't determine is
/// [`ParseRefusal::Memory`].
pub fn parse(alloc: Global, text: &[u8]) -> Result<Program, ParseRefusal>
    // What is answered is the text's program ..
    ensures found { IfOk result (λ p. IsProgramOf text.now (program p)) }
    // .. and what is the text's program is answered, unless memory runs out.
    ensures only { (x : List Declaration) → IsProgramOf text.now x → AnswersProgram x result }

    // What is refused is refused rightly ..
    ensures refused { IfErr result
        (λ refusal. (refusal ≡ ParseRefusal.Memory) ⊎ IsRefusal text.now refusal) }
    // .. and what is to be refused is refused so, unless memory runs out.
    ensures refuses { (refusal : ParseRefusal) →
        IsRefusal text.now refusal → AnswersRefusal refusal result }
{
    program_of(alloc, text)
}

// The program that a text's tokens spell.
fn program_of(alloc: Global, text: &[u8]) -> Result<Program, ParseRefusal>
    ensures found { IfOk result (λ p. IsProgramOf text.now (program p)) }
    ensures refused { IfErr result
        (λ refusal. (refusal ≡ ParseRefusal.Memory) ⊎ IsRefusal text.now refusal) }
{
    let tokens = lex(alloc, text)?;
    match parse_program(alloc, &tokens) {
        Ok(program) => Ok(program),
        Err(refusal) => Err(placed(text, &tokens, refusal)),
    }
}

/// The expression that a text is, where it is one and nothing else.
///
/// Any other text is refused as [`parse`] refuses: at the first token that no expression has after the tokens before it, or
/// at the one that opens a level of nesting too many, whichever comes first. The one answer that the text doesn't determine
/// is [`ParseRefusal::Memory`].
pub fn parse_expr(alloc: Global, text: &[u8]) -> Result<Expr, ParseRefusal>
    // What is answered is the text's expression ..
    ensures found { IfOk result (λ e. IsExpressionOf text.now (exp e)) }
    // .. and what is the text's expression is answered, unless memory runs out.
    ensures only { (x : Exp) → IsExpressionOf text.now x → AnswersExpression x result }

    // What is refused is refused rightly ..
    ensures refused { IfErr result
        (λ refusal. (refusal ≡ ParseRefusal.Memory) ⊎ IsExpressionRefusal text.now refusal) }
    // .. and what is to be refused is refused so, unless memory runs out.
    ensures refuses { (refusal : ParseRefusal) →
        IsExpressionRefusal text.now refusal → AnswersRefusal refusal result }
{
    expression_of(alloc, text)
}

// The expression that a text's tokens spell.
fn expression_of(alloc: Global, text: &[u8]) -> Result<Expr, ParseRefusal>
    ensures found { IfOk result (λ e. IsExpressionOf text.now (exp e)) }
    ensures refused { IfErr result
        (λ refusal. (refusal ≡ ParseRefusal.Memory) ⊎ IsExpressionRefusal text.now refusal) }
{
    let tokens = lex(alloc, text)?;
    match parse_whole_expr(alloc, &tokens) {
        Ok(found) => Ok(found),
        Err(refusal) => Err(placed(text, &tokens, refusal)),
    }
}

/// A refusal by its place in the text.
pub(crate) fn placed(text: &[u8], tokens: &[Lexeme<'_>], refusal: Refusal) -> ParseRefusal
    requires { IsWithin (lexemes tokens.now) refusal }
    ensures { IsPlaced text.now (lexemes tokens.now) refusal result }
{
    match refusal {
        Refusal::Unexpected(left) => ParseRefusal::Unexpected(place(text, tokens, left)),
        Refusal::TooDeep(left) => ParseRefusal::TooDeep(place(text, tokens, left)),
        Refusal::Memory => ParseRefusal::Memory,
    }
}

// Where the token stands from which on so many are left, or where the text ends.
fn place(text: &[u8], tokens: &[Lexeme<'_>], left: usize) -> usize
    requires { left ≤ length (lexemes tokens.now) }
    ensures { result ≡ start_of text.now (last_of (lexemes tokens.now) left) }
{
    match tokens.get(tokens.len() - left) {
        Some(token) => token.start as usize,
        None => text.len(),
    }
}
