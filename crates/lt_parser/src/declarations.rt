//! Declarations, and whole programs.

ghost use Rattle.std.specs.Prelude.{◌≡◌, ◌<◌, ◌∷◌, length, IfOk};
ghost use Rattle.lt_ast.specs.View.{groupings};
ghost use Rattle.lt_ast.specs.View as view;
ghost use Rattle.lt_parser.specs.inner.Parsing.{ReadsAs, ReadsTo, ProgramReadsAs};
ghost use Rattle.lt_parser.specs.inner.Tokens.{lexemes};
ghost use Rattle.lt_parser.specs.inner.Onto.{declarations_after, declarations_more};
ghost use Rattle.lt_parser.specs.inner.Reading.{a_list, node_goal};

use crate::atoms::{Parsed, after, expect, parse_name, parse_names};
use crate::groups::{parse_listed_groups, parse_macro};
use crate::refusal::Refusal;
use crate::runs::parse_runs;
use lt_ast::{Decl, Groups, NodeDecl, Program, Sign};
use lt_lexer::Lexeme;
use std::alloc::Global;

/// Declarations up to the end of the tokens.
pub(crate) fn parse_program<'a>(alloc: Global, tokens: &'a [Lexeme<'a>]) -> Result<Program, Refusal>
    ensures { ProgramReadsAs (lexemes tokens.now) result }
{
    let mut decls = Vec::new(alloc);
    if tokens.is_empty() {
        return Ok(Program { decls });
    }
    let (first, mut rest) = parse_declaration(alloc, tokens)?;
    decls.push(first)?;
    while !rest.is_empty() {
        let (declared, remaining) = parse_declaration(alloc, rest)?;
        decls.push(declared)?;
        rest = remaining;
    }
    Ok(Program { decls })
}

/// A declaration that comes after others.
pub(crate) fn parse_declaration<'a>(alloc: Global, tokens: &'a [Lexeme<'a>]) -> Parsed<'a, Decl>
    requires { 0 < length tokens.now }
    ensures reads { ReadsTo (λ x before. declarations_more before (view.declaration x.0))
        (λ x. lexemes x.1.now) declarations_after (lexemes tokens.now) result }
    ensures shorter { IfOk result (λ x. length x.1.now < length tokens.now) }
{
    let Some((first, rest)) = tokens.split_first() else {
        return Err(Refusal::Unexpected(0));
    };
    match first.sign {
        Sign::Node => {
            let (declared, rest) = parse_node(alloc, rest)?;
            Ok((Decl::Node(declared), rest))
        }
        Sign::Let => {
            let (declared, rest) = parse_macro(alloc, 0, rest)?;
            Ok((Decl::Macro(declared), rest))
        }
        Sign::Exception => {
            let (names, rest) = parse_names(alloc, rest)?;
            Ok((Decl::Exceptions(names), rest))
        }
        _ => Err(Refusal::Unexpected(tokens.len())),
    }
}

// What follows `node`.
fn parse_node<'a>(alloc: Global, tokens: &'a [Lexeme<'a>]) -> Parsed<'a, NodeDecl>
    ensures reads { ReadsAs (λ x. view.declaration (Decl.Node x.0)) (λ x. lexemes x.1.now) node_goal
        (lexemes tokens.now) result }
    ensures shorter { IfOk result (λ x. length x.1.now < length tokens.now) }
{
    let (name, rest) = parse_name(alloc, tokens)?;
    let (inputs, rest) = parse_group_list(alloc, rest)?;
    let (_, rest) = expect(rest, Sign::Returns)?;
    let (outputs, rest) = parse_group_list(alloc, rest)?;
    let (_, rest) = expect(rest, Sign::Equal)?;
    let (runs, body, rest) = parse_runs(alloc, rest)?;
    Ok((
        NodeDecl {
            name,
            inputs,
            outputs,
            runs,
            body,
        },
        rest,
    ))
}

// Groups in parentheses.
#[tactic(auto, using(crate::proofs::Steps::no_list))]
fn parse_group_list<'a>(alloc: Global, tokens: &'a [Lexeme<'a>]) -> Parsed<'a, Groups>
    ensures reads { ReadsAs (λ x. groupings x.0) (λ x. lexemes x.1.now) (a_list 0)
        (lexemes tokens.now) result }
    ensures shorter { IfOk result (λ x. length x.1.now < length tokens.now) }
{
    match after(tokens, Sign::Open) {
        Some((_, rest)) => parse_listed_groups(alloc, 1, rest),
        None => Err(Refusal::Unexpected(tokens.len())),
    }
}
