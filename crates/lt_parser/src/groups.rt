//! Groups of names, and macros.

ghost use Rattle.std.specs.Prelude.{◌<◌, ◌≤◌, length, IfOk};
ghost use Rattle.lt_ast.specs.inner.Rows.{group_of, maybe_exp};
ghost use Rattle.lt_ast.specs.View.{groupings, macro, meaning};
ghost use Rattle.lt_grammar.specs.Nesting.{most_levels};
ghost use Rattle.lt_parser.specs.inner.Parsing.{ReadsAs, parameters_of};
ghost use Rattle.lt_parser.specs.inner.Tokens.{lexemes};
ghost use Rattle.lt_parser.specs.inner.Reading.{a_first, a_group, a_macro, a_meaning, some_groups, some_parameters};
ghost use Rattle.lt_parser.specs.inner.Reading as reading;

use crate::atoms::{
    Parsed, after, deeper, expect, parse_name, parse_names, parse_range, parse_ref, parse_type_name,
};
use crate::expressions::parse_expr;
use crate::refusal::Refusal;
use crate::traces::parse_trace;
use lt_ast::{Body, Expr, Group, Groups, MacroDecl, Sign, TypeName};
use lt_lexer::Lexeme;
use std::alloc::Global;

// A first value, where it is there.
#[cycle(parser)]
fn parse_first_value<'a>(
    alloc: Global,
    depth: u32,
    tokens: &'a [Lexeme<'a>],
) -> Parsed<'a, Option<Expr>>
    requires { depth ≤ most_levels }
    ensures reads { ReadsAs (λ x. maybe_exp x.0) (λ x. lexemes x.1.now) (a_first depth)
        (lexemes tokens.now) result }
    ensures shorter { IfOk result (λ x. length x.1.now ≤ length tokens.now) }
{
    match after(tokens, Sign::Equal) {
        None => Ok((None, tokens)),
        Some((_, rest)) => {
            let (value, rest) = parse_expr(alloc, depth, 0, rest)?;
            Ok((Some(value), rest))
        }
    }
}

// Names of one type.
#[cycle(parser)]
fn parse_group<'a>(alloc: Global, depth: u32, tokens: &'a [Lexeme<'a>]) -> Parsed<'a, Group>
    requires { depth ≤ most_levels }
    ensures reads { ReadsAs (λ x. group_of x.0) (λ x. lexemes x.1.now) (a_group depth)
        (lexemes tokens.now) result }
    ensures shorter { IfOk result (λ x. length x.1.now < length tokens.now) }
{
    let (names, rest) = parse_names(alloc, tokens)?;
    let (_, rest) = expect(rest, Sign::Colon)?;
    let (kind, rest) = parse_type_name(rest)?;
    let (by_ref, rest) = parse_ref(rest);
    let (range, rest) = parse_range(alloc, rest)?;
    let (first, rest) = parse_first_value(alloc, depth, rest)?;
    Ok((
        Group {
            names,
            kind,
            by_ref,
            range,
            first,
        },
        rest,
    ))
}

/// One group or more, and the sign that ends them.
#[cycle(parser)]
pub(crate) fn parse_groups<'a>(
    alloc: Global,
    depth: u32,
    end: Sign,
    tokens: &'a [Lexeme<'a>],
) -> Parsed<'a, Groups>
    requires { depth ≤ most_levels }
    ensures reads { ReadsAs (λ x. groupings x.0) (λ x. lexemes x.1.now) (reading.groups depth end)
        (lexemes tokens.now) result }
    ensures shorter { IfOk result (λ x. length x.1.now < length tokens.now) }
{
    let (first, mut rest) = parse_group(alloc, depth, tokens)?;
    let mut items = vec![in alloc; first]?;
    while let Some((_, next)) = after(rest, Sign::Semicolon) {
        let (another, remaining) = parse_group(alloc, depth, next)?;
        items.push(another)?;
        rest = remaining;
    }
    let (_, rest) = expect(rest, end)?;
    Ok((Groups { items }, rest))
}

/// Groups, if any, and the parenthesis that ends them.
#[cycle(parser)]
pub(crate) fn parse_listed_groups<'a>(
    alloc: Global,
    inside: u32,
    tokens: &'a [Lexeme<'a>],
) -> Parsed<'a, Groups>
    requires { inside ≤ most_levels }
    ensures reads { ReadsAs (λ x. groupings x.0) (λ x. lexemes x.1.now) (some_groups inside)
        (lexemes tokens.now) result }
    ensures shorter { IfOk result (λ x. length x.1.now < length tokens.now) }
{
    if let Some((_, rest)) = after(tokens, Sign::Close) {
        return Ok((
            Groups {
                items: Vec::new(alloc),
            },
            rest,
        ));
    }
    parse_groups(alloc, inside, Sign::Close, tokens)
}

// The parameters of a macro, where they are there.
#[cycle(parser)]
fn parse_params<'a>(
    alloc: Global,
    depth: u32,
    tokens: &'a [Lexeme<'a>],
) -> Parsed<'a, Option<Groups>>
    requires { depth ≤ most_levels }
    ensures reads { ReadsAs (λ x. parameters_of x.0) (λ x. lexemes x.1.now) (some_parameters depth)
        (lexemes tokens.now) result }
    ensures shorter { IfOk result (λ x. length x.1.now ≤ length tokens.now) }
{
    match after(tokens, Sign::Open) {
        None => Ok((None, tokens)),
        Some((_, rest)) => {
            let (groups, rest) = parse_listed_groups(alloc, deeper(depth, tokens.len())?, rest)?;
            Ok((Some(groups), rest))
        }
    }
}

/// What follows the `let` of a macro.
#[cycle(parser)]
pub(crate) fn parse_macro<'a>(
    alloc: Global,
    depth: u32,
    tokens: &'a [Lexeme<'a>],
) -> Parsed<'a, MacroDecl>
    requires { depth ≤ most_levels }
    ensures reads { ReadsAs (λ x. macro x.0) (λ x. lexemes x.1.now) (a_macro depth)
        (lexemes tokens.now) result }
    ensures shorter { IfOk result (λ x. length x.1.now < length tokens.now) }
{
    let (name, rest) = parse_name(alloc, tokens)?;
    let (params, rest) = parse_params(alloc, depth, rest)?;
    let (_, rest) = expect(rest, Sign::Colon)?;
    let (result, rest) = parse_type_name(rest)?;
    let (_, rest) = expect(rest, Sign::Equal)?;
    let (body, rest) = parse_body(alloc, depth, result, rest)?;
    Ok((
        MacroDecl {
            name,
            params,
            result,
            body,
        },
        rest,
    ))
}

// What a macro of this type stands for.
#[cycle(parser)]
fn parse_body<'a>(
    alloc: Global,
    depth: u32,
    kind: TypeName,
    tokens: &'a [Lexeme<'a>],
) -> Parsed<'a, Body>
    requires { depth ≤ most_levels }
    ensures reads { ReadsAs (λ x. meaning x.0) (λ x. lexemes x.1.now) (a_meaning depth kind)
        (lexemes tokens.now) result }
    ensures shorter { IfOk result (λ x. length x.1.now < length tokens.now) }
{
    match kind {
        TypeName::Trace => {
            let (body, rest) = parse_trace(alloc, depth, tokens)?;
            Ok((Body::Trace(body), rest))
        }
        TypeName::Bool | TypeName::Int | TypeName::Real => {
            let (value, rest) = parse_expr(alloc, depth, 0, tokens)?;
            Ok((Body::Value(value), rest))
        }
    }
}
