//! What stands in braces.

ghost use Rattle.std.specs.Prelude.{◌≢◌, ◌<◌, ◌≤◌, length, IfOk};
ghost use Rattle.lt_ast.specs.inner.Rows.{weighed};
ghost use Rattle.lt_ast.specs.Syntax as syntax;
ghost use Rattle.lt_ast.specs.View.{braced, trace};
ghost use Rattle.lt_grammar.specs.Nesting.{most_levels};
ghost use Rattle.lt_parser.specs.inner.Parsing.{BeginsItem, ReadsAs, ReadsTo};
ghost use Rattle.lt_parser.specs.inner.Tokens.{lexemes};
ghost use Rattle.lt_parser.specs.inner.Onto.{choice_after, parallel_after, plain_after, priority_after, traces_after, traces_onto};
ghost use Rattle.lt_parser.specs.inner.Reading.{after_first, an_alternative, some_braced};

use crate::atoms::{Parsed, after, expect};
use crate::expressions::parse_expr;
use crate::refusal::Refusal;
use crate::traces::{parse_sequence, parse_trace};
use lt_ast::{Braced, Part, Parts, Sign, Span, TraceExpr, Traces};
use lt_lexer::Lexeme;
use std::alloc::Global;

/// What stands in braces, the place of the brace that ends it, and the tokens after that.
pub(crate) type InBraces<'a> = Result<(Braced, Span, &'a [Lexeme<'a>]), Refusal>;

/// What stands in braces.
#[cycle(parser)]
pub(crate) fn parse_braced<'a>(alloc: Global, depth: u32, tokens: &'a [Lexeme<'a>]) -> InBraces<'a>
    requires { depth ≤ most_levels }
    ensures reads { ReadsTo (λ x k. k (braced x.0) x.1) (λ x. lexemes x.2.now) (some_braced depth)
        (lexemes tokens.now) result }
    ensures shorter { IfOk result (λ x. length x.2.now < length tokens.now) }
{
    if let Some((_, rest)) = after(tokens, Sign::Bar) {
        return parse_choice(alloc, depth, true, Vec::new(alloc), rest);
    }
    if let Some((_, rest)) = after(tokens, Sign::Priority) {
        return parse_priority(alloc, depth, true, Vec::new(alloc), rest);
    }
    if let Some((_, rest)) = after(tokens, Sign::Parallel) {
        return parse_parallel(alloc, depth, true, Vec::new(alloc), rest);
    }
    let (first, rest) = parse_trace(alloc, depth, tokens)?;
    parse_after_first(alloc, depth, first, rest)
}

// What follows a first trace that no sign leads.
#[cycle(parser)]
fn parse_after_first<'a>(
    alloc: Global,
    depth: u32,
    first: TraceExpr,
    tokens: &'a [Lexeme<'a>],
) -> InBraces<'a>
    requires { depth ≤ most_levels }
    ensures reads { ReadsTo (λ x k. k (braced x.0) x.1) (λ x. lexemes x.2.now)
        (after_first depth (trace first)) (lexemes tokens.now) result }
    ensures shorter { IfOk result (λ x. length x.2.now < length tokens.now) }
{
    if let Some((_, rest)) = after(tokens, Sign::Bar) {
        let first = Part {
            weight: None,
            body: first,
        };
        return parse_choice(alloc, depth, false, vec![in alloc; first]?, rest);
    }
    if let Some((_, rest)) = after(tokens, Sign::Priority) {
        return parse_priority(alloc, depth, false, vec![in alloc; first]?, rest);
    }
    if let Some((_, rest)) = after(tokens, Sign::Parallel) {
        return parse_parallel(alloc, depth, false, vec![in alloc; first]?, rest);
    }
    parse_plain(alloc, first, tokens)
}

// A trace alone, which is read, and the brace that ends it.
fn parse_plain<'a>(alloc: Global, inside: TraceExpr, tokens: &'a [Lexeme<'a>]) -> InBraces<'a>
    ensures reads { ReadsTo (λ x k. k (braced x.0) x.1) (λ x. lexemes x.2.now)
        (plain_after (trace inside)) (lexemes tokens.now) result }
    ensures shorter { IfOk result (λ x. length x.2.now < length tokens.now) }
{
    let (end, rest) = expect(tokens, Sign::CloseBrace)?;
    Ok((Braced::Plain(Box::new(alloc, inside)?), end, rest))
}

// The alternatives of a choice that come after others. Most choices have two alternatives, for which there is room at once.
#[cycle(parser)]
fn parse_choice<'a>(
    alloc: Global,
    depth: u32,
    lead: bool,
    before: Vec<Part>,
    tokens: &'a [Lexeme<'a>],
) -> InBraces<'a>
    requires { depth ≤ most_levels }
    ensures reads { ReadsTo (λ x k. k (braced x.0) x.1) (λ x. lexemes x.2.now)
        (choice_after depth lead before.items) (lexemes tokens.now) result }
    ensures shorter { IfOk result (λ x. length x.2.now < length tokens.now) }
{
    let (first, mut rest) = parse_alternative(alloc, depth, tokens)?;
    let mut items = before;
    items.reserve_exact(2)?;
    items.push(first)?;
    while let Some((_, next)) = after(rest, Sign::Bar) {
        let (another, remaining) = parse_alternative(alloc, depth, next)?;
        items.push(another)?;
        rest = remaining;
    }
    let (end, rest) = expect(rest, Sign::CloseBrace)?;
    let parts = Parts { items };
    Ok((Braced::Choice { lead, parts }, end, rest))
}

// The traces of a priority that come after others.
#[cycle(parser)]
fn parse_priority<'a>(
    alloc: Global,
    depth: u32,
    lead: bool,
    before: Vec<TraceExpr>,
    tokens: &'a [Lexeme<'a>],
) -> InBraces<'a>
    requires { depth ≤ most_levels }
    ensures reads { ReadsTo (λ x k. k (braced x.0) x.1) (λ x. lexemes x.2.now)
        (priority_after depth lead before.items) (lexemes tokens.now) result }
    ensures shorter { IfOk result (λ x. length x.2.now < length tokens.now) }
{
    let (parts, end, rest) = parse_traces(alloc, depth, Sign::Priority, before, tokens)?;
    Ok((Braced::Priority { lead, parts }, end, rest))
}

// The traces of a parallel composition that come after others.
#[cycle(parser)]
fn parse_parallel<'a>(
    alloc: Global,
    depth: u32,
    lead: bool,
    before: Vec<TraceExpr>,
    tokens: &'a [Lexeme<'a>],
) -> InBraces<'a>
    requires { depth ≤ most_levels }
    ensures reads { ReadsTo (λ x k. k (braced x.0) x.1) (λ x. lexemes x.2.now)
        (parallel_after depth lead before.items) (lexemes tokens.now) result }
    ensures shorter { IfOk result (λ x. length x.2.now < length tokens.now) }
{
    let (parts, end, rest) = parse_traces(alloc, depth, Sign::Parallel, before, tokens)?;
    Ok((Braced::Parallel { lead, parts }, end, rest))
}

// The traces that come after others, with this sign between two, and the place of the brace that ends them. There is room
// for two at once.
#[cycle(parser)]
fn parse_traces<'a>(
    alloc: Global,
    depth: u32,
    sign: Sign,
    before: Vec<TraceExpr>,
    tokens: &'a [Lexeme<'a>],
) -> Result<(Traces, Span, &'a [Lexeme<'a>]), Refusal>
    requires open { depth ≤ most_levels }
    requires between { sign ≢ Sign.CloseBrace }
    ensures reads { ReadsTo (λ x k. k (traces_onto x.0.items.items syntax.no_traces) x.1)
        (λ x. lexemes x.2.now) (traces_after depth sign before.items) (lexemes tokens.now) result }
    ensures shorter { IfOk result (λ x. length x.2.now < length tokens.now) }
{
    let (first, mut rest) = parse_trace(alloc, depth, tokens)?;
    let mut items = before;
    items.reserve_exact(2)?;
    items.push(first)?;
    while let Some((_, next)) = after(rest, sign) {
        let (another, remaining) = parse_trace(alloc, depth, next)?;
        items.push(another)?;
        rest = remaining;
    }
    let (end, rest) = expect(rest, Sign::CloseBrace)?;
    Ok((Traces { items }, end, rest))
}

// An alternative: an expression followed by a colon is its weight.
#[cycle(parser)]
fn parse_alternative<'a>(alloc: Global, depth: u32, tokens: &'a [Lexeme<'a>]) -> Parsed<'a, Part>
    requires { depth ≤ most_levels }
    ensures reads { ReadsAs (λ x. weighed x.0.weight x.0.body) (λ x. lexemes x.1.now)
        (an_alternative depth) (lexemes tokens.now) result }
    ensures shorter { IfOk result (λ x. length x.1.now < length tokens.now) }
{
    if begins_item(tokens) {
        let (body, rest) = parse_trace(alloc, depth, tokens)?;
        return Ok((Part { weight: None, body }, rest));
    }
    let (value, rest) = parse_expr(alloc, depth, 0, tokens)?;
    match after(rest, Sign::Colon) {
        Some((_, rest)) => {
            let (body, rest) = parse_trace(alloc, depth, rest)?;
            Ok((
                Part {
                    weight: Some(value),
                    body,
                },
                rest,
            ))
        }
        None => {
            let (body, rest) = parse_sequence(alloc, depth, TraceExpr::Value(value), rest)?;
            Ok((Part { weight: None, body }, rest))
        }
    }
}

// Whether a trace begins here that begins with no expression.
fn begins_item(tokens: &[Lexeme<'_>]) -> bool
    ensures { BeginsItem result (lexemes tokens.now) }
{
    match tokens.first() {
        None => false,
        Some(first) => matches!(
            first.sign,
            Sign::OpenBrace
                | Sign::Loop
                | Sign::Raise
                | Sign::Assert
                | Sign::Exist
                | Sign::Let
                | Sign::Exception
                | Sign::Catch
                | Sign::Trap
                | Sign::Try
        ),
    }
}
