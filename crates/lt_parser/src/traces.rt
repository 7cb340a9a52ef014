//! Traces, and the items of a sequence.

ghost use Rattle.std.specs.Prelude.{◌<◌, ◌≤◌, length, IfOk};
ghost use Rattle.lt_ast.specs.inner.Rows.{maybe_trace};
ghost use Rattle.lt_ast.specs.Syntax as syntax;
ghost use Rattle.lt_ast.specs.View.{exp, limits, trace};
ghost use Rattle.lt_grammar.specs.Nesting.{most_levels};
ghost use Rattle.lt_parser.specs.inner.Parsing.{ReadsAs, guard_goal};
ghost use Rattle.lt_parser.specs.inner.Tokens.{lexemes};
ghost use Rattle.lt_parser.specs.inner.Onto.{items_after};
ghost use Rattle.lt_parser.specs.inner.Reading.{a_handler, a_name, a_bound, a_trace, an_item, assert_goal, braces_goal, define_goal, exceptions_goal, exist_goal, loop_goal, sequence_goal, try_goal, some_limits, value_goal};
ghost use Rattle.lt_parser.specs.inner.Reading as reading;

use crate::atoms::{Parsed, after, deeper, expect, name_of, number_of, parse_name, parse_names};
use crate::braces::parse_braced;
use crate::expressions::{parse_expr, parse_paren};
use crate::groups::{parse_groups, parse_macro};
use crate::refusal::Refusal;
use lt_ast::{Bounds, Expr, Operands, Sign, Span, TraceExpr, Traces};
use lt_lexer::Lexeme;
use std::alloc::Global;

/// A trace: items with `fby` between them.
#[cycle(parser)]
pub(crate) fn parse_trace<'a>(
    alloc: Global,
    depth: u32,
    tokens: &'a [Lexeme<'a>],
) -> Parsed<'a, TraceExpr>
    requires { depth ≤ most_levels }
    ensures reads { ReadsAs (λ x. trace x.0) (λ x. lexemes x.1.now) (a_trace depth)
        (lexemes tokens.now) result }
    ensures shorter { IfOk result (λ x. length x.1.now < length tokens.now) }
{
    let (first, rest) = parse_item(alloc, depth, tokens)?;
    parse_sequence(alloc, depth, first, rest)
}

// A trace in a box.
#[cycle(parser)]
fn parse_boxed_trace<'a>(
    alloc: Global,
    depth: u32,
    tokens: &'a [Lexeme<'a>],
) -> Parsed<'a, Box<TraceExpr>>
    requires { depth ≤ most_levels }
    ensures reads { ReadsAs (λ x. trace x.0.value) (λ x. lexemes x.1.now) (a_trace depth)
        (lexemes tokens.now) result }
    ensures shorter { IfOk result (λ x. length x.1.now < length tokens.now) }
{
    let (body, rest) = parse_trace(alloc, depth, tokens)?;
    Ok((Box::new(alloc, body)?, rest))
}

/// A trace whose first item is read.
#[cycle(parser)]
pub(crate) fn parse_sequence<'a>(
    alloc: Global,
    depth: u32,
    first: TraceExpr,
    tokens: &'a [Lexeme<'a>],
) -> Parsed<'a, TraceExpr>
    requires { depth ≤ most_levels }
    ensures reads { ReadsAs (λ x. trace x.0) (λ x. lexemes x.1.now)
        (sequence_goal depth (trace first)) (lexemes tokens.now) result }
    ensures shorter { IfOk result (λ x. length x.1.now ≤ length tokens.now) }
{
    match after(tokens, Sign::Fby) {
        None => Ok((first, tokens)),
        Some((_, rest)) => parse_more_items(alloc, depth, vec![in alloc; first]?, rest),
    }
}

// The items of a sequence that come after others.
#[cycle(parser)]
fn parse_more_items<'a>(
    alloc: Global,
    depth: u32,
    before: Vec<TraceExpr>,
    tokens: &'a [Lexeme<'a>],
) -> Parsed<'a, TraceExpr>
    requires { depth ≤ most_levels }
    ensures reads { ReadsAs (λ x. trace x.0) (λ x. lexemes x.1.now) (items_after depth before.items)
        (lexemes tokens.now) result }
    ensures shorter { IfOk result (λ x. length x.1.now < length tokens.now) }
{
    let (first, mut rest) = parse_item(alloc, depth, tokens)?;
    let mut items = before;
    items.push(first)?;
    while let Some((_, next)) = after(rest, Sign::Fby) {
        let (another, remaining) = parse_item(alloc, depth, next)?;
        items.push(another)?;
        rest = remaining;
    }
    Ok((TraceExpr::Seq(Traces { items }), rest))
}

// An item of a sequence.
#[cycle(parser)]
fn parse_item<'a>(alloc: Global, depth: u32, tokens: &'a [Lexeme<'a>]) -> Parsed<'a, TraceExpr>
    requires { depth ≤ most_levels }
    ensures reads { ReadsAs (λ x. trace x.0) (λ x. lexemes x.1.now) (an_item depth)
        (lexemes tokens.now) result }
    ensures shorter { IfOk result (λ x. length x.1.now < length tokens.now) }
{
    let Some((first, rest)) = tokens.split_first() else {
        return Err(Refusal::Unexpected(0));
    };
    match first.sign {
        Sign::OpenBrace => parse_braces(alloc, deeper(depth, tokens.len())?, first.span(), rest),
        Sign::Loop => parse_loop(alloc, deeper(depth, tokens.len())?, rest),
        Sign::Raise => parse_raise(alloc, rest),
        Sign::Assert => parse_assert(alloc, deeper(depth, tokens.len())?, rest),
        Sign::Exist => parse_exist(alloc, deeper(depth, tokens.len())?, rest),
        Sign::Let => parse_let(alloc, deeper(depth, tokens.len())?, rest),
        Sign::Exception => parse_exceptions(alloc, deeper(depth, tokens.len())?, rest),
        Sign::Catch => parse_guarded(alloc, deeper(depth, tokens.len())?, Guard::Catch, rest),
        Sign::Trap => parse_guarded(alloc, deeper(depth, tokens.len())?, Guard::Trap, rest),
        Sign::Try => parse_try(alloc, deeper(depth, tokens.len())?, rest),
        _ => parse_value(alloc, depth, tokens),
    }
}

// An expression as an item.
#[cycle(parser)]
fn parse_value<'a>(alloc: Global, depth: u32, tokens: &'a [Lexeme<'a>]) -> Parsed<'a, TraceExpr>
    requires { depth ≤ most_levels }
    ensures reads { ReadsAs (λ x. trace x.0) (λ x. lexemes x.1.now) (value_goal depth)
        (lexemes tokens.now) result }
    ensures shorter { IfOk result (λ x. length x.1.now < length tokens.now) }
{
    let (value, rest) = parse_expr(alloc, depth, 0, tokens)?;
    Ok((TraceExpr::Value(value), rest))
}

// What follows an opening brace.
#[cycle(parser)]
fn parse_braces<'a>(
    alloc: Global,
    inside: u32,
    start: Span,
    tokens: &'a [Lexeme<'a>],
) -> Parsed<'a, TraceExpr>
    requires { inside ≤ most_levels }
    ensures reads { ReadsAs (λ x. trace x.0) (λ x. lexemes x.1.now) (braces_goal inside start)
        (lexemes tokens.now) result }
    ensures shorter { IfOk result (λ x. length x.1.now < length tokens.now) }
{
    let (found, end, rest) = parse_braced(alloc, inside, tokens)?;
    Ok((TraceExpr::Braces(found, start.to(end)), rest))
}

// What follows `loop`.
#[cycle(parser)]
fn parse_loop<'a>(alloc: Global, inside: u32, tokens: &'a [Lexeme<'a>]) -> Parsed<'a, TraceExpr>
    requires { inside ≤ most_levels }
    ensures reads { ReadsAs (λ x. trace x.0) (λ x. lexemes x.1.now) (loop_goal inside)
        (lexemes tokens.now) result }
    ensures shorter { IfOk result (λ x. length x.1.now < length tokens.now) }
{
    let (bounds, rest) = parse_bounds(alloc, inside, tokens)?;
    let (body, rest) = parse_item(alloc, inside, rest)?;
    Ok((TraceExpr::Loop(bounds, Box::new(alloc, body)?), rest))
}

// What follows `raise`.
fn parse_raise<'a>(alloc: Global, tokens: &'a [Lexeme<'a>]) -> Parsed<'a, TraceExpr>
    ensures reads { ReadsAs (λ x. trace x.0) (λ x. lexemes x.1.now)
        (λ k. a_name (λ n. k (syntax.raise n))) (lexemes tokens.now) result }
    ensures shorter { IfOk result (λ x. length x.1.now < length tokens.now) }
{
    let (name, rest) = parse_name(alloc, tokens)?;
    Ok((TraceExpr::Raise(name), rest))
}

// A trace after `in`.
#[cycle(parser)]
fn parse_in_trace<'a>(
    alloc: Global,
    inside: u32,
    tokens: &'a [Lexeme<'a>],
) -> Parsed<'a, Box<TraceExpr>>
    requires { inside ≤ most_levels }
    ensures reads { ReadsAs (λ x. trace x.0.value) (λ x. lexemes x.1.now) (reading.in_trace inside)
        (lexemes tokens.now) result }
    ensures shorter { IfOk result (λ x. length x.1.now < length tokens.now) }
{
    let (_, rest) = expect(tokens, Sign::In)?;
    parse_boxed_trace(alloc, inside, rest)
}

// What follows `assert`.
#[cycle(parser)]
fn parse_assert<'a>(alloc: Global, inside: u32, tokens: &'a [Lexeme<'a>]) -> Parsed<'a, TraceExpr>
    requires { inside ≤ most_levels }
    ensures reads { ReadsAs (λ x. trace x.0) (λ x. lexemes x.1.now) (assert_goal inside)
        (lexemes tokens.now) result }
    ensures shorter { IfOk result (λ x. length x.1.now < length tokens.now) }
{
    let (condition, rest) = parse_expr(alloc, inside, 0, tokens)?;
    let (body, rest) = parse_in_trace(alloc, inside, rest)?;
    Ok((TraceExpr::Assert(condition, body), rest))
}

// What follows `exist`.
#[cycle(parser)]
fn parse_exist<'a>(alloc: Global, inside: u32, tokens: &'a [Lexeme<'a>]) -> Parsed<'a, TraceExpr>
    requires { inside ≤ most_levels }
    ensures reads { ReadsAs (λ x. trace x.0) (λ x. lexemes x.1.now) (exist_goal inside)
        (lexemes tokens.now) result }
    ensures shorter { IfOk result (λ x. length x.1.now < length tokens.now) }
{
    let (groups, rest) = parse_groups(alloc, inside, Sign::In, tokens)?;
    let (body, rest) = parse_boxed_trace(alloc, inside, rest)?;
    Ok((TraceExpr::Exist(groups, body), rest))
}

// What follows a `let` that has an `in`.
#[cycle(parser)]
fn parse_let<'a>(alloc: Global, inside: u32, tokens: &'a [Lexeme<'a>]) -> Parsed<'a, TraceExpr>
    requires { inside ≤ most_levels }
    ensures reads { ReadsAs (λ x. trace x.0) (λ x. lexemes x.1.now) (define_goal inside)
        (lexemes tokens.now) result }
    ensures shorter { IfOk result (λ x. length x.1.now < length tokens.now) }
{
    let (declared, rest) = parse_macro(alloc, inside, tokens)?;
    let declared = Box::new(alloc, declared)?;
    let (body, rest) = parse_in_trace(alloc, inside, rest)?;
    Ok((TraceExpr::Let(declared, body), rest))
}

// What follows an `exception` that has an `in`.
#[cycle(parser)]
fn parse_exceptions<'a>(
    alloc: Global,
    inside: u32,
    tokens: &'a [Lexeme<'a>],
) -> Parsed<'a, TraceExpr>
    requires { inside ≤ most_levels }
    ensures reads { ReadsAs (λ x. trace x.0) (λ x. lexemes x.1.now) (exceptions_goal inside)
        (lexemes tokens.now) result }
    ensures shorter { IfOk result (λ x. length x.1.now < length tokens.now) }
{
    let (names, rest) = parse_names(alloc, tokens)?;
    let (body, rest) = parse_in_trace(alloc, inside, rest)?;
    Ok((TraceExpr::Exceptions(names, body), rest))
}

/// The forms that have an exception of their own.
#[derive(Clone, Copy)]
pub(crate) enum Guard {
    /// `catch`.
    Catch,

    /// `trap`.
    Trap,
}

// What follows `catch` or `trap`.
#[cycle(parser)]
fn parse_guarded<'a>(
    alloc: Global,
    inside: u32,
    guard: Guard,
    tokens: &'a [Lexeme<'a>],
) -> Parsed<'a, TraceExpr>
    requires { inside ≤ most_levels }
    ensures reads { ReadsAs (λ x. trace x.0) (λ x. lexemes x.1.now) (guard_goal inside guard)
        (lexemes tokens.now) result }
    ensures shorter { IfOk result (λ x. length x.1.now < length tokens.now) }
{
    let (name, rest) = parse_name(alloc, tokens)?;
    let (body, rest) = parse_in_trace(alloc, inside, rest)?;
    let (otherwise, rest) = parse_handler(alloc, inside, rest)?;
    match guard {
        Guard::Catch => Ok((TraceExpr::Catch(name, body, otherwise), rest)),
        Guard::Trap => Ok((TraceExpr::Trap(name, body, otherwise), rest)),
    }
}

// What follows `try`.
#[cycle(parser)]
fn parse_try<'a>(alloc: Global, inside: u32, tokens: &'a [Lexeme<'a>]) -> Parsed<'a, TraceExpr>
    requires { inside ≤ most_levels }
    ensures reads { ReadsAs (λ x. trace x.0) (λ x. lexemes x.1.now) (try_goal inside)
        (lexemes tokens.now) result }
    ensures shorter { IfOk result (λ x. length x.1.now < length tokens.now) }
{
    let (body, rest) = parse_boxed_trace(alloc, inside, tokens)?;
    let (otherwise, rest) = parse_handler(alloc, inside, rest)?;
    Ok((TraceExpr::Try(body, otherwise), rest))
}

// What follows a `do`, where it is there: the nearest form that may have it takes it.
#[cycle(parser)]
fn parse_handler<'a>(
    alloc: Global,
    inside: u32,
    tokens: &'a [Lexeme<'a>],
) -> Parsed<'a, Option<Box<TraceExpr>>>
    requires { inside ≤ most_levels }
    ensures reads { ReadsAs (λ x. maybe_trace x.0) (λ x. lexemes x.1.now) (a_handler inside)
        (lexemes tokens.now) result }
    ensures shorter { IfOk result (λ x. length x.1.now ≤ length tokens.now) }
{
    match after(tokens, Sign::Do) {
        None => Ok((None, tokens)),
        Some((_, rest)) => {
            let (body, rest) = parse_boxed_trace(alloc, inside, rest)?;
            Ok((Some(body), rest))
        }
    }
}

// The bounds of a loop, where they are there.
#[cycle(parser)]
fn parse_bounds<'a>(alloc: Global, inside: u32, tokens: &'a [Lexeme<'a>]) -> Parsed<'a, Bounds>
    requires { inside ≤ most_levels }
    ensures reads { ReadsAs (λ x. limits x.0) (λ x. lexemes x.1.now) (some_limits inside)
        (lexemes tokens.now) result }
    ensures shorter { IfOk result (λ x. length x.1.now ≤ length tokens.now) }
{
    if let Some((_, rest)) = after(tokens, Sign::OpenBracket) {
        let (low, rest) = parse_expr(alloc, inside, 0, rest)?;
        let (_, rest) = expect(rest, Sign::Comma)?;
        let (high, rest) = parse_expr(alloc, inside, 0, rest)?;
        let (_, rest) = expect(rest, Sign::CloseBracket)?;
        let ends = Operands {
            left: low,
            right: high,
        };
        return Ok((Bounds::Between(Box::new(alloc, ends)?), rest));
    }
    if let Some((_, rest)) = after(tokens, Sign::Tilde) {
        let (average, rest) = parse_bound(alloc, inside, rest)?;
        let (_, rest) = expect(rest, Sign::Colon)?;
        let (deviation, rest) = parse_bound(alloc, inside, rest)?;
        let both = Operands {
            left: average,
            right: deviation,
        };
        return Ok((Bounds::Around(Box::new(alloc, both)?), rest));
    }
    Ok((Bounds::Forever, tokens))
}

// A number, a name without arguments, or an expression in parentheses.
#[cycle(parser)]
fn parse_bound<'a>(alloc: Global, depth: u32, tokens: &'a [Lexeme<'a>]) -> Parsed<'a, Expr>
    requires { depth ≤ most_levels }
    ensures reads { ReadsAs (λ x. exp x.0) (λ x. lexemes x.1.now) (a_bound depth)
        (lexemes tokens.now) result }
    ensures shorter { IfOk result (λ x. length x.1.now < length tokens.now) }
{
    let Some((first, rest)) = tokens.split_first() else {
        return Err(Refusal::Unexpected(0));
    };
    match first.sign {
        Sign::Open => parse_paren(alloc, deeper(depth, tokens.len())?, first.span(), rest),
        Sign::Number => Ok((
            Expr::Number(number_of(alloc, false, first.span(), first)?),
            rest,
        )),
        Sign::Name => Ok((Expr::Named(name_of(alloc, first)?, None), rest)),
        _ => Err(Refusal::Unexpected(tokens.len())),
    }
}
