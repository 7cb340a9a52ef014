//! Runs of nodes, which stand before what a node does.

ghost use Rattle.std.specs.Prelude.{◌<◌, ◌≤◌, length, map, IfOk};
ghost use Rattle.lt_ast.specs.View.{exp, run, trace};
ghost use Rattle.lt_grammar.specs.Nesting.{most_levels};
ghost use Rattle.lt_parser.specs.inner.Onto.{runs_after};
ghost use Rattle.lt_parser.specs.inner.Parsing.{ReadsAs, ReadsTo};
ghost use Rattle.lt_parser.specs.inner.Reading.{run_goal, some_expressions, some_runs};
ghost use Rattle.lt_parser.specs.inner.Tokens.{lexemes};

use crate::atoms::{Parsed, after, deeper, expect, parse_name, parse_names};
use crate::expressions::parse_expr;
use crate::refusal::Refusal;
use crate::traces::parse_trace;
use lt_ast::{Expr, RunDecl, Sign, Span, TraceExpr};
use lt_lexer::Lexeme;
use std::alloc::Global;

/// Runs, the trace in them, and the tokens after that.
pub(crate) type InRuns<'a> = Result<(Vec<RunDecl>, TraceExpr, &'a [Lexeme<'a>]), Refusal>;

/// Runs, if any, and the trace in them. Each run opens a level, which stays open up to the trace's end, and its parentheses
/// open one more: where there is no room for both, no program has that run.
pub(crate) fn parse_runs<'a>(alloc: Global, tokens: &'a [Lexeme<'a>]) -> InRuns<'a>
    ensures reads { ReadsTo (λ x k. k (map run x.0.items) (trace x.1)) (λ x. lexemes x.2.now)
        (some_runs 0) (lexemes tokens.now) result }
    ensures shorter { IfOk result (λ x. length x.2.now < length tokens.now) }
{
    parse_more_runs(alloc, 0, Vec::new(alloc), tokens)
}

// Runs that come after others, each of which opened a level, and the trace in all of them.
fn parse_more_runs<'a>(
    alloc: Global,
    depth: u32,
    before: Vec<RunDecl>,
    tokens: &'a [Lexeme<'a>],
) -> InRuns<'a>
    requires { depth < most_levels }
    ensures reads { ReadsTo (λ x k. k (map run x.0.items) (trace x.1)) (λ x. lexemes x.2.now)
        (runs_after depth before.items) (lexemes tokens.now) result }
    ensures shorter { IfOk result (λ x. length x.2.now < length tokens.now) }
{
    let Some((start, next)) = after(tokens, Sign::Run) else {
        let (body, rest) = parse_trace(alloc, depth, tokens)?;
        return Ok((before, body, rest));
    };
    let inside = deeper(depth + 1, tokens.len())?;
    let (declared, rest) = parse_run(alloc, inside, start, next)?;
    let mut runs = before;
    runs.push(declared)?;
    parse_more_runs(alloc, depth + 1, runs, rest)
}

// What follows a `run`, which stands at this place, up to the `in`. So many levels are open in its parentheses.
fn parse_run<'a>(
    alloc: Global,
    inside: u32,
    start: Span,
    tokens: &'a [Lexeme<'a>],
) -> Parsed<'a, RunDecl>
    requires { inside ≤ most_levels }
    ensures reads { ReadsAs (λ x. run x.0) (λ x. lexemes x.1.now) (run_goal inside start)
        (lexemes tokens.now) result }
    ensures shorter { IfOk result (λ x. length x.1.now < length tokens.now) }
{
    let (names, rest) = parse_names(alloc, tokens)?;
    let (_, rest) = expect(rest, Sign::Assign)?;
    let (node, rest) = parse_name(alloc, rest)?;
    let (_, rest) = expect(rest, Sign::Open)?;
    let (arguments, rest) = parse_expressions(alloc, inside, rest)?;
    let (end, rest) = expect(rest, Sign::In)?;
    Ok((
        RunDecl {
            names,
            node,
            arguments,
            span: start.to(end),
        },
        rest,
    ))
}

// Expressions, if any, and the parenthesis that ends them.
fn parse_expressions<'a>(
    alloc: Global,
    inside: u32,
    tokens: &'a [Lexeme<'a>],
) -> Parsed<'a, Vec<Expr>>
    requires { inside ≤ most_levels }
    ensures reads { ReadsAs (λ x. map exp x.0.items) (λ x. lexemes x.1.now)
        (some_expressions inside) (lexemes tokens.now) result }
    ensures shorter { IfOk result (λ x. length x.1.now < length tokens.now) }
{
    if let Some((_, rest)) = after(tokens, Sign::Close) {
        return Ok((Vec::new(alloc), rest));
    }
    let (first, mut rest) = parse_expr(alloc, inside, 0, tokens)?;
    let mut items = vec![in alloc; first]?;
    while let Some((_, next)) = after(rest, Sign::Comma) {
        let (another, behind) = parse_expr(alloc, inside, 0, next)?;
        items.push(another)?;
        rest = behind;
    }
    let (_, rest) = expect(rest, Sign::Close)?;
    Ok((items, rest))
}
