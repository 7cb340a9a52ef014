//! Expressions.

ghost use Rattle.std.specs.Prelude.{◌≡◌, ◌<◌, ◌≤◌, suc, length, IfOk, MatchOption};
ghost use Rattle.lt_ast.specs.Syntax as syntax;
ghost use Rattle.lt_ast.specs.View.{argument, exp, word};
ghost use Rattle.lt_grammar.specs.Nesting.{most_levels};
ghost use Rattle.lt_parser.specs.inner.Parsing.{ExpressionReadsAs, ReadsAs, ReadsTo, IsExtended, IsNotExtended, OperandReadsAs};
ghost use Rattle.lt_ast.specs.Places.{across, span_of};
ghost use Rattle.lt_parser.specs.inner.Tokens.{lexemes};
ghost use Rattle.lt_parser.specs.inner.Onto.{arguments_onto};
ghost use Rattle.lt_parser.specs.inner.Reading.{a_right_side, after_name, an_argument, an_exp, if_goal, more_exp, paren_goal, some_arguments, unary_goal};

use crate::atoms::{Parsed, after, deeper, expect, name_of, number_of, parse_name};
use crate::braces::parse_braced;
use crate::precedence::{operator, rank, top};
use crate::refusal::Refusal;
use lt_ast::{Arg, Args, BinOp, Expr, Name, Operands, Sign, Span, UnOp};
use lt_lexer::Lexeme;
use std::alloc::{AllocError, Global};

/// An expression up to the end of the tokens.
pub(crate) fn parse_whole_expr<'a>(alloc: Global, tokens: &'a [Lexeme<'a>]) -> Result<Expr, Refusal>
    ensures { ExpressionReadsAs (lexemes tokens.now) result }
{
    let (found, rest) = parse_expr(alloc, 0, 0, tokens)?;
    if rest.is_empty() {
        return Ok(found);
    }
    Err(Refusal::Unexpected(rest.len()))
}

/// An expression that binds at least so tightly.
#[cycle(parser)]
pub(crate) fn parse_expr<'a>(
    alloc: Global,
    depth: u32,
    low: u32,
    tokens: &'a [Lexeme<'a>],
) -> Parsed<'a, Expr>
    requires { depth ≤ most_levels }
    ensures reads { ReadsAs (λ x. exp x.0) (λ x. lexemes x.1.now) (an_exp depth low)
        (lexemes tokens.now) result }
    ensures shorter { IfOk result (λ x. length x.1.now < length tokens.now) }
{
    let (mut left, mut rest) = parse_first_operand(alloc, depth, low, tokens)?;
    while let Some((operator, next)) = parse_operator(rest, low) {
        if rank(operator) > top(&left) {
            return Err(Refusal::Unexpected(rest.len()));
        }
        let (right, remaining) = parse_right_operand(alloc, depth, operator, rest.len(), next)?;
        left = joined(alloc, operator, left, right)?;
        rest = remaining;
    }
    Ok((left, rest))
}

// An expression that binds at least so tightly, in a box.
#[cycle(parser)]
fn parse_boxed_expr<'a>(
    alloc: Global,
    depth: u32,
    low: u32,
    tokens: &'a [Lexeme<'a>],
) -> Parsed<'a, Box<Expr>>
    requires { depth ≤ most_levels }
    ensures reads { ReadsAs (λ x. exp x.0.value) (λ x. lexemes x.1.now) (an_exp depth low)
        (lexemes tokens.now) result }
    ensures shorter { IfOk result (λ x. length x.1.now < length tokens.now) }
{
    let (inner, rest) = parse_expr(alloc, depth, low, tokens)?;
    Ok((Box::new(alloc, inner)?, rest))
}

// An operator that binds at least so tightly, and the tokens after it.
fn parse_operator<'a>(tokens: &'a [Lexeme<'a>], low: u32) -> Option<(BinOp, &'a [Lexeme<'a>])>
    ensures found { MatchOption result (IsNotExtended low (lexemes tokens.now))
        (λ r. IsExtended low r.0 (lexemes tokens.now) (lexemes r.1.now)) }
    ensures shorter { MatchOption result (length tokens.now ≡ length tokens.now)
        (λ r. length tokens.now ≡ suc (length r.1.now)) }
{
    match tokens.split_first() {
        None => None,
        Some((first, rest)) => match operator(first.sign) {
            Some(operator) if rank(operator) >= low => Some((operator, rest)),
            _ => None,
        },
    }
}

// The right side of an operator.
#[cycle(parser)]
fn parse_right_operand<'a>(
    alloc: Global,
    depth: u32,
    operator: BinOp,
    left: usize,
    tokens: &'a [Lexeme<'a>],
) -> Parsed<'a, Expr>
    requires open { depth ≤ most_levels }
    requires left { left ≡ suc (length tokens.now) }
    ensures reads { OperandReadsAs (λ x. exp x.0) (λ x. lexemes x.1.now) depth operator
        (lexemes tokens.now) result }
    ensures shorter { IfOk result (λ x. length x.1.now < length tokens.now) }
{
    match operator {
        BinOp::Implies => {
            let inside = deeper(depth, left)?;
            parse_expr(alloc, inside, 1, tokens)
        }
        BinOp::Or | BinOp::Xor => parse_expr(alloc, depth, 3, tokens),
        BinOp::And => parse_expr(alloc, depth, 4, tokens),
        BinOp::Eq | BinOp::Ne | BinOp::Lt | BinOp::Le | BinOp::Gt | BinOp::Ge => parse_compared(
            alloc, depth, tokens,
        ),
        BinOp::Add | BinOp::Sub => parse_expr(alloc, depth, 7, tokens),
        BinOp::Mul | BinOp::Div | BinOp::DivWord | BinOp::Mod => parse_expr(
            alloc, depth, 8, tokens,
        ),
    }
}

// The right side of a comparison: it begins with `not`, or is a sum.
#[cycle(parser)]
fn parse_compared<'a>(alloc: Global, depth: u32, tokens: &'a [Lexeme<'a>]) -> Parsed<'a, Expr>
    requires { depth ≤ most_levels }
    ensures reads { ReadsAs (λ x. exp x.0) (λ x. lexemes x.1.now) (a_right_side depth)
        (lexemes tokens.now) result }
    ensures shorter { IfOk result (λ x. length x.1.now < length tokens.now) }
{
    match after(tokens, Sign::Not) {
        Some(_) => parse_expr(alloc, depth, 4, tokens),
        None => parse_expr(alloc, depth, 6, tokens),
    }
}

// An operator between its operands.
fn joined(alloc: Global, operator: BinOp, left: Expr, right: Expr) -> Result<Expr, AllocError>
    ensures { IfOk result (λ e. exp e ≡ syntax.binary operator (exp left) (exp right)
        (across (span_of (exp left)) (span_of (exp right)))) }
{
    let span = left.span().to(right.span());
    Ok(Expr::Binary(operator, Box::new(alloc, Operands { left, right })?, span))
}

// The first operand, with the operator before it.
#[cycle(parser)]
fn parse_first_operand<'a>(
    alloc: Global,
    depth: u32,
    low: u32,
    tokens: &'a [Lexeme<'a>],
) -> Parsed<'a, Expr>
    requires { depth ≤ most_levels }
    ensures reads { ReadsTo (λ x k. more_exp depth low (exp x.0) k) (λ x. lexemes x.1.now)
        (an_exp depth low) (lexemes tokens.now) result }
    ensures shorter { IfOk result (λ x. length x.1.now < length tokens.now) }
{
    let Some((first, rest)) = tokens.split_first() else {
        return Err(Refusal::Unexpected(tokens.len()));
    };
    match first.sign {
        Sign::Minus if low <= 8 => parse_unary(
            alloc,
            deeper(depth, tokens.len())?,
            UnOp::Neg,
            first.span(),
            rest,
        ),
        Sign::Not if low <= 4 => parse_unary(
            alloc,
            deeper(depth, tokens.len())?,
            UnOp::Not,
            first.span(),
            rest,
        ),
        Sign::If if low == 0 => parse_conditional(
            alloc,
            deeper(depth, tokens.len())?,
            first.span(),
            rest,
        ),
        Sign::Open => parse_paren(alloc, deeper(depth, tokens.len())?, first.span(), rest),
        Sign::Name => parse_named(alloc, depth, name_of(alloc, first)?, rest),
        Sign::Pre => {
            let (name, rest) = parse_name(alloc, rest)?;
            let span = first.span().to(name.span);
            Ok((Expr::Pre(name, span), rest))
        }
        Sign::Number => Ok((
            Expr::Number(number_of(alloc, false, first.span(), first)?),
            rest,
        )),
        Sign::True => Ok((Expr::Flag(true, first.span()), rest)),
        Sign::False => Ok((Expr::Flag(false, first.span()), rest)),
        _ => Err(Refusal::Unexpected(tokens.len())),
    }
}

// What follows the sign of an operator with one operand.
#[cycle(parser)]
fn parse_unary<'a>(
    alloc: Global,
    inside: u32,
    operator: UnOp,
    start: Span,
    tokens: &'a [Lexeme<'a>],
) -> Parsed<'a, Expr>
    requires { inside ≤ most_levels }
    ensures reads { ReadsAs (λ x. exp x.0) (λ x. lexemes x.1.now) (unary_goal inside operator start)
        (lexemes tokens.now) result }
    ensures shorter { IfOk result (λ x. length x.1.now < length tokens.now) }
{
    let least = match operator {
        UnOp::Neg => 8,
        UnOp::Not => 4,
    };
    let (inner, rest) = parse_boxed_expr(alloc, inside, least, tokens)?;
    let span = start.to(inner.span());
    Ok((Expr::Unary(operator, inner, span), rest))
}

/// What follows an opening parenthesis: an expression, and the closing one.
#[cycle(parser)]
pub(crate) fn parse_paren<'a>(
    alloc: Global,
    inside: u32,
    start: Span,
    tokens: &'a [Lexeme<'a>],
) -> Parsed<'a, Expr>
    requires { inside ≤ most_levels }
    ensures reads { ReadsAs (λ x. exp x.0) (λ x. lexemes x.1.now) (paren_goal inside start)
        (lexemes tokens.now) result }
    ensures shorter { IfOk result (λ x. length x.1.now < length tokens.now) }
{
    let (inner, rest) = parse_boxed_expr(alloc, inside, 0, tokens)?;
    let (end, rest) = expect(rest, Sign::Close)?;
    Ok((Expr::Paren(inner, start.to(end)), rest))
}

// What follows an `if`.
#[cycle(parser)]
fn parse_conditional<'a>(
    alloc: Global,
    inside: u32,
    start: Span,
    tokens: &'a [Lexeme<'a>],
) -> Parsed<'a, Expr>
    requires { inside ≤ most_levels }
    ensures reads { ReadsAs (λ x. exp x.0) (λ x. lexemes x.1.now) (if_goal inside start)
        (lexemes tokens.now) result }
    ensures shorter { IfOk result (λ x. length x.1.now < length tokens.now) }
{
    let (condition, rest) = parse_boxed_expr(alloc, inside, 0, tokens)?;
    let (_, rest) = expect(rest, Sign::Then)?;
    let (holds, rest) = parse_boxed_expr(alloc, inside, 0, rest)?;
    let (_, rest) = expect(rest, Sign::Else)?;
    let (otherwise, rest) = parse_boxed_expr(alloc, inside, 0, rest)?;
    let span = start.to(otherwise.span());
    Ok((Expr::If(condition, holds, otherwise, span), rest))
}

// What follows a name in an expression.
#[cycle(parser)]
fn parse_named<'a>(
    alloc: Global,
    depth: u32,
    name: Name,
    tokens: &'a [Lexeme<'a>],
) -> Parsed<'a, Expr>
    requires { depth ≤ most_levels }
    ensures reads { ReadsAs (λ x. exp x.0) (λ x. lexemes x.1.now) (after_name depth (word name))
        (lexemes tokens.now) result }
    ensures shorter { IfOk result (λ x. length x.1.now ≤ length tokens.now) }
{
    match after(tokens, Sign::Open) {
        None => Ok((Expr::Named(name, None), tokens)),
        Some((_, rest)) => {
            let inside = deeper(depth, tokens.len())?;
            let (args, rest) = parse_args(alloc, inside, rest)?;
            Ok((Expr::Named(name, Some(Box::new(alloc, args)?)), rest))
        }
    }
}

// Arguments, if any, and the parenthesis that ends them.
#[cycle(parser)]
fn parse_args<'a>(alloc: Global, depth: u32, tokens: &'a [Lexeme<'a>]) -> Parsed<'a, Args>
    requires { depth ≤ most_levels }
    ensures reads { ReadsAs (λ x. arguments_onto x.0.items.items syntax.no_arguments)
        (λ x. lexemes x.1.now) (some_arguments depth) (lexemes tokens.now) result }
    ensures shorter { IfOk result (λ x. length x.1.now < length tokens.now) }
{
    if let Some((_, rest)) = after(tokens, Sign::Close) {
        return Ok((
            Args {
                items: Vec::new(alloc),
            },
            rest,
        ));
    }
    let (first, mut rest) = parse_arg(alloc, depth, tokens)?;
    let mut items = vec![in alloc; first]?;
    while let Some((_, next)) = after(rest, Sign::Comma) {
        let (another, remaining) = parse_arg(alloc, depth, next)?;
        items.push(another)?;
        rest = remaining;
    }
    let (_, rest) = expect(rest, Sign::Close)?;
    Ok((Args { items }, rest))
}

// An argument: an expression, or a trace in braces.
#[cycle(parser)]
fn parse_arg<'a>(alloc: Global, depth: u32, tokens: &'a [Lexeme<'a>]) -> Parsed<'a, Arg>
    requires { depth ≤ most_levels }
    ensures reads { ReadsAs (λ x. argument x.0) (λ x. lexemes x.1.now) (an_argument depth)
        (lexemes tokens.now) result }
    ensures shorter { IfOk result (λ x. length x.1.now < length tokens.now) }
{
    match after(tokens, Sign::OpenBrace) {
        Some((start, rest)) => {
            let inside = deeper(depth, tokens.len())?;
            let (found, end, rest) = parse_braced(alloc, inside, rest)?;
            Ok((Arg::Trace(found, start.to(end)), rest))
        }
        None => {
            let (value, rest) = parse_expr(alloc, depth, 0, tokens)?;
            Ok((Arg::Value(value), rest))
        }
    }
}
