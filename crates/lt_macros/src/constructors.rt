//! Phrases that no name has to be replaced for: each constructor as the head normal form that it is.

ghost use Rattle.std.specs.Prelude.{IsTrue, map};
ghost use Rattle.lt_ast.specs.inner.Lists.{traces_of};
ghost use Rattle.lt_ast.specs.inner.Rows.{maybe_trace};
ghost use Rattle.lt_ast.specs.View.{braced, exp, trace};
ghost use Rattle.lt_macros.specs.inner.Shape.{Shows, is_head_normal};
ghost use Rattle.lt_macros.specs.inner.Phrase.{braces, joined, trace as trace_phrase, value};
ghost use Rattle.lt_macros.specs.inner.Reading.{phrase_view};

use crate::head_normal_form::HeadNormalForm;
use crate::scope::{Join, Phrase};
use lt_ast::{Braced, Expr, TraceExpr};

// The head normal form that a phrase is in an environment, if it is one already.
#[inline(always)]
pub(crate) fn form_at(environment: usize, phrase: Phrase<'_>) -> HeadNormalForm<'_>
    ensures { IsTrue (is_head_normal (phrase_view phrase.entry)) →
        Shows environment result (phrase_view phrase.entry) }
{
    match phrase {
        Phrase::Value(expr) => expr_at(environment, expr),
        Phrase::Trace(trace) => trace_at(environment, trace),
        Phrase::Braces(inside) => braces_at(environment, inside),
        Phrase::Joined(join, traces) => joined_at(environment, join, traces),
        Phrase::Handler(_) => HeadNormalForm::Nothing,
    }
}

// The head normal form that an expression is, if it is one already.
#[inline(always)]
fn expr_at(environment: usize, expr: &Expr) -> HeadNormalForm<'_>
    ensures { IsTrue (is_head_normal (value (exp expr.now))) →
        Shows environment result (value (exp expr.now)) }
{
    match expr {
        Expr::Number(literal) => HeadNormalForm::Number(literal),
        Expr::Flag(flag, at) => HeadNormalForm::Flag(*flag, *at),
        Expr::Unary(op, part, at) => HeadNormalForm::Unary(*op, part, *at, environment),
        Expr::Binary(op, both, at) => HeadNormalForm::Binary(
            *op,
            &both.left,
            &both.right,
            *at,
            environment,
        ),
        Expr::If(test, yes, no, at) => HeadNormalForm::If(test, yes, no, *at, environment),
        Expr::Named(_, _) | Expr::Pre(_, _) | Expr::Paren(_, _) => HeadNormalForm::Meaningless,
    }
}

// The head normal form that a trace is, if it is one already.
#[inline(always)]
fn trace_at(environment: usize, written: &TraceExpr) -> HeadNormalForm<'_>
    ensures { IsTrue (is_head_normal (trace_phrase (trace written.now))) →
        Shows environment result (trace_phrase (trace written.now)) }
{
    match written {
        TraceExpr::Loop(bounds, body) => HeadNormalForm::Loop(bounds, body, environment),
        TraceExpr::Raise(name) => HeadNormalForm::Raise(name, environment),
        TraceExpr::Assert(expr, body) => HeadNormalForm::Assert(expr, body, environment),
        TraceExpr::Exist(groups, body) => HeadNormalForm::Exist(groups, body, environment),
        TraceExpr::Catch(name, body, handler) => HeadNormalForm::Catch(
            name,
            body,
            handler,
            environment,
        ),
        TraceExpr::Try(body, handler) => HeadNormalForm::Try(body, handler, environment),
        TraceExpr::Value(_)
        | TraceExpr::Braces(_, _)
        | TraceExpr::Seq(_)
        | TraceExpr::Let(_, _)
        | TraceExpr::Exceptions(_, _)
        | TraceExpr::Trap(_, _, _) => HeadNormalForm::Meaningless,
    }
}

// The head normal form that stands in braces, if it is one already.
#[inline(always)]
fn braces_at(environment: usize, inside: &Braced) -> HeadNormalForm<'_>
    ensures { IsTrue (is_head_normal (braces (braced inside.now))) →
        Shows environment result (braces (braced inside.now)) }
{
    match inside {
        Braced::Choice { parts, .. } => HeadNormalForm::Choice(parts, environment),
        Braced::Plain(_) | Braced::Priority { .. } | Braced::Parallel { .. } =>
            HeadNormalForm::Meaningless,
    }
}

// The head normal form that traces are which are joined so, if they are one already.
#[tactic(auto, using(crate::proofs::Plain::lists))]
#[inline(always)]
fn joined_at(environment: usize, join: Join, traces: &[TraceExpr]) -> HeadNormalForm<'_>
    ensures { IsTrue (is_head_normal (joined join (traces_of (map trace traces.now)))) →
        Shows environment result (joined join (traces_of (map trace traces.now))) }
{
    match traces.split_first() {
        None => HeadNormalForm::Nothing,
        Some((first, rest)) => HeadNormalForm::Joined(join, first, rest, environment),
    }
}
