//! The shape of a phrase: what is seen of it without going into it.

ghost use Rattle.std.specs.Prelude.{◌≡◌, ◌≤◌, ℕ, IfSome, map};
ghost use Rattle.lt_ast.specs.inner.Lists.{traces_of};
ghost use Rattle.lt_ast.specs.inner.Rows.{maybe_trace};
ghost use Rattle.lt_ast.specs.View.{argument, braced, exp, meaning, trace};
ghost use Rattle.lt_macros.specs.Denotation.{Denotation};
ghost use Rattle.lt_macros.specs.Environment.{Environment};
ghost use Rattle.lt_macros.specs.inner.Shape.{HasShape};
ghost use Rattle.lt_macros.specs.inner.Phrase.{argument_phrase, braces, handler, joined, meaning_phrase, phrase_denotation, trace as trace_phrase, value};
ghost use Rattle.lt_macros.specs.inner.Reading.{phrase_view};
ghost use Rattle.lt_macros.specs.inner.Uses.{given};
ghost use Rattle.lt_macros.specs.inner.Work.{phrase_work};

use crate::scope::{Join, Phrase};
use lt_ast::{Arg, Args, Body, Braced, Expr, MacroDecl, Name, Names, Span, TraceExpr};

/// A name that is used, and its arguments.
#[derive(Clone, Copy)]
pub(crate) struct NameUse<'a> {
    /// The name.
    pub(crate) name: &'a Name,

    /// The arguments; a name alone has none.
    pub(crate) args: &'a [Arg],
}

/// The shape of a phrase.
#[derive(Clone, Copy)]
pub(crate) enum Shape<'a> {
    /// Nothing but a cover of another one.
    Cover(Phrase<'a>),

    /// The use of a name.
    Use(NameUse<'a>),

    /// `pre` of a name.
    Pre(&'a Name, Span),

    /// A trace behind the declaration of a macro.
    Let(&'a MacroDecl, &'a TraceExpr),

    /// A trace behind the declaration of exceptions.
    Exceptions(&'a Names, &'a TraceExpr),

    /// `trap`; its `do` part may be missing.
    Trap(&'a Name, &'a TraceExpr, &'a Option<Box<TraceExpr>>),

    /// What is in head normal form already: no name has to be replaced for it.
    HeadNormalForm,
}

// An argument, as a phrase.
pub(crate) fn phrase_of_argument(arg: &Arg) -> Phrase<'_>
    ensures { phrase_view result ≡ argument_phrase (argument arg.now) }
{
    match arg {
        Arg::Value(expr) => Phrase::Value(expr),
        Arg::Trace(braced, _) => Phrase::Braces(braced),
    }
}

// What a macro stands for, as a phrase.
pub(crate) fn phrase_of_body(body: &Body) -> Phrase<'_>
    ensures { phrase_view result ≡ meaning_phrase (meaning body.now) }
{
    match body {
        Body::Trace(trace) => Phrase::Trace(trace),
        Body::Value(expr) => Phrase::Value(expr),
    }
}

// The shape of a phrase.
#[inline(always)]
pub(crate) fn shape_of(phrase: Phrase<'_>) -> Shape<'_>
    ensures { HasShape result (phrase_view phrase.entry) }
{
    match phrase {
        Phrase::Value(expr) => shape_of_expr(expr),
        Phrase::Trace(trace) => shape_of_trace(trace),
        Phrase::Braces(inside) => shape_of_braces(inside),
        Phrase::Joined(join, traces) => shape_of_joined(join, traces),
        Phrase::Handler(body) => shape_of_handler(body),
    }
}

// The phrase inside a cover, and what is no cover as it is. What it stands for is the same.
#[inline(always)]
pub(crate) fn inside_cover(phrase: Phrase<'_>) -> Phrase<'_>
    ensures denotation { (env : Environment Denotation) →
        phrase_denotation env (phrase_view phrase.entry)
        ≡ phrase_denotation env (phrase_view result) }
    ensures work { (env : Environment ℕ) →
        phrase_work env (phrase_view result) ≤ phrase_work env (phrase_view phrase.entry) }
{
    match shape_of(phrase) {
        Shape::Cover(inner) => inner,
        Shape::Use(_)
        | Shape::Pre(_, _)
        | Shape::Let(_, _)
        | Shape::Exceptions(_, _)
        | Shape::Trap(_, _, _)
        | Shape::HeadNormalForm => phrase,
    }
}

// The shape of an expression.
fn shape_of_expr(expr: &Expr) -> Shape<'_>
    ensures { HasShape result (value (exp expr.now)) }
{
    match expr {
        Expr::Named(name, args) => Shape::Use(NameUse {
            name,
            args: given(args),
        }),
        Expr::Pre(name, at) => Shape::Pre(name, *at),
        Expr::Paren(inner, _) => Shape::Cover(Phrase::Value(inner)),
        Expr::Number(_)
        | Expr::Flag(_, _)
        | Expr::Unary(_, _, _)
        | Expr::Binary(_, _, _)
        | Expr::If(_, _, _, _) => Shape::HeadNormalForm,
    }
}

// Arguments, where there is a list of them.
fn given(args: &Option<Box<Args>>) -> &[Arg]
    ensures { result.now ≡ given args.now }
{
    match args {
        None => &[],
        Some(args) => &args.items,
    }
}

// The shape of a trace.
fn shape_of_trace(written: &TraceExpr) -> Shape<'_>
    ensures { HasShape result (trace_phrase (trace written.now)) }
{
    match written {
        TraceExpr::Value(expr) => Shape::Cover(Phrase::Value(expr)),
        TraceExpr::Braces(inside, _) => Shape::Cover(Phrase::Braces(inside)),
        TraceExpr::Seq(traces) => Shape::Cover(Phrase::Joined(Join::Seq, &traces.items)),
        TraceExpr::Let(declared, body) => Shape::Let(declared, body),
        TraceExpr::Exceptions(names, body) => Shape::Exceptions(names, body),
        TraceExpr::Trap(name, body, handler) => Shape::Trap(name, body, handler),
        TraceExpr::Loop(_, _)
        | TraceExpr::Raise(_)
        | TraceExpr::Assert(_, _)
        | TraceExpr::Exist(_, _)
        | TraceExpr::Catch(_, _, _)
        | TraceExpr::Try(_, _) => Shape::HeadNormalForm,
    }
}

// The shape of what stands in braces.
fn shape_of_braces(inside: &Braced) -> Shape<'_>
    ensures { HasShape result (braces (braced inside.now)) }
{
    match inside {
        Braced::Plain(trace) => Shape::Cover(Phrase::Trace(trace)),
        Braced::Choice { .. } => Shape::HeadNormalForm,
        Braced::Priority { parts, .. } => Shape::Cover(Phrase::Joined(Join::Pri, &parts.items)),
        Braced::Parallel { parts, .. } => Shape::Cover(Phrase::Joined(Join::Par, &parts.items)),
    }
}

// The shape of traces that are joined so.
fn shape_of_joined(join: Join, traces: &[TraceExpr]) -> Shape<'_>
    ensures { HasShape result (joined join (traces_of (map trace traces.now))) }
{
    let Some((first, rest)) = traces.split_first() else {
        return Shape::HeadNormalForm;
    };
    if rest.is_empty() {
        Shape::Cover(Phrase::Trace(first))
    } else {
        Shape::HeadNormalForm
    }
}

// The shape of a `do` part.
fn shape_of_handler(body: &Option<Box<TraceExpr>>) -> Shape<'_>
    ensures { HasShape result (handler (maybe_trace body.now)) }
{
    match body {
        None => Shape::HeadNormalForm,
        Some(trace) => Shape::Cover(Phrase::Trace(trace)),
    }
}
