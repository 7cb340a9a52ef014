//! Traces.

use crate::expr::{Expr, Operands};
use crate::group::{Groups, TypeName};
use crate::name::{Name, Names};
use crate::span::Span;

/// How often a loop turns.
#[cycle(ast)]
#[derive(Drop)]
pub enum Bounds {
    /// `loop` alone.
    Forever,

    /// `loop [low, high]`.
    Between(Box<Operands>),

    /// `loop ~ average : deviation`.
    Around(Box<Operands>),
}

/// What stands in braces. `lead` says whether a sign stands before the first part.
#[cycle(ast)]
#[derive(Drop)]
pub enum Braced {
    /// One trace and no sign.
    Plain(Box<TraceExpr>),

    /// Alternatives with weights, by `|`.
    Choice {
        /// Whether a sign leads.
        lead: bool,

        /// The alternatives.
        parts: Parts,
    },

    /// Alternatives in the order of their priority, by `|>`.
    Priority {
        /// Whether a sign leads.
        lead: bool,

        /// The alternatives.
        parts: Traces,
    },

    /// Traces that run together, by `&>`.
    Parallel {
        /// Whether a sign leads.
        lead: bool,

        /// The traces.
        parts: Traces,
    },
}

/// The alternatives of a choice, in order.
#[cycle(ast)]
#[derive(Drop)]
pub struct Parts {
    /// The alternatives.
    pub items: Vec<Part>,
}

/// An alternative of a choice.
#[cycle(ast)]
#[derive(Drop)]
pub struct Part {
    /// Its weight, if one is written.
    pub weight: Option<Expr>,

    /// Its trace.
    pub body: TraceExpr,
}

/// Traces, in order.
#[cycle(ast)]
#[derive(Drop)]
pub struct Traces {
    /// The traces.
    pub items: Vec<TraceExpr>,
}

/// A macro.
#[cycle(ast)]
#[derive(Drop)]
pub struct MacroDecl {
    /// Its name.
    pub name: Name,

    /// Its parameters, where it has a list of them.
    pub params: Option<Groups>,

    /// Its type.
    pub result: TypeName,

    /// What it stands for.
    pub body: Body,
}

/// What a macro stands for.
#[cycle(ast)]
#[derive(Drop)]
pub enum Body {
    /// A trace.
    Trace(TraceExpr),

    /// An expression.
    Value(Expr),
}

/// A trace.
#[cycle(ast)]
#[derive(Drop)]
pub enum TraceExpr {
    /// Two or more traces, one after another, by `fby`. None of them is of this kind.
    Seq(Traces),

    /// Braces.
    Braces(Braced, Span),

    /// A loop.
    Loop(Bounds, Box<TraceExpr>),

    /// `raise` and an exception.
    Raise(Name),

    /// `assert`: the expression holds as long as the trace runs.
    Assert(Expr, Box<TraceExpr>),

    /// `exist`: variables of the trace's own.
    Exist(Groups, Box<TraceExpr>),

    /// `let`: a macro for the trace.
    Let(Box<MacroDecl>, Box<TraceExpr>),

    /// `exception`: exceptions of the trace's own.
    Exceptions(Names, Box<TraceExpr>),

    /// `catch`: the exception, the trace, and what follows where it is raised.
    Catch(Name, Box<TraceExpr>, Option<Box<TraceExpr>>),

    /// `trap`: an exception of its own, the trace, and what follows where it is raised.
    Trap(Name, Box<TraceExpr>, Option<Box<TraceExpr>>),

    /// `try`: the trace, and what follows where it is stuck.
    Try(Box<TraceExpr>, Option<Box<TraceExpr>>),

    /// An expression: a constraint of one instant, or the use of a macro.
    Value(Expr),
}
