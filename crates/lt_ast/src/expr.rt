//! Expressions.

ghost use Rattle.std.specs.Prelude.{◌≡◌};

use crate::name::{Literal, Name};
use crate::span::Span;
use crate::trace::Braced;

/// An operator with one operand.
#[derive(Clone, Copy, PartialEq, Eq)]
pub enum UnOp {
    /// `-`.
    Neg,

    /// `not`.
    Not,
}

/// An operator with two operands.
#[derive(Clone, Copy, Debug, PartialEq, Eq)]
pub enum BinOp {
    /// `+`.
    Add,

    /// `-`.
    Sub,

    /// `*`.
    Mul,

    /// `/`.
    Div,

    /// `div`.
    DivWord,

    /// `mod`.
    Mod,

    /// `=`.
    Eq,

    /// `<>`.
    Ne,

    /// `<`.
    Lt,

    /// `<=`.
    Le,

    /// `>`.
    Gt,

    /// `>=`.
    Ge,

    /// `and`.
    And,

    /// `or`.
    Or,

    /// `xor`.
    Xor,

    /// `=>`.
    Implies,
}

/// What an operator with two operands is about.
#[derive(Clone, Copy, PartialEq, Eq)]
pub enum OperatorClass {
    /// `and`, `or`, `xor`, `=>`: Booleans, and what follows from them.
    Connective,

    /// `=`, `<>`: whether two values of a type are the same.
    Equality,

    /// `<`, `<=`, `>`, `>=`: which of two numbers is over the other.
    Order,

    /// `+`, `-`, `*`, `/`: numbers.
    Arithmetic,

    /// `div`, `mod`: ints.
    Whole,
}

impl BinOp {
    ghost use Rattle.lt_ast.specs.Operators.{class_of};

    /// Its class.
    pub fn class(self) -> OperatorClass
        ensures { result ≡ class_of self }
    {
        match self {
            BinOp::And | BinOp::Or | BinOp::Xor | BinOp::Implies => OperatorClass::Connective,
            BinOp::Eq | BinOp::Ne => OperatorClass::Equality,
            BinOp::Lt | BinOp::Le | BinOp::Gt | BinOp::Ge => OperatorClass::Order,
            BinOp::Add | BinOp::Sub | BinOp::Mul | BinOp::Div => OperatorClass::Arithmetic,
            BinOp::DivWord | BinOp::Mod => OperatorClass::Whole,
        }
    }
}

/// An expression.
#[cycle(ast)]
pub enum Expr {
    /// A number.
    Number(Literal),

    /// `true` or `false`.
    Flag(bool, Span),

    /// A name, and the arguments where it has a list of them.
    Named(Name, Option<Box<Args>>),

    /// `pre` and a name.
    Pre(Name, Span),

    /// An expression in parentheses.
    Paren(Box<Expr>, Span),

    /// An operator and its operand.
    Unary(UnOp, Box<Expr>, Span),

    /// An operator between its operands.
    Binary(BinOp, Box<Operands>, Span),

    /// `if`, `then` and `else`.
    If(Box<Expr>, Box<Expr>, Box<Expr>, Span),
}

impl Expr {
    ghost use Rattle.lt_ast.specs.Places.{span_of};
    ghost use Rattle.lt_ast.specs.View.{exp};

    /// Its place; that of a name with arguments is the name's.
    pub fn span(&self) -> Span
        ensures { result ≡ span_of (exp self.now) }
    {
        match self {
            Expr::Number(literal) => literal.span,
            Expr::Named(name, _) => name.span,
            Expr::Flag(_, span)
            | Expr::Pre(_, span)
            | Expr::Paren(_, span)
            | Expr::Unary(_, _, span)
            | Expr::Binary(_, _, span)
            | Expr::If(_, _, _, span) => *span,
        }
    }
}

// A chain of operators hangs on its left side, which a loop takes apart: its length takes no stack.
impl Drop for Expr {
    #[cycle(ast)]
    fn drop(mut self) {
        loop {
            match self {
                Expr::Binary(_, sides, _) => self = Box::into_inner(sides).left,
                Expr::Number(_)
                | Expr::Flag(_, _)
                | Expr::Named(_, _)
                | Expr::Pre(_, _)
                | Expr::Paren(_, _)
                | Expr::Unary(_, _, _)
                | Expr::If(_, _, _, _) => return,
            }
        }
    }
}

/// What stands on both sides of an operator.
#[cycle(ast)]
#[derive(Drop)]
pub struct Operands {
    /// The expression before it.
    pub left: Expr,

    /// The expression after it.
    pub right: Expr,
}

/// Arguments, in order.
#[cycle(ast)]
#[derive(Drop)]
pub struct Args {
    /// The arguments.
    pub items: Vec<Arg>,
}

/// An argument.
#[cycle(ast)]
#[derive(Drop)]
pub enum Arg {
    /// An expression.
    Value(Expr),

    /// A trace in braces.
    Trace(Braced, Span),
}
