//! Programs.

use crate::expr::Expr;
use crate::group::Groups;
use crate::name::{Name, Names};
use crate::span::Span;
use crate::trace::{MacroDecl, TraceExpr};

/// The declarations of a text, in order.
pub struct Program {
    /// The declarations.
    pub decls: Vec<Decl>,
}

// What a program owns is dropped by this one function, wherever a program is.
impl Drop for Program {
    fn drop(self) {
        let Self { decls: _ } = self;
    }
}

/// A declaration.
#[derive(Drop)]
pub enum Decl {
    /// A node.
    Node(NodeDecl),

    /// A macro.
    Macro(MacroDecl),

    /// Exceptions.
    Exceptions(Names),
}

/// A node.
#[derive(Drop)]
pub struct NodeDecl {
    /// Its name.
    pub name: Name,

    /// What it is given.
    pub inputs: Groups,

    /// What it gives.
    pub outputs: Groups,

    /// The nodes that it runs, in order.
    pub runs: Vec<RunDecl>,

    /// What it does.
    pub body: TraceExpr,
}

/// A run of a node.
#[derive(Drop)]
pub struct RunDecl {
    /// The names that its outputs get.
    pub names: Names,

    /// Which node is run.
    pub node: Name,

    /// What it is given, an expression for each input.
    pub arguments: Vec<Expr>,

    /// Its place, from `run` to `in`.
    pub span: Span,
}
