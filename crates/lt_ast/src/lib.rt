//! Syntax trees: what a scenario's text says, and where it says it.
//!
//! Contracts see a tree through its pure twin: `program` of `specs/View.antt` gives the twins of
//! `specs/Syntax.antt`, which have no pointers and no capacities. `specs/Tokens.antt` has the tokens
//! that a tree is written with.
#![tactic(auto)]

mod expr;
mod group;
mod letters;
mod name;
mod program;
mod sign;
mod span;
mod trace;

pub use expr::{Arg, Args, BinOp, Expr, Operands, OperatorClass, UnOp};
pub use group::{Group, Groups, Range, TypeName};
pub use letters::Letters;
pub use name::{Literal, Name, Names};
pub use program::{Decl, NodeDecl, Program, RunDecl};
pub use sign::Sign;
pub use span::Span;
pub use trace::{Body, Bounds, Braced, MacroDecl, Part, Parts, TraceExpr, Traces};
