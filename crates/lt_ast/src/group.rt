//! Groups of variables or parameters.

use crate::expr::Expr;
use crate::name::{Literal, Names};

/// The name of a type.
#[derive(Clone, Copy, PartialEq, Eq)]
pub enum TypeName {
    /// `bool`.
    Bool,

    /// `int`.
    Int,

    /// `real`.
    Real,

    /// `trace`.
    Trace,
}

/// A range.
#[derive(Drop)]
pub struct Range {
    /// Its low end.
    pub low: Literal,

    /// Its high end.
    pub high: Literal,

    /// Its step, if one is written.
    pub step: Option<Literal>,
}

/// Names of one type.
#[cycle(ast)]
#[derive(Drop)]
pub struct Group {
    /// The names.
    pub names: Names,

    /// Their type.
    pub kind: TypeName,

    /// Whether `ref` is written.
    pub by_ref: bool,

    /// Their range, if one is written.
    pub range: Option<Range>,

    /// Their first value, if one is written.
    pub first: Option<Expr>,
}

/// Groups, in order.
#[cycle(ast)]
#[derive(Drop)]
pub struct Groups {
    /// The groups.
    pub items: Vec<Group>,
}
