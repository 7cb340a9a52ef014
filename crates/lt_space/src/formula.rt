//! Formulas over the outputs and locals of an instant.

use lt_linear::Form;

/// How a form stands to 0.
#[derive(Clone, Copy)]
pub enum Relation {
    /// Below 0.
    Below,

    /// Below 0 or equal to it.
    NotAbove,

    /// Equal to 0.
    Equal,
}

/// What a formula is made of. Outputs and locals have one sequence of numbers here, in which the outputs stand
/// first.
#[derive(Drop)]
pub enum Atom {
    /// A Boolean variable, by its number. It holds where its raw number isn't 0.
    Flag(u32),

    /// A form that is compared with 0. Its value is the exact sum of each coefficient times the variable's raw
    /// number, and of its constant times 10 to the power of the decimals.
    Compare(Form, Relation),
}

/// A formula.
#[derive(Drop)]
pub enum Formula {
    /// A truth.
    Truth(bool),

    /// An atom.
    Atom(Atom),

    /// `not`
    Not(Box<Formula>),

    /// `and`
    And(Box<Formula>, Box<Formula>),

    /// `or`
    Or(Box<Formula>, Box<Formula>),

    /// `xor`
    Xor(Box<Formula>, Box<Formula>),

    /// `if`, with the condition first.
    If(Box<Formula>, Box<Formula>, Box<Formula>),
}
