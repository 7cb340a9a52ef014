//! Parts of constraints.

use lt_space::Formula;

/// A conjunct of a constraint.
#[derive(Drop)]
pub struct Part {
    /// The conjunct, with `Flag(i)` for the atom at place i. For `a <> b` the flag stands for what `a = b` says, and is
    /// denied.
    pub conjunct: Formula,

    /// The numbers of its atoms in the table, each of them once: those that are known, and then the others, both as
    /// they occur first.
    pub atoms: Vec<u32>,

    /// How many of them are known.
    pub known: usize,
}
