//! What the tree of a node is built with.

ghost use Rattle.std.specs.Prelude.{◌≤◌};
ghost use Rattle.lt_num.specs.Bounds.{most_decimals};

use crate::scope::Scope;
use crate::tally::{MOST_EXPRESSION_DEPTH, MOST_NODES, MOST_TERM_DEPTH};
use lt_formula::Memory;
use std::alloc::Global;

/// How far a tree may still grow. Past that it isn't built further, whatever memory there is.
#[derive(Clone, Copy)]
pub(crate) struct Reach {
    /// How many more nodes it may have.
    nodes: u32,

    /// How much deeper its terms may stand.
    term_levels: u32,

    /// How much deeper the nodes of an expression may.
    expression_levels: u32,
}

impl Reach {
    // That of a tree that is within the limits.
    pub(crate) fn within_limits() -> Reach {
        Reach {
            nodes: MOST_NODES,
            term_levels: MOST_TERM_DEPTH,
            expression_levels: MOST_EXPRESSION_DEPTH,
        }
    }

    // Inside one more term.
    fn inside_term(self) -> Result<Reach, Memory> {
        Ok(Reach {
            nodes: self.nodes.checked_sub(1).ok_or(Memory)?,
            term_levels: self.term_levels.checked_sub(1).ok_or(Memory)?,
            ..self
        })
    }

    // Inside one more node of an expression.
    fn inside_expression(self) -> Result<Reach, Memory> {
        Ok(Reach {
            nodes: self.nodes.checked_sub(1).ok_or(Memory)?,
            expression_levels: self.expression_levels.checked_sub(1).ok_or(Memory)?,
            ..self
        })
    }

    // Behind a part, back on the levels of what it is a part of.
    fn back_to(self, levels: Reach) -> Reach {
        Reach {
            nodes: self.nodes,
            ..levels
        }
    }
}

/// What each function that builds a part of the tree is given.
#[derive(Drop)]
pub(crate) struct Builder<'a> {
    /// Where the tree lies.
    pub(crate) alloc: Global,

    /// What names stand for.
    pub(crate) scope: Scope<'a>,

    /// How many decimals a real has.
    pub(crate) decimals: u32,

    /// How far the tree may still grow.
    pub(crate) reach: Reach,

    ghost few: { decimals ≤ most_decimals },
}

impl Builder<'_> {
    ghost use Rattle.std.specs.Prelude.{OnOk};
    ghost use Rattle.lt_macros.specs.inner.Builder.{IsKept};

    // Goes into a term.
    pub(crate) fn enter_term(&mut self) -> Result<(), Memory>
        ensures { OnOk result (IsKept self.old self.new) }
    {
        self.reach = self.reach.inside_term()?;
        Ok(())
    }

    // Goes into a node of an expression.
    pub(crate) fn enter_expression(&mut self) -> Result<(), Memory>
        ensures { OnOk result (IsKept self.old self.new) }
    {
        self.reach = self.reach.inside_expression()?;
        Ok(())
    }

    // Goes back to these levels.
    pub(crate) fn leave_to(&mut self, levels: Reach)
        ensures { IsKept self.old self.new }
    {
        self.reach = self.reach.back_to(levels);
    }
}
