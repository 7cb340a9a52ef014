//! Why a program has no scenario.

use lt_ast::Span;
use lt_formula::Memory;
use lt_macros::{Limit, NodeRefusal};
use std::alloc::AllocError;
use thiserror::Error;

/// Why a program has no scenario, with the place that is to blame.
#[derive(Clone, Copy, Debug, PartialEq, Eq, Error)]
pub enum ExpandRefusal {
    /// No node has the name that is asked for.
    #[error("no node has the name that is asked for")]
    UnknownNode,

    /// The scenario would be too large.
    #[error("the scenario is too large")]
    TooLarge(Limit),

    /// The bound of a loop, or a first value, is no number that may stand there.
    #[error("what stands at byte {} can't be a bound or a first value", .0.start)]
    BadStatic(Span),

    /// A product, a quotient or a rest that isn't linear in what is drawn in the same instant.
    #[error("what stands at byte {} isn't linear in what is drawn", .0.start)]
    NonLinear(Span),

    /// A choice between numbers whose condition depends on what is drawn in the same instant.
    #[error("the condition of the choice at byte {} depends on what is drawn", .0.start)]
    ControllableCondition(Span),

    /// A weight that depends on what is drawn in the same instant.
    #[error("the weight at byte {} depends on what is drawn", .0.start)]
    ControllableWeight(Span),

    /// Memory ran out.
    #[error("out of memory")]
    Memory,

    /// An argument of a run that depends on what is drawn in the same instant.
    #[error("the argument at byte {} depends on what is drawn", .0.start)]
    ControllableArgument(Span),

    /// The nest of nodes that are run has more than 16 runs.
    #[error("there are more than 16 runs")]
    TooManyRuns,
}

impl ExpandRefusal {
    ghost use Rattle.std.specs.Prelude.{◌≡◌};
    ghost use Rattle.lt_expand.specs.Codes.{expand_code, expand_place};

    /// Its code in messages: `expand`, a point, and what it is called.
    pub fn code(self) -> &'static str
        ensures { result.now ≡ expand_code self }
    {
        match self {
            ExpandRefusal::UnknownNode => "expand.UnknownNode",
            ExpandRefusal::TooLarge(_) => "expand.TooLarge",
            ExpandRefusal::BadStatic(_) => "expand.BadStatic",
            ExpandRefusal::NonLinear(_) => "expand.NonLinear",
            ExpandRefusal::ControllableCondition(_) => "expand.ControllableCondition",
            ExpandRefusal::ControllableWeight(_) => "expand.ControllableWeight",
            ExpandRefusal::Memory => "expand.Memory",
            ExpandRefusal::ControllableArgument(_) => "expand.ControllableArgument",
            ExpandRefusal::TooManyRuns => "expand.TooManyRuns",
        }
    }

    /// Where in the text the cause is, in bytes from 0; none where that is at no one place.
    pub fn place(self) -> Option<usize>
        ensures { result ≡ expand_place self }
    {
        match self {
            ExpandRefusal::BadStatic(span)
            | ExpandRefusal::NonLinear(span)
            | ExpandRefusal::ControllableCondition(span)
            | ExpandRefusal::ControllableWeight(span)
            | ExpandRefusal::ControllableArgument(span) => Some(span.start as usize),
            ExpandRefusal::UnknownNode
            | ExpandRefusal::TooLarge(_)
            | ExpandRefusal::TooManyRuns
            | ExpandRefusal::Memory => None,
        }
    }
}

impl From<AllocError> for ExpandRefusal {
    ghost use Rattle.std.specs.Prelude.{◌≡◌};
    ghost use Rattle.lt_expand.specs.declared.refusal.ExpandRefusal.TheVariants as expand_refusal;

    ghost from_gives = { λ _ e. e ≡ expand_refusal.Memory };

    fn from(_error: AllocError) -> ExpandRefusal {
        ExpandRefusal::Memory
    }
}

impl From<Memory> for ExpandRefusal {
    ghost use Rattle.std.specs.Prelude.{◌≡◌};
    ghost use Rattle.lt_expand.specs.declared.refusal.ExpandRefusal.TheVariants as expand_refusal;

    ghost from_gives = { λ _ e. e ≡ expand_refusal.Memory };

    fn from(_error: Memory) -> ExpandRefusal {
        ExpandRefusal::Memory
    }
}

impl From<NodeRefusal> for ExpandRefusal {
    ghost use Rattle.std.specs.Prelude.{◌≡◌};
    ghost use Rattle.lt_expand.specs.inner.Refusing.{refusal_of_tree};

    ghost from_gives = { λ refusal e. e ≡ refusal_of_tree refusal };

    fn from(refusal: NodeRefusal) -> ExpandRefusal {
        match refusal {
            NodeRefusal::UnknownNode => ExpandRefusal::UnknownNode,
            NodeRefusal::TooLarge(limit) => ExpandRefusal::TooLarge(limit),
            NodeRefusal::Memory => ExpandRefusal::Memory,
        }
    }
}
