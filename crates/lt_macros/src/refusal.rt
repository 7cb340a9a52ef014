//! Why there is no tree for a node.

use crate::limit::Limit;
use lt_formula::Memory;
use thiserror::Error;

/// Why there is no tree for a node.
#[derive(Clone, Copy, Debug, PartialEq, Eq, Error)]
pub enum NodeRefusal {
    /// No node has the name that is asked for.
    #[error("no node has the name that is asked for")]
    UnknownNode,

    /// The tree would be too large.
    #[error("the node is too large")]
    TooLarge(Limit),

    /// Memory ran out.
    #[error("out of memory")]
    Memory,
}

impl From<Memory> for NodeRefusal {
    ghost use Rattle.std.specs.Prelude.{◌≡◌};
    ghost use Rattle.lt_macros.specs.declared.refusal.NodeRefusal.TheVariants as node_refusal;

    ghost from_gives = { λ _ refusal. refusal ≡ node_refusal.Memory };

    fn from(_error: Memory) -> NodeRefusal {
        NodeRefusal::Memory
    }
}
