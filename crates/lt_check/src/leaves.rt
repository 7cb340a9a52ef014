//! The leaves of a tree that are walked to.

ghost use Rattle.std.specs.Prelude.{◌≡◌, ◌<◌, ◌^◌, ℕ, IfErr, IfOk, length, map};
ghost use Rattle.lt_legal.specs.Asked.{IsHaltAt};
ghost use Rattle.lt_legal.specs.Back.{IsAt, back};
ghost use Rattle.lt_legal.specs.NodeView.{node_view};
ghost use Rattle.lt_legal.specs.Nodes.{Shape};

use lt_legal::{Alive, Halt, Node, fill, walk};
use std::alloc::Global;

/// The numbers of the leaves that pass and may be taken in the tree of a number, the last ones first.
///
/// # Errors
///
/// Want of memory, or a tree of which it had to be asked whether it is live.
pub(crate) fn leaves_from<A: Alive>(
    alloc: Global,
    nodes: &[Node],
    from: u32,
    alive: &mut A,
) -> Result<Vec<u32>, Halt>
    requires tree { (t : Shape) × IsAt (map node_view nodes.now) from t }
    requires few { length nodes.now < 2 ^ 32 }
    requires ready { A.ready alive.old }
    ensures ready { A.ready alive.new }
    ensures finds { IfOk result (λ leaves. (t : Shape) → IsAt (map node_view nodes.now) from t →
        leaves.items ≡ back (A.live alive.old) from t) }
    ensures halts { IfErr result (λ halt. (t : Shape) → IsAt (map node_view nodes.now) from t →
        IsHaltAt (A.may_give_up alive.old) from t halt) }
{
    let mut found = Vec::new(alloc);
    found.reserve(nodes.len())?;
    fill(nodes, &mut found);
    let mut stack = Vec::new(alloc);
    let mut leaves = Vec::new(alloc);
    match walk(nodes, &found, from, alive, &mut stack, &mut leaves) {
        Ok(()) => Ok(leaves),
        Err(halt) => Err(halt),
    }
}
