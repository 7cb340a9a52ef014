//! The walk to the leaves that pass a test and may be taken.

ghost use Rattle.std.specs.Prelude.{◌≡◌, ◌<◌, ◌^◌, ◌++◌, ℕ, IfErr, OnOk, length, map};
ghost use Rattle.lt_legal.specs.Asked.{IsHaltAt, halting};
ghost use Rattle.lt_legal.specs.Back.{IsAt, Visits, back};
ghost use Rattle.lt_legal.specs.NodeView.{node_view};
ghost use Rattle.lt_legal.specs.Nodes.{Shape, children, put_of, run};

use crate::alive::Alive;
use crate::filling::{find_at, plus};
use crate::found::Found;
use crate::halt::Halt;
use crate::node::Node;
use std::alloc::AllocError;

/// Walks to the leaves that pass and may be taken in the tree of a number, the last ones first. The
/// table is that of the nodes; the stack is room.
///
/// # Errors
///
/// Want of memory, or a tree of which it had to be asked whether it is live.
pub fn walk<A: Alive>(
    nodes: &[Node],
    found: &[Found],
    from: u32,
    alive: &mut A,
    stack: &mut Vec<u32>,
    out: &mut Vec<u32>,
) -> Result<(), Halt>
    ghost tree: { Shape }
    requires tree { IsAt (map node_view nodes.now) from tree }
    requires few { length nodes.now < 2 ^ 32 }
    requires table { found.now ≡ run (map node_view nodes.now) }
    requires ready { A.ready alive.old }
    ensures ready { A.ready alive.new }
    ensures finds { OnOk result (out.new.items ≡ back (A.live alive.old) from tree) }
    ensures halts { IfErr result (IsHaltAt (A.may_give_up alive.old) from tree) }
    ensures live { A.live alive.new ≡ A.live alive.old }
    ensures needs { (k need : ℕ) → A.may_give_up alive.new k need →
        A.may_give_up alive.old k need }
{
    stack.clear();
    out.clear();
    match stack.push(from) {
        Ok(()) => {}
        Err(_) => return Err(Halt::Memory),
    }
    while let Some(number) = stack.pop() {
        match visit(number, nodes, found, alive, stack, out) {
            Ok(()) => {}
            Err(halt) => return Err(halt),
        }
    }
    Ok(())
}

// Looks at a tree.
fn visit<A: Alive>(
    number: u32,
    nodes: &[Node],
    found: &[Found],
    alive: &mut A,
    stack: &mut Vec<u32>,
    out: &mut Vec<u32>,
) -> Result<(), Halt>
    requires few { length nodes.now < 2 ^ 32 }
    requires table { found.now ≡ run (map node_view nodes.now) }
    requires ready { A.ready alive.old }
    ensures ready { A.ready alive.new }
    ensures visits { OnOk result ((t : Shape) → IsAt (map node_view nodes.now) number t →
        Visits (A.live alive.old) (map node_view nodes.now) found.now number t
        stack.old.items stack.new.items out.old.items out.new.items) }
    ensures halts { IfErr result (λ halt. (t : Shape) → IsAt (map node_view nodes.now) number t →
        IsHaltAt (A.may_give_up alive.old) number t halt) }
    ensures live { A.live alive.new ≡ A.live alive.old }
    ensures needs { (k need : ℕ) → A.may_give_up alive.new k need →
        A.may_give_up alive.old k need }
{
    let Some(node) = nodes.get(number as usize) else {
        return Ok(());
    };
    match node {
        Node::Tip(passes) => halting(put(*passes, number, out)),
        Node::Spoilt(passes, _) => halting(put(*passes, number, out)),
        Node::Order => {
            let left = plus(number, 1);
            let one = find_at(found, left);
            let right = plus(left, one.size);
            if one.has {
                halting(put(true, left, stack))
            } else if find_at(found, right).has {
                match alive.is_live(left) {
                    Ok(lives) => halting(put(!lives, right, stack)),
                    Err(halt) => Err(halt),
                }
            } else {
                Ok(())
            }
        }
        Node::Choice(weights) => halting(push_parts(weights, plus(number, 1), found, stack)),
    }
}

// Want of memory halts what is done.
fn halting(done: Result<(), AllocError>) -> Result<(), Halt>
    ensures { result ≡ halting done }
{
    match done {
        Ok(()) => Ok(()),
        Err(_) => Err(Halt::Memory),
    }
}

// Puts a number down where something passes.
fn put(passes: bool, number: u32, out: &mut Vec<u32>) -> Result<(), AllocError>
    ensures { OnOk result (out.new.items ≡ out.old.items ++ put_of passes number) }
{
    if passes {
        out.push(number)?;
    }
    Ok(())
}

// Lets the parts of a choice wait that have a positive weight.
fn push_parts(
    weights: &[bool],
    from: u32,
    found: &[Found],
    stack: &mut Vec<u32>,
) -> Result<(), AllocError>
    ensures { OnOk result (stack.new.items ≡ stack.old.items ++ children weights.now from found.now) }
{
    let mut number = from;
    for weight in weights {
        put(*weight, number, stack)?;
        number = plus(number, find_at(found, number).size);
    }
    Ok(())
}
