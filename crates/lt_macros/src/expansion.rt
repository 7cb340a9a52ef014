//! From a program to the tree that a node of it stands for.

ghost use Rattle.std.specs.Prelude.{Some, IfOk};
ghost use Rattle.lt_ast.specs.View.{program as declarations};
ghost use Rattle.lt_macros.specs.Answer.{IsAnswer, asked_name};
ghost use Rattle.lt_macros.specs.Expansion.{expanded_node};
ghost use Rattle.lt_macros.specs.Tree.{node as node_view};

use crate::build::build_node;
use crate::builder::{Builder, Reach};
use crate::counting::passed_limit;
use crate::declarations::asked_node;
use crate::measuring::limit_of;
use crate::refusal::NodeRefusal;
use crate::scope::Scope;
use crate::tree::Node;
use lt_formula::Memory;
use lt_types::Typed;
use std::alloc::Global;

/// The node that is asked for, or the first one where no name is given: a tree without macros, in which locals and
/// counters have numbers.
///
/// # Errors
///
/// [`NodeRefusal::UnknownNode`] where no node has the name, [`NodeRefusal::TooLarge`] with the first limit that the
/// node is past, of whose tree no more is built than the limits allow, and [`NodeRefusal::Memory`] where memory ran out.
pub fn expanded_node(
    alloc: Global,
    typed: &Typed,
    wanted: Option<&str>,
) -> Result<Node, NodeRefusal>
    ensures { IsAnswer (expanded_node typed.now.decimals (asked_name wanted.entry)
        (declarations typed.now.program)) result }
{
    let mut scope = Scope::new(alloc);
    let decls = &typed.program().decls;
    let Some(asked) = asked_node(alloc, &mut scope, decls, wanted)? else {
        return Err(NodeRefusal::UnknownNode);
    };
    let builder = Builder {
        alloc,
        scope,
        decimals: typed.decimals(),
        reach: Reach::within_limits(),
    };
    // Hardly any node is past a limit, so the tree is built first, as far as they allow.
    match build_node(builder, &asked) {
        Ok(made) => small_enough(made),
        Err(Memory) => Err(refusal(alloc, typed, wanted)?),
    }
}

// A node that is built, if it is within the limits.
fn small_enough(made: Node) -> Result<Node, NodeRefusal>
    ensures { IsAnswer (Some (node_view made)) result }
{
    match limit_of(&made)? {
        None => Ok(made),
        Some(limit) => Err(NodeRefusal::TooLarge(limit)),
    }
}

// Why the node that is asked for isn't built: the first limit that it is past, or else memory.
fn refusal(alloc: Global, typed: &Typed, wanted: Option<&str>) -> Result<NodeRefusal, Memory>
    ensures { IfOk result (λ refusal.
        IsAnswer (expanded_node typed.now.decimals (asked_name wanted.entry)
        (declarations typed.now.program)) (Err refusal)) }
{
    let mut scope = Scope::new(alloc);
    let decls = &typed.program().decls;
    let Some(asked) = asked_node(alloc, &mut scope, decls, wanted)? else {
        return Ok(NodeRefusal::UnknownNode);
    };
    if let Some(limit) = passed_limit(alloc, &mut scope, &asked)? {
        return Ok(NodeRefusal::TooLarge(limit));
    }
    Ok(NodeRefusal::Memory)
}
