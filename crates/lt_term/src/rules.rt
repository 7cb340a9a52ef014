//! What rules make of the nodes of a part: each leaf is replaced, and each other node stays.
//!
//! Each function puts what it makes at the end of a list.

ghost use Rattle.std.specs.Prelude.{◌≡◌, ◌++◌, [], ◌∷◌, IfOk, OnOk};
ghost use Rattle.std.specs.List.{flat_map};
ghost use Rattle.lt_term.specs.Offers.{in_assert, in_exist, in_try, in_turn, joined, start_of};
ghost use Rattle.lt_term.specs.Replaced.{node_with_local, replaced};
ghost use Rattle.lt_term.specs.TreeView.{tree_node, tree_nodes};
ghost use Rattle.lt_term.specs.View.{kinds_of, process};

use crate::last::Last;
use crate::next::{asserted, scoped, sequence, side_by_side, tried};
use crate::term::Term;
use crate::tree::TreeNode;
use crate::variable::Var;
use lt_num::Value;
use std::alloc::{AllocError, Global};
use std::rc::Rc;

/// One more node.
pub(crate) fn put(out: &mut Vec<TreeNode>, node: TreeNode) -> Result<(), AllocError>
    ensures { OnOk result (tree_nodes out.new.items ≡ tree_nodes out.old.items ++ tree_node node ∷
        []) }
{
    out.push(node)?;
    Ok(())
}

/// The nodes of a part for one turn of a loop, which goes on with the loop.
pub(crate) fn put_turn(
    alloc: Global,
    out: &mut Vec<TreeNode>,
    nodes: Vec<TreeNode>,
    again: &Rc<Term>,
) -> Result<(), AllocError>
    ensures { OnOk result (tree_nodes out.new.items ≡ tree_nodes out.old.items ++
        flat_map (replaced (in_turn (process again.now.value))) (tree_nodes nodes.items)) }
{
    for node in nodes {
        match node {
            TreeNode::Vanish => put(out, TreeNode::None)?,
            TreeNode::Go {
                constraints,
                lasts,
                next,
            } => {
                let next = sequence(alloc, next, again)?;
                put(
                    out,
                    TreeNode::Go {
                        constraints,
                        lasts,
                        next,
                    },
                )?
            }
            other => put(out, other)?,
        }
    }
    Ok(())
}

/// The nodes of a second side, with an instant of the first one.
pub(crate) fn put_joined(
    alloc: Global,
    out: &mut Vec<TreeNode>,
    constraints: &Vec<u32>,
    lasts: &Vec<(u32, Last)>,
    next: &Rc<Term>,
    nodes: Vec<TreeNode>,
) -> Result<(), AllocError>
    ensures { OnOk result (tree_nodes out.new.items ≡ tree_nodes out.old.items ++
        flat_map (replaced (joined constraints.now.items lasts.now.items (process next.now.value)))
        (tree_nodes nodes.items)) }
{
    for node in nodes {
        put(out, join(alloc, constraints, lasts, next, node)?)?;
    }
    Ok(())
}

// A node of a second side, with an instant of the first one.
fn join(
    alloc: Global,
    constraints: &Vec<u32>,
    lasts: &Vec<(u32, Last)>,
    next: &Rc<Term>,
    node: TreeNode,
) -> Result<TreeNode, AllocError>
    ensures { IfOk result (λ n. tree_node n ∷ [] ≡
        replaced (joined constraints.now.items lasts.now.items (process next.now.value))
        (tree_node node)) }
{
    match node {
        TreeNode::Vanish => Ok(TreeNode::Go {
            constraints: constraints.clone()?,
            lasts: lasts.clone()?,
            next: next.clone()?,
        }),
        TreeNode::Go {
            constraints: others,
            lasts: other_lasts,
            next: other,
        } => Ok(TreeNode::Go {
            constraints: appended(constraints, &others)?,
            lasts: appended(lasts, &other_lasts)?,
            next: side_by_side(alloc, next, other)?,
        }),
        other => Ok(other),
    }
}

/// The nodes of a part under a constraint.
pub(crate) fn put_assert(
    alloc: Global,
    out: &mut Vec<TreeNode>,
    nodes: Vec<TreeNode>,
    constraint: u32,
) -> Result<(), AllocError>
    ensures { OnOk result (tree_nodes out.new.items ≡ tree_nodes out.old.items ++
        flat_map (replaced (in_assert constraint)) (tree_nodes nodes.items)) }
{
    for node in nodes {
        match node {
            TreeNode::Go {
                constraints,
                lasts,
                next,
            } => {
                let constraints = preceded(constraints, constraint)?;
                let next = asserted(alloc, constraint, next)?;
                put(
                    out,
                    TreeNode::Go {
                        constraints,
                        lasts,
                        next,
                    },
                )?
            }
            other => put(out, other)?,
        }
    }
    Ok(())
}

/// The nodes of a part with a local variable, which keeps the start where it had no value.
pub(crate) fn put_exist(
    alloc: Global,
    out: &mut Vec<TreeNode>,
    nodes: Vec<TreeNode>,
    start: Value,
    local: u32,
    last: Last,
) -> Result<(), AllocError>
    ensures { OnOk result (tree_nodes out.new.items ≡ tree_nodes out.old.items ++
        flat_map (λ n.
        replaced (in_exist start local last) (node_with_local (local, last) n))
        (tree_nodes nodes.items)) }
{
    for node in nodes {
        match node {
            TreeNode::Any { weights, lasts } => {
                let lasts = preceded(lasts, (local, last))?;
                put(out, TreeNode::Any { weights, lasts })?
            }
            TreeNode::Go {
                constraints,
                lasts,
                next,
            } => {
                let lasts = preceded(lasts, (local, last))?;
                let next = scoped(alloc, start, local, last, next)?;
                put(
                    out,
                    TreeNode::Go {
                        constraints,
                        lasts,
                        next,
                    },
                )?
            }
            other => put(out, other)?,
        }
    }
    Ok(())
}

/// The nodes of a part with another term for where nothing can be done.
pub(crate) fn put_try(
    alloc: Global,
    out: &mut Vec<TreeNode>,
    nodes: Vec<TreeNode>,
    otherwise: &Rc<Term>,
) -> Result<(), AllocError>
    ensures { OnOk result (tree_nodes out.new.items ≡ tree_nodes out.old.items ++
        flat_map (replaced (in_try (process otherwise.now.value))) (tree_nodes nodes.items)) }
{
    for node in nodes {
        match node {
            TreeNode::Go {
                constraints,
                lasts,
                next,
            } => {
                let next = tried(alloc, next, otherwise)?;
                put(
                    out,
                    TreeNode::Go {
                        constraints,
                        lasts,
                        next,
                    },
                )?
            }
            other => put(out, other)?,
        }
    }
    Ok(())
}

/// The value of a local that has had none: false or 0, by its kind.
#[tactic(auto, using(crate::proofs::Trees::kind_at))]
pub(crate) fn start_of(locals: &[Var], local: u32) -> Value
    ensures { result ≡ start_of (kinds_of locals.now) local }
{
    match locals.get(local as usize) {
        Some(var) => Value::of_raw(var.kind, 0),
        None => Value::Bool(false),
    }
}

// A list with one more element before the others.
fn preceded<T: Copy>(mut list: Vec<T>, first: T) -> Result<Vec<T>, AllocError>
    ensures { IfOk result (λ v. v.items ≡ first ∷ list.items) }
{
    list.insert(0, first)?;
    Ok(list)
}

// One list after another.
fn appended<T: Copy>(first: &Vec<T>, second: &Vec<T>) -> Result<Vec<T>, AllocError>
    ensures { IfOk result (λ v. v.items ≡ first.now.items ++ second.now.items) }
{
    let mut all = Vec::from_slice(*first.allocator(), first)?;
    all.extend_from_slice(second)?;
    Ok(all)
}
