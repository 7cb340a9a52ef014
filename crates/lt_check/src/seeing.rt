//! What is seen of the nodes of a tree.

ghost use Rattle.std.specs.Prelude.{◌≡◌, [], IfOk, IsTrue, length, map, nat_lt, replicate};
ghost use Rattle.std.specs.List.{list_all};
ghost use Rattle.lt_formula.specs.Expression.{Expression};
ghost use Rattle.lt_formula.specs.View.{table_len};
ghost use Rattle.lt_linear.specs.Form.{is_raw};
ghost use Rattle.lt_term.specs.Evaluated.{going};
ghost use Rattle.lt_term.specs.Mapped.{node_passes, weight_mapped, weight_passes};
ghost use Rattle.lt_term.specs.Process.{Process};
ghost use Rattle.lt_term.specs.SceneView.{numbers_of};
ghost use Rattle.lt_term.specs.TreeView.{tree_node, weight};
ghost use Rattle.lt_legal.specs.NodeView.{node_view};
ghost use Rattle.lt_marks_laws.specs.Valued.{worths};
ghost use Rattle.lt_instant.specs.inner.DrawContextView.{meaning_of, scene_of, worth_of};
ghost use Rattle.lt_check.specs.inner.Seen.{choice_seen, positive};
ghost use Rattle.lt_check.specs.inner.SeenOf.{loose_of, seen};
ghost use Rattle.lt_check.specs.inner.SearcherView.{IsSearcherOf};
ghost use Rattle.lt_check.specs.inner.SoughtView.{wanted};
ghost use Rattle.lt_check.specs.inner.Fitting.{IsSoughtIn};
ghost use Rattle.lt_check.specs.inner.Wanted.{is_wanted};

use crate::scopes::has_scope;
use crate::searcher::Searcher;
use crate::sought::{Sought, seeks_fault, seeks_raise, seeks_vanish};
use lt_instant::{DrawContext, weigh};
use lt_legal::Node;
use lt_num::Arith;
use lt_term::{Last, Memory, TreeNode, Weight};
use std::alloc::{AllocError, Global};

/// The nodes of a tree, by what is sought among its leaves.
pub(crate) fn see(
    alloc: Global,
    context: &DrawContext<'_>,
    searcher: &mut Searcher,
    nodes: &[TreeNode],
    sought: Sought<'_>,
) -> Result<Vec<Node>, Memory>
    requires searcher { IsSearcherOf context.now.scenario.now searcher.old }
    requires sought { IsSoughtIn context.now.scenario.now sought }
    requires passes { IsTrue (list_all (node_passes (numbers_of context.now.scenario.now))
        (map tree_node nodes.now)) }
    ensures seen { IfOk result (λ found. map node_view found.items ≡
        map (seen context.now (is_wanted (wanted (scene_of context.now) sought.entry)))
        (map tree_node nodes.now)) }
    ensures searcher { IsSearcherOf context.now.scenario.now searcher.new }
{
    let mut found = Vec::new(alloc);
    for node in nodes {
        let one = see_node(alloc, context, searcher, node, sought)?;
        found.push(one)?;
    }
    Ok(found)
}

// A node, by what is sought.
fn see_node(
    alloc: Global,
    context: &DrawContext<'_>,
    searcher: &mut Searcher,
    node: &TreeNode,
    sought: Sought<'_>,
) -> Result<Node, Memory>
    requires searcher { IsSearcherOf context.now.scenario.now searcher.old }
    requires sought { IsSoughtIn context.now.scenario.now sought }
    requires passes { IsTrue (node_passes (numbers_of context.now.scenario.now)
        (tree_node node.now)) }
    ensures seen { IfOk result (λ found. node_view found ≡
        seen context.now (is_wanted (wanted (scene_of context.now) sought.entry)) (tree_node node.now)) }
    ensures searcher { IsSearcherOf context.now.scenario.now searcher.new }
{
    match node {
        TreeNode::None => Ok(Node::Tip(false)),
        TreeNode::Vanish => Ok(Node::Tip(seeks_vanish(sought, context.scenario))),
        TreeNode::Raise(exception) => {
            Ok(Node::Tip(seeks_raise(sought, context.scenario, *exception)))
        }
        TreeNode::Pri => Ok(Node::Order),
        TreeNode::Go {
            constraints,
            lasts,
            ..
        } => {
            let is_sought = is_sought_at(alloc, context, searcher, constraints, lasts, sought)?;
            Ok(Node::Tip(is_sought))
        }
        TreeNode::Any { weights, lasts } => {
            see_choice(alloc, context, searcher, weights, lasts, sought)
        }
    }
}

// Whether an instant is sought that has these constraints.
fn is_sought_at(
    alloc: Global,
    context: &DrawContext<'_>,
    searcher: &mut Searcher,
    constraints: &[u32],
    lasts: &[(u32, Last)],
    sought: Sought<'_>,
) -> Result<bool, Memory>
    requires searcher { IsSearcherOf context.now.scenario.now searcher.old }
    requires sought { IsSoughtIn context.now.scenario.now sought }
    requires within { IsTrue (list_all (λ c.
        nat_lt c (table_len context.now.scenario.now.table)) constraints.now) }
    ensures is { IfOk result (λ is_sought. (n : Process Expression) → is_sought ≡
        is_wanted (wanted (scene_of context.now) sought.entry)
        (going ((worth_of context.now).formula lasts.now
        (map (meaning_of context.now.scenario.now.table) constraints.now)) lasts.now n)) }
    ensures searcher { IsSearcherOf context.now.scenario.now searcher.new }
{
    match sought {
        Sought::Normal | Sought::Raise(_) => Ok(false),
        Sought::Step(step) => {
            if !has_scope(lasts, &step.marks) {
                return Ok(false);
            }
            match searcher.load(alloc, context, constraints, lasts)? {
                Ok(()) => Ok(searcher.holds(context.scenario, &step.raws)),
                Err(_) => Ok(false),
            }
        }
        Sought::Fault(_) | Sought::Free => {
            match searcher.load(alloc, context, constraints, lasts)? {
                Ok(()) => Ok(false),
                Err(fault) => Ok(seeks_fault(sought, context.scenario, fault)),
            }
        }
    }
}

// A choice among trees with these weights.
fn see_choice(
    alloc: Global,
    context: &DrawContext<'_>,
    searcher: &mut Searcher,
    weights: &[Weight],
    lasts: &[(u32, Last)],
    sought: Sought<'_>,
) -> Result<Node, Memory>
    requires searcher { IsSearcherOf context.now.scenario.now searcher.old }
    requires passes { IsTrue (list_all (weight_passes (numbers_of context.now.scenario.now))
        (map weight weights.now)) }
    ensures seen { IfOk result (λ found. node_view found ≡
        choice_seen (wanted (scene_of context.now) sought.entry).fault
        (worths (worth_of context.now).weight lasts.now
        (map (weight_mapped (meaning_of context.now.scenario.now.table)) (map weight weights.now)))
        (length weights.now)) }
    ensures searcher { IsSearcherOf context.now.scenario.now searcher.new }
{
    searcher.weights.clear();
    searcher.weights.reserve(weights.len())?;
    match weigh(
        context,
        weights,
        lasts,
        &mut searcher.earlier,
        &mut searcher.weights,
    ) {
        Ok(()) => Ok(Node::Choice(positives(alloc, &searcher.weights)?)),
        Err(fault) => Ok(Node::Spoilt(
            seeks_fault(sought, context.scenario, fault),
            vec![in alloc; false; weights.len()]?,
        )),
    }
}

// Which weights are positive.
fn positives(alloc: Global, weights: &[u64]) -> Result<Vec<bool>, AllocError>
    ensures { IfOk result (λ marks. marks.items ≡ map positive weights.now) }
{
    let mut marks = Vec::with_capacity(alloc, weights.len())?;
    for weight in weights {
        marks.push_reserved(*weight > 0);
    }
    Ok(marks)
}

/// The nodes of a tree in which no priority is kept, by whether a leaf is an instant.
pub(crate) fn see_loosely(
    alloc: Global,
    context: &DrawContext<'_>,
    searcher: &mut Searcher,
    nodes: &[TreeNode],
) -> Result<Vec<Node>, Memory>
    requires searcher { IsSearcherOf context.now.scenario.now searcher.old }
    requires passes { IsTrue (list_all (node_passes (numbers_of context.now.scenario.now))
        (map tree_node nodes.now)) }
    ensures seen { IfOk result (λ found. map node_view found.items ≡
        map (loose_of context.now) (map tree_node nodes.now)) }
    ensures searcher { IsSearcherOf context.now.scenario.now searcher.new }
{
    let mut found = Vec::new(alloc);
    for node in nodes {
        let one = see_node_loosely(alloc, context, searcher, node)?;
        found.push(one)?;
    }
    Ok(found)
}

// A node of a tree in which no priority is kept.
fn see_node_loosely(
    alloc: Global,
    context: &DrawContext<'_>,
    searcher: &mut Searcher,
    node: &TreeNode,
) -> Result<Node, Memory>
    requires searcher { IsSearcherOf context.now.scenario.now searcher.old }
    requires passes { IsTrue (node_passes (numbers_of context.now.scenario.now)
        (tree_node node.now)) }
    ensures seen { IfOk result (λ found. node_view found ≡ loose_of context.now (tree_node node.now)) }
    ensures searcher { IsSearcherOf context.now.scenario.now searcher.new }
{
    match node {
        TreeNode::None | TreeNode::Vanish | TreeNode::Raise(_) => Ok(Node::Tip(false)),
        TreeNode::Go { .. } => Ok(Node::Tip(true)),
        TreeNode::Pri => Ok(Node::Choice(vec![in alloc; true; 2]?)),
        TreeNode::Any { weights, lasts } => {
            see_choice(alloc, context, searcher, weights, lasts, Sought::Normal)
        }
    }
}
