//! Which trees of an instant are live.

ghost use Rattle.std.specs.Prelude.{◌≡◌, ◌<◌, false, IfErr, IfOk, IsTrue, length};
ghost use Rattle.lt_check.specs.inner.AskingView.{asked_tree, asked_worth, is_leaf_alive, is_told, IsAsking};
ghost use Rattle.lt_check.specs.inner.AskingView.{IsLeafHalt, node_of};
ghost use Rattle.lt_check.specs.inner.Finding.{NodeMayGiveUp, instants_in, is_node_alive};
ghost use Rattle.lt_check.specs.inner.SearcherView.{IsSearcherOf};
ghost use Rattle.lt_check.specs.inner.Wanted.{for_free, is_wanted};
ghost use Rattle.lt_instant.specs.inner.DrawContextView.{scene_of, worth_of};
ghost use Rattle.lt_legal.specs.Asked.{IsHaltOf};
ghost use Rattle.lt_term.specs.Mapped.{node_passes};
ghost use Rattle.lt_term.specs.SceneView.{numbers_of};
ghost use Rattle.lt_term.specs.TreeView.{tree_node};

use crate::leaves::leaves_from;
use crate::searcher::Searcher;
use crate::seeing::{see, see_loosely};
use crate::sought::Sought;
use lt_instant::DrawContext;
use lt_legal::{Alive, Halt, fill, find_at};
use lt_term::{Memory, Term, Tree, TreeNode};
use std::alloc::Global;

/// What is asked whether a live leaf can be reached in a tree of what a term offers in an instant.
#[derive(Drop)]
pub(crate) struct Asking<'a> {
    pub alloc: Global,

    /// What is known in the instant.
    pub context: &'a DrawContext<'a>,

    /// The term.
    pub term: &'a Term,

    /// What it offers.
    pub tree: &'a Tree,
}

// Nothing is asked where no priority is kept.
#[derive(Drop)]
struct Nobody;

impl Alive for Nobody {
    ghost ready = { λ nobody. Unit {0} };

    ghost live = { λ nobody number. false };

    ghost may_give_up = { λ nobody number need. ⊥ };

    fn is_live(&mut self, _number: u32) -> Result<bool, Halt> {
        Ok(false)
    }
}

// Whether a leaf that is live for free can be reached in the tree of a number.
fn is_free(asking: &Asking<'_>, searcher: &mut Searcher, number: u32) -> Result<bool, Memory>
    requires asking { IsAsking asking.now }
    requires searcher { IsSearcherOf asking.now.context.now.scenario.now searcher.old }
    ensures is { IfOk result (λ is_free. is_free ≡ is_told asking.now (is_wanted for_free) number) }
    ensures searcher { IsSearcherOf asking.now.context.now.scenario.now searcher.new }
{
    let nodes = see(
        asking.alloc,
        asking.context,
        searcher,
        &asking.tree.nodes,
        Sought::Free,
    )?;
    let mut found = Vec::new(asking.alloc);
    found.reserve(nodes.len())?;
    fill(&nodes, &mut found);
    Ok(find_at(&found, number).has)
}

// The numbers of all instants that can be reached in the tree of a number.
fn instants_from(
    asking: &Asking<'_>,
    searcher: &mut Searcher,
    number: u32,
) -> Result<Vec<u32>, Memory>
    requires asking { IsAsking asking.now }
    requires searcher { IsSearcherOf asking.now.context.now.scenario.now searcher.old }
    requires within { number < length asking.now.tree.now.nodes.items }
    ensures instants { IfOk result (λ leaves. leaves.items ≡
        instants_in (asked_worth asking.now) (asked_tree asking.now) number) }
    ensures searcher { IsSearcherOf asking.now.context.now.scenario.now searcher.new }
{
    let nodes = see_loosely(asking.alloc, asking.context, searcher, &asking.tree.nodes)?;
    match leaves_from(asking.alloc, &nodes, number, &mut Nobody) {
        Ok(leaves) => Ok(leaves),
        Err(_) => Err(Memory),
    }
}

// Whether an instant is live, by its number; what is no instant isn't.
fn is_leaf_live(asking: &Asking<'_>, searcher: &mut Searcher, number: u32) -> Result<bool, Halt>
    requires asking { IsAsking asking.now }
    requires searcher { IsSearcherOf asking.now.context.now.scenario.now searcher.old }
    ensures told { IfOk result (λ lives. lives ≡ is_leaf_alive asking.now number) }
    ensures halts { IfErr result (IsLeafHalt asking.now number) }
    ensures searcher { IsSearcherOf asking.now.context.now.scenario.now searcher.new }
{
    match asking.tree.nodes.get(number as usize) {
        Some(node) => is_node_live(asking.alloc, asking.context, searcher, node),
        None => Ok(false),
    }
}

// Whether a node is an instant that is live.
fn is_node_live(
    alloc: Global,
    context: &DrawContext<'_>,
    searcher: &mut Searcher,
    node: &TreeNode,
) -> Result<bool, Halt>
    requires searcher { IsSearcherOf context.now.scenario.now searcher.old }
    requires passes { IsTrue (node_passes (numbers_of context.now.scenario.now)
        (tree_node node.now)) }
    ensures told { IfOk result (λ lives. lives ≡
        is_node_alive (scene_of context.now) (worth_of context.now) (node_of context.now node.now)) }
    ensures halts { IfErr result (IsHaltOf (NodeMayGiveUp (scene_of context.now)
        (worth_of context.now) context.now.budget (node_of context.now node.now))) }
    ensures searcher { IsSearcherOf context.now.scenario.now searcher.new }
{
    match node {
        TreeNode::None
        | TreeNode::Vanish
        | TreeNode::Raise(_)
        | TreeNode::Pri
        | TreeNode::Any { .. } => Ok(false),
        TreeNode::Go {
            constraints,
            lasts,
            ..
        } => {
            match searcher.load(alloc, context, constraints, lasts)? {
                Ok(()) => {}
                // What has a fault is live.
                Err(_) => return Ok(true),
            }
            match searcher.search(context.scenario, lasts, context.budget) {
                Ok(is_live) => Ok(is_live),
                Err(need) => Err(Halt::Over(need)),
            }
        }
    }
}

impl Alive for Asking<'_> {
    ghost use Rattle.lt_check.specs.inner.AskingView.{IsAsking, MayGiveUp, is_tree_alive};

    ghost ready = { λ asking. IsAsking asking };

    ghost live = { λ asking number. is_tree_alive asking number };

    ghost may_give_up = { λ asking number need. MayGiveUp asking number need };

    fn is_live(&mut self, number: u32) -> Result<bool, Halt> {
        if number as usize >= self.tree.nodes.len() {
            return Ok(false);
        }
        let mut searcher = Searcher::make(self.alloc, self.context.scenario)?;
        if is_free(self, &mut searcher, number)? {
            return Ok(true);
        }
        let instants = instants_from(self, &mut searcher, number)?;
        for instant in &instants {
            if is_leaf_live(self, &mut searcher, *instant)? {
                return Ok(true);
            }
        }
        Ok(false)
    }
}
