//! From a program to its scenario.

ghost use Rattle.std.specs.Prelude.{◌≡◌, ◌≤◌, ℕ, [], nat_le};
ghost use Rattle.lt_ast.specs.View.{program as declarations};
ghost use Rattle.lt_num.specs.Bounds.{most_decimals};
ghost use Rattle.lt_macros.specs.Answer.{asked_name};
ghost use Rattle.lt_macros.specs.Expansion.{expanded_node};
ghost use Rattle.lt_macros.specs.Limits.{passed_limits};
ghost use Rattle.lt_macros.specs.Naming.{NamesWhatIsThere};
ghost use Rattle.lt_macros.specs.Numbering.{IsNumbered};
ghost use Rattle.lt_macros.specs.Scoping.{AreInside};
ghost use Rattle.lt_macros.specs.Tree.{expanded, node};
ghost use Rattle.lt_typing_laws.specs.TypedNode.{IsTypedNode};
ghost use Rattle.lt_expand.specs.Answer.{IsAnswer, IsNodeAnswer};
ghost use Rattle.lt_expand.specs.Nested.{most_runs, runs_in_nest};
ghost use Rattle.lt_expand.specs.Nesting.{IsNestingOf};

use crate::calls::{ExpandedNode, calls_of};
use crate::items::items_of;
use crate::judging::judge;
use crate::kinds::kinds_of;
use crate::nested::Nesting;
use crate::refusal::ExpandRefusal;
use crate::scenario::scenario;
use lt_macros::{Node, expanded_node, locals_are_inside, names_are_there, parts_are_numbered};
use lt_term::Scenario;
use lt_types::{Typed, well_typed_is_unrefused};
use lt_typing_laws::texts_keep_types;
use std::alloc::Global;
use std::mem;

/// The scenario of the node that is asked for, or of the first one where no name is given.
///
/// The program is let go of once the tree of its node is made. That tree isn't given back: a call expands one node.
///
/// # Errors
///
/// The first refusal: [`ExpandRefusal::UnknownNode`] where no node has the name; then, over the whole expanded node,
/// the first limit that it is past, and the first place in preorder of each other cause, in the order of the causes.
/// [`ExpandRefusal::Memory`] where memory ran out.
pub fn expand(alloc: Global, typed: Typed, node: Option<&str>) -> Result<Scenario, ExpandRefusal>
    ensures { IsAnswer typed.decimals
        (runs_in_nest (asked_name node.entry) (declarations typed.program))
        (expanded_node typed.decimals (asked_name node.entry) (declarations typed.program)) result }
{
    let asked = expanded_node(alloc, &typed, node)?;
    let few = Nesting::new(alloc, &typed)?.is_few(node);
    let decimals = typed.decimals();
    parts_are_numbered();
    locals_are_inside();
    names_are_there();
    well_typed_is_unrefused();
    texts_keep_types();
    // The scenario takes the memory that the program had.
    drop(typed);
    let made = judged_scenario(alloc, &asked, decimals, few)?;
    mem::forget(asked);
    Ok(made)
}

/// The node that is asked for, or the first one where no name is given, with its runs. How many runs nests have is known.
///
/// # Errors
///
/// As those of [`expand`].
pub fn expand_node(
    alloc: Global,
    typed: &Typed,
    nesting: &Nesting,
    node: Option<&str>,
) -> Result<ExpandedNode, ExpandRefusal>
    requires { IsNestingOf (declarations typed.now.program) nesting.now }
    ensures { IsNodeAnswer typed.now.decimals
        (runs_in_nest (asked_name node.entry) (declarations typed.now.program))
        (expanded_node typed.now.decimals (asked_name node.entry)
        (declarations typed.now.program)) result }
{
    let asked = expanded_node(alloc, typed, node)?;
    let few = nesting.is_few(node);
    parts_are_numbered();
    locals_are_inside();
    names_are_there();
    well_typed_is_unrefused();
    texts_keep_types();
    let own_inputs = asked.inputs.len();
    let parts = items_of(alloc, &asked.body)?;
    let calls = calls_of(alloc, &asked, &parts)?;
    let scenario = judged_scenario(alloc, &asked, typed.decimals(), few)?;
    Ok(ExpandedNode {
        scenario,
        own_inputs,
        calls,
    })
}

// The scenario of a node that is within the limits, or what is refused of it first. Its nest has few enough runs, or not.
#[tactic(auto, using(crate::proofs::Answering::nothing_refused, crate::proofs::Answering::runs_refused, crate::proofs::Answering::judged_refused))]
fn judged_scenario(
    alloc: Global,
    asked: &Node,
    decimals: u32,
    few: bool,
) -> Result<Scenario, ExpandRefusal>
    requires few { decimals ≤ most_decimals }
    requires limits { passed_limits (node asked.now) ≡ [] }
    requires named { NamesWhatIsThere (node asked.now) }
    requires numbered { IsNumbered (node asked.now) }
    requires inside { AreInside [] (expanded asked.now.body) }
    requires typed { ∥ IsTypedNode (node asked.now) ∥₁ }
    ensures { (runs : ℕ) → few ≡ nat_le runs most_runs →
        IsAnswer decimals runs (Some (node asked.now)) result }
{
    let parts = items_of(alloc, &asked.body)?;
    let kinds = kinds_of(alloc, asked, &parts)?;
    judge(&kinds, asked, &parts, decimals)?;
    if !few {
        return Err(ExpandRefusal::TooManyRuns);
    }
    Ok(scenario(alloc, kinds, asked, &parts, decimals)?)
}
