//! The first limit that a node is past whose tree is built.

ghost use Rattle.std.specs.Prelude.{◌≡◌, ◌+◌, IfOk, OnOk, length, map, slice_get};
ghost use Rattle.lt_macros.specs.Limits.{passed_limits};
ghost use Rattle.lt_macros.specs.Nodes.{parts_count};
ghost use Rattle.lt_macros.specs.Expanded.{all_inputs};
ghost use Rattle.lt_macros.specs.Tree.{bounds as bounds_view, call as call_view, declared, expanded, node as node_view, parts, placed};
ghost use Rattle.lt_macros.specs.inner.Figures.{Figure, arguments_figure, bounds_figure, calls_figure, choice_weight, expanded_figure, expression_figure, first_figure, parts_figure, variables_figure};
ghost use Rattle.lt_macros.specs.inner.Tallies.{counted};

use crate::limit::Limit;
use crate::tally::{Tally, deeper};
use crate::tree::{Bounds, Call, Declared, Expanded, Node, Parts, Placed};
use lt_formula::Memory;

// Counts an expression that stands so deep.
#[cycle(measure_expression)]
fn count_expression(tally: &mut Tally, depth: u32, expr: &Placed) -> Result<(), Memory>
    ensures { OnOk result ((f : Figure) →
        counted tally.new f ≡ counted tally.old f + expression_figure f depth (placed expr.now)) }
{
    *tally = tally.with_expression(depth)?;
    let below = deeper(depth)?;
    match expr {
        Placed::Constant(_, _, _) | Placed::Variable(_, _, _) | Placed::Previous(_, _, _) => Ok(()),
        Placed::Unary(_, part, _) => count_expression(tally, below, part),
        Placed::Binary(_, left, right, _) => {
            count_expression(tally, below, left)?;
            count_expression(tally, below, right)
        }
        Placed::Choice(condition, holds, otherwise, _) => {
            count_expression(tally, below, condition)?;
            count_expression(tally, below, holds)?;
            count_expression(tally, below, otherwise)
        }
    }
}

// Counts the bounds of a loop.
fn count_bounds(tally: &mut Tally, bounds: &Bounds) -> Result<(), Memory>
    ensures { OnOk result ((f : Figure) →
        counted tally.new f ≡ counted tally.old f + bounds_figure f (bounds_view bounds.now)) }
{
    match bounds {
        Bounds::Between(first, second) | Bounds::Around(first, second) => {
            count_expression(tally, 1, first)?;
            count_expression(tally, 1, second)
        }
    }
}

// Counts the first value of a variable, where it has one.
fn count_first(tally: &mut Tally, variable: &Declared) -> Result<(), Memory>
    ensures { OnOk result ((f : Figure) →
        counted tally.new f ≡ counted tally.old f + first_figure f (declared variable.now).first) }
{
    match &variable.first {
        None => Ok(()),
        Some(first) => count_expression(tally, 1, first),
    }
}

// Counts a trace that stands so deep.
#[cycle(measure_trace)]
fn count_trace(tally: &mut Tally, depth: u32, trace: &Expanded) -> Result<(), Memory>
    ensures { OnOk result ((f : Figure) →
        counted tally.new f ≡ counted tally.old f + expanded_figure f depth (expanded trace.now)) }
{
    *tally = tally.with_term(depth)?;
    let below = deeper(depth)?;
    match trace {
        Expanded::Eps | Expanded::Dead | Expanded::Raise(_) => Ok(()),
        Expanded::Con(constraint) => count_expression(tally, 1, constraint),
        Expanded::Seq(first, second)
        | Expanded::Pri(first, second)
        | Expanded::Par(first, second)
        | Expanded::Catch(_, first, second)
        | Expanded::Try(first, second) => {
            count_trace(tally, below, first)?;
            count_trace(tally, below, second)
        }
        Expanded::Loop(body) => count_trace(tally, below, body),
        Expanded::Count(_, bounds, body) => {
            count_bounds(tally, bounds)?;
            count_trace(tally, below, body)
        }
        Expanded::Any(alternatives) => count_parts(tally, below, alternatives),
        Expanded::Assert(constraint, body) => {
            count_expression(tally, 1, constraint)?;
            count_trace(tally, below, body)
        }
        Expanded::Exist(_, local, body) => {
            *tally = tally.with_local()?;
            count_first(tally, local)?;
            count_trace(tally, below, body)
        }
    }
}

// Counts the alternatives of a choice, which stand so deep, and that they are so many.
#[cycle(measure_trace)]
fn count_parts(tally: &mut Tally, depth: u32, alternatives: &Parts) -> Result<(), Memory>
    ensures { OnOk result ((f : Figure) →
        counted tally.new f
        ≡ counted tally.old f
        + (choice_weight f (parts_count (parts alternatives.now))
        + parts_figure f depth (parts alternatives.now))) }
{
    *tally = tally.with_choice(alternatives.items.len())?;
    for alternative in &alternatives.items {
        count_expression(tally, 1, &alternative.weight)?;
        count_trace(tally, depth, &alternative.body)?;
    }
    Ok(())
}

// Counts the first values of variables.
fn count_variables(tally: &mut Tally, variables: &[Declared]) -> Result<(), Memory>
    ensures { OnOk result ((f : Figure) →
        counted tally.new f
        ≡ counted tally.old f + variables_figure f (map declared variables.now)) }
{
    for variable in variables {
        count_first(tally, variable)?;
    }
    Ok(())
}

// Counts the arguments of runs.
fn count_calls(tally: &mut Tally, calls: &[Call]) -> Result<(), Memory>
    ensures { OnOk result ((f : Figure) →
        counted tally.new f ≡ counted tally.old f + calls_figure f (map call_view calls.now)) }
{
    for call in calls {
        count_arguments(tally, &call.arguments)?;
    }
    Ok(())
}

// Counts arguments.
fn count_arguments(tally: &mut Tally, arguments: &[Placed]) -> Result<(), Memory>
    ensures { OnOk result ((f : Figure) →
        counted tally.new f ≡ counted tally.old f + arguments_figure f (map placed arguments.now)) }
{
    for argument in arguments {
        count_expression(tally, 1, argument)?;
    }
    Ok(())
}

// How many inputs a node has, with those that its runs give. No text that fits in memory has too many.
fn number_of_inputs(node: &Node) -> Result<u32, Memory>
    ensures { IfOk result (λ number. number ≡ length (all_inputs (node_view node.now))) }
{
    let mut number = number_of(&node.inputs)?;
    for call in &node.calls {
        let more = number_of(&call.names)?;
        number = number.checked_add(more).ok_or(Memory)?;
    }
    Ok(number)
}

// How many variables there are. No text that fits in memory has too many.
fn number_of(variables: &[Declared]) -> Result<u32, Memory>
    ensures { IfOk result (λ number. number ≡ length variables.now) }
{
    u32::try_from(variables.len()).map_err(|_| Memory)
}

// The first limit that a node is past, if there is one.
pub(crate) fn limit_of(node: &Node) -> Result<Option<Limit>, Memory>
    ensures { IfOk result (λ limit. limit ≡ slice_get (passed_limits (node_view node.now)) 0) }
{
    let mut tally = Tally::start();
    count_variables(&mut tally, &node.inputs)?;
    count_variables(&mut tally, &node.outputs)?;
    count_calls(&mut tally, &node.calls)?;
    count_trace(&mut tally, 1, &node.body)?;
    let (inputs, outputs) = (number_of_inputs(node)?, number_of(&node.outputs)?);
    Ok(tally.limit(inputs, outputs))
}
