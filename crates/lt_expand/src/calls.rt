//! The runs of a node that is expanded.

ghost use Rattle.std.specs.Prelude.{◌≡◌, ◌<◌, IfOk, map};
ghost use Rattle.std.specs.List.{All};
ghost use Rattle.lt_formula.specs.Table.{spelled};
ghost use Rattle.lt_formula.specs.View.{table_expressions, table_kinds, table_len};
ghost use Rattle.lt_macros.specs.Naming.{NamesWhatIsThere};
ghost use Rattle.lt_macros.specs.Placed.{bare};
ghost use Rattle.lt_macros.specs.Preorder.{arguments_in, items};
ghost use Rattle.lt_macros.specs.Scoping.{NameNone};
ghost use Rattle.lt_macros.specs.Tree.{call as tree_call, expanded, node, placed};
ghost use Rattle.lt_expand.specs.Calls.{IsOver, call_of as bare_call, call_view, calls_in};
ghost use Rattle.lt_expand.specs.Classes.{kinds_of as kinds_in};
ghost use Rattle.lt_expand.specs.inner.Items.{items_view};
ghost use Rattle.lt_expand.specs.inner.Ready.{IsReady};

use crate::expressions::put_expression;
use crate::items::Item;
use crate::kinds::kinds_of;
use lt_formula::{Memory, Table};
use lt_macros::{Call as Run, Node, Placed};
use lt_term::Scenario;
use std::alloc::Global;

/// A run of a node. What it is given stands in a table of its own, over the variables of the node that runs it: no part of it
/// belongs to what that node does.
#[derive(Drop)]
pub struct Call {
    /// Which node is run.
    pub node: String,

    /// The expressions of the arguments.
    pub table: Table,

    /// The number of each argument in the table.
    pub arguments: Vec<u32>,
}

/// A node with the runs that it begins with.
#[derive(Drop)]
pub struct ExpandedNode {
    /// Its scenario. Its inputs are its own, and then those that the runs give.
    pub scenario: Scenario,

    /// How many of the inputs are its own.
    pub own_inputs: usize,

    /// The runs, in order.
    pub calls: Vec<Call>,
}

// The runs of a node, the parts of whose trace these are.
pub(crate) fn calls_of(alloc: Global, from: &Node, parts: &[Item<'_>]) -> Result<Vec<Call>, Memory>
    requires parts { items_view parts.now ≡ items (expanded from.now.body) }
    requires named { NamesWhatIsThere (node from.now) }
    requires inside { NameNone (arguments_in (node from.now)) }
    ensures calls { IfOk result (λ made. map call_view made.items ≡ calls_in (node from.now)) }
    ensures over { IfOk result (λ made. All (IsOver (kinds_in (node from.now))) made.items) }
{
    let mut calls = Vec::new(alloc);
    for run in &from.calls {
        let kinds = kinds_of(alloc, from, parts)?;
        let table = Table::new(alloc, kinds.inputs, kinds.outputs, kinds.locals);
        calls.push(call_of(alloc, table, run)?)?;
    }
    Ok(calls)
}

// A run, whose arguments are put into an empty table.
fn call_of(alloc: Global, table: Table, run: &Run) -> Result<Call, Memory>
    requires { All (IsReady (table_kinds table)) (map placed run.now.arguments.items) }
    ensures call { IfOk result (λ made. call_view made ≡ bare_call (tree_call run.now)) }
    ensures over { IfOk result (λ made. IsOver (table_kinds table) made) }
{
    let mut table = table;
    let node = String::from_str(alloc, &run.node)?;
    let arguments = put_arguments(alloc, &mut table, &run.arguments)?;
    Ok(Call {
        node,
        table,
        arguments,
    })
}

// The numbers of arguments, which are put into the table.
fn put_arguments(alloc: Global, table: &mut Table, written: &[Placed]) -> Result<Vec<u32>, Memory>
    requires { All (IsReady (table_kinds table.old)) (map placed written.now) }
    ensures numbers { IfOk result (λ numbers.
        map (spelled (table_expressions table.new)) numbers.items
        ≡ map bare (map placed written.now)) }
    ensures there { IfOk result (λ numbers. All (λ n. n < table_len table.new) numbers.items) }
    ensures kinds { IfOk result (λ _. table_kinds table.new ≡ table_kinds table.old) }
{
    let mut numbers = Vec::new(alloc);
    for argument in written {
        numbers.push(put_expression(table, argument)?)?;
    }
    Ok(numbers)
}
