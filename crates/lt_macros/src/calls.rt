//! Runs of nodes.

ghost use Rattle.std.specs.Prelude.{◌≡◌, ◌≤◌, IfOk, OnOk, length, map, take};
ghost use Rattle.lt_ast.specs.View.{exp, groupings, run, word};
ghost use Rattle.lt_macros.specs.Expansion.{all_given_as, call_of, calls_of, given_as, outputs_in, outputs_of, with_calls};
ghost use Rattle.lt_macros.specs.Tree.{call as call_view, declared as declared_view, placed};
ghost use Rattle.lt_macros.specs.inner.Asking.{AreThere, runnables};
ghost use Rattle.lt_macros.specs.inner.Builder.{Builds, IsGrown, IsReady, names_at, value_at};
ghost use Rattle.lt_macros.specs.inner.Rows.{rows};

use crate::builder::{Builder, Reach};
use crate::declarations::{DeclaredNode, node_before};
use crate::expressions::build_expr;
use crate::literals::range_of;
use crate::scope::Phrase;
use crate::tree::{Call, Declared, Placed};
use crate::variables::{Visible, declare_groups, show_groups, show_names};
use lt_ast::{Expr, Name, RunDecl};
use lt_formula::{Memory, Role};

/// Runs, and where the names of all of them are visible.
#[derive(Drop)]
pub(crate) struct Calls {
    /// The runs.
    pub(crate) calls: Vec<Call>,

    /// The environment in which their names are visible.
    pub(crate) environment: usize,
}

// Runs of some of these nodes, the first name of which has this place among inputs.
pub(crate) fn build_calls<'a>(
    builder: &mut Builder<'a>,
    before: &[DeclaredNode<'a>],
    first: u32,
    outer: usize,
    runs: &'a [RunDecl],
) -> Result<Calls, Memory>
    requires ready { IsReady builder.old outer }
    requires there { AreThere (length (rows builder.old.scope)) before.now }
    ensures calls { IfOk result (λ made. map call_view made.calls.items ≡
        calls_of (runnables builder.old.decimals (rows builder.old.scope) before.now) first
        (names_at builder.old outer) (map run runs.now)) }
    ensures visible { IfOk result (λ made. names_at builder.new made.environment ≡
        with_calls first (map call_view made.calls.items) (names_at builder.old outer)) }
    ensures ready { IfOk result (λ made. IsReady builder.new made.environment) }
    ensures grown { OnOk result (IsGrown builder.old builder.new) }
{
    let mut calls = Vec::new(builder.alloc);
    let mut visible = Visible {
        environment: outer,
        next: first,
    };
    for declared in runs {
        let made = build_call(builder, before, visible.environment, declared)?;
        let names = taken_names(&declared.names.items, made.names.len());
        let scope = &mut builder.scope;
        visible = show_names(scope, Role::Input, visible.next, visible.environment, names)?;
        calls.push(made)?;
    }
    Ok(Calls {
        calls,
        environment: visible.environment,
    })
}

// The first so many names.
fn taken_names(names: &[Name], count: usize) -> &[Name]
    requires { count ≤ length names.now }
    ensures { result.now ≡ take count names.now }
{
    &names[..count]
}

// A run of one of these nodes.
fn build_call<'a>(
    builder: &mut Builder<'a>,
    before: &[DeclaredNode<'a>],
    environment: usize,
    declared: &'a RunDecl,
) -> Result<Call, Memory>
    requires ready { IsReady builder.old environment }
    requires there { AreThere (length (rows builder.old.scope)) before.now }
    ensures made { Builds builder.old builder.new result (λ made.
        call_view made ≡ call_of (runnables builder.old.decimals (rows builder.old.scope) before.now)
        (names_at builder.old environment) (run declared.now)) }
    ensures few { IfOk result (λ made. length made.names.items ≤
        length declared.now.names.items.items) }
{
    let arguments = build_arguments(builder, environment, &declared.arguments)?;
    let outputs = build_outputs(builder, before, declared.node.text.as_str())?;
    let names = given_names(builder, &declared.names.items, outputs)?;
    let node = String::from_str(builder.alloc, declared.node.text.as_str())?;
    Ok(Call {
        node,
        arguments,
        names,
    })
}

// The arguments of a run.
fn build_arguments<'a>(
    builder: &mut Builder<'a>,
    environment: usize,
    exprs: &'a [Expr],
) -> Result<Vec<Placed>, Memory>
    requires { IsReady builder.old environment }
    ensures { Builds builder.old builder.new result (λ made. map placed made.items ≡
        map (λ e. value_at builder.old environment (exp e)) exprs.now) }
{
    let mut arguments = Vec::new(builder.alloc);
    for expr in exprs {
        let argument = build_expr(builder, environment, Phrase::Value(expr))?;
        arguments.push(argument)?;
    }
    Ok(arguments)
}

// The outputs of the node of this name among these. Their first values are counted in that node, and not in the one that
// runs it.
fn build_outputs<'a>(
    builder: &mut Builder<'a>,
    before: &[DeclaredNode<'a>],
    name: &str,
) -> Result<Vec<Declared>, Memory>
    requires ready { IsReady builder.old 0 }
    requires there { AreThere (length (rows builder.old.scope)) before.now }
    ensures { Builds builder.old builder.new result (λ made. map declared_view made.items ≡
        outputs_of (runnables builder.old.decimals (rows builder.old.scope) before.now) name.now) }
{
    let Some(found) = node_before(before, name) else {
        return Ok(Vec::new(builder.alloc));
    };
    let (reach, len) = (builder.reach, builder.scope.len());
    builder.reach = Reach::within_limits();
    let outputs = build_own_outputs(builder, found)?;
    builder.scope.truncate(len);
    builder.reach = reach;
    Ok(outputs)
}

// The outputs of a node.
fn build_own_outputs<'a>(
    builder: &mut Builder<'a>,
    from: DeclaredNode<'a>,
) -> Result<Vec<Declared>, Memory>
    requires { IsReady builder.old from.environment }
    ensures outputs { IfOk result (λ made. map declared_view made.items ≡
        outputs_in (names_at builder.old from.entry.environment)
        (groupings from.entry.node.now.inputs) (groupings from.entry.node.now.outputs)) }
    ensures grown { OnOk result (IsGrown builder.old builder.new) }
{
    let node = from.node;
    let scope = &mut builder.scope;
    let inputs = show_groups(scope, Role::Input, 0, from.environment, &node.inputs)?;
    let outputs = declare_groups(builder, Role::Output, 0, inputs.environment, &node.outputs)?;
    Ok(outputs.declared)
}

// Outputs of a node as inputs of the one that runs it, by these names.
fn given_names<'a>(
    builder: &Builder<'a>,
    names: &[Name],
    outputs: Vec<Declared>,
) -> Result<Vec<Declared>, Memory>
    ensures given { IfOk result (λ made. map declared_view made.items ≡
        all_given_as builder.now.decimals (map word names.now) (map declared_view outputs.items)) }
    ensures few { IfOk result (λ made. length made.items ≤ length names.now) }
{
    let mut given = Vec::new(builder.alloc);
    for (name, output) in names.iter().zip(outputs) {
        given.push(given_name(builder, name, output)?)?;
    }
    Ok(given)
}

// An output as such an input, by this name.
fn given_name<'a>(builder: &Builder<'a>, name: &Name, output: Declared) -> Result<Declared, Memory>
    ensures { IfOk result (λ made. declared_view made ≡
        given_as builder.now.decimals (word name.now) (declared_view output)) }
{
    let text = String::from_str(builder.alloc, name.text.as_str())?;
    let kind = output.kind;
    let range = range_of(builder.alloc, builder.decimals, Role::Input, kind, &None)?;
    Ok(Declared {
        name: text,
        kind,
        range,
        first: output.first,
    })
}
