//! Runs of nodes.

ghost use Rattle.std.specs.Prelude.{◌≡◌, ◌≤◌, IfOk, IsSome, OnOk, Some, length, map};
ghost use Rattle.lt_ast.specs.Letters.{letters};
ghost use Rattle.lt_ast.specs.View.{exp, run};
ghost use Rattle.lt_types.specs.Environment.{found_node, outputs_of, with_run, with_runs};
ghost use Rattle.lt_types.specs.Refusals.{all_given_misfit, applied_node, exps_refusals, given_misfit, counts_agree, run_refusals, runs_refusals, type_of};
ghost use Rattle.lt_types.specs.inner.Checks.{Checks};
ghost use Rattle.lt_types.specs.inner.Scoping.{declared_since, input_view, node_view};

use crate::expressions::check_expr;
use crate::kinds::is_same;
use crate::node_types::{Input, NodeTypes};
use crate::refusal::TypeRefusal;
use crate::scope::Scope;
use lt_ast::{Expr, RunDecl, TypeName};
use std::alloc::Global;

// Runs of nodes, in a node whose names are those since there were `from`. The names of runs stay in the scope.
pub(crate) fn check_runs(
    alloc: Global,
    scope: &mut Scope,
    from: usize,
    runs: &[RunDecl],
) -> Result<(), TypeRefusal>
    requires from { from ≤ length scope.old.names }
    ensures answered { Checks result
        (runs_refusals scope.old (declared_since from scope.old) (map run runs.now)) }
    ensures declared { OnOk result (scope.new ≡ with_runs scope.old (map run runs.now)) }
{
    for declared in runs {
        check_run(alloc, scope, from, declared)?;
    }
    Ok(())
}

// A run in such a node. Its arguments don't see its names.
#[tactic(auto, using(crate::proofs::Leading::leads))]
fn check_run(
    alloc: Global,
    scope: &mut Scope,
    from: usize,
    declared: &RunDecl,
) -> Result<(), TypeRefusal>
    requires from { from ≤ length scope.old.names }
    ensures answered { Checks result
        (run_refusals scope.old (declared_since from scope.old) (run declared.now)) }
    ensures declared { OnOk result (scope.new ≡ with_run scope.old (run declared.now)) }
{
    scope.check_new_names(from, &declared.names)?;
    if scope.node(declared.node.text.as_str()).is_none() {
        return Err(TypeRefusal::Unknown(declared.node.span));
    }
    let kinds = check_exprs(alloc, scope, &declared.arguments)?;
    let outputs = check_applied_node(alloc, scope, declared, &kinds)?;
    scope.declare_variables(&declared.names, &outputs)
}

// Expressions, and the types that they have.
fn check_exprs(
    alloc: Global,
    scope: &mut Scope,
    exprs: &[Expr],
) -> Result<Vec<TypeName>, TypeRefusal>
    ensures answered { Checks result (exps_refusals scope.old (map exp exprs.now)) }
    ensures kinds { IfOk result (λ kinds. map Some kinds.items ≡
        map (type_of scope.old) (map exp exprs.now)) }
    ensures kept { OnOk result (scope.new ≡ scope.old) }
{
    let mut kinds = Vec::new(alloc);
    for expr in exprs {
        kinds.push(check_expr(alloc, scope, expr)?)?;
    }
    Ok(kinds)
}

// That a run fits its node, which is known, where its arguments have these types; and the types of the node's outputs.
#[tactic(auto, using(crate::proofs::Leading::leads))]
fn check_applied_node(
    alloc: Global,
    scope: &Scope,
    declared: &RunDecl,
    kinds: &[TypeName],
) -> Result<Vec<TypeName>, TypeRefusal>
    requires known { IsSome (found_node scope.now.nodes (letters declared.now.node.text)) }
    requires kinds { map Some kinds.now ≡
        map (type_of scope.now) (map exp declared.now.arguments.items) }
    ensures answered { Checks result
        (applied_node scope.now (run declared.now)
        (found_node scope.now.nodes (letters declared.now.node.text))) }
    ensures outputs { IfOk result (λ outputs. outputs.items ≡
        outputs_of (found_node scope.now.nodes (letters declared.now.node.text))) }
{
    match scope.node(declared.node.text.as_str()) {
        None => unreachable!(),
        Some(node) => {
            if !do_counts_agree(declared, node) {
                return Err(TypeRefusal::Arity(declared.node.span));
            }
            check_all_given(scope, &declared.arguments, kinds, &node.inputs)?;
            Ok(node.outputs.as_slice().to_vec(alloc)?)
        }
    }
}

// Whether a node has as many outputs as a run has names, and as many inputs as it has arguments.
fn do_counts_agree(declared: &RunDecl, node: &NodeTypes) -> bool
    ensures { result ≡ counts_agree (run declared.now)
        (node_view (letters declared.now.node.text) node.now) }
{
    declared.names.items.len() == node.outputs.len()
        && declared.arguments.len() == node.inputs.len()
}

// Expressions that are given for inputs, as far as both go, with the types of the expressions.
fn check_all_given(
    scope: &Scope,
    exprs: &[Expr],
    kinds: &[TypeName],
    inputs: &[Input],
) -> Result<(), TypeRefusal>
    requires { map Some kinds.now ≡ map (type_of scope.now) (map exp exprs.now) }
    ensures { Checks result
        (all_given_misfit scope.now (map exp exprs.now) (map input_view inputs.now)) }
{
    let mut exprs = exprs;
    let mut kinds = kinds;
    let mut inputs = inputs;
    while let [input, more_inputs @ ..] = inputs {
        let ([expr, more_exprs @ ..], [kind, more_kinds @ ..]) = (exprs, kinds) else {
            return Ok(());
        };
        check_given(scope, expr, *kind, *input)?;
        exprs = more_exprs;
        kinds = more_kinds;
        inputs = more_inputs;
    }
    Ok(())
}

// An expression of a type that is given for an input.
#[tactic(auto, using(crate::proofs::Leading::leads))]
fn check_given(scope: &Scope, expr: &Expr, kind: TypeName, input: Input) -> Result<(), TypeRefusal>
    requires { type_of scope.now (exp expr.now) ≡ Some kind }
    ensures { Checks result (given_misfit scope.now (exp expr.now) (input_view input)) }
{
    if is_same(kind, input.kind) && !input.ranged {
        return Ok(());
    }
    Err(TypeRefusal::Mismatch(expr.span()))
}
