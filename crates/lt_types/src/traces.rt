//! Traces.

ghost use Rattle.std.specs.Prelude.{◌≡◌, OnOk, Some, map};
ghost use Rattle.lt_ast.specs.inner.Lists.{traces_of};
ghost use Rattle.lt_ast.specs.inner.Rows.{maybe_trace, weighed};
ghost use Rattle.lt_ast.specs.View.{alternatives, braced, exp, limits, trace as trace_view};
ghost use Rattle.lt_types.specs.inner.Checks.{Checks};
ghost use Rattle.lt_types.specs.inner.Given.{IsScoped};
ghost use Rattle.lt_ast.specs.Places.{span_of};
ghost use Rattle.lt_types.specs.Refusals.{alternative_refusals, alternatives_refusals, braces_refusals, handler_refusals, limits_refusals, trace_refusals, typed, traces_refusals};
ghost use Rattle.lt_types.specs.Operators.{serves_as as may_serve_as};

use crate::entry::Role;
use crate::expressions::check_expr;
use crate::groups::{check_groups, check_macro, declare_macro};
use crate::kinds::serves_as;
use crate::refusal::TypeRefusal;
use crate::scope::Scope;
use crate::uses::{check_exception, check_kind};
use lt_ast::{Bounds, Braced, Expr, Part, Parts, TraceExpr, TypeName};
use std::alloc::Global;

// A trace.
#[cycle(check)]
pub(crate) fn check_trace(
    alloc: Global,
    scope: &mut Scope,
    trace: &TraceExpr,
) -> Result<(), TypeRefusal>
    ensures answered { Checks result (trace_refusals scope.old (trace_view trace.now)) }
    ensures kept { OnOk result (scope.new ≡ scope.old) }
{
    match trace {
        TraceExpr::Seq(parts) => check_traces(alloc, scope, &parts.items),
        TraceExpr::Braces(inside, _) => check_braces(alloc, scope, inside),
        TraceExpr::Loop(bounds, body) => {
            check_bounds(alloc, scope, bounds)?;
            check_trace(alloc, scope, body)
        }
        TraceExpr::Raise(name) => check_exception(scope, name),
        TraceExpr::Assert(expr, body) => {
            let kind = check_expr(alloc, scope, expr)?;
            check_trace(alloc, scope, body)?;
            check_kind(kind, TypeName::Bool, expr)
        }
        TraceExpr::Exist(_, _)
        | TraceExpr::Let(_, _)
        | TraceExpr::Exceptions(_, _)
        | TraceExpr::Trap(_, _, _) => check_scoped(alloc, scope, trace),
        TraceExpr::Catch(name, body, otherwise) => {
            check_exception(scope, name)?;
            check_trace(alloc, scope, body)?;
            check_handler(alloc, scope, otherwise)
        }
        TraceExpr::Try(body, otherwise) => {
            check_trace(alloc, scope, body)?;
            check_handler(alloc, scope, otherwise)
        }
        TraceExpr::Value(expr) => {
            let kind = check_expr(alloc, scope, expr)?;
            check_served(kind, expr)
        }
    }
}

// That an expression of a type may stand as a trace.
#[tactic(auto, using(crate::proofs::Leading::leads))]
fn check_served(kind: TypeName, expr: &Expr) -> Result<(), TypeRefusal>
    ensures { Checks result
        (typed (λ k. may_serve_as k TypeName.Trace) (Some kind) (span_of (exp expr.now))) }
{
    if serves_as(kind, TypeName::Trace) {
        return Ok(());
    }
    Err(TypeRefusal::Mismatch(expr.span()))
}

// What stands in braces.
#[cycle(check)]
pub(crate) fn check_braces(
    alloc: Global,
    scope: &mut Scope,
    inside: &Braced,
) -> Result<(), TypeRefusal>
    ensures answered { Checks result (braces_refusals scope.old (braced inside.now)) }
    ensures kept { OnOk result (scope.new ≡ scope.old) }
{
    match inside {
        Braced::Plain(trace) => check_trace(alloc, scope, trace),
        Braced::Choice { parts, .. } => check_parts(alloc, scope, parts),
        Braced::Priority { parts, .. } => check_traces(alloc, scope, &parts.items),
        Braced::Parallel { parts, .. } => check_traces(alloc, scope, &parts.items),
    }
}

// Traces.
#[cycle(check)]
fn check_traces(alloc: Global, scope: &mut Scope, traces: &[TraceExpr]) -> Result<(), TypeRefusal>
    ensures answered { Checks result
        (traces_refusals scope.old (traces_of (map trace_view traces.now))) }
    ensures kept { OnOk result (scope.new ≡ scope.old) }
{
    for part in traces {
        check_trace(alloc, scope, part)?;
    }
    Ok(())
}

// The alternatives of a choice.
#[cycle(check)]
fn check_parts(alloc: Global, scope: &mut Scope, parts: &Parts) -> Result<(), TypeRefusal>
    ensures answered { Checks result (alternatives_refusals scope.old (alternatives parts.now)) }
    ensures kept { OnOk result (scope.new ≡ scope.old) }
{
    for part in &parts.items {
        check_part(alloc, scope, part)?;
    }
    Ok(())
}

// An alternative, with its weight where it has one.
#[cycle(check)]
fn check_part(alloc: Global, scope: &mut Scope, part: &Part) -> Result<(), TypeRefusal>
    ensures answered { Checks result
        (alternative_refusals scope.old (weighed part.now.weight part.now.body)) }
    ensures kept { OnOk result (scope.new ≡ scope.old) }
{
    if let Some(weight) = &part.weight {
        let kind = check_expr(alloc, scope, weight)?;
        check_kind(kind, TypeName::Int, weight)?;
    }
    check_trace(alloc, scope, &part.body)
}

// The bounds of a loop.
#[cycle(check)]
fn check_bounds(alloc: Global, scope: &mut Scope, bounds: &Bounds) -> Result<(), TypeRefusal>
    ensures answered { Checks result (limits_refusals scope.old (limits bounds.now)) }
    ensures kept { OnOk result (scope.new ≡ scope.old) }
{
    match bounds {
        Bounds::Forever => Ok(()),
        Bounds::Between(sides) | Bounds::Around(sides) => {
            let kind = check_expr(alloc, scope, &sides.left)?;
            check_kind(kind, TypeName::Int, &sides.left)?;
            let kind = check_expr(alloc, scope, &sides.right)?;
            check_kind(kind, TypeName::Int, &sides.right)
        }
    }
}

// What follows, if anything does.
#[cycle(check)]
fn check_handler(
    alloc: Global,
    scope: &mut Scope,
    otherwise: &Option<Box<TraceExpr>>,
) -> Result<(), TypeRefusal>
    ensures answered { Checks result (handler_refusals scope.old (maybe_trace otherwise.now)) }
    ensures kept { OnOk result (scope.new ≡ scope.old) }
{
    match otherwise {
        None => Ok(()),
        Some(trace) => check_trace(alloc, scope, trace),
    }
}

// A trace with names of its own.
#[cycle(check)]
fn check_scoped(alloc: Global, scope: &mut Scope, trace: &TraceExpr) -> Result<(), TypeRefusal>
    requires scoped { IsScoped (trace_view trace.now) }
    ensures answered { Checks result (trace_refusals scope.old (trace_view trace.now)) }
    ensures kept { OnOk result (scope.new ≡ scope.old) }
{
    let names = scope.name_count();
    let exceptions = scope.exception_count();
    match trace {
        TraceExpr::Exist(groups, body) => {
            check_groups(alloc, scope, Role::Variables, names, groups)?;
            check_trace(alloc, scope, body)?;
            scope.forget_names(names);
        }
        TraceExpr::Let(declared, body) => {
            check_macro(alloc, scope, declared)?;
            declare_macro(alloc, scope, declared)?;
            check_trace(alloc, scope, body)?;
            scope.forget_names(names);
        }
        TraceExpr::Exceptions(own, body) => {
            scope.check_new_exceptions(exceptions, own)?;
            scope.declare_exceptions(own)?;
            check_trace(alloc, scope, body)?;
            scope.forget_exceptions(exceptions);
        }
        TraceExpr::Trap(own, body, otherwise) => {
            scope.declare_exception(own)?;
            check_trace(alloc, scope, body)?;
            check_handler(alloc, scope, otherwise)?;
            scope.forget_exceptions(exceptions);
        }
        _ => unreachable!(),
    }
    Ok(())
}
