//! Groups of variables or parameters, and macros.

ghost use Rattle.std.specs.Prelude.{◌≡◌, ◌≤◌, ◌++◌, [], IfOk, OnOk, length, map, not};
ghost use Rattle.lt_ast.specs.inner.Rows.{group_of, maybe_exp};
ghost use Rattle.lt_ast.specs.View.{groupings, macro, meaning, words, written_range};
ghost use Rattle.lt_types.specs.inner.Checks.{Checks};
ghost use Rattle.lt_types.specs.Environment.{group_parameters, groups_parameters, parameters_of, variables, with_group, with_groups, with_macro, with_parameters};
ghost use Rattle.lt_types.specs.inner.Given.{first_judged, first_type, parameters_view};
ghost use Rattle.lt_types.specs.Refusals.{first_place, first_refusals, group_refusals, groups_refusals, macro_refusals, meaning_refusals, parameters_refusals, unless};
ghost use Rattle.lt_types.specs.inner.Scoping.{declared_since, param_view, role_view};
ghost use Rattle.lt_types.specs.Typing.{has_no_step, may_be_written};

use crate::entry::{Entry, Param, Role};
use crate::expressions::check_expr;
use crate::intervals::check_range;
use crate::kinds::{is_number, is_value};
use crate::refusal::TypeRefusal;
use crate::scope::Scope;
use crate::traces::check_trace;
use crate::uses::check_kind;
use lt_ast::{Body, Expr, Group, Groups, MacroDecl, Names, Range, Span, TypeName};
use std::alloc::Global;

// Groups, in a list that began when there were `from` names. Their names stay in the scope.
#[cycle(check)]
pub(crate) fn check_groups(
    alloc: Global,
    scope: &mut Scope,
    role: Role,
    from: usize,
    groups: &Groups,
) -> Result<(), TypeRefusal>
    requires from { from ≤ length scope.old.names }
    ensures answered { Checks result
        (groups_refusals (role_view role) scope.old (declared_since from scope.old)
        (groupings groups.now)) }
    ensures declared { OnOk result (scope.new ≡
        with_groups (role_view role) scope.old (groupings groups.now)) }
{
    for group in &groups.items {
        check_group(alloc, scope, role, from, group)?;
    }
    Ok(())
}

// A group in such a list. Its first value doesn't see its names.
#[cycle(check)]
fn check_group(
    alloc: Global,
    scope: &mut Scope,
    role: Role,
    from: usize,
    group: &Group,
) -> Result<(), TypeRefusal>
    requires from { from ≤ length scope.old.names }
    ensures answered { Checks result
        (group_refusals (role_view role) scope.old (declared_since from scope.old)
        (group_of group.now)) }
    ensures declared { OnOk result (scope.new ≡
        with_group (role_view role) scope.old (group_of group.now)) }
{
    scope.check_new_names(from, &group.names)?;
    check_range(alloc, scope.decimals(), group.kind, &group.range)?;
    let first = check_first(alloc, scope, &group.first)?;
    check_form(role, group)?;
    check_first_kind(group.kind, first, &group.first)?;
    scope.declare_group(role, &group.names, group.kind, group.by_ref)
}

// A first value, and the type that it has.
#[cycle(check)]
fn check_first(
    alloc: Global,
    scope: &mut Scope,
    first: &Option<Expr>,
) -> Result<Option<TypeName>, TypeRefusal>
    ensures answered { Checks result (first_refusals scope.old (maybe_exp first.now)) }
    ensures kind { IfOk result (λ kind. kind ≡ first_type scope.old (maybe_exp first.now)) }
    ensures kept { OnOk result (scope.new ≡ scope.old) }
{
    match first {
        None => Ok(None),
        Some(expr) => Ok(Some(check_expr(alloc, scope, expr)?)),
    }
}

// That a group may be as it is written.
#[tactic(auto, using(crate::proofs::Leading::leads))]
fn check_form(role: Role, group: &Group) -> Result<(), TypeRefusal>
    ensures { Checks result
        (unless (may_be_written (role_view role) group.now.kind group.now.by_ref
        (written_range group.now.range) (maybe_exp group.now.first))
        (TypeRefusal.Mismatch (first_place (words group.now.names)))) }
{
    if is_well_formed(role, group) {
        return Ok(());
    }
    Err(TypeRefusal::Mismatch(place_of_first(&group.names)))
}

// Whether a group may be as it is written, whatever its names, its range and its first value are.
fn is_well_formed(role: Role, group: &Group) -> bool
    ensures { result ≡ may_be_written (role_view role) group.now.kind group.now.by_ref
        (written_range group.now.range) (maybe_exp group.now.first) }
{
    match role {
        Role::Inputs => is_variable_group(group) && !has_step(&group.range),
        Role::Variables => is_variable_group(group),
        Role::Parameters => {
            (is_value(group.kind) || !group.by_ref)
                && group.range.is_none()
                && group.first.is_none()
        }
    }
}

// Whether variables may be as a group of them is written, but for what inputs may not have.
fn is_variable_group(group: &Group) -> bool
    ensures { result ≡ may_be_written variables group.now.kind group.now.by_ref
        (written_range group.now.range) (maybe_exp group.now.first) }
{
    is_value(group.kind) && !group.by_ref && (group.range.is_none() || is_number(group.kind))
}

// Whether a range has a step.
fn has_step(range: &Option<Range>) -> bool
    ensures { result ≡ not (has_no_step (written_range range.now)) }
{
    match range {
        None => false,
        Some(range) => range.step.is_some(),
    }
}

// The place of the first name.
fn place_of_first(names: &Names) -> Span
    ensures { result ≡ first_place (words names.now) }
{
    match names.items.first() {
        Some(name) => name.span,
        None => Span { start: 0, end: 0 },
    }
}

// That a first value of a type has the one that is wanted.
#[tactic(auto, using(crate::proofs::Leading::leads))]
fn check_first_kind(
    wanted: TypeName,
    own: Option<TypeName>,
    first: &Option<Expr>,
) -> Result<(), TypeRefusal>
    ensures { Checks result (first_judged wanted own (maybe_exp first.now)) }
{
    match (own, first) {
        (Some(own), Some(expr)) => check_kind(own, wanted, expr),
        _ => Ok(()),
    }
}

// A macro. Its parameters are visible in its body alone.
#[cycle(check)]
pub(crate) fn check_macro(
    alloc: Global,
    scope: &mut Scope,
    declared: &MacroDecl,
) -> Result<(), TypeRefusal>
    ensures answered { Checks result (macro_refusals scope.old (macro declared.now)) }
    ensures kept { OnOk result (scope.new ≡ scope.old) }
{
    let before = scope.name_count();
    check_params(alloc, scope, &declared.params)?;
    check_body(alloc, scope, declared.result, &declared.body)?;
    scope.forget_names(before);
    Ok(())
}

// The parameters of a macro. Their names stay in the scope.
#[cycle(check)]
fn check_params(
    alloc: Global,
    scope: &mut Scope,
    params: &Option<Groups>,
) -> Result<(), TypeRefusal>
    ensures answered { Checks result (parameters_refusals scope.old (parameters_view params.now)) }
    ensures declared { OnOk result (scope.new ≡
        with_parameters scope.old (parameters_view params.now)) }
{
    match params {
        None => Ok(()),
        Some(groups) => {
            let before = scope.name_count();
            check_groups(alloc, scope, Role::Parameters, before, groups)
        }
    }
}

// What a macro of a type stands for.
#[cycle(check)]
fn check_body(
    alloc: Global,
    scope: &mut Scope,
    wanted: TypeName,
    body: &Body,
) -> Result<(), TypeRefusal>
    ensures answered { Checks result (meaning_refusals scope.old wanted (meaning body.now)) }
    ensures kept { OnOk result (scope.new ≡ scope.old) }
{
    match body {
        Body::Trace(trace) => check_trace(alloc, scope, trace),
        Body::Value(expr) => {
            let kind = check_expr(alloc, scope, expr)?;
            check_kind(kind, wanted, expr)
        }
    }
}

// A macro's name, and what it stands for.
#[tactic(auto, using(crate::proofs::Leading::leads))]
pub(crate) fn declare_macro(
    alloc: Global,
    scope: &mut Scope,
    declared: &MacroDecl,
) -> Result<(), TypeRefusal>
    ensures ok { OnOk result (scope.new ≡ with_macro scope.old (macro declared.now)) }
    ensures memory { Checks result [] }
{
    let params = params_of(alloc, &declared.params)?;
    scope.declare(
        declared.name.text.as_str(),
        Entry::Macro(params, declared.result),
    )
}

// The parameters of a macro: one without a list of them has none.
#[tactic(auto, using(crate::proofs::Leading::leads, crate::proofs::Scopes::groups_steps))]
fn params_of(alloc: Global, params: &Option<Groups>) -> Result<Vec<Param>, TypeRefusal>
    ensures ok { IfOk result (λ v. map param_view v.items ≡
        parameters_of (parameters_view params.now)) }
    ensures memory { Checks result [] }
{
    let mut all = Vec::new(alloc);
    if let Some(groups) = params {
        add_params(&mut all, groups)?;
    }
    Ok(all)
}

// One parameter for each name of the groups.
fn add_params(all: &mut Vec<Param>, groups: &Groups) -> Result<(), TypeRefusal>
    ensures ok { OnOk result (map param_view all.new.items ≡ map param_view all.old.items ++
        groups_parameters (groupings groups.now)) }
    ensures memory { Checks result [] }
{
    for group in &groups.items {
        add_group_params(all, group)?;
    }
    Ok(())
}

// One parameter for each name of a group.
fn add_group_params(all: &mut Vec<Param>, group: &Group) -> Result<(), TypeRefusal>
    ensures ok { OnOk result (map param_view all.new.items ≡ map param_view all.old.items ++
        group_parameters (group_of group.now)) }
    ensures memory { Checks result [] }
{
    for _ in &group.names.items {
        all.push(Param {
            kind: group.kind,
            by_ref: group.by_ref,
        })?;
    }
    Ok(())
}
