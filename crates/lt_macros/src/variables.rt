//! Variables as they are declared.

ghost use Rattle.std.specs.Prelude.{◌≡◌, ◌≤◌, ◌+◌, ◌++◌, ℕ, IfOk, OnOk, length, map, option_map};
ghost use Rattle.lt_ast.specs.View.{groupings, word};
ghost use Rattle.lt_ast.specs.inner.Rows.{maybe_exp};
ghost use Rattle.lt_macros.specs.Environment.{Environment, parameter, variable, with_name, with_variables};
ghost use Rattle.lt_macros.specs.Expansion.{groups_variables, with_groups};
ghost use Rattle.lt_macros.specs.Denotation.{first_of};
ghost use Rattle.lt_macros.specs.inner.Builder.{Builds, IsGrown, IsReady, declares, names_at, work_at};
ghost use Rattle.lt_macros.specs.inner.Handing.{AreRight};
ghost use Rattle.lt_macros.specs.inner.HeadNormalForm.{AddsTo};
ghost use Rattle.lt_macros.specs.inner.Reading.{environment as environment_of, meant, worked};
ghost use Rattle.lt_macros.specs.inner.Rows.{rows};
ghost use Rattle.lt_macros.specs.Tree.{declared as declared_view, placed};
ghost use Rattle.lt_macros.specs.inner.Work.{groups_work, with_ones};

use crate::builder::Builder;
use crate::expressions::build_expr;
use crate::literals::{kind_of, range_of};
use crate::scope::{Binding, Entry, Phrase, Scope};
use crate::tree::{Declared, Placed};
use lt_ast::{Expr, Group, Groups, Name};
use lt_formula::{Memory, Role};

/// Variables, and where they are visible.
#[derive(Drop)]
pub(crate) struct Variables {
    /// The variables.
    pub(crate) declared: Vec<Declared>,

    /// The environment in which all of them are visible.
    pub(crate) environment: usize,

    /// The place behind the last one, among those of its role.
    pub(crate) next: u32,
}

/// Where variables are visible.
#[derive(Clone, Copy)]
pub(crate) struct Visible {
    /// The environment.
    pub(crate) environment: usize,

    /// The place behind the last one, among those of its role.
    pub(crate) next: u32,
}

// The variables of groups, the first of which has this place. A first value sees the groups before.
#[inline(never)]
pub(crate) fn declare_groups<'a>(
    builder: &mut Builder<'a>,
    role: Role,
    first: u32,
    outer: usize,
    groups: &'a Groups,
) -> Result<Variables, Memory>
    requires { IsReady builder.old outer }
    ensures declared { IfOk result (λ vs.
        map declared_view vs.declared.items
        ≡ groups_variables role first (names_at builder.old outer) (groupings groups.now)) }
    ensures visible { IfOk result (λ vs.
        names_at builder.new vs.environment
        ≡ with_groups role first (groupings groups.now) (names_at builder.old outer)) }
    ensures next { IfOk result (λ vs. vs.next ≡ first + length vs.declared.items) }
    ensures work { IfOk result (λ vs. (body : Environment ℕ → ℕ) →
        body (work_at builder.new vs.environment)
        ≤ groups_work (work_at builder.old outer) (groupings groups.now) body) }
    ensures ready { IfOk result (λ vs. IsReady builder.new vs.environment) }
    ensures grown { OnOk result (IsGrown builder.old builder.new) }
{
    let mut declared = Vec::new(builder.alloc);
    let mut environment = outer;
    let mut next = first;
    for group in &groups.items {
        declare_names(builder, role, environment, group, &mut declared)?;
        let names = &group.names.items;
        let visible = show_names(&mut builder.scope, role, next, environment, names)?;
        environment = visible.environment;
        next = visible.next;
    }
    Ok(Variables {
        declared,
        environment,
        next,
    })
}

// The variables of a group, behind those that are there.
fn declare_names<'a>(
    builder: &mut Builder<'a>,
    role: Role,
    environment: usize,
    group: &'a Group,
    declared: &mut Vec<Declared>,
) -> Result<(), Memory>
    requires { IsReady builder.old environment }
    ensures { Builds builder.old builder.new result (λ _.
        map declared_view declared.new.items
        ≡ map declared_view declared.old.items
        ++ map (declares role (names_at builder.old environment) group.now)
        (map word group.now.names.items.items)) }
{
    for name in &group.names.items {
        let variable = declare_name(builder, role, environment, group, name)?;
        declared.push(variable)?;
    }
    Ok(())
}

// The variable of a name of a group.
fn declare_name<'a>(
    builder: &mut Builder<'a>,
    role: Role,
    environment: usize,
    group: &'a Group,
    name: &Name,
) -> Result<Declared, Memory>
    requires { IsReady builder.old environment }
    ensures { Builds builder.old builder.new result (λ d.
        declared_view d ≡ declares role (names_at builder.old environment) group.now
        (word name.now)) }
{
    let text = String::from_str(builder.alloc, name.text.as_str())?;
    let kind = kind_of(group.kind);
    let range = range_of(builder.alloc, builder.decimals, role, kind, &group.range)?;
    let first = build_first(builder, environment, &group.first)?;
    Ok(Declared {
        name: text,
        kind,
        range,
        first,
    })
}

// The first value of a group, where it has one.
fn build_first<'a>(
    builder: &mut Builder<'a>,
    environment: usize,
    first: &'a Option<Expr>,
) -> Result<Option<Placed>, Memory>
    requires { IsReady builder.old environment }
    ensures { Builds builder.old builder.new result (λ e.
        option_map placed e ≡ first_of (names_at builder.old environment) (maybe_exp first.now)) }
{
    match first {
        None => Ok(None),
        Some(expr) => {
            let first = build_expr(builder, environment, Phrase::Value(expr))?;
            Ok(Some(first))
        }
    }
}

// Variables of a role by the names of groups, the first of which has this place.
pub(crate) fn show_groups<'a>(
    scope: &mut Scope<'a>,
    role: Role,
    first: u32,
    outer: usize,
    groups: &'a Groups,
) -> Result<Visible, Memory>
    requires within { outer ≤ length (rows scope.old) }
    requires right { AreRight (rows scope.old) }
    ensures visible { IfOk result (λ v. (decimals : ℕ) →
        environment_of (meant decimals) (rows scope.new) v.environment
        ≡ with_groups role first (groupings groups.now)
        (environment_of (meant decimals) (rows scope.old) outer)) }
    ensures within { IfOk result (λ v. v.environment ≤ length (rows scope.new)) }
    ensures adds { OnOk result (AddsTo (rows scope.old) (rows scope.new)) }
    ensures right { OnOk result (AreRight (rows scope.new)) }
{
    let mut visible = Visible {
        environment: outer,
        next: first,
    };
    for group in &groups.items {
        let names = &group.names.items;
        visible = show_names(scope, role, visible.next, visible.environment, names)?;
    }
    Ok(visible)
}

// Variables of a role by these names, the first of which has this place.
pub(crate) fn show_names<'a>(
    scope: &mut Scope<'a>,
    role: Role,
    first: u32,
    outer: usize,
    names: &'a [Name],
) -> Result<Visible, Memory>
    requires within { outer ≤ length (rows scope.old) }
    requires right { AreRight (rows scope.old) }
    ensures visible { IfOk result (λ v. (decimals : ℕ) →
        environment_of (meant decimals) (rows scope.new) v.environment
        ≡ with_variables role first (map word names.now)
        (environment_of (meant decimals) (rows scope.old) outer)) }
    ensures work { IfOk result (λ v.
        environment_of worked (rows scope.new) v.environment
        ≡ with_ones (map word names.now) (environment_of worked (rows scope.old) outer)) }
    ensures next { IfOk result (λ v. v.next ≡ first + length names.now) }
    ensures within { IfOk result (λ v. v.environment ≤ length (rows scope.new)) }
    ensures adds { OnOk result (AddsTo (rows scope.old) (rows scope.new)) }
    ensures right { OnOk result (AreRight (rows scope.new)) }
{
    let mut environment = outer;
    let mut next = first;
    for name in names {
        environment = show_name(scope, role, next, environment, name)?;
        next = next.checked_add(1).ok_or(Memory)?;
    }
    Ok(Visible { environment, next })
}

// The variable of a role at a place, by this name.
pub(crate) fn show_name<'a>(
    scope: &mut Scope<'a>,
    role: Role,
    place: u32,
    outer: usize,
    name: &'a Name,
) -> Result<usize, Memory>
    requires within { outer ≤ length (rows scope.old) }
    requires right { AreRight (rows scope.old) }
    ensures visible { IfOk result (λ k. (decimals : ℕ) →
        environment_of (meant decimals) (rows scope.new) k
        ≡ with_name (word name.now).text (variable role place)
        (environment_of (meant decimals) (rows scope.old) outer)) }
    ensures work { IfOk result (λ k.
        environment_of worked (rows scope.new) k
        ≡ with_name (word name.now).text (parameter 1)
        (environment_of worked (rows scope.old) outer)) }
    ensures within { IfOk result (λ k. k ≤ length (rows scope.new)) }
    ensures adds { OnOk result (AddsTo (rows scope.old) (rows scope.new)) }
    ensures right { OnOk result (AreRight (rows scope.new)) }
{
    let number = scope.push(Entry {
        name: name.text.as_str(),
        outer,
        binding: Binding::Variable(role, place),
    })?;
    Ok(number)
}
