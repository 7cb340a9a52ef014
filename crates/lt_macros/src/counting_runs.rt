//! What runs of nodes add to the figures of the node that has them.

ghost use Rattle.std.specs.Prelude.{◌≡◌, ◌≤◌, ◌+◌, ℕ, List, IfOk, OnOk, length, map, take};
ghost use Rattle.std.specs.List.{flat_map};
ghost use Rattle.lt_ast.specs.View.{exp, groupings, run as run_view, word};
ghost use Rattle.lt_macros.specs.Denotation.{Numbers as NumbersBefore, as_expression, exp_denotation, groups_names};
ghost use Rattle.lt_macros.specs.Expansion.{call_of, calls_of, outputs_of, with_calls, with_declared};
ghost use Rattle.lt_macros.specs.inner.Asking.{AreThere, runnables};
ghost use Rattle.lt_macros.specs.inner.Counting.{AreWithin, waiting};
ghost use Rattle.lt_macros.specs.inner.Figures.{Figure, arguments_figure, calls_figure, expression_figure};
ghost use Rattle.lt_macros.specs.inner.Handing.{AreRight};
ghost use Rattle.lt_macros.specs.inner.HeadNormalForm.{AddsTo};
ghost use Rattle.lt_macros.specs.inner.Reading.{environment as environment_of, meant};
ghost use Rattle.lt_macros.specs.inner.Rows.{rows};
ghost use Rattle.lt_macros.specs.inner.Started.{sum_from};
ghost use Rattle.lt_macros.specs.declared.scope.Entry.{Entry};

use crate::counting::{Count, Left, Place, put};
use crate::declarations::{DeclaredNode, node_before};
use crate::scope::{Phrase, Scope};
use crate::variables::{Visible, show_names};
use lt_ast::{Expr, Groups, Name, RunDecl};
use lt_formula::{Memory, Role};

// Puts arguments before what is left.
fn put_arguments<'a>(count: &mut Count<'a>, at: Place, arguments: &'a [Expr]) -> Result<(), Memory>
    requires depth { at.depth ≡ 1 }
    requires within { at.environment ≤ at.len }
    ensures figures { OnOk result ((decimals : ℕ) (rows : List Entry) (f : Figure)
        (n : NumbersBefore) →
        sum_from decimals rows f count.new n
        ≡ sum_from decimals rows f count.old n
        + arguments_figure f (map (λ e.
        as_expression (exp_denotation (environment_of (meant decimals) rows at.environment) e))
        (map exp arguments.now))) }
    ensures numbers { OnOk result (count.new.numbers ≡ count.old.numbers) }
    ensures within { OnOk result ((least : ℕ) → AreWithin least at.len (waiting count.old) →
        AreWithin least at.len (waiting count.new)) }
{
    for argument in arguments {
        put_argument(count, at, argument)?;
    }
    Ok(())
}

// Puts an argument before what is left.
fn put_argument<'a>(count: &mut Count<'a>, at: Place, argument: &'a Expr) -> Result<(), Memory>
    requires depth { at.depth ≡ 1 }
    requires within { at.environment ≤ at.len }
    ensures figures { OnOk result ((decimals : ℕ) (rows : List Entry) (f : Figure)
        (n : NumbersBefore) →
        sum_from decimals rows f count.new n
        ≡ expression_figure f 1
        (as_expression (exp_denotation (environment_of (meant decimals) rows at.environment)
        (exp argument.now))) + sum_from decimals rows f count.old n) }
    ensures numbers { OnOk result (count.new.numbers ≡ count.old.numbers) }
    ensures within { OnOk result ((least : ℕ) → AreWithin least at.len (waiting count.old) →
        AreWithin least at.len (waiting count.new)) }
{
    put(count, Left::Expression(Phrase::Value(argument)), at)
}

// Puts the arguments of a run before what is left, and makes its names visible.
fn put_call<'a>(
    count: &mut Count<'a>,
    scope: &mut Scope<'a>,
    before: &[DeclaredNode<'a>],
    visible: Visible,
    declared: &'a RunDecl,
) -> Result<Visible, Memory>
    requires environment { visible.environment ≤ length (rows scope.old) }
    requires within { AreWithin 0 (length (rows scope.old)) (waiting count.old) }
    requires there { AreThere (length (rows scope.old)) before.now }
    requires right { AreRight (rows scope.old) }
    ensures figures { OnOk result ((decimals : ℕ) (f : Figure) (n : NumbersBefore) →
        sum_from decimals (rows scope.new) f count.new n
        ≡ sum_from decimals (rows scope.old) f count.old n
        + arguments_figure f (call_of (runnables decimals (rows scope.old) before.now)
        (environment_of (meant decimals) (rows scope.old) visible.environment)
        (run_view declared.now)).arguments) }
    ensures visible { IfOk result (λ v. (decimals : ℕ) →
        environment_of (meant decimals) (rows scope.new) v.environment
        ≡ with_declared Role.Input visible.next
        (call_of (runnables decimals (rows scope.old) before.now)
        (environment_of (meant decimals) (rows scope.old) visible.environment)
        (run_view declared.now)).names
        (environment_of (meant decimals) (rows scope.old) visible.environment)) }
    ensures next { IfOk result (λ v. (decimals : ℕ) →
        v.next ≡ visible.next + length (call_of (runnables decimals (rows scope.old) before.now)
        (environment_of (meant decimals) (rows scope.old) visible.environment)
        (run_view declared.now)).names) }
    ensures inside { IfOk result (λ v. v.environment ≤ length (rows scope.new)) }
    ensures numbers { OnOk result (count.new.numbers ≡ count.old.numbers) }
    ensures within { OnOk result ((least : ℕ) →
        AreWithin least (length (rows scope.old)) (waiting count.old) →
        AreWithin least (length (rows scope.new)) (waiting count.new)) }
    ensures adds { OnOk result (AddsTo (rows scope.old) (rows scope.new)) }
    ensures right { OnOk result (AreRight (rows scope.new)) }
{
    let at = Place {
        environment: visible.environment,
        depth: 1,
        len: scope.len(),
    };
    put_arguments(count, at, &declared.arguments)?;
    let outputs = output_count(before, declared)?;
    let names = first_names(&declared.names.items, outputs);
    show_names(scope, Role::Input, visible.next, visible.environment, names)
}

// The first so many names, or all where there are fewer.
fn first_names(names: &[Name], count: u32) -> &[Name]
    ensures { result.now ≡ take count names.now }
{
    let count = count as usize;
    if count < names.len() {
        return &names[..count];
    }
    names
}

// How many outputs the node has that is run, if it is among these.
fn output_count(before: &[DeclaredNode<'_>], declared: &RunDecl) -> Result<u32, Memory>
    ensures { IfOk result (λ count. (decimals : ℕ) (rows : List Entry) →
        count ≡ length (outputs_of (runnables decimals rows before.now)
        (word declared.now.node).text)) }
{
    match node_before(before, declared.node.text.as_str()) {
        Some(found) => name_count(&found.node.outputs),
        None => Ok(0),
    }
}

// How many names groups have. No text that fits in memory has too many.
fn name_count(groups: &Groups) -> Result<u32, Memory>
    ensures { IfOk result (λ count. count ≡ length (groups_names (groupings groups.now))) }
{
    let mut count: u32 = 0;
    for group in &groups.items {
        let more = u32::try_from(group.names.items.len()).map_err(|_| Memory)?;
        count = count.checked_add(more).ok_or(Memory)?;
    }
    Ok(count)
}

// Puts the arguments of runs before what is left, and makes their names visible.
pub(crate) fn put_calls<'a>(
    count: &mut Count<'a>,
    scope: &mut Scope<'a>,
    before: &[DeclaredNode<'a>],
    outer: Visible,
    runs: &'a [RunDecl],
) -> Result<Visible, Memory>
    requires environment { outer.environment ≤ length (rows scope.old) }
    requires within { AreWithin 0 (length (rows scope.old)) (waiting count.old) }
    requires there { AreThere (length (rows scope.old)) before.now }
    requires right { AreRight (rows scope.old) }
    ensures figures { OnOk result ((decimals : ℕ) (f : Figure) (n : NumbersBefore) →
        sum_from decimals (rows scope.new) f count.new n
        ≡ sum_from decimals (rows scope.old) f count.old n
        + calls_figure f (calls_of (runnables decimals (rows scope.old) before.now) outer.next
        (environment_of (meant decimals) (rows scope.old) outer.environment)
        (map run_view runs.now))) }
    ensures visible { IfOk result (λ v. (decimals : ℕ) →
        environment_of (meant decimals) (rows scope.new) v.environment
        ≡ with_calls outer.next
        (calls_of (runnables decimals (rows scope.old) before.now) outer.next
        (environment_of (meant decimals) (rows scope.old) outer.environment) (map run_view runs.now))
        (environment_of (meant decimals) (rows scope.old) outer.environment)) }
    ensures next { IfOk result (λ v. (decimals : ℕ) →
        v.next ≡ outer.next + length (flat_map (λ c. c.names)
        (calls_of (runnables decimals (rows scope.old) before.now) outer.next
        (environment_of (meant decimals) (rows scope.old) outer.environment)
        (map run_view runs.now)))) }
    ensures inside { IfOk result (λ v. v.environment ≤ length (rows scope.new)) }
    ensures numbers { OnOk result (count.new.numbers ≡ count.old.numbers) }
    ensures within { OnOk result ((least : ℕ) →
        AreWithin least (length (rows scope.old)) (waiting count.old) →
        AreWithin least (length (rows scope.new)) (waiting count.new)) }
    ensures adds { OnOk result (AddsTo (rows scope.old) (rows scope.new)) }
    ensures right { OnOk result (AreRight (rows scope.new)) }
{
    let mut visible = outer;
    for declared in runs {
        visible = put_call(count, scope, before, visible, declared)?;
    }
    Ok(visible)
}
