//! The first limit that a node is past, before any of it is built.

ghost use Rattle.std.specs.Prelude.{◌≡◌, ◌≤◌, ◌+◌, ◌∷◌, ℕ, List, IfOk, OnOk, length, map, slice_get};
ghost use Rattle.lt_ast.specs.View.{groupings, limits, run as run_view, trace as trace_view, word};
ghost use Rattle.lt_ast.specs.inner.Lists.{alternatives_of, groups_of};
ghost use Rattle.lt_ast.specs.inner.Rows.{group_of, maybe_exp, part_of, weighed};
ghost use Rattle.lt_ast.specs.declared.trace.TraceExpr.{TraceExpr};
ghost use Rattle.lt_macros.specs.Environment.{Environment};
ghost use Rattle.lt_macros.specs.Expansion.{group_variables, groups_variables, node_of, with_group, with_groups};
ghost use Rattle.lt_macros.specs.Limits.{passed_limits};
ghost use Rattle.lt_macros.specs.Denotation.{Numbers as NumbersBefore, Denotation, as_expression, as_trace, behind_counter, behind_local, behind_term, bounds_of, chosen, first_of, parts_of, repeated, weight_of};
ghost use Rattle.lt_macros.specs.inner.Asking.{AreThere, runnables};
ghost use Rattle.lt_macros.specs.inner.Counting.{AreWithin, IsLeftWithin, IsTallied, left_then, pending_figure, denotation_at, sum_of, trace_then, waiting};
ghost use Rattle.lt_macros.specs.inner.Figures.{Figure, expression_figure, first_figure, local_weight, term_weight, variables_figure};
ghost use Rattle.lt_macros.specs.inner.Handing.{AreRight};
ghost use Rattle.lt_macros.specs.inner.HeadNormalForm.{AddsTo, IsWithin, form_reads};
ghost use Rattle.lt_macros.specs.inner.Numbers.{numbers_view};
ghost use Rattle.lt_macros.specs.inner.Reading.{environment as environment_of, meant};
ghost use Rattle.lt_macros.specs.inner.Rows.{rows};
ghost use Rattle.lt_macros.specs.inner.Started.{sum_from};
ghost use Rattle.lt_macros.specs.inner.Tallies.{counted};
ghost use Rattle.lt_macros.specs.declared.scope.Entry.{Entry};

use crate::counting_runs::put_calls;
use crate::declarations::Asked;
use crate::head_normal_form::{Advance, HeadNormalForm, step_in};
use crate::limit::Limit;
use crate::numbers::Numbers;
use crate::position::Position;
use crate::scope::{Phrase, Scope};
use crate::tally::{MOST_NODES, Tally, deeper};
use crate::variables::{Visible, show_name, show_names};
use lt_ast::{Bounds, Expr, Group, Name, Part, TraceExpr};
use lt_formula::{Memory, Role};
use std::alloc::Global;

/// What is still to be counted.
#[derive(Clone, Copy)]
pub(crate) enum Left<'a> {
    /// A trace.
    Trace(Phrase<'a>),

    /// An expression.
    Expression(Phrase<'a>),

    /// Alternatives of a choice.
    Alternatives(&'a [Part]),

    /// A trace with locals of these groups.
    Groups(&'a [Group], &'a TraceExpr),

    /// A trace with locals of names of a group, and then of groups.
    Names(Locals<'a>),
}

/// The locals of a trace that are still to be counted.
#[derive(Clone, Copy)]
pub(crate) struct Locals<'a> {
    /// The group that is being counted.
    pub(crate) group: &'a Group,

    /// The environment in which its first value is written.
    pub(crate) outer: usize,

    /// Those of its names that are left.
    pub(crate) names: &'a [Name],

    /// The groups that are left.
    pub(crate) groups: &'a [Group],

    /// The trace.
    pub(crate) body: &'a TraceExpr,
}

/// Where a part stands.
#[derive(Clone, Copy)]
pub(crate) struct Place {
    /// The environment in which it is written.
    pub(crate) environment: usize,

    /// How deep it stands: 1 at the top.
    pub(crate) depth: u32,

    /// Among how many entries: it needs no more of them, nor do those behind it.
    pub(crate) len: usize,
}

/// A part that is still to be counted.
#[derive(Clone, Copy)]
pub(crate) struct Pending<'a> {
    /// The part.
    pub(crate) left: Left<'a>,

    /// Where it stands.
    pub(crate) at: Place,
}

/// What was counted, and what is still to be counted.
#[derive(Drop)]
pub(crate) struct Count<'a> {
    /// What is left, the first part last.
    pub(crate) left: Vec<Pending<'a>>,

    /// What stands before the first part.
    pub(crate) numbers: Numbers,

    /// What was counted.
    pub(crate) tally: Tally,
}

// Puts a part before those that are left.
pub(crate) fn put<'a>(count: &mut Count<'a>, left: Left<'a>, at: Place) -> Result<(), Memory>
    ensures left { OnOk result (waiting count.new
        ≡ record { left = left.entry; at = at } ∷ waiting count.old) }
    ensures numbers { OnOk result (count.new.numbers ≡ count.old.numbers) }
    ensures tally { OnOk result (count.new.tally ≡ count.old.tally) }
{
    count.left.push(Pending { left, at })?;
    Ok(())
}

// Counts the first node of an expression that stands so deep, and puts what is in it before what is left.
fn put_expression<'a>(
    count: &mut Count<'a>,
    depth: u32,
    len: usize,
    form: HeadNormalForm<'a>,
) -> Result<(), Memory>
    requires { IsWithin len form }
    ensures figures { OnOk result ((decimals : ℕ) (rows : List Entry) (f : Figure) →
        sum_of decimals rows f count.new
        ≡ counted count.old.tally f
        + (expression_figure f depth (as_expression (form_reads (meant decimals) rows form.entry))
        + pending_figure decimals rows f (waiting count.old) (numbers_view count.old.numbers))) }
    ensures within { OnOk result ((least : ℕ) → AreWithin least len (waiting count.old) →
        AreWithin least len (waiting count.new)) }
{
    count.tally = count.tally.with_expression(depth)?;
    let depth = deeper(depth)?;
    match form {
        HeadNormalForm::Unary(_, part, _, environment) => {
            let at = Place {
                environment,
                depth,
                len,
            };
            put(count, Left::Expression(Phrase::Value(part)), at)
        }
        HeadNormalForm::Binary(_, left, right, _, environment) => {
            let at = Place {
                environment,
                depth,
                len,
            };
            put(count, Left::Expression(Phrase::Value(right)), at)?;
            put(count, Left::Expression(Phrase::Value(left)), at)
        }
        HeadNormalForm::If(condition, then, other, _, environment) => {
            let at = Place {
                environment,
                depth,
                len,
            };
            put(count, Left::Expression(Phrase::Value(other)), at)?;
            put(count, Left::Expression(Phrase::Value(then)), at)?;
            put(count, Left::Expression(Phrase::Value(condition)), at)
        }
        HeadNormalForm::Meaningless
        | HeadNormalForm::Variable(_, _, _)
        | HeadNormalForm::Previous(_, _, _)
        | HeadNormalForm::Number(_)
        | HeadNormalForm::Flag(_, _)
        | HeadNormalForm::Nothing
        | HeadNormalForm::Joined(_, _, _, _)
        | HeadNormalForm::Loop(_, _, _)
        | HeadNormalForm::Choice(_, _)
        | HeadNormalForm::Raise(_, _)
        | HeadNormalForm::Assert(_, _, _)
        | HeadNormalForm::Exist(_, _, _)
        | HeadNormalForm::Catch(_, _, _, _)
        | HeadNormalForm::Try(_, _, _) => Ok(()),
    }
}

// Counts a term that stands so deep, and puts its two parts before what is left.
fn put_two<'a>(
    count: &mut Count<'a>,
    depth: u32,
    at: Place,
    first: Phrase<'a>,
    second: Phrase<'a>,
) -> Result<(), Memory>
    requires depth { at.depth ≡ depth + 1 }
    requires within { at.environment ≤ at.len }
    ensures figures { OnOk result ((decimals : ℕ) (rows : List Entry) (f : Figure) →
        sum_of decimals rows f count.new
        ≡ counted count.old.tally f
        + (term_weight f depth
        + trace_then f (depth + 1)
        (as_trace (denotation_at decimals rows at.environment first.entry)
        (behind_term (numbers_view count.old.numbers))) (λ m.
        trace_then f (depth + 1)
        (as_trace (denotation_at decimals rows at.environment second.entry) m)
        (pending_figure decimals rows f (waiting count.old))))) }
    ensures within { OnOk result ((least : ℕ) → AreWithin least at.len (waiting count.old) →
        AreWithin least at.len (waiting count.new)) }
{
    count.tally = count.tally.with_term(depth)?;
    count.numbers = count.numbers.behind_term()?;
    put(count, Left::Trace(second), at)?;
    put(count, Left::Trace(first), at)
}

// Counts a loop that stands so deep and has a counter, and puts its bounds and its trace before what is left.
fn put_counted<'a>(
    count: &mut Count<'a>,
    depth: u32,
    at: Place,
    first: &'a Expr,
    second: &'a Expr,
    body: &'a TraceExpr,
) -> Result<(), Memory>
    requires depth { at.depth ≡ depth + 1 }
    requires within { at.environment ≤ at.len }
    ensures figures { OnOk result ((decimals : ℕ) (rows : List Entry) (f : Figure) →
        sum_of decimals rows f count.new
        ≡ counted count.old.tally f
        + (term_weight f depth
        + (expression_figure f 1
        (as_expression (denotation_at decimals rows at.environment (Phrase.Value first.entry)))
        + (expression_figure f 1
        (as_expression (denotation_at decimals rows at.environment (Phrase.Value second.entry)))
        + trace_then f (depth + 1)
        (as_trace (denotation_at decimals rows at.environment (Phrase.Trace body.entry))
        (behind_counter (numbers_view count.old.numbers)))
        (pending_figure decimals rows f (waiting count.old)))))) }
    ensures within { OnOk result ((least : ℕ) → AreWithin least at.len (waiting count.old) →
        AreWithin least at.len (waiting count.new)) }
{
    count.tally = count.tally.with_term(depth)?;
    count.numbers = count.numbers.behind_counter()?;
    let alone = Place { depth: 1, ..at };
    put(count, Left::Trace(Phrase::Trace(body)), at)?;
    put(count, Left::Expression(Phrase::Value(second)), alone)?;
    put(count, Left::Expression(Phrase::Value(first)), alone)
}

// Counts a loop that stands so deep, and puts what is in it before what is left.
fn put_loop<'a>(
    count: &mut Count<'a>,
    depth: u32,
    at: Place,
    bounds: &'a Bounds,
    body: &'a TraceExpr,
) -> Result<(), Memory>
    requires depth { at.depth ≡ depth + 1 }
    requires within { at.environment ≤ at.len }
    ensures figures { OnOk result ((decimals : ℕ) (rows : List Entry) (f : Figure) →
        sum_of decimals rows f count.new
        ≡ counted count.old.tally f
        + trace_then f depth
        (repeated (bounds_of (environment_of (meant decimals) rows at.environment)
        (limits bounds.now))
        (as_trace (denotation_at decimals rows at.environment (Phrase.Trace body.entry)))
        (numbers_view count.old.numbers)) (pending_figure decimals rows f (waiting count.old))) }
    ensures within { OnOk result ((least : ℕ) → AreWithin least at.len (waiting count.old) →
        AreWithin least at.len (waiting count.new)) }
{
    match bounds {
        Bounds::Forever => {
            count.tally = count.tally.with_term(depth)?;
            count.numbers = count.numbers.behind_term()?;
            put(count, Left::Trace(Phrase::Trace(body)), at)
        }
        Bounds::Between(ends) => put_counted(count, depth, at, &ends.left, &ends.right, body),
        Bounds::Around(ends) => put_counted(count, depth, at, &ends.left, &ends.right, body),
    }
}

// Counts an `assert` that stands so deep, and puts what is in it before what is left.
fn put_assert<'a>(
    count: &mut Count<'a>,
    depth: u32,
    at: Place,
    always: &'a Expr,
    body: &'a TraceExpr,
) -> Result<(), Memory>
    requires depth { at.depth ≡ depth + 1 }
    requires within { at.environment ≤ at.len }
    ensures figures { OnOk result ((decimals : ℕ) (rows : List Entry) (f : Figure) →
        sum_of decimals rows f count.new
        ≡ counted count.old.tally f
        + (term_weight f depth
        + (expression_figure f 1
        (as_expression (denotation_at decimals rows at.environment (Phrase.Value always.entry)))
        + trace_then f (depth + 1)
        (as_trace (denotation_at decimals rows at.environment (Phrase.Trace body.entry))
        (behind_term (numbers_view count.old.numbers)))
        (pending_figure decimals rows f (waiting count.old))))) }
    ensures within { OnOk result ((least : ℕ) → AreWithin least at.len (waiting count.old) →
        AreWithin least at.len (waiting count.new)) }
{
    count.tally = count.tally.with_term(depth)?;
    count.numbers = count.numbers.behind_term()?;
    put(count, Left::Trace(Phrase::Trace(body)), at)?;
    put(
        count,
        Left::Expression(Phrase::Value(always)),
        Place { depth: 1, ..at },
    )
}

// Counts a choice that stands so deep, and puts its alternatives before what is left.
fn put_choice<'a>(
    count: &mut Count<'a>,
    depth: u32,
    at: Place,
    alternatives: &'a [Part],
) -> Result<(), Memory>
    requires depth { at.depth ≡ depth + 1 }
    requires within { at.environment ≤ at.len }
    ensures figures { OnOk result ((decimals : ℕ) (rows : List Entry) (f : Figure) →
        sum_of decimals rows f count.new
        ≡ counted count.old.tally f
        + trace_then f depth
        (chosen (parts_of (environment_of (meant decimals) rows at.environment)
        (alternatives_of (map part_of alternatives.now))
        (behind_term (numbers_view count.old.numbers))))
        (pending_figure decimals rows f (waiting count.old))) }
    ensures within { OnOk result ((least : ℕ) → AreWithin least at.len (waiting count.old) →
        AreWithin least at.len (waiting count.new)) }
{
    count.tally = count
        .tally
        .with_term(depth)?
        .with_choice(alternatives.len())?;
    count.numbers = count.numbers.behind_term()?;
    put(count, Left::Alternatives(alternatives), at)
}

// Counts the first node of a trace that stands so deep, and puts what is in it before what is left.
fn put_trace<'a>(
    count: &mut Count<'a>,
    depth: u32,
    len: usize,
    form: HeadNormalForm<'a>,
) -> Result<(), Memory>
    requires { IsWithin len form }
    ensures figures { OnOk result ((decimals : ℕ) (rows : List Entry) (f : Figure) →
        sum_of decimals rows f count.new
        ≡ counted count.old.tally f
        + trace_then f depth
        (as_trace (form_reads (meant decimals) rows form.entry) (numbers_view count.old.numbers))
        (pending_figure decimals rows f (waiting count.old))) }
    ensures within { OnOk result ((least : ℕ) → AreWithin least len (waiting count.old) →
        AreWithin least len (waiting count.new)) }
{
    let below = deeper(depth)?;
    match form {
        HeadNormalForm::Nothing | HeadNormalForm::Raise(_, _) => {
            count.tally = count.tally.with_term(depth)?;
            count.numbers = count.numbers.behind_term()?;
            Ok(())
        }
        HeadNormalForm::Joined(join, first, rest, environment) => {
            let at = Place {
                environment,
                depth: below,
                len,
            };
            put_two(
                count,
                depth,
                at,
                Phrase::Trace(first),
                Phrase::Joined(join, rest),
            )
        }
        HeadNormalForm::Loop(bounds, body, environment) => {
            let at = Place {
                environment,
                depth: below,
                len,
            };
            put_loop(count, depth, at, bounds, body)
        }
        HeadNormalForm::Choice(alternatives, environment) => {
            let at = Place {
                environment,
                depth: below,
                len,
            };
            put_choice(count, depth, at, &alternatives.items)
        }
        HeadNormalForm::Assert(always, body, environment) => {
            let at = Place {
                environment,
                depth: below,
                len,
            };
            put_assert(count, depth, at, always, body)
        }
        HeadNormalForm::Exist(groups, body, environment) => {
            let at = Place {
                environment,
                depth,
                len,
            };
            put(count, Left::Groups(&groups.items, body), at)
        }
        HeadNormalForm::Catch(_, body, handler, environment)
        | HeadNormalForm::Try(body, handler, environment) => {
            let at = Place {
                environment,
                depth: below,
                len,
            };
            put_two(
                count,
                depth,
                at,
                Phrase::Trace(body),
                Phrase::Handler(handler),
            )
        }
        HeadNormalForm::Meaningless
        | HeadNormalForm::Variable(_, _, _)
        | HeadNormalForm::Previous(_, _, _)
        | HeadNormalForm::Number(_)
        | HeadNormalForm::Flag(_, _)
        | HeadNormalForm::Unary(_, _, _, _)
        | HeadNormalForm::Binary(_, _, _, _, _)
        | HeadNormalForm::If(_, _, _, _, _) => {
            count.tally = count.tally.with_term(depth)?;
            count.numbers = count.numbers.behind_term()?;
            put_expression(count, 1, len, form)
        }
    }
}

// Puts a first value, where there is one, before what is left.
fn put_first<'a>(count: &mut Count<'a>, at: Place, first: &'a Option<Expr>) -> Result<(), Memory>
    requires depth { at.depth ≡ 1 }
    requires within { at.environment ≤ at.len }
    ensures figures { OnOk result ((decimals : ℕ) (rows : List Entry) (f : Figure)
        (n : NumbersBefore) →
        sum_from decimals rows f count.new n
        ≡ first_figure f (first_of (environment_of (meant decimals) rows at.environment)
        (maybe_exp first.now)) + sum_from decimals rows f count.old n) }
    ensures numbers { OnOk result (count.new.numbers ≡ count.old.numbers) }
    ensures within { OnOk result ((least : ℕ) → AreWithin least at.len (waiting count.old) →
        AreWithin least at.len (waiting count.new)) }
{
    match first {
        None => Ok(()),
        Some(expr) => put(count, Left::Expression(Phrase::Value(expr)), at),
    }
}

// Takes the first alternative of those that are left.
fn take_alternatives<'a>(
    count: &mut Count<'a>,
    at: Place,
    alternatives: &'a [Part],
) -> Result<(), Memory>
    requires { at.environment ≤ at.len }
    ensures figures { OnOk result ((decimals : ℕ) (rows : List Entry) (f : Figure) →
        sum_of decimals rows f count.new
        ≡ counted count.old.tally f
        + left_then decimals rows f at.environment at.depth (Left.Alternatives alternatives.entry)
        (pending_figure decimals rows f (waiting count.old)) (numbers_view count.old.numbers)) }
    ensures within { OnOk result ((least : ℕ) → AreWithin least at.len (waiting count.old) →
        AreWithin least at.len (waiting count.new)) }
{
    let Some((first, rest)) = alternatives.split_first() else {
        return Ok(());
    };
    put(count, Left::Alternatives(rest), at)?;
    put(count, Left::Trace(Phrase::Trace(&first.body)), at)?;
    put_weight(count, Place { depth: 1, ..at }, &first.weight)
}

// Puts the weight of an alternative before what is left; one that isn't written is counted.
fn put_weight<'a>(count: &mut Count<'a>, at: Place, weight: &'a Option<Expr>) -> Result<(), Memory>
    requires depth { at.depth ≡ 1 }
    requires within { at.environment ≤ at.len }
    ensures figures { OnOk result ((decimals : ℕ) (rows : List Entry) (f : Figure)
        (body : TraceExpr) →
        sum_of decimals rows f count.new
        ≡ counted count.old.tally f
        + (expression_figure f 1
        (weight_of (environment_of (meant decimals) rows at.environment) (weighed weight.now body))
        + pending_figure decimals rows f (waiting count.old) (numbers_view count.old.numbers))) }
    ensures within { OnOk result ((least : ℕ) → AreWithin least at.len (waiting count.old) →
        AreWithin least at.len (waiting count.new)) }
{
    match weight {
        None => {
            count.tally = count.tally.with_expression(1)?;
            Ok(())
        }
        Some(expr) => put(count, Left::Expression(Phrase::Value(expr)), at),
    }
}

// Takes the first group of those that are left.
fn take_groups<'a>(
    count: &mut Count<'a>,
    at: Place,
    groups: &'a [Group],
    body: &'a TraceExpr,
) -> Result<(), Memory>
    requires { at.environment ≤ at.len }
    ensures figures { OnOk result ((decimals : ℕ) (rows : List Entry) (f : Figure) →
        sum_of decimals rows f count.new
        ≡ counted count.old.tally f
        + left_then decimals rows f at.environment at.depth (Left.Groups groups.entry body.entry)
        (pending_figure decimals rows f (waiting count.old)) (numbers_view count.old.numbers)) }
    ensures within { OnOk result ((least : ℕ) → AreWithin least at.len (waiting count.old) →
        AreWithin least at.len (waiting count.new)) }
{
    match groups.split_first() {
        None => put(count, Left::Trace(Phrase::Trace(body)), at),
        Some((group, rest)) => {
            let locals = Locals {
                group,
                outer: at.environment,
                names: &group.names.items,
                groups: rest,
                body,
            };
            put(count, Left::Names(locals), at)
        }
    }
}

// Counts the term of a local, and puts its first value and what is left of its trace before what is left.
fn put_local<'a>(
    count: &mut Count<'a>,
    depth: u32,
    at: Place,
    outer: usize,
    first: &'a Option<Expr>,
    left: Left<'a>,
) -> Result<(), Memory>
    requires within { at.environment ≤ at.len }
    requires outer { outer ≤ at.len }
    requires left { IsLeftWithin at.len left }
    ensures figures { OnOk result ((decimals : ℕ) (rows : List Entry) (f : Figure) →
        sum_of decimals rows f count.new
        ≡ counted count.old.tally f
        + (term_weight f depth
        + (local_weight f + (first_figure f
        (first_of (environment_of (meant decimals) rows outer) (maybe_exp first.now))
        + left_then decimals rows f at.environment at.depth left.entry
        (pending_figure decimals rows f (waiting count.old))
        (behind_local (numbers_view count.old.numbers)))))) }
    ensures within { OnOk result ((least : ℕ) → AreWithin least at.len (waiting count.old) →
        AreWithin least at.len (waiting count.new)) }
{
    count.tally = count.tally.with_term(depth)?.with_local()?;
    count.numbers = count.numbers.behind_local()?;
    put(count, left, at)?;
    put_first(
        count,
        Place {
            environment: outer,
            depth: 1,
            len: at.len,
        },
        first,
    )?;
    Ok(())
}

// Takes a trace that is left.
fn take_trace<'a>(
    count: &mut Count<'a>,
    scope: &mut Scope<'a>,
    at: Place,
    phrase: Phrase<'a>,
) -> Result<(), Memory>
    requires len { at.len ≡ length (rows scope.old) }
    requires environment { at.environment ≤ at.len }
    requires within { AreWithin 0 (length (rows scope.old)) (waiting count.old) }
    requires right { AreRight (rows scope.old) }
    ensures figures { OnOk result ((decimals : ℕ) (f : Figure) →
        sum_of decimals (rows scope.new) f count.new
        ≡ counted count.old.tally f
        + left_then decimals (rows scope.old) f at.environment at.depth (Left.Trace phrase.entry)
        (pending_figure decimals (rows scope.old) f (waiting count.old))
        (numbers_view count.old.numbers)) }
    ensures within { OnOk result ((least : ℕ) →
        AreWithin least (length (rows scope.old)) (waiting count.old) →
        AreWithin least (length (rows scope.new)) (waiting count.new)) }
    ensures adds { OnOk result (AddsTo (rows scope.old) (rows scope.new)) }
    ensures right { OnOk result (AreRight (rows scope.new)) }
{
    let position = Position::Trace(count.numbers);
    match step_in(scope, position, at.environment, phrase)? {
        Advance::Met(form) => {
            put_trace(count, at.depth, scope.len(), form)?;
            Ok(())
        }
        Advance::Further(next, environment) => {
            let len = scope.len();
            put(
                count,
                Left::Trace(next),
                Place {
                    environment,
                    len,
                    ..at
                },
            )?;
            Ok(())
        }
    }
}

// Takes an expression that is left.
fn take_expression<'a>(
    count: &mut Count<'a>,
    scope: &mut Scope<'a>,
    at: Place,
    phrase: Phrase<'a>,
) -> Result<(), Memory>
    requires len { at.len ≡ length (rows scope.old) }
    requires environment { at.environment ≤ at.len }
    requires within { AreWithin 0 (length (rows scope.old)) (waiting count.old) }
    requires right { AreRight (rows scope.old) }
    ensures figures { OnOk result ((decimals : ℕ) (f : Figure) →
        sum_of decimals (rows scope.new) f count.new ≡ counted count.old.tally f
        + left_then decimals (rows scope.old) f at.environment at.depth
        (Left.Expression phrase.entry)
        (pending_figure decimals (rows scope.old) f (waiting count.old))
        (numbers_view count.old.numbers)) }
    ensures within { OnOk result ((least : ℕ) →
        AreWithin least (length (rows scope.old)) (waiting count.old) →
        AreWithin least (length (rows scope.new)) (waiting count.new)) }
    ensures adds { OnOk result (AddsTo (rows scope.old) (rows scope.new)) }
    ensures right { OnOk result (AreRight (rows scope.new)) }
{
    match step_in(scope, Position::Expression, at.environment, phrase)? {
        Advance::Met(form) => {
            put_expression(count, at.depth, scope.len(), form)?;
            Ok(())
        }
        Advance::Further(next, environment) => {
            let len = scope.len();
            put(
                count,
                Left::Expression(next),
                Place {
                    environment,
                    len,
                    ..at
                },
            )?;
            Ok(())
        }
    }
}

// Takes the first local of those that are left, which are some.
fn take_local<'a>(
    count: &mut Count<'a>,
    scope: &mut Scope<'a>,
    at: Place,
    locals: Locals<'a>,
    name: &'a Name,
    names: &'a [Name],
) -> Result<(), Memory>
    requires names { locals.names.now ≡ name.now ∷ names.now }
    requires len { at.len ≡ length (rows scope.old) }
    requires environment { at.environment ≤ at.len }
    requires outer { locals.outer ≤ at.len }
    requires within { AreWithin 0 (length (rows scope.old)) (waiting count.old) }
    requires right { AreRight (rows scope.old) }
    ensures figures { OnOk result ((decimals : ℕ) (f : Figure) →
        sum_of decimals (rows scope.new) f count.new
        ≡ counted count.old.tally f
        + left_then decimals (rows scope.old) f at.environment at.depth (Left.Names locals.entry)
        (pending_figure decimals (rows scope.old) f (waiting count.old))
        (numbers_view count.old.numbers)) }
    ensures within { OnOk result ((least : ℕ) →
        AreWithin least (length (rows scope.old)) (waiting count.old) →
        AreWithin least (length (rows scope.new)) (waiting count.new)) }
    ensures adds { OnOk result (AddsTo (rows scope.old) (rows scope.new)) }
    ensures right { OnOk result (AreRight (rows scope.new)) }
{
    let local = count.numbers.local;
    let inner = show_name(scope, Role::Local, local, at.environment, name)?;
    let below = Place {
        environment: inner,
        depth: deeper(at.depth)?,
        len: scope.len(),
    };
    let left = Left::Names(Locals { names, ..locals });
    put_local(
        count,
        at.depth,
        below,
        locals.outer,
        &locals.group.first,
        left,
    )?;
    Ok(())
}

// Takes the first local of those that are left, or else what is behind them.
fn take_names<'a>(
    count: &mut Count<'a>,
    scope: &mut Scope<'a>,
    at: Place,
    locals: Locals<'a>,
) -> Result<(), Memory>
    requires len { at.len ≡ length (rows scope.old) }
    requires environment { at.environment ≤ at.len }
    requires outer { locals.outer ≤ at.len }
    requires within { AreWithin 0 (length (rows scope.old)) (waiting count.old) }
    requires right { AreRight (rows scope.old) }
    ensures figures { OnOk result ((decimals : ℕ) (f : Figure) →
        sum_of decimals (rows scope.new) f count.new
        ≡ counted count.old.tally f
        + left_then decimals (rows scope.old) f at.environment at.depth (Left.Names locals.entry)
        (pending_figure decimals (rows scope.old) f (waiting count.old))
        (numbers_view count.old.numbers)) }
    ensures within { OnOk result ((least : ℕ) →
        AreWithin least (length (rows scope.old)) (waiting count.old) →
        AreWithin least (length (rows scope.new)) (waiting count.new)) }
    ensures adds { OnOk result (AddsTo (rows scope.old) (rows scope.new)) }
    ensures right { OnOk result (AreRight (rows scope.new)) }
{
    match locals.names.split_first() {
        Some((name, names)) => take_local(count, scope, at, locals, name, names),
        None => {
            put(count, Left::Groups(locals.groups, locals.body), at)?;
            Ok(())
        }
    }
}

// Takes the first part of what is left.
fn take<'a>(
    count: &mut Count<'a>,
    scope: &mut Scope<'a>,
    left: Left<'a>,
    at: Place,
) -> Result<(), Memory>
    requires len { at.len ≡ length (rows scope.old) }
    requires environment { at.environment ≤ at.len }
    requires left { IsLeftWithin at.len left }
    requires within { AreWithin 0 (length (rows scope.old)) (waiting count.old) }
    requires right { AreRight (rows scope.old) }
    ensures figures { OnOk result ((decimals : ℕ) (f : Figure) →
        sum_of decimals (rows scope.new) f count.new
        ≡ counted count.old.tally f
        + left_then decimals (rows scope.old) f at.environment at.depth left.entry
        (pending_figure decimals (rows scope.old) f (waiting count.old))
        (numbers_view count.old.numbers)) }
    ensures within { OnOk result ((least : ℕ) →
        AreWithin least (length (rows scope.old)) (waiting count.old) →
        AreWithin least (length (rows scope.new)) (waiting count.new)) }
    ensures adds { OnOk result (AddsTo (rows scope.old) (rows scope.new)) }
    ensures right { OnOk result (AreRight (rows scope.new)) }
{
    match left {
        Left::Trace(phrase) => take_trace(count, scope, at, phrase),
        Left::Expression(phrase) => take_expression(count, scope, at, phrase),
        Left::Alternatives(alternatives) => {
            take_alternatives(count, at, alternatives)?;
            Ok(())
        }
        Left::Groups(groups, body) => {
            take_groups(count, at, groups, body)?;
            Ok(())
        }
        Left::Names(locals) => take_names(count, scope, at, locals),
    }
}

// How many entries a part needs.
fn own_len(pending: Pending<'_>) -> usize
    ensures environment { pending.entry.at.environment ≤ result }
    ensures left { IsLeftWithin result pending.entry.left }
    ensures least { pending.entry.at.environment ≤ pending.entry.at.len →
        IsLeftWithin pending.entry.at.len pending.entry.left → result ≤ pending.entry.at.len }
{
    match pending.left {
        Left::Names(locals) => pending.at.environment.max(locals.outer),
        Left::Trace(_) | Left::Expression(_) | Left::Alternatives(_) | Left::Groups(_, _) => {
            pending.at.environment
        }
    }
}

// How many entries what is left needs, and at least so many.
fn len_of_left(count: &Count<'_>, base: usize) -> usize
    ensures { (most : ℕ) → AreWithin base most (waiting count.now) →
        (result ≤ most) × AreWithin base result (waiting count.now) }
{
    match count.left.last() {
        None => base,
        Some(pending) => pending.at.len,
    }
}

// Counts what is left, until there is nothing more or there are too many nodes. At least so many entries are kept, and
// beyond them those that what is left needs.
fn run<'a>(count: &mut Count<'a>, scope: &mut Scope<'a>, base: usize) -> Result<(), Memory>
    requires within { AreWithin base (length (rows scope.old)) (waiting count.old) }
    requires right { AreRight (rows scope.old) }
    ensures figures { OnOk result ((decimals : ℕ) →
        IsTallied count.new.tally (λ f. sum_of decimals (rows scope.old) f count.old)) }
    ensures adds { OnOk result ((first : List Entry) → length first ≡ base →
        AddsTo first (rows scope.old) → AddsTo first (rows scope.new)) }
    ensures right { OnOk result (AreRight (rows scope.new)) }
{
    'turns: for _turn in 0..u64::MAX {
        if count.tally.nodes > MOST_NODES {
            return Ok(());
        }
        let Some(pending) = count.left.pop() else {
            return Ok(());
        };
        let len = own_len(pending).max(len_of_left(count, base));
        scope.truncate(len);
        take(count, scope, pending.left, Place { len, ..pending.at })?;
    }
    // No text that fits in memory has so much.
    Err(Memory)
}

// Puts the first value of a group before what is left, for each of its names.
fn put_firsts<'a>(count: &mut Count<'a>, at: Place, group: &'a Group) -> Result<(), Memory>
    requires depth { at.depth ≡ 1 }
    requires within { at.environment ≤ at.len }
    ensures figures { OnOk result ((decimals : ℕ) (rows : List Entry) (f : Figure)
        (n : NumbersBefore) (role : Role) →
        sum_from decimals rows f count.new n
        ≡ sum_from decimals rows f count.old n
        + variables_figure f
        (group_variables role (environment_of (meant decimals) rows at.environment)
        (group_of group.now))) }
    ensures numbers { OnOk result (count.new.numbers ≡ count.old.numbers) }
    ensures within { OnOk result ((least : ℕ) → AreWithin least at.len (waiting count.old) →
        AreWithin least at.len (waiting count.new)) }
{
    'names: for _name in &group.names.items {
        put_first(count, at, &group.first)?;
    }
    Ok(())
}

// Puts the first values of a group's variables before what is left, and makes these variables visible.
fn put_group<'a>(
    count: &mut Count<'a>,
    scope: &mut Scope<'a>,
    role: Role,
    visible: Visible,
    group: &'a Group,
) -> Result<Visible, Memory>
    requires environment { visible.environment ≤ length (rows scope.old) }
    requires within { AreWithin 0 (length (rows scope.old)) (waiting count.old) }
    requires right { AreRight (rows scope.old) }
    ensures figures { OnOk result ((decimals : ℕ) (f : Figure) (n : NumbersBefore) →
        sum_from decimals (rows scope.new) f count.new n
        ≡ sum_from decimals (rows scope.old) f count.old n
        + variables_figure f
        (group_variables role (environment_of (meant decimals) (rows scope.old) visible.environment)
        (group_of group.now))) }
    ensures visible { IfOk result (λ v. (decimals : ℕ) →
        environment_of (meant decimals) (rows scope.new) v.environment
        ≡ with_group role visible.next (group_of group.now)
        (environment_of (meant decimals) (rows scope.old) visible.environment)) }
    ensures next { IfOk result (λ v. v.next ≡ visible.next + length group.now.names.items.items) }
    ensures inside { IfOk result (λ v. v.environment ≤ length (rows scope.new)) }
    ensures numbers { OnOk result (count.new.numbers ≡ count.old.numbers) }
    ensures within { OnOk result ((least : ℕ) →
        AreWithin least (length (rows scope.old)) (waiting count.old) →
        AreWithin least (length (rows scope.new)) (waiting count.new)) }
    ensures adds { OnOk result (AddsTo (rows scope.old) (rows scope.new)) }
    ensures right { OnOk result (AreRight (rows scope.new)) }
{
    let at = Place {
        environment: visible.environment,
        depth: 1,
        len: scope.len(),
    };
    put_firsts(count, at, group)?;
    let names = &group.names.items;
    show_names(scope, role, visible.next, visible.environment, names)
}

// Puts the first values of groups' variables before what is left, and makes these variables visible.
fn put_variables<'a>(
    count: &mut Count<'a>,
    scope: &mut Scope<'a>,
    role: Role,
    outer: usize,
    groups: &'a [Group],
) -> Result<Visible, Memory>
    requires environment { outer ≤ length (rows scope.old) }
    requires within { AreWithin 0 (length (rows scope.old)) (waiting count.old) }
    requires right { AreRight (rows scope.old) }
    ensures figures { OnOk result ((decimals : ℕ) (f : Figure) (n : NumbersBefore) →
        sum_from decimals (rows scope.new) f count.new n
        ≡ sum_from decimals (rows scope.old) f count.old n
        + variables_figure f
        (groups_variables role 0 (environment_of (meant decimals) (rows scope.old) outer)
        (groups_of (map group_of groups.now)))) }
    ensures visible { IfOk result (λ v. (decimals : ℕ) →
        environment_of (meant decimals) (rows scope.new) v.environment
        ≡ with_groups role 0 (groups_of (map group_of groups.now))
        (environment_of (meant decimals) (rows scope.old) outer)) }
    ensures next { IfOk result (λ v. (n : ℕ) (env : Environment Denotation) →
        v.next ≡ length (groups_variables role n env (groups_of (map group_of groups.now)))) }
    ensures inside { IfOk result (λ v. v.environment ≤ length (rows scope.new)) }
    ensures numbers { OnOk result (count.new.numbers ≡ count.old.numbers) }
    ensures within { OnOk result ((least : ℕ) →
        AreWithin least (length (rows scope.old)) (waiting count.old) →
        AreWithin least (length (rows scope.new)) (waiting count.new)) }
    ensures adds { OnOk result (AddsTo (rows scope.old) (rows scope.new)) }
    ensures right { OnOk result (AreRight (rows scope.new)) }
{
    let mut visible = Visible {
        environment: outer,
        next: 0,
    };
    for group in groups {
        visible = put_group(count, scope, role, visible, group)?;
    }
    Ok(visible)
}

// The first limit that the node that is asked for is past, if there is one.
pub(crate) fn passed_limit<'a>(
    alloc: Global,
    scope: &mut Scope<'a>,
    asked: &Asked<'a>,
) -> Result<Option<Limit>, Memory>
    requires within { asked.now.environment ≤ length (rows scope.old) }
    requires there { AreThere (length (rows scope.old)) asked.now.before.items }
    requires right { AreRight (rows scope.old) }
    ensures limit { IfOk result (λ limit. (decimals : ℕ) →
        limit ≡ slice_get (passed_limits
        (node_of (runnables decimals (rows scope.old) asked.now.before.items)
        (environment_of (meant decimals) (rows scope.old) asked.now.environment)
        (word asked.now.node.now.name) (groupings asked.now.node.now.inputs)
        (groupings asked.now.node.now.outputs) (map run_view asked.now.node.now.runs.items)
        (trace_view asked.now.node.now.body))) 0) }
    ensures kept { OnOk result (rows scope.new ≡ rows scope.old) }
{
    let (environment, node) = (asked.environment, asked.node);
    let base = scope.len();
    let mut count = Count {
        left: Vec::new(alloc),
        numbers: Numbers::start(),
        tally: Tally::start(),
    };
    let inputs = put_variables(
        &mut count,
        scope,
        Role::Input,
        environment,
        &node.inputs.items,
    )?;
    let inside = inputs.environment;
    let outputs = put_variables(&mut count, scope, Role::Output, inside, &node.outputs.items)?;
    let outer = Visible {
        environment: outputs.environment,
        next: inputs.next,
    };
    let named = put_calls(&mut count, scope, &asked.before, outer, &node.runs)?;
    let at = Place {
        environment: named.environment,
        depth: 1,
        len: scope.len(),
    };
    put(&mut count, Left::Trace(Phrase::Trace(&node.body)), at)?;
    run(&mut count, scope, base)?;
    scope.truncate(base);
    Ok(count.tally.limit(named.next, outputs.next))
}
