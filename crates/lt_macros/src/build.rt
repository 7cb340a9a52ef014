//! The tree that a node stands for.

ghost use Rattle.std.specs.Prelude.{◌≡◌, ◌≤◌, ◌<◌, ◌-◌, ℕ, false, IfOk, length, map, option_map};
ghost use Rattle.lt_ast.specs.View.{alternatives, groupings, limits, run, trace as trace_view, word};
ghost use Rattle.lt_ast.specs.Syntax as s;
ghost use Rattle.lt_ast.specs.inner.Lists.{alternatives_of, traces_of};
ghost use Rattle.lt_ast.specs.inner.Rows.{maybe_trace, part_of};
ghost use Rattle.lt_ast.specs.View.{exp};
ghost use Rattle.lt_macros.specs.Expanded as x;
ghost use Rattle.lt_macros.specs.Expansion.{node_of};
ghost use Rattle.lt_macros.specs.Denotation.{alone, as_expression, as_trace, behind_term, bounds_of as limits_bounds, braces_denotation, caught_as, chosen, parts_of, raised_as as raised_tree, traces_denotation, weight_of};
ghost use Rattle.lt_macros.specs.inner.Asking.{AreThere, runnables};
ghost use Rattle.lt_macros.specs.inner.Builder.{Builds, IsReady, IsReadyFor, form_denotation, names_at, phrase_at, trace_at, value_at};
ghost use Rattle.lt_macros.specs.inner.Built.{AreBuilt, behind_turns, in_all, in_two, looped, numbered, numbered_parts};
ghost use Rattle.lt_macros.specs.inner.Numbers.{numbers_view};
ghost use Rattle.lt_macros.specs.inner.Phrase.{joined_by};
ghost use Rattle.lt_macros.specs.inner.Reading.{meant, raised_by};
ghost use Rattle.lt_macros.specs.inner.Rows.{rows};
ghost use Rattle.lt_macros.specs.Tree.{bounds as bounds_view, declared as declared_view, exception as exception_view, expanded as expanded_view, node as node_view, placed};

use crate::builder::Builder;
use crate::calls::build_calls;
use crate::declarations::Asked;
use crate::expressions::{build_expr, build_expr_form};
use crate::head_normal_form::{HeadNormalForm, reduce};
use crate::literals::unwritten_weight;
use crate::numbers::Numbers;
use crate::position::Position;
use crate::scope::{Before, Declared as Raised, Join, Phrase};
use crate::tree::{Bounds, Declared, Exception, Expanded, Node, Part, Parts, Placed};
use crate::variables::declare_groups;
use lt_ast::{
    Bounds as Limits, Expr, Groups, Name, Part as Alternative, Parts as Choices, TraceExpr,
};
use lt_formula::{Memory, Role};
use std::alloc::Global;

/// A trace in a box, and what stands before the place behind it.
#[derive(Drop)]
pub(crate) struct ExpandedTrace {
    /// The trace.
    pub(crate) expanded: Box<Expanded>,

    /// What stands before the place behind it.
    pub(crate) after: Numbers,
}

/// Alternatives, and what stands before the place behind them.
#[derive(Drop)]
struct ExpandedParts {
    parts: Parts,
    after: Numbers,
}

/// Two expressions.
#[derive(Drop)]
struct TwoExpressions {
    first: Placed,
    second: Placed,
}

/// Two traces, the second of which is numbered behind the first, and what stands before the place behind them.
#[derive(Drop)]
struct TwoTraces {
    first: Box<Expanded>,
    second: Box<Expanded>,
    after: Numbers,
}

// A node, in the environment at its place.
pub(crate) fn build_node<'a>(builder: Builder<'a>, asked: &Asked<'a>) -> Result<Node, Memory>
    requires ready { IsReady builder asked.now.environment }
    requires there { AreThere (length (rows builder.scope)) asked.now.before.items }
    ensures { IfOk result (λ n.
        node_view n ≡ node_of
        (runnables builder.entry.decimals (rows builder.entry.scope) asked.now.before.items)
        (names_at builder.entry asked.now.environment) (word asked.now.node.now.name)
        (groupings asked.now.node.now.inputs) (groupings asked.now.node.now.outputs)
        (map run asked.now.node.now.runs.items) (trace_view asked.now.node.now.body)) }
{
    let mut builder = builder;
    let (environment, node) = (asked.environment, asked.node);
    let name = String::from_str(builder.alloc, node.name.text.as_str())?;
    let inputs = declare_groups(&mut builder, Role::Input, 0, environment, &node.inputs)?;
    let inside = inputs.environment;
    let outputs = declare_groups(&mut builder, Role::Output, 0, inside, &node.outputs)?;
    let inside = outputs.environment;
    let runs = build_calls(&mut builder, &asked.before, inputs.next, inside, &node.runs)?;
    let (start, inside) = (Numbers::start(), runs.environment);
    let body = build_trace(&mut builder, start, inside, Phrase::Trace(&node.body))?;
    Ok(Node {
        name,
        inputs: inputs.declared,
        outputs: outputs.declared,
        calls: runs.calls,
        body: Box::into_inner(body.expanded),
    })
}

// What a phrase stands for as a trace, before which so much stands.
#[cycle(build_trace)]
#[inline(never)]
pub(crate) fn build_trace<'a>(
    builder: &mut Builder<'a>,
    numbers: Numbers,
    environment: usize,
    phrase: Phrase<'a>,
) -> Result<ExpandedTrace, Memory>
    requires { IsReady builder.old environment }
    ensures { Builds builder.old builder.new result (λ b.
        numbered b ≡ as_trace (phrase_at builder.old environment phrase.entry)
        (numbers_view numbers)) }
{
    let reach = builder.reach;
    builder.enter_term()?;
    let built = build_met(builder, numbers, environment, phrase)?;
    builder.leave_to(reach);
    Ok(built)
}

// What is met of a phrase as a trace, before which so much stands.
#[cycle(build_trace)]
#[inline(always)]
fn build_met<'a>(
    builder: &mut Builder<'a>,
    numbers: Numbers,
    environment: usize,
    phrase: Phrase<'a>,
) -> Result<ExpandedTrace, Memory>
    requires { IsReady builder.old environment }
    ensures { Builds builder.old builder.new result (λ b.
        numbered b ≡ as_trace (phrase_at builder.old environment phrase.entry)
        (numbers_view numbers)) }
{
    let before = builder.scope.len();
    let form = reduce(
        &mut builder.scope,
        Position::Trace(numbers),
        environment,
        phrase,
    )?;
    let built = build_trace_form(builder, numbers, form)?;
    builder.scope.truncate(before);
    Ok(built)
}

// What is met as a trace; an expression is a constraint.
#[cycle(build_trace)]
fn build_trace_form<'a>(
    builder: &mut Builder<'a>,
    numbers: Numbers,
    form: HeadNormalForm<'a>,
) -> Result<ExpandedTrace, Memory>
    requires { IsReadyFor builder.old form }
    ensures { Builds builder.old builder.new result (λ b.
        numbered b ≡ as_trace (form_denotation builder.old form.entry) (numbers_view numbers)) }
{
    match form {
        HeadNormalForm::Nothing => build_nothing(builder.alloc, numbers),
        HeadNormalForm::Joined(join, first, rest, environment) => {
            build_joined(builder, numbers, environment, join, first, rest)
        }
        HeadNormalForm::Loop(bounds, body, environment) => {
            build_loop(builder, numbers, environment, bounds, body)
        }
        HeadNormalForm::Choice(parts, environment) => {
            build_choice(builder, numbers, environment, parts)
        }
        HeadNormalForm::Raise(name, environment) => {
            let exception = builder.scope.exception(environment, name.text.as_str());
            build_raise(builder.alloc, numbers, exception)
        }
        HeadNormalForm::Assert(always, body, environment) => {
            build_assert(builder, numbers, environment, always, body)
        }
        HeadNormalForm::Exist(groups, body, environment) => {
            build_exist(builder, numbers, environment, groups, body)
        }
        HeadNormalForm::Catch(name, body, handler, environment) => {
            build_catch(builder, numbers, environment, name, body, handler)
        }
        HeadNormalForm::Try(body, handler, environment) => {
            build_try(builder, numbers, environment, body, handler)
        }
        HeadNormalForm::Meaningless
        | HeadNormalForm::Variable(_, _, _)
        | HeadNormalForm::Previous(_, _, _)
        | HeadNormalForm::Number(_)
        | HeadNormalForm::Flag(_, _)
        | HeadNormalForm::Unary(_, _, _, _)
        | HeadNormalForm::Binary(_, _, _, _, _)
        | HeadNormalForm::If(_, _, _, _, _) => build_constraint(builder, numbers, form),
    }
}

// Traces that are joined: the first and those behind it.
#[cycle(build_trace)]
#[inline(never)]
fn build_joined<'a>(
    builder: &mut Builder<'a>,
    numbers: Numbers,
    environment: usize,
    join: Join,
    first: &'a TraceExpr,
    rest: &'a [TraceExpr],
) -> Result<ExpandedTrace, Memory>
    requires ready { IsReady builder.old environment }
    requires some { 0 < length rest.now }
    ensures { Builds builder.old builder.new result (λ b.
        numbered b ≡ as_trace
        (traces_denotation (names_at builder.old environment) (joined_by join)
        (s.one_trace (trace_view first.now) (traces_of (map trace_view rest.now))))
        (numbers_view numbers)) }
{
    let inside = numbers.behind_term()?;
    let before = build_trace(builder, inside, environment, Phrase::Trace(first))?;
    let behind = build_behind(builder, before.after, environment, join, rest)?;
    let two = TwoTraces {
        first: before.expanded,
        second: behind.expanded,
        after: behind.after,
    };
    put_joined(builder.alloc, join, two)
}

// Traces that are joined, behind others.
#[cycle(build_trace)]
fn build_behind<'a>(
    builder: &mut Builder<'a>,
    numbers: Numbers,
    environment: usize,
    join: Join,
    traces: &'a [TraceExpr],
) -> Result<ExpandedTrace, Memory>
    requires { IsReady builder.old environment }
    ensures { Builds builder.old builder.new result (λ b.
        numbered b ≡ as_trace (phrase_at builder.old environment (Phrase.Joined join traces.entry))
        (numbers_view numbers)) }
{
    let Some((first, rest)) = traces.split_first() else {
        return build_nothing(builder.alloc, numbers);
    };
    if rest.is_empty() {
        return build_trace(builder, numbers, environment, Phrase::Trace(first));
    }
    let reach = builder.reach;
    builder.enter_term()?;
    let built = build_joined(builder, numbers, environment, join, first, rest)?;
    builder.leave_to(reach);
    Ok(built)
}

// One of several traces.
#[cycle(build_trace)]
#[inline(never)]
fn build_choice<'a>(
    builder: &mut Builder<'a>,
    numbers: Numbers,
    environment: usize,
    written: &'a Choices,
) -> Result<ExpandedTrace, Memory>
    requires { IsReady builder.old environment }
    ensures { Builds builder.old builder.new result (λ b.
        numbered b ≡ as_trace
        (braces_denotation (names_at builder.old environment)
        (s.choice false (alternatives written.now))) (numbers_view numbers)) }
{
    let (inside, parts) = (numbers.behind_term()?, &written.items);
    let chosen = build_parts(builder, inside, environment, parts)?;
    put_choice(builder.alloc, chosen)
}

// A trace, and what follows where an exception is raised.
#[cycle(build_trace)]
#[inline(never)]
fn build_catch<'a>(
    builder: &mut Builder<'a>,
    numbers: Numbers,
    environment: usize,
    name: &'a Name,
    body: &'a TraceExpr,
    handler: &'a Option<Box<TraceExpr>>,
) -> Result<ExpandedTrace, Memory>
    requires { IsReady builder.old environment }
    ensures { Builds builder.old builder.new result (λ b.
        numbered b ≡ trace_at builder.old environment
        (s.catch (word name.now) (trace_view body.now) (maybe_trace handler.now))
        (numbers_view numbers)) }
{
    let (body, handler) = (Phrase::Trace(body), Phrase::Handler(handler));
    let two = build_two(builder, numbers, environment, body, handler)?;
    put_catch(
        builder.alloc,
        builder.scope.exception(environment, name.text.as_str()),
        two,
    )
}

// A trace, and what follows where nothing can be done.
#[cycle(build_trace)]
#[inline(never)]
fn build_try<'a>(
    builder: &mut Builder<'a>,
    numbers: Numbers,
    environment: usize,
    body: &'a TraceExpr,
    handler: &'a Option<Box<TraceExpr>>,
) -> Result<ExpandedTrace, Memory>
    requires { IsReady builder.old environment }
    ensures { Builds builder.old builder.new result (λ b.
        numbered b ≡ trace_at builder.old environment
        (s.try (trace_view body.now) (maybe_trace handler.now)) (numbers_view numbers)) }
{
    let (body, handler) = (Phrase::Trace(body), Phrase::Handler(handler));
    let two = build_two(builder, numbers, environment, body, handler)?;
    put_try(builder.alloc, two)
}

// A constraint on one instant.
#[inline(never)]
fn build_constraint<'a>(
    builder: &mut Builder<'a>,
    numbers: Numbers,
    form: HeadNormalForm<'a>,
) -> Result<ExpandedTrace, Memory>
    requires { IsReadyFor builder.old form }
    ensures { Builds builder.old builder.new result (λ b.
        numbered b ≡ alone (x.con (as_expression (form_denotation builder.old form.entry)))
        (numbers_view numbers)) }
{
    let condition = build_expr_form(builder, form)?;
    put_alone(builder.alloc, Expanded::Con(condition), numbers)
}

// A trace of no instant.
#[inline(never)]
fn build_nothing(alloc: Global, numbers: Numbers) -> Result<ExpandedTrace, Memory>
    ensures { IfOk result (λ b. numbered b ≡ alone x.eps (numbers_view numbers)) }
{
    put_alone(alloc, Expanded::Eps, numbers)
}

// An exception that is raised; `Deadlock` is a deadlock.
#[inline(never)]
fn build_raise(
    alloc: Global,
    numbers: Numbers,
    raised: Option<Raised<'_>>,
) -> Result<ExpandedTrace, Memory>
    ensures { IfOk result (λ b. (decimals : ℕ) →
        numbered b ≡ alone (raised_tree (raised_by (meant decimals) raised.entry))
        (numbers_view numbers)) }
{
    let raised = put_raise(alloc, raised)?;
    put_alone(alloc, raised, numbers)
}

// Two traces, the first of which stands behind one more term.
#[cycle(build_trace)]
#[inline(never)]
fn build_two<'a>(
    builder: &mut Builder<'a>,
    numbers: Numbers,
    environment: usize,
    first: Phrase<'a>,
    second: Phrase<'a>,
) -> Result<TwoTraces, Memory>
    requires { IsReady builder.old environment }
    ensures { Builds builder.old builder.new result (λ two.
        AreBuilt two (as_trace (phrase_at builder.old environment first.entry)
        (behind_term (numbers_view numbers)))
        (as_trace (phrase_at builder.old environment second.entry))) }
{
    let inside = numbers.behind_term()?;
    let before = build_trace(builder, inside, environment, first)?;
    let behind = build_trace(builder, before.after, environment, second)?;
    Ok(TwoTraces {
        first: before.expanded,
        second: behind.expanded,
        after: behind.after,
    })
}

// A loop.
#[cycle(build_trace)]
#[inline(never)]
fn build_loop<'a>(
    builder: &mut Builder<'a>,
    numbers: Numbers,
    environment: usize,
    written: &'a Limits,
    body: &'a TraceExpr,
) -> Result<ExpandedTrace, Memory>
    requires { IsReady builder.old environment }
    ensures { Builds builder.old builder.new result (λ b.
        numbered b ≡ trace_at builder.old environment
        (s.loop (limits written.now) (trace_view body.now)) (numbers_view numbers)) }
{
    let (inside, phrase) = (behind_loop(numbers, written)?, Phrase::Trace(body));
    let turn = build_trace(builder, inside, environment, phrase)?;
    let bounds = build_bounds(builder, environment, written)?;
    put_loop(builder.alloc, numbers.counter, bounds, turn)
}

// Behind one more loop, which may have a counter.
fn behind_loop(numbers: Numbers, written: &Limits) -> Result<Numbers, Memory>
    ensures { IfOk result (λ n.
        numbers_view n ≡ behind_turns (limits written.now) (numbers_view numbers)) }
{
    match written {
        Limits::Forever => numbers.behind_term(),
        Limits::Between(_) | Limits::Around(_) => numbers.behind_counter(),
    }
}

// A trace over and over: without end, or as often as the counter of this number says.
#[inline(never)]
fn put_loop(
    alloc: Global,
    counter: u32,
    turns: Option<Bounds>,
    body: ExpandedTrace,
) -> Result<ExpandedTrace, Memory>
    ensures { IfOk result (λ b.
        numbered b ≡ record {
          expanded = looped (option_map bounds_view turns) counter
              (expanded_view body.expanded.value);
          after = numbers_view body.after;
        }) }
{
    let expanded = match turns {
        None => Expanded::Loop(body.expanded),
        Some(bounds) => Expanded::Count(counter, Box::new(alloc, bounds)?, body.expanded),
    };
    put(alloc, expanded, body.after)
}

// The bounds of a loop, where it has some.
#[inline(never)]
fn build_bounds<'a>(
    builder: &mut Builder<'a>,
    environment: usize,
    written: &'a Limits,
) -> Result<Option<Bounds>, Memory>
    requires { IsReady builder.old environment }
    ensures { Builds builder.old builder.new result (λ b.
        option_map bounds_view b
        ≡ limits_bounds (names_at builder.old environment) (limits written.now)) }
{
    match written {
        Limits::Forever => Ok(None),
        Limits::Between(ends) => {
            let pair = build_pair(builder, environment, &ends.left, &ends.right)?;
            Ok(Some(Bounds::Between(pair.first, pair.second)))
        }
        Limits::Around(ends) => {
            let pair = build_pair(builder, environment, &ends.left, &ends.right)?;
            Ok(Some(Bounds::Around(pair.first, pair.second)))
        }
    }
}

// Two expressions.
#[inline(never)]
fn build_pair<'a>(
    builder: &mut Builder<'a>,
    environment: usize,
    first: &'a Expr,
    second: &'a Expr,
) -> Result<TwoExpressions, Memory>
    requires { IsReady builder.old environment }
    ensures { Builds builder.old builder.new result (λ p.
        (placed p.first ≡ value_at builder.old environment (exp first.now)) ×
        (placed p.second ≡ value_at builder.old environment (exp second.now))) }
{
    let first = build_expr(builder, environment, Phrase::Value(first))?;
    let second = build_expr(builder, environment, Phrase::Value(second))?;
    Ok(TwoExpressions { first, second })
}

// The alternatives of a choice.
#[cycle(build_trace)]
#[inline(never)]
fn build_parts<'a>(
    builder: &mut Builder<'a>,
    before: Numbers,
    environment: usize,
    written: &'a [Alternative],
) -> Result<ExpandedParts, Memory>
    requires { IsReady builder.old environment }
    ensures { Builds builder.old builder.new result (λ b.
        numbered_parts b ≡ parts_of (names_at builder.old environment)
        (alternatives_of (map part_of written.now)) (numbers_view before)) }
{
    let mut items = Vec::with_capacity(builder.alloc, written.len())?;
    let mut numbers = before;
    for part in written {
        let weight = build_weight(builder, environment, part)?;
        let phrase = Phrase::Trace(&part.body);
        let built = build_trace(builder, numbers, environment, phrase)?;
        let body = built.expanded;
        items.push(Part { weight, body })?;
        numbers = built.after;
    }
    let (parts, after) = (Parts { items }, numbers);
    Ok(ExpandedParts { parts, after })
}

// The weight of an alternative.
#[inline(never)]
fn build_weight<'a>(
    builder: &mut Builder<'a>,
    environment: usize,
    part: &'a Alternative,
) -> Result<Placed, Memory>
    requires { IsReady builder.old environment }
    ensures { Builds builder.old builder.new result (λ e.
        placed e ≡ weight_of (names_at builder.old environment) (part_of part.now)) }
{
    match &part.weight {
        None => Ok(unwritten_weight()),
        Some(expr) => build_expr(builder, environment, Phrase::Value(expr)),
    }
}

// A trace in each instant of which a constraint holds.
#[cycle(build_trace)]
#[inline(never)]
fn build_assert<'a>(
    builder: &mut Builder<'a>,
    numbers: Numbers,
    environment: usize,
    always: &'a Expr,
    body: &'a TraceExpr,
) -> Result<ExpandedTrace, Memory>
    requires { IsReady builder.old environment }
    ensures { Builds builder.old builder.new result (λ b.
        numbered b ≡ trace_at builder.old environment
        (s.assert (exp always.now) (trace_view body.now)) (numbers_view numbers)) }
{
    let (inside, phrase) = (numbers.behind_term()?, Phrase::Trace(body));
    let inner = build_trace(builder, inside, environment, phrase)?;
    let constraint = build_expr(builder, environment, Phrase::Value(always))?;
    let expanded = Expanded::Assert(constraint, inner.expanded);
    put(builder.alloc, expanded, inner.after)
}

// A trace with locals, each of which sees the groups before its own.
#[cycle(build_trace)]
#[inline(never)]
fn build_exist<'a>(
    builder: &mut Builder<'a>,
    numbers: Numbers,
    environment: usize,
    groups: &'a Groups,
    body: &'a TraceExpr,
) -> Result<ExpandedTrace, Memory>
    requires { IsReady builder.old environment }
    ensures { Builds builder.old builder.new result (λ b.
        numbered b ≡ trace_at builder.old environment
        (s.exist (groupings groups.now) (trace_view body.now)) (numbers_view numbers)) }
{
    let before = builder.scope.len();
    let locals = declare_groups(builder, Role::Local, numbers.local, environment, groups)?;
    let (inside, phrase) = (numbers.behind_locals(locals.next)?, Phrase::Trace(body));
    let inner = build_trace(builder, inside, locals.environment, phrase)?;
    builder.scope.truncate(before);
    put_locals(builder.alloc, locals.declared, locals.next, inner)
}

// A trace with locals of these declarations, behind the last of which the next one has this number.
#[inline(never)]
fn put_locals(
    alloc: Global,
    declared: Vec<Declared>,
    next: u32,
    body: ExpandedTrace,
) -> Result<ExpandedTrace, Memory>
    requires { length declared.items ≤ next }
    ensures { IfOk result (λ b.
        numbered b ≡ record {
          expanded = in_all (next - length declared.items) (map declared_view declared.items)
              (expanded_view body.expanded.value);
          after = numbers_view body.after;
        }) }
{
    let after = body.after;
    let mut left = declared;
    let mut number = next;
    let mut expanded = body.expanded;
    while let Some(local) = left.pop() {
        number -= 1;
        let declaration = Box::new(alloc, local)?;
        expanded = Box::new(alloc, Expanded::Exist(number, declaration, expanded))?;
    }
    Ok(ExpandedTrace { expanded, after })
}

// A term without parts.
#[inline(never)]
fn put_alone(alloc: Global, expanded: Expanded, numbers: Numbers) -> Result<ExpandedTrace, Memory>
    ensures { IfOk result (λ b.
        numbered b ≡ alone (expanded_view expanded) (numbers_view numbers)) }
{
    put(alloc, expanded, numbers.behind_term()?)
}

// A term, and what stands before the place behind it.
fn put(alloc: Global, expanded: Expanded, after: Numbers) -> Result<ExpandedTrace, Memory>
    ensures { IfOk result (λ b.
        numbered b ≡ record {
          expanded = expanded_view expanded;
          after = numbers_view after;
        }) }
{
    let expanded = Box::new(alloc, expanded)?;
    Ok(ExpandedTrace { expanded, after })
}

// Traces that are joined, out of the first and those behind it.
#[inline(never)]
fn put_joined(alloc: Global, join: Join, two: TwoTraces) -> Result<ExpandedTrace, Memory>
    ensures { IfOk result (λ b. numbered b ≡ in_two (joined_by join) two) }
{
    let expanded = match join {
        Join::Seq => Expanded::Seq(two.first, two.second),
        Join::Pri => Expanded::Pri(two.first, two.second),
        Join::Par => Expanded::Par(two.first, two.second),
    };
    put(alloc, expanded, two.after)
}

// A trace and what follows where nothing can be done.
#[inline(never)]
fn put_try(alloc: Global, two: TwoTraces) -> Result<ExpandedTrace, Memory>
    ensures { IfOk result (λ b. numbered b ≡ in_two x.try two) }
{
    put(alloc, Expanded::Try(two.first, two.second), two.after)
}

// A trace and what follows where an exception is raised; `Deadlock` is caught where nothing can be done.
#[inline(never)]
fn put_catch(
    alloc: Global,
    caught: Option<Raised<'_>>,
    two: TwoTraces,
) -> Result<ExpandedTrace, Memory>
    ensures { IfOk result (λ b. (decimals : ℕ) →
        numbered b ≡ in_two (caught_as (raised_by (meant decimals) caught.entry)) two) }
{
    match caught {
        None => put_try(alloc, two),
        Some(raised) => {
            let exception = put_exception(alloc, raised)?;
            let expanded = Expanded::Catch(exception, two.first, two.second);
            put(alloc, expanded, two.after)
        }
    }
}

// An exception that is raised; `Deadlock` is a deadlock.
#[inline(never)]
fn put_raise(alloc: Global, raised: Option<Raised<'_>>) -> Result<Expanded, Memory>
    ensures { IfOk result (λ t. (decimals : ℕ) →
        expanded_view t ≡ raised_tree (raised_by (meant decimals) raised.entry)) }
{
    match raised {
        None => Ok(Expanded::Dead),
        Some(raised) => Ok(Expanded::Raise(put_exception(alloc, raised)?)),
    }
}

// An exception as it is declared. None is declared where no place is known.
#[inline(never)]
fn put_exception(alloc: Global, raised: Raised<'_>) -> Result<Exception, Memory>
    ensures { IfOk result (λ z. (decimals : ℕ) →
        exception_view z ≡ record {
          name = raised.entry.name.now;
          place = raised.entry.place;
          terms_before = (meant decimals).terms_before raised.entry.before;
        }) }
{
    let terms_before = match raised.before {
        Before::Terms(terms) => terms,
        Before::Chosen(_) => 0,
    };
    Ok(Exception {
        name: String::from_str(alloc, raised.name)?,
        place: raised.place,
        terms_before,
    })
}

// One of these.
#[inline(never)]
fn put_choice(alloc: Global, chosen_parts: ExpandedParts) -> Result<ExpandedTrace, Memory>
    ensures { IfOk result (λ b. numbered b ≡ chosen (numbered_parts chosen_parts)) }
{
    put(alloc, Expanded::Any(chosen_parts.parts), chosen_parts.after)
}
