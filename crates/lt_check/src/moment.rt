//! What is known between two steps of a trace.

ghost use Rattle.std.specs.Prelude.{◌≡◌, ◌<◌, ◌≤◌, ◌+◌, ◌^◌, IfOk, false, true, length, map, vec_capacity};
ghost use Rattle.lt_instant.specs.Equipment.{IsPastOf};
ghost use Rattle.lt_legal.specs.Follows.{value_before_all};
ghost use Rattle.lt_loop.specs.Scene.{nearest_zero, unset_value};
ghost use Rattle.lt_term.specs.SceneView.{variable};

use lt_draw::{Draw, StepWords};
use lt_instant::{DrawContext, Past};
use lt_num::{Interval, Kind, Value};
use lt_term::{Memory, Scenario, Var};
use lt_trace::RecordedStep;
use std::alloc::{AllocError, Global};

/// What is known between two steps of a trace, whatever is still to be done.
#[derive(Drop)]
pub(crate) struct Moment<'a> {
    pub scenario: &'a Scenario,

    /// What is behind.
    pub past: Past,

    /// The inputs of the next instant.
    pub inputs: Vec<Value>,

    // The words of a seed, which nobody asks for.
    words: StepWords,

    // The greatest need that a search may have.
    budget: u64,
    ghost past_is: { IsPastOf scenario.now past },
    ghost step_is: { words.step ≡ past.step },
    ghost inputs_room: { length scenario.now.inputs.items ≤ vec_capacity inputs },
    ghost inputs_are: { length inputs.items ≤ length scenario.now.inputs.items },
}

impl<'a> Moment<'a> {
    ghost use Rattle.lt_instant.specs.RunStateView.{configuration_behind};
    ghost use Rattle.lt_term.specs.Configuration.{first_configuration, Configuration};
    ghost use Rattle.lt_term.specs.SceneView.{scene};
    ghost use Rattle.lt_legal.specs.Follows.{inputs_before_all};

    /// Before the first step.
    pub fn first(alloc: Global, scenario: &'a Scenario, budget: u64) -> Result<Moment<'a>, Memory>
        ensures scenario { IfOk result (λ m. m.scenario.now ≡ scenario.now) }
        ensures step { IfOk result (λ m. m.past.step ≡ 1) }
        ensures none { IfOk result (λ m. m.past.has_reacted ≡ false) }
        ensures inputs { IfOk result (λ m. m.inputs.items ≡ inputs_before_all (scene scenario.now)) }
        ensures budget { IfOk result (λ m. m.budget ≡ budget) }
    {
        Ok(Moment {
            scenario,
            past: Past::make(alloc, scenario)?,
            inputs: inputs_before_all(alloc, &scenario.inputs)?,
            words: StepWords::new(0, 1),
            budget,
        })
    }

    /// The next instant, as its constraints and weights see it.
    pub fn context(&self) -> DrawContext<'_>
        ensures scenario { result.scenario.now ≡ self.now.scenario.now }
        ensures past { result.past.now ≡ self.now.past }
        ensures inputs { result.inputs.now ≡ self.now.inputs.items }
        ensures budget { result.budget ≡ self.now.budget }
    {
        DrawContext {
            scenario: self.scenario,
            past: &self.past,
            inputs: &self.inputs,
            words: &self.words,
            draw: Draw::Up,
            budget: self.budget,
        }
    }

    /// On behind a step.
    pub fn pass(&mut self, step: &RecordedStep)
        requires room { self.old.past.step < 2 ^ 63 }
        requires outputs { length step.now.outputs.items ≤ length self.old.scenario.now.outputs.items }
        requires inputs { length step.now.inputs.items ≤ length self.old.scenario.now.inputs.items }
        ensures scenario { self.new.scenario.now ≡ self.old.scenario.now }
        ensures step { self.new.past.step ≡ self.old.past.step + 1 }
        ensures reacted { self.new.past.has_reacted ≡ true }
        ensures inputs_before { self.new.past.reaction.inputs.items ≡ self.old.inputs.items }
        ensures outputs_before { self.new.past.reaction.outputs.items ≡ step.now.outputs.items }
        ensures inputs_now { self.new.inputs.items ≡ step.now.inputs.items }
        ensures budget { self.new.budget ≡ self.old.budget }
    {
        put(&mut self.past.reaction.inputs, &self.inputs);
        put(&mut self.past.reaction.outputs, &step.outputs);
        put(&mut self.inputs, &step.inputs);
        self.past.has_reacted = true;
        self.past.step += 1;
        self.words.next_step();
    }
}

// Puts values into a list, in room that there is.
fn put(values: &mut Vec<Value>, from: &[Value])
    requires { length from.now ≤ vec_capacity values.old }
    ensures items { values.new.items ≡ from.now }
    ensures room { vec_capacity values.new ≡ vec_capacity values.old }
{
    values.clear();
    for value in from {
        values.push_reserved(*value);
    }
}

// The values of inputs before the first instant.
fn inputs_before_all(alloc: Global, inputs: &[Var]) -> Result<Vec<Value>, AllocError>
    ensures items { IfOk result (λ values. values.items ≡ map value_before_all (map variable inputs.now)) }
    ensures room { IfOk result (λ values. length inputs.now ≤ vec_capacity values) }
{
    let mut values = Vec::with_capacity(alloc, inputs.len())?;
    for input in inputs {
        values.push_reserved(value_before_all(input));
    }
    Ok(values)
}

// The value that an input has before the first instant.
fn value_before_all(input: &Var) -> Value
    ensures { result ≡ value_before_all (variable input.now) }
{
    match input.first {
        Some(value) => value,
        None => unset_value(
            input.kind,
            Interval {
                low: input.range.low,
                high: input.range.high,
            },
        ),
    }
}

// The value of a variable that has no first value: false, or the number of its range that is nearest to 0.
fn unset_value(kind: Kind, range: Interval) -> Value
    ensures { result ≡ unset_value kind range }
{
    match kind {
        Kind::Bool => Value::Bool(false),
        Kind::Int | Kind::Real => Value::Num(nearest_zero(range)),
    }
}

// The number of a range that is nearest to 0.
fn nearest_zero(range: Interval) -> i64
    ensures { result ≡ nearest_zero range }
{
    if range.low >= 0 {
        range.low
    } else if range.high <= 0 {
        range.high
    } else {
        0
    }
}
