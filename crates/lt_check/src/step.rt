//! A step as it is sought.

ghost use Rattle.std.specs.Prelude.{◌≡◌, ◌++◌, ◌&&◌, ◌%◌, ◌-ℤ◌, IfOk, OnOk, is_some, map, nat_eq, unsigned_abs};
ghost use Rattle.lt_legal.specs.Follows.{local_raw, shown_raws};
ghost use Rattle.lt_num.specs.Value.{raw_of};
ghost use Rattle.lt_check.specs.inner.ShownPoints.{are_local_points, are_points, is_local_point, local_values};
ghost use Rattle.lt_term.specs.SceneView.{variable};
ghost use Rattle.lt_num.specs.Range.{is_point};

use lt_num::{Range, Value};
use lt_term::{Memory, Scenario, Var};
use lt_trace::RecordedStep;
use std::alloc::{AllocError, Global};

/// A step as it is sought among the leaves of a tree.
#[derive(Drop)]
pub(crate) struct ShownStep {
    /// The raw numbers of all that is drawn: of the outputs, and then of the locals, where one out of scope has 0.
    pub raws: Vec<i64>,

    /// The values of the locals of these raw numbers.
    pub locals: Vec<Value>,

    /// A mark for each local: whether it is in scope.
    pub marks: Vec<bool>,

    /// Whether each value is a point of its variable's range.
    pub is_possible: bool,
}

impl ShownStep {
    ghost use Rattle.lt_trace.specs.View.{step_view};
    ghost use Rattle.lt_term.specs.SceneView.{scene};

    /// A step of a scenario.
    pub fn make(
        alloc: Global,
        scenario: &Scenario,
        step: &RecordedStep,
    ) -> Result<ShownStep, Memory>
        ensures raws { IfOk result (λ shown. shown.raws.items ≡ shown_raws (step_view step.now)) }
        ensures locals { IfOk result (λ shown. shown.locals.items ≡
            local_values (scene scenario.now).locals step.now.locals.items) }
        ensures marks { IfOk result (λ shown. shown.marks.items ≡ map is_some step.now.locals.items) }
        ensures points { IfOk result (λ shown. shown.is_possible ≡
            (are_points (scene scenario.now).outputs step.now.outputs.items &&
            are_local_points (scene scenario.now).locals step.now.locals.items)) }
    {
        let mut raws = Vec::new(alloc);
        push_outputs(&mut raws, &step.outputs)?;
        push_locals(&mut raws, &step.locals)?;
        let is_possible = are_points(&scenario.outputs, &step.outputs)
            && are_local_points(&scenario.locals, &step.locals);
        Ok(ShownStep {
            raws,
            locals: local_values(alloc, &scenario.locals, &step.locals)?,
            marks: marks_of(alloc, &step.locals)?,
            is_possible,
        })
    }
}

// Adds the raw numbers of outputs.
fn push_outputs(raws: &mut Vec<i64>, outputs: &[Value]) -> Result<(), AllocError>
    ensures { OnOk result (raws.new.items ≡ raws.old.items ++ map raw_of outputs.now) }
{
    for output in outputs {
        raws.push(output.raw())?;
    }
    Ok(())
}

// Adds those of locals.
fn push_locals(raws: &mut Vec<i64>, locals: &[Option<Value>]) -> Result<(), AllocError>
    ensures { OnOk result (raws.new.items ≡ raws.old.items ++ map local_raw locals.now) }
{
    for local in locals {
        raws.push(local_raw(*local))?;
    }
    Ok(())
}

// The raw number of a local: 0 where it is out of scope.
fn local_raw(local: Option<Value>) -> i64
    ensures { result ≡ local_raw local }
{
    match local {
        Some(value) => value.raw(),
        None => 0,
    }
}

// Which locals are in scope.
fn marks_of(alloc: Global, locals: &[Option<Value>]) -> Result<Vec<bool>, AllocError>
    ensures { IfOk result (λ marks. marks.items ≡ map is_some locals.now) }
{
    let mut marks = Vec::new(alloc);
    for local in locals {
        marks.push(local.is_some())?;
    }
    Ok(marks)
}

// The values of locals by their raw numbers.
fn local_values(
    alloc: Global,
    variables: &[Var],
    locals: &[Option<Value>],
) -> Result<Vec<Value>, AllocError>
    ensures { IfOk result (λ values. values.items ≡
        local_values (map variable variables.now) locals.now) }
{
    let mut values = Vec::new(alloc);
    for (number, variable) in variables.iter().enumerate() {
        let Some(local) = locals.get(number) else {
            return Ok(values);
        };
        values.push(Value::of_raw(variable.kind, local_raw(*local)))?;
    }
    Ok(values)
}

// Whether values are points of the ranges of their variables.
fn are_points(variables: &[Var], values: &[Value]) -> bool
    ensures { result ≡ are_points (map variable variables.now) values.now }
{
    for (number, variable) in variables.iter().enumerate() {
        let Some(value) = values.get(number) else {
            return true;
        };
        if !is_point(variable.range, value.raw()) {
            return false;
        }
    }
    true
}

// Whether those of locals are that are in scope.
fn are_local_points(variables: &[Var], locals: &[Option<Value>]) -> bool
    ensures { result ≡ are_local_points (map variable variables.now) locals.now }
{
    for (number, variable) in variables.iter().enumerate() {
        let Some(local) = locals.get(number) else {
            return true;
        };
        if !is_local_point(variable, *local) {
            return false;
        }
    }
    true
}

// Whether the value of a local is a point of its range, where it is in scope.
fn is_local_point(local: &Var, value: Option<Value>) -> bool
    ensures { result ≡ is_local_point (variable local.now) value }
{
    match value {
        Some(value) => is_point(local.range, value.raw()),
        None => true,
    }
}

// Whether a number is a point of a range.
fn is_point(range: Range, raw: i64) -> bool
    ensures { result ≡ is_point range raw }
{
    range.low <= raw && raw <= range.high && is_whole_steps_away(range, raw)
}

// Whether a number is a whole number of steps away from the low end of a range.
fn is_whole_steps_away(range: Range, raw: i64) -> bool
    ensures { result ≡
        nat_eq (unsigned_abs (raw -ℤ range.low) % unsigned_abs range.step) 0 }
{
    raw.abs_diff(range.low)
        .is_multiple_of(range.step.unsigned_abs())
}
