//! Where a reader of a trace stands between two lines, and what comes next.

ghost use Rattle.std.specs.Prelude.{◌≡◌, ◌-◌, ◌<◌, ◌^◌, ◌++◌, ◌∷◌, [], IfOk, OnOk, List, length, map, vec_len};
ghost use Rattle.lt_trace.specs.Lines.{at_step};
ghost use Rattle.lt_trace.specs.Told.{Shown};
ghost use Rattle.lt_trace.specs.View.{shape_view, step_view};
ghost use Rattle.lt_trace.specs.inner.Stages.{ComesNext, IsSoFar, place_at};

use crate::ending::end_in;
use crate::front::is_numbered;
use crate::header::in_header;
use crate::recorded::{RecordedEnd, RecordedStep};
use crate::shape::Shape;
use crate::step::read_step;
use std::alloc::{AllocError, Global};

/// A line of the header.
#[derive(Clone, Copy)]
pub enum HeaderLine {
    /// The seed.
    Seed,

    /// The rule of drawing, or, where it is the first one, the scenario's outputs.
    Rule,

    /// The scenario's outputs.
    Outputs,

    /// Its inputs.
    Inputs,

    /// Its locals.
    Locals,
}

/// What may follow.
#[derive(Clone, Copy)]
pub enum Stage {
    /// This line of the header.
    Header(HeaderLine),

    /// The number of a step, or the end.
    Step,

    /// The values of a step.
    Values,
}

/// What comes after a line.
#[derive(Clone, Copy)]
pub enum Next {
    /// Lines that may stand at this stage.
    At(Stage),

    /// Nothing: the line told this end.
    Over(RecordedEnd),

    /// The line is none of a trace.
    Bad,
}

/// What comes after a line, without its line feed, that stands at a stage. Where it tells the values of a step, these are put
/// behind the steps so far.
///
/// # Errors
///
/// Want of memory.
pub fn next_after(
    alloc: Global,
    shape: &Shape,
    stage: Stage,
    text: &[u8],
    steps: &mut Vec<RecordedStep>,
) -> Result<Next, AllocError>
    requires names { length shape.now.exceptions.items < 2 ^ 32 }
    requires so_far { IsSoFar stage (map step_view steps.old.items) }
    ensures { IfOk result (λ next. ComesNext (shape_view shape.now)
        (place_at stage (map step_view steps.old.items)) text.now next (map step_view steps.new.items)) }
{
    match stage {
        Stage::Header(line) => Ok(in_header(shape, line, text)),
        Stage::Step => Ok(step_or_end(shape, text, steps.len() as u64)),
        Stage::Values => match read_step(alloc, shape, text)? {
            Some(step) => {
                push_step(steps, step)?;
                Ok(Next::At(Stage::Step))
            }
            None => Ok(Next::Bad),
        },
    }
}

// What comes after a line behind so many steps: the values of one more, or nothing.
fn step_or_end(shape: &Shape, text: &[u8], steps: u64) -> Next
    requires names { length shape.now.exceptions.items < 2 ^ 32 }
    requires few { steps < 2 ^ 64 - 1 }
    ensures { (told : List Shown) → length told ≡ steps →
        ComesNext (shape_view shape.now) (at_step told) text.now result told }
{
    if is_numbered(text, b"#step ", steps + 1) {
        return Next::At(Stage::Values);
    }
    match end_in(text, &shape.exceptions, steps) {
        Some(end) => Next::Over(end),
        None => Next::Bad,
    }
}

// Puts one more step behind others.
fn push_step(steps: &mut Vec<RecordedStep>, step: RecordedStep) -> Result<(), AllocError>
    ensures { OnOk result (map step_view steps.new.items ≡ map step_view steps.old.items ++
        step_view step ∷ []) }
{
    steps.push(step)?;
    Ok(())
}
