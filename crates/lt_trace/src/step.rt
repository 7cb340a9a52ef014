//! The line of a step's values.

ghost use Rattle.std.specs.Prelude.{◌≡◌, ◌≤◌, length, IfOk, option_map};
ghost use Rattle.lt_trace.specs.inner.Words.{IsLineRead};
ghost use Rattle.lt_trace.specs.View.{shape_view, step_view};
ghost use Rattle.lt_trace.specs.inner.Words.{read_line};

use crate::fields::{read_locals, read_mark, read_values};
use crate::laws::step_line_is_read;
use crate::recorded::RecordedStep;
use crate::shape::Shape;
use std::alloc::{AllocError, Global};

/// The step of which a line is written, without its line feed, if it is written of one.
///
/// # Errors
///
/// Want of memory.
pub fn read_step(
    alloc: Global,
    shape: &Shape,
    line: &[u8],
) -> Result<Option<RecordedStep>, AllocError>
    ensures { IfOk result (λ r. IsLineRead (shape_view shape.now) line.now (option_map step_view r)) }
{
    // A law that the proof needs.
    step_line_is_read();
    step_in(alloc, shape, line)
}

// The same, in the words of the code.
fn step_in(alloc: Global, shape: &Shape, line: &[u8]) -> Result<Option<RecordedStep>, AllocError>
    ensures { IfOk result (λ r. read_line (shape_view shape.now) line.now ≡ option_map step_view r) }
{
    let mut outputs = Vec::with_capacity(alloc, shape.outputs.len())?;
    let Some(at) = read_values(&mut outputs, &shape.outputs, line, 0, shape.decimals)? else {
        return Ok(None);
    };
    let Some(at) = read_mark(line, at, b"#outs") else {
        return Ok(None);
    };
    let mut inputs = Vec::with_capacity(alloc, shape.inputs.len())?;
    let Some(at) = read_values(&mut inputs, &shape.inputs, line, at, shape.decimals)? else {
        return Ok(None);
    };
    let Some(at) = read_mark(line, at, b"#locs") else {
        return Ok(None);
    };
    let mut locals = Vec::with_capacity(alloc, shape.locals.len())?;
    let Some(at) = read_locals(&mut locals, &shape.locals, line, at, shape.decimals)? else {
        return Ok(None);
    };
    if at <= line.len() {
        return Ok(None);
    }
    Ok(Some(RecordedStep {
        outputs,
        inputs,
        locals,
    }))
}
