//! What a trace tells, and the shape of a scenario's traces, as text.

use lt_rif::{Declared, Slot};
use lt_trace::{Recorded, RecordedStep, Shape};
use std::alloc::{AllocError, Global};

/// What a trace tells: a line for each step, and one for its end.
pub fn shown_trace(alloc: Global, recorded: &Recorded) -> Result<String, AllocError> {
    let mut out = String::new(alloc);
    for step in &recorded.steps {
        put_step(&mut out, step)?;
    }
    write!(out, "{:?}", recorded.end)?;
    Ok(out)
}

// Puts the values of a step.
fn put_step(out: &mut String, step: &RecordedStep) -> Result<(), AllocError> {
    out.push_str("outputs")?;
    for value in &step.outputs {
        write!(out, " {value:?}")?;
    }
    out.push_str(" inputs")?;
    for value in &step.inputs {
        write!(out, " {value:?}")?;
    }
    out.push_str(" locals")?;
    for value in &step.locals {
        write!(out, " {value:?}")?;
    }
    out.push_str("\n")
}

/// The shape of a scenario's traces: its decimals, what the header declares, the slots of a step, and the exceptions.
pub fn shown_shape(alloc: Global, shape: &Shape) -> Result<String, AllocError> {
    let mut out = format!(in alloc; "{} decimals\n", shape.decimals)?;
    put_declared(&mut out, "outputs", &shape.declared.outputs)?;
    put_declared(&mut out, "inputs", &shape.declared.inputs)?;
    put_declared(&mut out, "locals", &shape.declared.locals)?;
    put_slots(&mut out, "outputs", &shape.outputs)?;
    put_slots(&mut out, "inputs", &shape.inputs)?;
    put_slots(&mut out, "locals", &shape.locals)?;
    out.push_str("exceptions")?;
    for name in &shape.exceptions {
        write!(out, " {name}")?;
    }
    Ok(out)
}

// Puts what a header declares of variables.
fn put_declared(out: &mut String, what: &str, declared: &[Declared]) -> Result<(), AllocError> {
    out.push_str(what)?;
    for variable in declared {
        write!(out, " {} {:?}", variable.name, variable.kind)?;
    }
    out.push_str("\n")
}

// Puts slots.
fn put_slots(out: &mut String, what: &str, slots: &[Slot]) -> Result<(), AllocError> {
    out.push_str(what)?;
    for slot in slots {
        write!(out, " {:?}", slot.kind)?;
        if let Some(range) = slot.range {
            write!(out, " {} to {}", range.low, range.high)?;
        }
    }
    out.push_str("\n")
}
