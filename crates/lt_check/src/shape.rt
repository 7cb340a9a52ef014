//! The shape of a scenario's traces.

ghost use Rattle.std.specs.Prelude.{◌≡◌, ◌++◌, IfOk, map, string_bytes};
ghost use Rattle.lt_rif.specs.Trace.{declared_variable};
ghost use Rattle.lt_term.specs.SceneView.{scene, variable};
ghost use Rattle.lt_trace.specs.View.{shape_view};
ghost use Rattle.lt_check.specs.Shape.{declared_as, open_slot, ranged_slot, trace_shape};

use lt_num::Interval;
use lt_rif::{Declared, Slot};
use lt_term::{Scenario, Var};
use lt_trace::{Declarations, Shape};
use std::alloc::{AllocError, Global};

/// The shape of a scenario's traces.
pub fn trace_shape(alloc: Global, scenario: &Scenario) -> Result<Shape, AllocError>
    ensures { IfOk result (λ s. shape_view s ≡ trace_shape (scene scenario.now)) }
{
    let declared = Declarations {
        outputs: declared(alloc, &scenario.outputs)?,
        inputs: declared(alloc, &scenario.inputs)?,
        locals: declared(alloc, &scenario.locals)?,
    };
    Ok(Shape {
        decimals: scenario.decimals,
        declared,
        outputs: open_slots(alloc, &scenario.outputs)?,
        inputs: ranged_slots(alloc, &scenario.inputs)?,
        locals: open_slots(alloc, &scenario.locals)?,
        exceptions: names(alloc, &scenario.exceptions)?,
    })
}

// Variables as a header declares them.
fn declared(alloc: Global, variables: &[Var]) -> Result<Vec<Declared>, AllocError>
    ensures { IfOk result (λ v. map declared_variable v.items ≡
        map declared_as (map variable variables.now)) }
{
    let mut declared = Vec::new(alloc);
    for variable in variables {
        declared.push(Declared {
            name: variable.name.clone()?,
            kind: variable.kind,
        })?;
    }
    Ok(declared)
}

// Slots of values of any size that numbers may have.
fn open_slots(alloc: Global, variables: &[Var]) -> Result<Vec<Slot>, AllocError>
    ensures { IfOk result (λ slots. slots.items ≡ map open_slot (map variable variables.now)) }
{
    let mut slots = Vec::new(alloc);
    for variable in variables {
        slots.push(Slot {
            kind: variable.kind,
            range: None,
            keep: true,
        })?;
    }
    Ok(slots)
}

// Slots of values within the variables' ranges.
fn ranged_slots(alloc: Global, variables: &[Var]) -> Result<Vec<Slot>, AllocError>
    ensures { IfOk result (λ slots. slots.items ≡ map ranged_slot (map variable variables.now)) }
{
    let mut slots = Vec::new(alloc);
    for variable in variables {
        slots.push(Slot {
            kind: variable.kind,
            range: Some(Interval {
                low: variable.range.low,
                high: variable.range.high,
            }),
            keep: true,
        })?;
    }
    Ok(slots)
}

// The same names.
fn names(alloc: Global, names: &[String]) -> Result<Vec<String>, AllocError>
    ensures { IfOk result (λ copied. map string_bytes copied.items ≡ map string_bytes names.now) }
{
    let mut copied = Vec::new(alloc);
    for name in names {
        copied.push(name.clone()?)?;
    }
    Ok(copied)
}
