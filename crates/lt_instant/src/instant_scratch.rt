//! The room of an instant.

ghost use Rattle.std.specs.Prelude.{IfOk};
ghost use Rattle.lt_instant.specs.Equipment.{IsScratchOf};

use lt_num::Value;
use lt_term::Scenario;
use std::alloc::{AllocError, Global};

/// Scratch for what an instant finds; it is made once, and written over in each instant.
#[derive(Drop)]
pub struct InstantScratch {
    /// The values of the locals.
    pub locals: Vec<Value>,
}

impl InstantScratch {
    /// Room for the instants of a scenario.
    pub fn make(alloc: Global, scenario: &Scenario) -> Result<InstantScratch, AllocError>
        ensures { IfOk result (IsScratchOf scenario.now) }
    {
        Ok(InstantScratch {
            locals: Vec::with_capacity(alloc, scenario.locals.len())?,
        })
    }
}
