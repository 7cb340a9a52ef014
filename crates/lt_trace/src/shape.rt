//! What the lines of a scenario's trace may show.

ghost use Rattle.std.specs.Prelude.{◌≤◌};
ghost use Rattle.lt_num.specs.Bounds.{most_decimals};

use lt_rif::{Declared, Slot};

/// What the header declares.
#[derive(Drop)]
pub struct Declarations {
    /// The scenario's outputs, which stand under `#inputs`.
    pub outputs: Vec<Declared>,

    /// Its inputs, which stand under `#outputs`.
    pub inputs: Vec<Declared>,

    /// Its locals.
    pub locals: Vec<Declared>,
}

/// The shape of a scenario's traces.
#[derive(Drop)]
pub struct Shape {
    /// The decimals of a real number: 0 to 6.
    pub decimals: u32,

    /// What the header declares.
    pub declared: Declarations,

    /// Slots for the values of the outputs in a step.
    pub outputs: Vec<Slot>,

    /// Slots for those of the inputs.
    pub inputs: Vec<Slot>,

    /// Slots for those of the locals.
    pub locals: Vec<Slot>,

    /// The names of the exceptions, by their numbers.
    pub exceptions: Vec<String>,

    pub ghost few: { decimals ≤ most_decimals },
}
