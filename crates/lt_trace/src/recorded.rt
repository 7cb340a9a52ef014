//! What a trace tells.

use lt_num::{Arith, Value};

/// What a trace tells of its run.
#[derive(Drop)]
pub struct Recorded {
    /// The steps, in turn.
    pub steps: Vec<RecordedStep>,

    /// How the run ended.
    pub end: RecordedEnd,
}

/// A step that a trace shows.
#[derive(Drop)]
pub struct RecordedStep {
    /// The values of the scenario's outputs.
    pub outputs: Vec<Value>,

    /// Those of its inputs.
    pub inputs: Vec<Value>,

    /// Those of its locals; one out of scope has none.
    pub locals: Vec<Option<Value>>,
}

/// How a run ended, as far as the scenario plays a part in it.
#[derive(Clone, Copy, Debug, PartialEq, Eq)]
pub enum RecordedEnd {
    /// The scenario was over.
    Normal,

    /// Nothing could be done.
    Deadlock,

    /// It raised the exception of this number, from 0: the first one with the name that is written.
    Raise(u32),

    /// An expression had no value.
    Fault(Arith),

    /// Something else ended the run: its limit, a side, an instant that was too large, or a budget.
    Cut,
}
