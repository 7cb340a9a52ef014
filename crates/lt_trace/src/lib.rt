//! Traces, read strictly: exactly the texts of the form that a run with its locals is written in.
//! `docs/TRACE.md` has it.
//!
//! [`read_trace`] gives what a text tells, or the number of the first line that is none of a trace. `specs/Lines.antt` says
//! what a line may be, and where: each cites the words of lt_rif, which writes traces.
#![tactic(auto)]

mod digits;
mod ending;
mod exact;
mod fields;
mod front;
mod header;
mod laws;
mod recorded;
mod refusal;
mod shape;
mod stage;
mod step;
mod trace;

pub use laws::{texts_have_one_reading, traces_have_their_shape};
pub use recorded::{Recorded, RecordedEnd, RecordedStep};
pub use refusal::TraceRefusal;
pub use shape::{Declarations, Shape};
pub use trace::read_trace;
