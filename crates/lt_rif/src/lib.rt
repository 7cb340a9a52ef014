//! Replies, read from a stream that comes in pieces, and the text of a trace.
//!
//! `docs/TRACE.md` has the form of both. What a reply is on a whole stream is said in `specs/Reply.antt`. A
//! [`Reader`] takes the stream in pieces, and its clauses say what it makes of each, whatever comes after it.
#![tactic(auto)]

mod decimal;
mod declared;
mod draft;
mod end;
mod end_line;
mod end_words;
mod fault;
mod judgement;
mod laws;
mod number;
mod numbering;
mod reader;
mod slot;
mod trace;
mod values;
mod word;
mod writing;

pub use declared::Declared;
pub use draft::LONGEST;
pub use end::{End, Who, step_at_hand};
pub use end_line::write_end;
pub use end_words::{EndWords, who_word};
pub use fault::ValueFault;
pub use judgement::judge;
pub use laws::{
    cuts_change_nothing, next_reply_is_at_hand, replies_grow, room_is_enough, spelling_is_read,
    step_reads_back, trace_reads_back, value_reads_back,
};
pub use numbering::StepHead;
pub use reader::{Closing, Fed, Reader};
pub use slot::Slot;
pub use trace::{room_for, write_header, write_line, write_step, write_step_values};
pub use values::values_are_sized;
