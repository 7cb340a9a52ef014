//! From the text of a scenario's file to its scenario, or to its printed form.
//!
//! [`scenario_of`] reads a text, checks the types of its program, and expands the node that is asked for.
//! [`printed_text`] reads it and prints its program. Where a text has no such answer, the first cause is told as a
//! [`Refusal`], which has a code, and a place in the text where there is one. `specs/Prepared.antt` says which answer a
//! text has, a row for each cause. That each text has one answer, and no other one, are two laws,
//! [`texts_have_one_scenario_answer`] and [`texts_have_one_printed_answer`].
#![tactic(auto)]

mod laws;
mod nest;
mod preparing;
mod refusal;

pub use laws::{texts_have_one_printed_answer, texts_have_one_scenario_answer};
pub use nest::{Nest, NestRun, NestRuns, nest_of};
pub use preparing::{printed_text, scenario_of};
pub use refusal::{Refusal, Unprepared};
