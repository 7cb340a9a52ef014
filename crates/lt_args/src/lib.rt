//! The words of a call: what they ask for, or what is wrong with them. `docs/COMMAND.md` has their rules.
//!
//! [`requested`] reads them, by a command of clap. The numbers that they may give, and those that hold where they give
//! none, are in `settings.rt`; [`usage_word`] and [`usage_text`] say what is wrong.
#![tactic(auto)]

mod command;
mod found;
mod laws;
mod settings;
mod usage;
mod words;

pub use laws::{numbers_are_within, printed_numbers_are_taken};
pub use settings::{
    DEFAULT_BUDGET, DEFAULT_DECIMALS, LONGEST_REPLAY, LONGEST_TEXT, settings_are_as_defined,
};
pub use usage::{UsageKind, WordsRefusal, usage_text, usage_word};
pub use words::{Mode, Request, requested};
