//! What follows from the rules on terms, in the words of the language.
//! No program calls this crate: its functions do nothing, and their contracts say it.
#![tactic(auto)]

mod laws;

pub use laws::{
    counted_loops_keep_their_bounds, scopes_begin_anew, siblings_are_judged_together,
    worths_are_of_their_kinds,
};
