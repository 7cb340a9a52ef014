//! The core of a run: what it puts out for what it is given.
//!
//! A run is a scenario against a controller, judged by an oracle. `specs/Play.antt` says what it puts out for two whole
//! streams, that of the controller and that of the oracle. A [`Core`] is given the streams by events, in any pieces and in
//! any order, and its clauses say that it puts out that play: each event says so of all that may still come. `docs/TRACE.md`
//! has the texts.
//!
//! A core is generic in its [`Machine`], of which it knows that an instant is a function of a state.
#![tactic(auto)]

mod event;
mod input_source;
mod laws;
mod loop_core;
mod machine;
mod phase;
mod setup;
mod side;
mod sizes;
mod slots;
mod var;
mod writer;

pub use event::{Destination, Emits, Event, PieceKind, Wants};
pub use input_source::InputSource;
pub use laws::{
    affordable_runs_are_the_same, budgets_have_a_cause, ends_are_final, events_are_the_play,
    faults_are_cuts, giving_up_is_a_cut, instants_have_few_pieces, plays_end, plays_grow,
    plays_keep_to_their_rules, replies_fit, runs_end, runs_have_few_pieces, steps_are_counted,
    turns_go_on, wants_are_the_stop,
};
pub use loop_core::Core;
pub use machine::{Machine, Outcome, ScenarioEnd};
pub use phase::Phase;
pub use setup::{Setup, Talk};
pub use side::{Read, Side};
pub use var::Var;
