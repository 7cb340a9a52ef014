//! The laws of what the trace of a scenario shows.
//! No program calls this crate: its functions do nothing, and their contracts say it.
//!
//! The laws of `lt_trace_laws` speak of any machine whose instants show what a trace can be read back as. Here stands that
//! the instants of every scenario do, whatever its text is: each output has a value of its own kind and range. So its runs
//! can be played again from their own traces, and its traces show the runs that wrote them. `specs/Traced.antt` has the
//! statements.
#![tactic(auto)]

mod laws;

pub use laws::{
    instants_give_their_own, scenario_prefixes_show_their_run, scenario_replays_are_the_same,
    scenario_traces_show_their_run, scenarios_are_traceable, scenarios_show_their_instants,
};
