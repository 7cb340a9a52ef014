//! Campaigns: many runs of one scenario, side by side, each with programs of its own.
//!
//! [`play_campaign`] starts the programs of all sessions, lets the sessions go in rounds of one event each, writes what each
//! has for the trace in a frame that names the session, and gives the links back when all have ended.
//! `specs/Campaign.antt` says what comes of it, over any programs and any trace.
//!
//! The laws say that each session's run is the one that it would be alone ([`runs_are_alone`]), with its own part of the
//! trace ([`sessions_are_alone`], [`cut_sessions_are_alone`]), and that it begins with its own core ([`sessions_begin`]);
//! that what a session had for the trace is the whole trace of its run alone, where its links tell what they have left and no
//! side's fault ended it ([`undisturbed_sessions_are_whole`]); and that a program is blamed only where a fault was counted
//! ([`blame_has_a_cause`]).
#![tactic(auto)]

mod campaign;
mod campaign_end;
mod closing;
mod framing;
mod laws;
mod rounds;
mod run;
mod session;
mod starting;

pub use campaign::play_campaign;
pub use campaign_end::{Blamed, CampaignEnd, Campaigned, Outcome};
pub use laws::{
    blame_has_a_cause, cut_sessions_are_alone, runs_are_alone, sessions_are_alone, sessions_begin,
    undisturbed_sessions_are_whole,
};
