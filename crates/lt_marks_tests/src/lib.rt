//! Tests of marks in a body beside terms: what a run still has to do is kept in two ways, and both offer the same.
//!
//! Bodies are made from numbers, with constructs of every kind in one another. A term and the marks go through each of them
//! step by step, and each is the other's check: what is offered, where it stands, and how large it is.
#![tactic(auto)]

#[cfg(test)]
mod bodies;
#[cfg(test)]
mod first_offers;
mod guide;
#[cfg(test)]
mod numbers;
#[cfg(test)]
mod paths;
mod run;
#[cfg(test)]
mod runs;
mod shown;

pub use guide::Guide;
pub use run::{MOST_STEPS, Run};
pub use shown::{shown_node, shown_place};
