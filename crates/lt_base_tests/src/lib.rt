//! Tests of what a run is made of: files and sinks, links to other programs, numbers, replies and traces, drawing,
//! expressions, and plants.
//!
//! They stand in a crate of their own, so that the crates below are proved without them. What a test
//! expects follows from the rules of `docs/LANGUAGE.md`, and of `docs/TRACE.md`.
#![tactic(auto)]

#[cfg(test)]
mod drawing;
#[cfg(test)]
mod files_and_sinks;
#[cfg(test)]
mod flaky;
#[cfg(test)]
mod formulas;
#[cfg(test)]
mod links;
#[cfg(test)]
mod numbers;
#[cfg(test)]
mod plants;
#[cfg(test)]
mod replies;
#[cfg(test)]
mod rows;
#[cfg(test)]
mod subject;
#[cfg(test)]
mod traces;
