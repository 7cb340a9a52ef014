//! Tests of traces that are checked: which texts are traces of a scenario, and which of them a run of it can write, by any
//! seed and any rule of drawing.
//!
//! They stand in a crate of their own, so that the crates below are proved without them. What a test expects follows from
//! `docs/TRACE.md` and `docs/LANGUAGE.md`.
#![tactic(auto)]

#[cfg(test)]
mod answering;
#[cfg(test)]
mod calls;
#[cfg(test)]
mod candidates;
#[cfg(test)]
mod ends;
#[cfg(test)]
mod lines;
#[cfg(test)]
mod reading;
#[cfg(test)]
mod rows;
#[cfg(test)]
mod scopes;
#[cfg(test)]
mod shown;
#[cfg(test)]
mod steps;
