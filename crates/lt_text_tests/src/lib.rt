//! Tests of what reads and judges a text: the syntax, the tokens, the grammar and the rules of types.
//!
//! They stand in a crate of their own, so that the crates below are proved without them. What a test
//! expects follows from the rules of `docs/LANGUAGE.md`.
#![tactic(auto)]

#[cfg(test)]
mod found;
#[cfg(test)]
mod names;
#[cfg(test)]
mod order;
#[cfg(test)]
mod programs;
#[cfg(test)]
mod ranges;
#[cfg(test)]
mod refusals;
#[cfg(test)]
mod rows;
#[cfg(test)]
mod tokens;
#[cfg(test)]
mod types;
