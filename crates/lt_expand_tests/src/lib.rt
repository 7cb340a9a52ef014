//! Tests of what a text stands for: macros are replaced by what they mean, parts have their numbers, and some texts
//! have no scenario.
//!
//! They stand in a crate of their own, so that the crates below are proved without them. What a test
//! expects follows from the rules of `docs/LANGUAGE.md`.
#![tactic(auto)]

#[cfg(test)]
mod constructs;
#[cfg(test)]
mod exceptions;
#[cfg(test)]
mod found;
#[cfg(test)]
mod limits;
#[cfg(test)]
mod macros;
#[cfg(test)]
mod numbering;
#[cfg(test)]
mod order;
#[cfg(test)]
mod parts;
#[cfg(test)]
mod refusals;
#[cfg(test)]
mod rows;
#[cfg(test)]
mod shown;
#[cfg(test)]
mod towers;
#[cfg(test)]
mod variables;
