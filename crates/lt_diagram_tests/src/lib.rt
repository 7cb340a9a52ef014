//! Tests of decision diagrams, and of bounds on differences.
//!
//! They stand in a crate of their own, so that the crates below are proved without them. What a test expects follows from
//! what a reduced diagram and the least values are, and was worked out by a program of its own that goes through all truths
//! and all values.
#![tactic(auto)]

#[cfg(test)]
mod bounds;
#[cfg(test)]
mod conjuncts;
#[cfg(test)]
mod diagrams;
#[cfg(test)]
mod formulas;
#[cfg(test)]
mod rows;
