//! Tests of the words of a call, with ample memory: no clause can promise that. What a test expects follows from
//! `docs/COMMAND.md`.
#![tactic(auto)]

#[cfg(test)]
mod asked;
#[cfg(test)]
mod refused;
#[cfg(test)]
mod rows;
