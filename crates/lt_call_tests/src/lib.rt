//! Tests of the whole call, over files, programs and sinks in memory, which have ample memory: no clause can promise
//! that. What a test expects follows from `docs/COMMAND.md`, `docs/LANGUAGE.md` and `docs/TRACE.md`.
#![tactic(auto)]

#[cfg(test)]
mod asked;
#[cfg(test)]
mod calling;
#[cfg(test)]
mod campaigns;
#[cfg(test)]
mod checked;
#[cfg(test)]
mod drawn;
#[cfg(test)]
mod drawn_loops;
#[cfg(test)]
mod echoing;
#[cfg(test)]
mod ends;
#[cfg(test)]
mod failing;
#[cfg(test)]
mod failing_once;
#[cfg(test)]
mod failing_sides;
pub mod keeping;
#[cfg(test)]
mod large;
#[cfg(test)]
mod locals;
#[cfg(test)]
mod plant_link;
#[cfg(test)]
mod plants;
#[cfg(test)]
mod played;
#[cfg(test)]
mod printed;
#[cfg(test)]
mod reading;
#[cfg(test)]
mod refused;
#[cfg(test)]
mod replayed;
#[cfg(test)]
mod replies;
#[cfg(test)]
mod rows;
#[cfg(test)]
mod sides;
#[cfg(test)]
mod steps;
#[cfg(test)]
mod stressed;
