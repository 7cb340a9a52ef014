//! How many nodes and leaves the trees of terms have, from those of the trees of their parts.
//!
//! A [`Tally`] has the numbers of one tree, exact up to one more than a tree may have nodes. [`followed`], [`beside`],
//! [`caught`], [`either`] and [`with_part`] give that of a term's tree by those of its parts, so that no tree is made for
//! it. [`raised_in_turn`] and the like do so for the leaves that raise one exception. [`joined`] and [`grown`] are the sums
//! that they stand on.
//!
//! `specs/Tally.antt` has the numbers, and a row for each rule of `lt_term`.
#![tactic(auto)]

mod capped;
mod laws;
mod leaves;
mod raised;
mod rules;
mod tally;

pub use capped::{grown, joined};
pub use laws::rows;
pub use leaves::{one_go, one_other, one_vanish};
pub use raised::{raised_beside, raised_in_either, raised_in_turn, raised_past};
pub use rules::{alongside, beside, caught, either, followed, with_part};
pub use tally::Tally;
