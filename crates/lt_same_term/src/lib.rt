//! Which terms are the same, and a hash of terms.
//!
//! [`same`] compares two terms, part by part. [`hash_of`] is a number that a term determines, so
//! that a set of terms finds one without comparing it with each.
//!
//! `specs/Alike.antt` says how terms are compared, and `specs/Laws.antt` that this tells exactly
//! which are the same.
#![tactic(auto)]

mod comparing;
mod hashing;
mod head;
mod laws;
mod parts;

pub use comparing::same;
pub use hashing::hash_of;
pub use head::{Head, head_of};
pub use laws::{alike_terms_are_the_same, constraints_tell_terms};
pub use parts::{Parts, parts_of};
