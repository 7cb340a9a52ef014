//! Whether a trace is a legal run of a scenario.
//!
//! [`check`] goes through the steps of a trace and keeps all configurations in which a run may stand that the steps so far are
//! told of: a set of terms, since all else is the same for each. `Rattle.lt_legal.specs.Verdict` says what comes of it. Whatever
//! drew the values plays no part: neither a seed nor a rule of drawing is known.
//!
//! What one configuration offers is a tree of nodes. A step's own values tell at each leaf whether it may be the one that was
//! taken; a leaf is searched only where it has to be known whether another one comes before that by priority.
#![tactic(auto)]

mod asking;
mod checking;
mod choice;
mod counted;
mod ending;
mod finder;
mod following;
mod judge;
mod key;
mod leaves;
mod looking;
mod memo;
mod moment;
mod point;
mod progress;
mod scopes;
mod searcher;
mod seeing;
mod shape;
mod sought;
mod step;

pub use checking::check;
pub use lt_legal::Verdict;
pub use lt_term::Memory;
pub use shape::trace_shape;
