//! Where a run stands in a scenario's body, as marks in the body itself.
//!
//! A [`Track`] is a term of which each node has its marks: where the run stands, and where it goes on behind the leaf that
//! was reached last. [`track_of`] makes it of a body, once. A [`Walk`] is what a walk to a leaf of what it offers takes with
//! it, and [`go_on`] goes on behind the leaf that was reached last; neither takes memory on its way. Each node keeps how large
//! what it offers is, so that [`size`] looks at the root alone.
//!
//! Contracts see a track as the term that is still to be done, `standing` of `specs/View.antt`. `specs/Walk.antt` says what
//! it is to follow a path.
#![tactic(auto)]

mod choices;
mod counting;
mod extent;
mod extents;
mod going_on;
mod laws;
mod making;
mod over;
mod raising;
mod scopes;
mod track;
mod walk;

pub use choices::{meet_turns, meet_weights};
pub use counting::node_count;
pub use extent::Extent;
pub use extents::{count_tally, loop_tally, part_tally, size};
pub use going_on::go_on;
pub use laws::{
    arrivals_are_nodes, body_is_at_start, choices_stay_narrow, numbers_stay, steps_grow_by_one,
};
pub use making::track_of;
pub use over::is_over;
pub use raising::part_raises;
pub use scopes::kept;
pub use track::{Mark, Marks, Parts, Track};
pub use walk::{Reached, Walk};
