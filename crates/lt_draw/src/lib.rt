//! Drawing by position: the words of a seed, and what a word decides.
//!
//! Each decision of a run has a *slot* in its step, and is made by the word of the seed at that slot, whatever
//! was decided before: [`word`] gives one, [`StepWords`] those of one step, and [`SlotWords`] one after another
//! from a slot on. [`pick`] is the decision among weights, [`target`] that among the points of a range, and [`downward`]
//! says in which direction a variable goes on from there, where the rule of a run ([`Draw`]) gives it a direction.
//!
//! Words are those of the generator PCG64 (`Lcg128Xsl64` of `rand_pcg`, made by `seed_from_u64`), whose quality
//! and values are that crate's. `specs/Word.antt` says which word stands where, `specs/Pick.antt`,
//! `specs/Target.antt` and `specs/Direction.antt` what a word decides.
#![tactic(auto)]

mod directions;
mod jump_table;
mod jumps;
mod laws;
mod targets;
mod weights;
mod words;

pub use directions::{Draw, downward};
pub use laws::{
    each_is_a_target, picks_by_weight, picks_the_first_over, places_are_apart, slots_are_apart,
    words_are_answers,
};
pub use targets::target;
pub use weights::{pick, sum_of};
pub use words::{SlotWords, StepWords, word};
