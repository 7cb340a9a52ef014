//! The conjuncts of constraints, and the atoms of each.
//!
//! [`parts`] has a [`Part`] for each conjunct of a constraint: the conjunct as a formula with a flag for each of its
//! atoms, and the numbers of these. After a load, [`Space::atom`](lt_space::Space::atom) says what each of them is in
//! the instant, and [`parts_agree`] that the parts then say what the space's formula says.
//!
//! [`most_atoms`] is the greatest number of atoms that one conjunct has. [`has_too_many_atoms`] tells whether some
//! constraint of a scenario has a conjunct of more than [`MOST_ATOMS`].
//!
//! `specs/Outline.antt` says what conjuncts, atoms and outlines are, `specs/Part.antt` what a part is, and
//! `specs/Agreement.antt` what parts say of an instant. `specs/Atoms.antt` counts the atoms of conjuncts, and
//! `specs/Scenario.antt` says which scenarios have too many in one.
#![tactic(auto)]

mod arranging;
mod collecting;
mod dividing;
mod laws;
mod limit;
mod outlining;
mod part;

pub use dividing::{most_atoms, parts};
pub use laws::{
    comparisons_hold_exactly, loaded_holds, parts_agree, parts_have_its_atoms, same_is_one,
};
pub use limit::{MOST_ATOMS, has_too_many_atoms};
pub use part::Part;
