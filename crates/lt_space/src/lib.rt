//! What constraints say of the outputs and locals of an instant.
//!
//! [`formula_of`] is what a constraint says of them: a [`Formula`] whose [`Atom`]s are Boolean variables and
//! comparisons of linear forms. [`holds`] says where a formula holds, exactly. A [`Circuit`] has formulas as a list of
//! gates, in room that was reserved, and a [`Space`] loads the constraints of an instant as one, without memory.
//!
//! `specs/Meaning.antt` says which formula an expression is, `specs/Formula.antt` where formulas hold, and
//! `specs/Circuit.antt` which formula a gate is.
#![tactic(auto)]

mod building;
mod circuit;
mod forming;
mod forms;
mod formula;
mod holding;
mod loaded;
mod loading;
mod measures;
mod measuring;
mod memo;
mod noting;
mod refusal;
mod space;
mod visiting;
mod work;

pub use building::{connected, formula_of};
pub use circuit::{Circuit, Gate};
pub use forming::power_of_ten;
pub use formula::{Atom, Formula, Relation};
pub use holding::holds;
pub use loaded::Loaded;
pub use refusal::FormulaRefusal;
pub use space::Space;
