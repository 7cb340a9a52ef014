//! The walk to a leaf of what a body with marks offers.
//!
//! [`reach`] walks from the root along a path, and where this ends at a choice, its [`Chooser`] says which part to go on with.
//! The walk takes along what each leaf weighs in the part of the tree at hand: as many nodes as stand in its place in the whole
//! tree. So it can tell the chooser how many nodes stand before each part, makes no tree, and looks at no part beside its way but
//! by how large that is. It takes no memory.
#![tactic(auto)]

mod arriving;
mod chooser;
mod choosing;
mod leaf_weights;
mod reaching;
mod room;
mod weighing;

pub use chooser::Chooser;
pub use reaching::reach;
pub use room::weights_for;
