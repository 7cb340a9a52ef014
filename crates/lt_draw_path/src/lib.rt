//! Which path a draw takes next, in a tree that is never made.
//!
//! [`DrawPath`] is where a draw is: it keeps of the tree one path, and the parts that are still to be tried. A walk along
//! the path asks it at each choice where to go on, and tells it how many nodes stand before the parts. So a draw goes to the
//! leaves in the order in which it arrives at them, looks at no node but those on its way, and takes no memory.
//!
//! `specs/Order.antt` says in which order a draw arrives at the leaves of a tree.
#![tactic(auto)]

mod draw_path;
mod tries;

pub use draw_path::{DrawPath, Entry};
