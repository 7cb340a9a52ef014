//! Bounds on differences of variables, and their closure.
//!
//! A [`Matrix`] has how much one variable may be over another; variable 0 is the constant 0, so that a bound over it is
//! an upper bound of a variable, and one of it over a variable is a lower bound. [`close`](Matrix::close) finds out whether
//! the bounds contradict each other, and else the bound that follows for each two variables; then
//! [`least_point`](Matrix::least_point) gives the least values that meet them all.
//!
//! Closing goes by Floyd's and Warshall's method in place: each variable in turn is a pivot, through which two bounds add
//! up to a third. It ends at the first pivot behind which some variable would have to be under itself. So sums stay small, and
//! no range of the variables is asked for.
//!
//! `specs/Bounds.antt` says which values meet bounds, `specs/Walks.antt` when bounds contradict each other, and
//! `specs/Closing.antt` what stating and closing leaves.
#![tactic(auto)]

mod laws;
mod matrix;
mod relaxing;
mod square;

pub use laws::{bound_adds_its_own, negative_cycle_unsolved, no_bounds_allow_all};
pub use matrix::Matrix;
