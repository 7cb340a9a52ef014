//! Tightening of ranges by linear rows.
//!
//! A row is a sum of coefficients times variables and a constant that is to be at most 0. [`tighten`] moves the
//! ends of the variables' ranges as far as each row alone allows, and says where one of them would be left without
//! a number; no point that satisfies all rows is lost. [`least_of`] and [`greatest_of`] say between which values a
//! term lies.
//!
//! A box may also be one of places, which tell values by a scale: [`values_within`] and [`places_within`] go from places to
//! their values and back, and [`points_within`] leaves those values that a place has.
//!
//! `specs/Rows.antt` says what rows say, `specs/Tightening.antt` has the passes, and `specs/Places.antt` what places tell.
#![tactic(auto)]

mod laws;
mod places;
mod rows;
mod sums;
mod tightening;

pub use laws::no_point_is_lost;
pub use places::{multiple_under, places_within, points_within, value_at, values_within};
pub use rows::Rows;
pub use sums::{greatest_of, least_of};
pub use tightening::{Tight, cut_in_row, tighten};
