//! Numbers: whole and fixed-point values, rounded once, exactly.
//!
//! A [`Fixed`] holds a raw number: a real value in units of 10 to the power of minus `decimals`, or an
//! int itself, where `decimals` is 0. Each operation gives the whole raw number nearest to the exact
//! result, halves away from zero, or [`Arith::Overflow`] where that one is past 10^12 in size. Only the
//! [`quotient`] of two ints drops its fraction, and the [`remainder`] is what it leaves.
//!
//! A [`Value`] is a Boolean or such a number, of one of three [`Kind`]s, and each stands for a raw
//! number: 0 and 1 for false and true. An [`Interval`] has the raw numbers from one to another, and a [`Range`] those
//! from one on that are a step apart.
//!
//! The rules and their examples are in `docs/LANGUAGE.md`, under *Numbers*; `specs/Rounding.antt` says
//! what *nearest* means, `specs/Literal.antt` what the texts are, and `specs/Value.antt`,
//! `specs/Interval.antt` and `specs/Range.antt` which raw numbers values, intervals and ranges have.
#![tactic(auto)]

mod arithmetic;
mod fault;
mod fixed;
mod interval;
mod kind;
mod laws;
mod printing;
mod range;
mod reading;
mod value;
mod whole;

pub use arithmetic::{add, div, mul, sub};
pub use fault::Arith;
pub use fixed::Fixed;
pub use interval::Interval;
pub use kind::Kind;
pub use laws::{
    answer_is_one, nearest_is_one, points_are_those, points_of_step_one, raws_are_within,
    test_tells_points, text_reads_back,
};
pub use printing::print;
pub use range::Range;
pub use reading::read;
pub use value::Value;
pub use whole::{product, quotient, remainder};
