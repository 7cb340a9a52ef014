//! Plants to try the tester with: small programs that reply to lines.
//!
//! A plant is a controller, or an oracle, whose rule is known: [`Plant::Thermostat`], [`Plant::Gate`],
//! [`Plant::Constant`] and [`Plant::Safe`]. [`reply`] answers one line, and [`serve`] all lines of a link. No call
//! takes memory.
#![tactic(auto)]

mod digits;
mod ending;
mod line;
mod parts;
mod plant;
mod playing;
mod real;
mod serving;

pub use plant::{Plant, plant_of};
pub use playing::{Playing, reply};
pub use serving::serve;
