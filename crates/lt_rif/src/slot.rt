//! What a reply has to hold.

use lt_num::{Interval, Kind};

/// A place for one value of a reply.
#[derive(Clone, Copy, PartialEq, Eq)]
pub struct Slot {
    /// The kind of its value.
    pub kind: Kind,

    /// The raw numbers that its value may have; all up to 10^12 in size where there is none.
    pub range: Option<Interval>,

    /// Whether its value is kept.
    pub keep: bool,
}
