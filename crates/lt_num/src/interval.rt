//! Intervals of raw numbers.

/// The raw numbers from `low` to `high`, both included; none where `low` is over `high`.
#[derive(Clone, Copy, Debug, PartialEq, Eq)]
pub struct Interval {
    /// The least of them.
    pub low: i64,

    /// The greatest of them.
    pub high: i64,
}
