//! Counters.

ghost use Rattle.std.specs.Prelude.{◌≤◌};
ghost use Rattle.lt_formula.specs.Limits.{most_turns};

/// How often a counted loop turns.
#[derive(Clone, Copy)]
pub struct Counter {
    /// The least number of turns.
    pub least: u64,

    /// The greatest number of turns: at least the least one, and at most 1,000,000.
    pub most: u64,

    pub ghost ordered: { least ≤ most },
    pub ghost few: { most ≤ most_turns },
}
