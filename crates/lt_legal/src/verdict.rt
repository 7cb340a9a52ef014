//! What is said of a trace.

/// What is said of a trace.
#[derive(Clone, Copy, Debug, PartialEq, Eq)]
pub enum Verdict {
    /// It is a run of the scenario.
    Legal,

    /// It is none: this step follows from no run that the steps before it are told of; or, where
    /// this is the number of steps and 1 more, none of those may end so.
    Illegal { step: u64 },

    /// After this step a run may stand in more ways than a check takes.
    TooMany { step: u64 },

    /// A leaf has to be searched for this step, or for the end, and the search was given up: its need is over the budget.
    Budget { need: u128, step: u64 },
}
