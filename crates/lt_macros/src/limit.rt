//! What a scenario may be too large in.

/// What there may be only so much of in a scenario.
#[derive(Clone, Copy, Debug, PartialEq, Eq)]
pub enum Limit {
    /// Terms and expressions.
    Nodes,

    /// How deep terms stand in one another, or expressions.
    Depth,

    /// The alternatives of a choice.
    Children,

    /// Inputs, or outputs and locals.
    Variables,
}
