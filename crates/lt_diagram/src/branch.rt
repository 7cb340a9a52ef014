//! One branch of a diagram.

/// What is asked at one place of a diagram, and where it goes on. A side is a number: 0 for false, 1 for true, or n + 2
/// for the branch at place n.
#[derive(Clone, Copy, Debug, PartialEq, Eq, Hash)]
pub struct Branch {
    /// The number of the flag that is asked.
    pub atom: u32,

    /// Where it goes on if the flag is false.
    pub no: u32,

    /// Where it goes on if the flag is true.
    pub yes: u32,
}
