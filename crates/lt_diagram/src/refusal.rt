//! Why a formula gets no diagram.

/// Why there is no diagram.
#[derive(Clone, Copy, Debug, PartialEq, Eq)]
pub enum DiagramRefusal {
    /// More than 16 flags were asked for. It comes whatever the formula says of them.
    TooManyAtoms,

    /// Memory ran out.
    Memory,
}
