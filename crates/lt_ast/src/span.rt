//! Places in a text.

/// A stretch of a text: the places of its first byte and of the byte after its last one, from 0.
///
/// A tree holds many, so a place has 32 bits: no text of 2^32 bytes or more is read.
#[derive(Clone, Copy, Debug, PartialEq, Eq)]
pub struct Span {
    /// The place of the first byte.
    pub start: u32,

    /// The place after the last byte.
    pub end: u32,
}

impl Span {
    ghost use Rattle.std.specs.Prelude.{◌≡◌};
    ghost use Rattle.lt_ast.specs.Places.{across};

    /// From where this one begins to where another one ends.
    pub fn to(self, other: Span) -> Span
        ensures { result ≡ across self other }
    {
        Span {
            start: self.start,
            end: other.end,
        }
    }
}
