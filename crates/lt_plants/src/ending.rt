//! How a service ends.

ghost use Rattle.std.specs.Prelude.{◌≡◌};
ghost use Rattle.lt_plants.specs.inner.Endings.{code_of};

/// How a service ends.
#[derive(Clone, Copy, Debug, PartialEq, Eq)]
pub enum Ending {
    /// The input ended.
    Ended,
    /// A line had no reply.
    NoReply,
    /// A line, or the rest, was too long.
    TooLong,
    /// As many bytes were taken as end a service.
    TooMany,
    /// The link failed.
    Failed,
}

impl Ending {
    /// The number that a service answers.
    pub fn code(self) -> u8
        ensures { result ≡ code_of self }
    {
        match self {
            Ending::Ended => 0,
            Ending::NoReply => 1,
            Ending::TooLong => 2,
            Ending::TooMany => 4,
            Ending::Failed => 9,
        }
    }
}
