//! Why a reply is refused.

/// What is wrong with a reply.
#[derive(Clone, Copy, Debug, PartialEq, Eq)]
pub enum ValueFault {
    /// A word writes no value of its slot's kind.
    NotAValue,

    /// A value is outside its slot's range, or past 10^12 in raw size.
    OutOfRange,

    /// The reply takes more bytes than it may.
    TooLong,
}
