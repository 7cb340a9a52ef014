//! As what a phrase is expanded.

use crate::numbers::Numbers;

/// As what a phrase is expanded.
#[derive(Clone, Copy)]
pub(crate) enum Position {
    /// As an expression.
    Expression,

    /// As a trace, before which so much stands.
    Trace(Numbers),
}
