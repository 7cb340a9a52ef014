//! What comes of one event.

use lt_loop::{PieceKind, Wants};
use lt_rif::Who;

/// What comes of one event of a run.
#[derive(Clone, Copy, PartialEq, Eq)]
pub enum Served {
    /// All that was put out was given to where it goes, but for a piece of the trace, which is left to whoever asked.
    Goes {
        /// What the run waits for now.
        wants: Wants,

        /// The kind of the last piece, where it is for the trace.
        traced: Option<PieceKind>,
    },

    /// The piece that was put out could not be sent to this side, but for a prefix.
    Broken(Who),
}
