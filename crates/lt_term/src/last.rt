//! What a local variable had in the instant before.

use lt_num::Value;

/// The value that a local variable had in the instant before.
#[derive(Clone, Copy)]
pub enum Last {
    /// It had none: its scope is entered in this instant.
    First,

    /// This one.
    Kept(Value),
}
