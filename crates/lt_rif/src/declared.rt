//! What a header declares.

use lt_num::Kind;

/// A variable as a header declares it.
#[derive(Drop)]
pub struct Declared {
    /// Its name.
    pub name: String,

    /// The kind of its values.
    pub kind: Kind,
}
