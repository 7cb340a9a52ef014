//! How large the tree of what a term offers is.

ghost use Rattle.std.specs.Prelude.{◌≤◌};

use lt_tree_size::Tally;

/// How large the tree of what a term offers is.
#[derive(Clone, Copy)]
pub struct Extent {
    /// Its tally.
    pub tally: Tally,

    /// Of a term with a handler, how many leaves of its part raise the exception: exact up to 65,537, which stands for more.
    pub raised: u32,

    pub ghost few: { raised ≤ 65537 },
}
