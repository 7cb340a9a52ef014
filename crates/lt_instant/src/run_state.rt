//! Where a run stands.

use crate::explorer::Explorer;
use crate::past::Past;

/// Where a run stands between two instants.
#[derive(Drop)]
pub struct RunState {
    /// What is still to be done, and what a draw in it needs.
    pub explorer: Explorer,

    /// What is behind it.
    pub past: Past,
}
