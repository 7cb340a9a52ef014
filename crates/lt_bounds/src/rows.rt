//! Linear rows over some variables.

/// Rows of `width` cells each: a raw coefficient for each variable, and the constant last. A row says that the sum
/// of the coefficients times the variables' raw numbers, and the constant, is at most 0.
#[derive(Drop)]
pub struct Rows {
    /// One more than there are variables.
    pub width: usize,

    /// The cells of the rows, one row after another.
    pub cells: Vec<i128>,
}
