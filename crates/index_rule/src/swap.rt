//! The answers of exchanges that are tried once.
use crate::rows::PrivateRow;

/// What an exchange did.
#[derive(Clone, Copy, Debug, PartialEq, Eq)]
pub enum Swap {
    /// The word held the expected value and was exchanged.
    Done,
    /// The word held this other value and was left.
    Found(u64),
}

/// What the exchange of a link did.
pub enum Linked {
    /// The link led to the expected place, and leads to the row since.
    Done,
    /// The link held this other word and was left. The row is the caller's own still.
    Raced { row: PrivateRow, found: u64 },
}
