//! What the walk through a lane of a buffer answers.

/// Where a key is in its lane, or belongs.
#[derive(Clone, Copy, Debug, PartialEq, Eq)]
pub enum Found {
    /// The row of the key.
    Row(u32),
    /// The key had no row: the link behind `before`, or the lane's head where this is 0, led to `next`, or
    /// to no row where this is 0.
    Gap { before: u32, next: u32 },
}
