//! What a walk through the lane of a key left of it.

use sorted_group::Lane;

/// The row of a key.
#[derive(Clone, Copy)]
pub(crate) struct FoundRow {
    pub(crate) group: u32,
    pub(crate) place: u32,
    pub(crate) key: u64,
}

/// Where a key without a row belongs: behind the row at `before`, or the head of its lane where this is
/// 0, and ahead of the row at `next`, or of none where this is 0.
#[derive(Clone, Copy)]
pub(crate) struct Gap {
    pub(crate) lane: Lane,
    pub(crate) before: u32,
    pub(crate) next: u32,
    pub(crate) key: u64,
}

/// Where a key without a value can come into a buffer.
#[derive(Clone, Copy)]
pub(crate) enum Missed {
    /// Its row is a tombstone, by this state word.
    Tombstone { row: FoundRow, word: u64 },
    /// It had no row.
    Between(Gap),
}
