//! What a choice among the lanes of a buffer, and a search in an array, answer.

/// A lane of the buffer of a group.
#[derive(Clone, Copy, Debug, PartialEq, Eq)]
pub struct Lane {
    pub group: u32,
    /// Its number among the lanes of the buffer, from 0.
    pub number: u32,
}

/// Where a key is in the array of a group.
#[derive(Clone, Copy, Debug, PartialEq, Eq)]
pub enum Located {
    /// At this place.
    At(u32),
    /// In no place: this many keys of the array are smaller.
    Between(u32),
}
