//! Record rows that one hand alone can reach.
//!
//! Neither kind can be dropped by accident, since its row would be lost to the index.

/// A row that was taken from the free stack, to be linked into a buffer or kept for a later
/// insertion.
pub struct PrivateRow {
    pub(crate) place: u32,
}

/// A row of a reclaimed buffer, to be given back to the free stack.
pub struct RetiredRow {
    pub(crate) place: u32,
}
