//! What calls leave behind: changes of the map, and the entries of a caller's log.
//!
//! No program stores these. They are what contracts speak of.

use crate::Value;

/// A change of the map, with the caller that made it.
#[derive(Clone, Copy)]
pub enum Change {
    Put { caller: u32, key: u64, value: Value },
    Remove { caller: u32, key: u64 },
}

/// What an answered call leaves in its caller's log.
///
/// `place` is the number of changes that stand before the entry: the linearization point of its call.
#[derive(Clone, Copy)]
pub enum Entry {
    /// A change was made at this place of the history, where its key had the value `old`.
    Made {
        place: u64,
        change: Change,
        old: Option<Value>,
    },

    /// From `lo` to `hi`, both included, nothing stood but the pair found, whose key is `hi`.
    Look {
        place: u64,
        lo: u64,
        hi: u64,
        found: Option<(u64, Value)>,
    },
}
