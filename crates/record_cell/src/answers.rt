//! What the calls on one record answer.
//!
//! A `place` in an answer is the one whose state word is told: behind a forwarding pointer, the
//! place that it names.

/// What `read` found.
#[derive(Clone, Copy, Debug, PartialEq, Eq)]
pub enum Read {
    /// The record has this value.
    Live(u64),
    /// The record is a tombstone.
    Gone,
    /// The version lock was held, by this state word.
    Locked { place: u32, word: u64 },
    /// The record was changed between the two loads of its state word.
    Changed { place: u32, first: u64, second: u64 },
}

/// What a change of a record came to. All but `Done` change nothing.
#[derive(Clone, Copy, Debug, PartialEq, Eq)]
pub enum Wrote {
    /// The record was changed, where its key had this value, or none.
    Done {
        old: Option<u64>,
    },
    /// The record is a tombstone, by this state word.
    Gone {
        word: u64,
    },
    /// The record has a value, by this state word.
    Live {
        word: u64,
    },
    /// The version lock was held, by this state word.
    Locked {
        place: u32,
        word: u64,
    },
    /// The state word was `expected`, and `found` when it was to be locked.
    Raced {
        place: u32,
        expected: u64,
        found: u64,
    },
    /// The version is the last one, and no change can raise it.
    Worn {
        place: u32,
        word: u64,
    },
}
