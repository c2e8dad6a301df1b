//! What a line can ask for.

/// What the map holds at a key.
pub type Value = u64;

/// What one line asks for.
#[derive(Clone, Copy, Debug, PartialEq, Eq)]
pub enum Request {
    /// Tell the value at a key.
    Get { key: u64 },
    /// Set the value at a key, which may be new.
    Put { key: u64, value: Value },
    /// Take a key out of the map.
    Remove { key: u64 },
    /// End the session.
    Quit,
    /// Nothing that can be done, and why.
    Bad(Reason),
}

/// Why a line asks for nothing that can be done. Where several reasons hold, the first in this
/// order is given.
#[derive(Clone, Copy, Debug, PartialEq, Eq)]
pub enum Reason {
    /// The line has more than 80 bytes, of which one carriage return at its end is none.
    Long,
    /// There is no word in the line.
    Empty,
    /// The first word is none of `get`, `put`, `remove` and `quit`, in small letters.
    Word,
    /// More or fewer words come after the keyword than it takes.
    Count,
    /// Some word after the keyword is no number.
    Number,
    /// Some number is greater than it may be.
    Range,
}
