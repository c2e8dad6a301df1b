//! What a map can be asked, and what it can answer.

/// What is kept at a key.
pub type Value = u64;

/// One call on a map.
#[derive(Clone, Copy, Debug, PartialEq, Eq)]
pub enum Call {
    /// Look a key up.
    Get { key: u64 },

    /// Set the value at a key, whether the key was there or not.
    Put { key: u64, value: Value },

    /// Take a key out, with its value.
    Remove { key: u64 },

    /// Find what stands next, from a key on.
    Next { from: u64 },
}

/// What stands next, from a key on.
#[derive(Clone, Copy, Debug, PartialEq, Eq)]
pub enum Near {
    /// This pair, and nothing from the key on up to it.
    Row { key: u64, value: Value },

    /// Nothing up to `hi`, which is included.
    Gap { hi: u64 },
}

/// What a call is answered.
#[derive(Clone, Copy, Debug, PartialEq, Eq)]
pub enum Answer {
    /// The value at the key of a `Get`, where it has one.
    Value(Option<Value>),

    /// The value that a `Put` replaced or a `Remove` took out, where its key had one.
    Old(Option<Value>),

    /// What a `Next` found.
    Near(Near),

    /// There was no room for the new key of a `Put`, and nothing was changed.
    Full,

    /// The version of the record of a `Put` or a `Remove` is exhausted, and nothing was changed.
    Worn,
}
