//! What a call that is tried once answers, and why it did not come to its end.
use std::fmt;

/// What a call came to.
#[derive(Clone, Copy, Debug, PartialEq, Eq)]
pub enum Tried<T> {
    /// It took effect, and this is its answer.
    Done(T),
    /// Nothing was changed, and the call may be tried again.
    Again(Why),
    /// Nothing was changed: no row was free for a new key.
    Full,
    /// Nothing was changed: the record at this place has the last version, by this state word.
    Worn { place: u32, word: u64 },
}

/// Why a call is to be tried again.
#[derive(Clone, Copy, Debug, PartialEq, Eq)]
pub enum Why {
    /// The version lock was held, by this state word.
    Locked {
        place: u32,
        word: u64,
    },
    /// The state word at the place was the first of these, and then the second.
    Changed {
        place: u32,
        first: u64,
        second: u64,
    },
    /// The group takes no new keys, by this phase word.
    Frozen {
        group: u32,
        word: u64,
    },
    /// The word at this address of the table was expected to be one and found to be another: a state
    /// word, a link, or at 0 the head of the free stack.
    Raced {
        place: u32,
        expected: u64,
        found: u64,
    },
}

impl fmt::Display for Why {
    fn fmt<W: fmt::Write>(&self, f: &mut fmt::Formatter<W>) -> fmt::Result {
        match self {
            Why::Locked { place, word } => {
                write!(
                    f,
                    "the record at {place} is locked: its state word is {word}"
                )
            }
            Why::Changed {
                place,
                first,
                second,
            } => {
                write!(
                    f,
                    "the record at {place} was changed: its state word was {first}, then {second}"
                )
            }
            Why::Frozen { group, word } => {
                write!(
                    f,
                    "group {group} takes no new keys: its phase word is {word}"
                )
            }
            Why::Raced {
                place,
                expected,
                found,
            } => {
                write!(
                    f,
                    "the word at {place} was to be {expected}, and was {found}"
                )
            }
        }
    }
}
