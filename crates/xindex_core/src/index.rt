//! What an opened index is, and why there is none.
use crate::keeper::Keeper;
use crate::pass::Pass;
use index_rule::Board;
use std::alloc::AllocError;
use std::error::Error;
use std::fmt;

/// An ordered index from u64 keys to u64 values, which many threads share by reference.
///
/// At run time it is one table of words.
#[derive(Drop)]
pub struct Index {
    pub(crate) board: Board,
}

/// An index of one part as it was opened, and all that steps on it.
#[derive(Drop)]
pub struct Opened {
    pub index: Index,
    /// One for each caller, by rising numbers from 0.
    pub passes: Vec<Pass>,
    pub keeper: Keeper,
}

/// An index of several parts as it was opened, and all that steps on it.
#[derive(Drop)]
pub struct OpenedParts {
    pub index: Index,
    /// One for each caller, by rising numbers from 0.
    pub passes: Vec<Pass>,
    /// One for each part, by rising keys.
    pub keepers: Vec<Keeper>,
}

/// Why no index was opened.
#[derive(Clone, Copy, Debug, PartialEq, Eq)]
pub enum OpenError {
    /// The limits break this rule, and keep those before it.
    BadLimit { number: u32 },
    /// The key of the row at this position is not above the one before it; those before it rise.
    Unsorted { at: usize },
    /// The plan shares out the rows of a part among so many groups, and a part has fewer; it is the first such part.
    TooMany { need: u64, have: u64 },
    /// There was not enough memory.
    Memory,
}

impl fmt::Display for OpenError {
    fn fmt<W: fmt::Write>(&self, f: &mut fmt::Formatter<W>) -> fmt::Result {
        match self {
            OpenError::BadLimit { number } => write!(f, "bad limit {number}"),
            OpenError::Unsorted { at } => write!(
                f,
                "the key of row {at} is not above the one before it"
            ),
            OpenError::TooMany { need, have } => {
                write!(f, "the rows need {need} groups and there are {have}")
            }
            OpenError::Memory => write!(f, "out of memory"),
        }
    }
}

impl Error for OpenError {}

impl From<AllocError> for OpenError {
    ghost use Rattle.std.specs.Prelude.{◌≡◌};
    ghost use Rattle.xindex_core.specs.declared.index.OpenError.TheVariants.{Memory};

    ghost from_gives = { λ _ cause. cause ≡ Memory };

    fn from(_error: AllocError) -> OpenError {
        OpenError::Memory
    }
}
