//! The words of a group's header, which stand before its array.
ghost use Rattle.std.specs.Prelude.{◌≡◌};
ghost use Rattle.word_layout.specs.Headers.{number_of, IsHeaderWord};

/// What a word of a group's header holds.
#[derive(Clone, Copy, Debug, PartialEq, Eq)]
pub enum HeaderWord {
    /// The least key of the group's key range.
    Pivot,
    /// The number of records in the array.
    Size,
    /// The greatest error of the line through the array's keys.
    LineError,
    /// How many lanes the delta buffer has: 1 to 8 in a group that is in use.
    Lanes,
    /// A [`Phase`](crate::Phase).
    Phase,
    /// The number of the next group plus 1, or 0 behind the last.
    Next,
    /// Not in use, and 0.
    FirstSpare,
    /// Not in use, and 0.
    SecondSpare,
    /// The place of the first row of a lane of the delta buffer, or 0.
    Head { lane: u32 },
    /// The least key of a lane, or 0 where there is no such lane.
    Cut { lane: u32 },
}

impl HeaderWord {
    /// Its number among the words of a header, from 0, as [`Layout::header`](crate::Layout::header)
    /// counts them.
    #[inline]
    pub fn number(self) -> u32
        requires { IsHeaderWord self }
        ensures { result ≡ number_of self }
    {
        match self {
            HeaderWord::Pivot => 0,
            HeaderWord::Size => 1,
            HeaderWord::LineError => 2,
            HeaderWord::Lanes => 3,
            HeaderWord::Phase => 4,
            HeaderWord::Next => 5,
            HeaderWord::FirstSpare => 6,
            HeaderWord::SecondSpare => 7,
            HeaderWord::Head { lane } => 8 + lane,
            HeaderWord::Cut { lane } => 16 + lane,
        }
    }
}
