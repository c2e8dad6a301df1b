//! The four words of a record place, in an array or a record row.
//!
//! A place is named by the address of its key word, so the key word needs no call.
ghost use Rattle.std.specs.Prelude.{◌≡◌, ◌+◌, ◌^◌, ◌<◌};
ghost use Rattle.word_layout.specs.Places.{part_address};
ghost use Rattle.word_layout.specs.declared.places.Part.TheVariants.{Value, State, Link};

/// One of the four words of a place.
#[derive(Clone, Copy, Debug, PartialEq, Eq)]
pub enum Part {
    Key,
    Value,
    /// A [`State`](crate::State).
    State,
    /// The place of the next row in a list, or 0. In an array it is 0.
    Link,
}

/// The value word of a place.
#[inline]
pub fn value_word(place: u32) -> u32
    requires { place < 2 ^ 28 }
    ensures { result ≡ part_address place Value }
{
    place + 1
}

/// The state word of a place, which is a [`State`](crate::State).
#[inline]
pub fn state_word(place: u32) -> u32
    requires { place < 2 ^ 28 }
    ensures { result ≡ part_address place State }
{
    place + 2
}

/// The link word of a place: the place of the next row, or 0.
#[inline]
pub fn link_word(place: u32) -> u32
    requires { place < 2 ^ 28 }
    ensures { result ≡ part_address place Link }
{
    place + 3
}
