//! What a call answers that came to no end.
ghost use Rattle.std.specs.Prelude.{◌≡◌, Some};
ghost use Rattle.tried_calls.specs.declared.tried.Tried.TheVariants.{Again};
ghost use Rattle.tried_calls.specs.declared.tried.Why.TheVariants.{Raced};
ghost use Rattle.word_layout.specs.declared.phase.Phase.TheVariants as phase;
ghost use Rattle.word_layout.specs.Phase.{word_of_phase};
ghost use Rattle.point_calls.specs.Changing.{IsRefusal, frozen_again, refusal_of};

use record_cell::Wrote;
use tried_calls::{Tried, Why};
use word_layout::{Phase, state_word};

/// The answer of a call that lost the exchange of the word at this address.
#[inline]
pub(crate) fn raced(place: u32, expected: u64, found: u64) -> Tried<Option<u64>>
    ensures { result ≡ Again (Raced place expected found) }
{
    Tried::Again(Why::Raced {
        place,
        expected,
        found,
    })
}

/// The answer of a call that met a frozen group.
#[inline]
pub(crate) fn frozen(group: u32) -> Tried<Option<u64>>
    ensures { result ≡ frozen_again group (word_of_phase phase.Frozen) }
{
    Tried::Again(Why::Frozen {
        group,
        word: Phase::Frozen.word(),
    })
}

/// The answer of a call whose change of a record was refused so.
#[inline]
pub(crate) fn refused(wrote: Wrote) -> Tried<Option<u64>>
    requires { IsRefusal wrote }
    ensures { refusal_of wrote ≡ Some result }
{
    match wrote {
        Wrote::Locked { place, word } => Tried::Again(Why::Locked { place, word }),
        Wrote::Raced {
            place,
            expected,
            found,
        } => raced(state_word(place), expected, found),
        Wrote::Worn { place, word } => Tried::Worn { place, word },
        _ => unreachable!(),
    }
}
