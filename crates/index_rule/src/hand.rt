//! What one thread steps with.
ghost use Rattle.std.specs.Prelude.{◌≡◌, ◌%◌, ◌^◌, [], ◌∷◌};
ghost use Rattle.index_machine.specs.Sections.{crossings};
ghost use Rattle.index_rule.specs.Rule.{IsFollowing, KeepsLockedWord};

use crate::rule::Place;

/// The right of one caller, or of the keeper of one part, to make steps on one board.
///
/// It may move to another thread. At run time it is its number, its present epoch
/// word and the state word that it locked last.
#[derive(Drop)]
pub struct Hand {
    pub(crate) seat: Place,
    pub(crate) number: u32,
    pub(crate) epoch: u64,
    // The state word that a caller locked last. The unlock stores the one of the next version.
    pub(crate) locked: u64,
    ghost mine: { seat.me.0.numbers ≡ number ∷ [] },
    ghost counted: { epoch ≡ crossings number seat.me.0.known % 2 ^ 64 },
    ghost following: { IsFollowing seat.me.0 },
    ghost locks: { KeepsLockedWord seat.me.0 number locked },
    ghost bare: { seat.me.1 ≡ [] },
}

impl Hand {
    /// A caller's number, from 0. The keepers' numbers follow those of the callers, by their parts.
    #[inline]
    pub fn number(&self) -> u32
        ensures { result ≡ self.now.number }
    {
        self.number
    }
}
