//! What a hand does with a row of its own.
ghost use Rattle.std.specs.Prelude.{◌≡◌, ℕ};
ghost use Rattle.index_machine.specs.Rows.{Holds};
ghost use Rattle.index_rule.specs.Hands.{IsHandOf, known, opening_of};
ghost use Rattle.index_rule.specs.OwnRows.{place_of_private, place_of_retired};

use crate::board::Board;
use crate::hand::Hand;
use crate::rows::{PrivateRow, RetiredRow};

/// A row that is one hand's own.
pub trait OwnRow {
    ghost place_of: { Self → ℕ };

    /// The number of the row's place.
    fn place(&self) -> u32
        ensures { result ≡ place_of self.now };
}

impl OwnRow for PrivateRow {
    ghost place_of = { place_of_private };

    #[inline]
    fn place(&self) -> u32 {
        self.place
    }
}

impl OwnRow for RetiredRow {
    ghost place_of = { place_of_retired };

    #[inline]
    fn place(&self) -> u32 {
        self.place
    }
}

impl PrivateRow {
    /// The token of a row that the hand holds.
    #[inline]
    pub fn of(board: &Board, hand: &Hand, place: u32) -> PrivateRow
        requires hand { IsHandOf board.now hand.now }
        requires held { Holds (opening_of board.now) hand.now.number place (known hand.now) }
        ensures { place_of_private result ≡ place }
    {
        PrivateRow { place }
    }

    /// Lets go of the token. A row that the hand holds then is out of use until the board is
    /// closed.
    #[inline]
    pub fn forget(self) {
        let PrivateRow { place: _ } = self;
    }
}

impl RetiredRow {
    /// Lets go of the token. A row that the hand holds then is out of use until the board is
    /// closed.
    #[inline]
    pub fn forget(self) {
        let RetiredRow { place: _ } = self;
    }
}
