//! A keeper gives a row back to the free stack.
ghost use Rattle.std.specs.Prelude.{◌≡◌};
ghost use Rattle.index_machine.specs.Keepers.{IsKeeper};
ghost use Rattle.index_machine.specs.Rows.{Holds};
ghost use Rattle.index_machine.specs.ObservedHeads.{IsUnobserved};
ghost use Rattle.index_rule.specs.Hands.{IsHandOf, known, opening_of};
ghost use Rattle.index_rule.specs.OwnRows.{place_of_retired};
ghost use Rattle.row_arena.specs.Giving.{GivesRow};

use index_rule::{Board, Hand, OwnRow, RetiredRow, Swap};
use word_layout::link_word;

/// What `give` did.
pub enum Given {
    /// The row is free.
    Done,
    /// The head was `expected`, and `found` when it was to be exchanged. The row comes back.
    Raced {
        row: RetiredRow,
        expected: u64,
        found: u64,
    },
}

/// Pushes the row over the head, tried once. It takes effect at the exchange of the head.
///
/// No caller may still rely on the row, so a grace period has to be over before.
#[inline]
pub fn give(board: &Board, hand: &mut Hand, mut row: RetiredRow) -> Given
    requires hand { IsHandOf board.now hand.old }
    requires keeper { IsKeeper (opening_of board.now) hand.old.number }
    requires held { Holds (opening_of board.now) hand.old.number (place_of_retired row)
        (known hand.old) }
    requires unobserved { IsUnobserved (opening_of board.now) (place_of_retired row)
        (known hand.old) }
    ensures hand { IsHandOf board.now hand.new }
    ensures number { hand.new.number ≡ hand.old.number }
    ensures steps { GivesRow board.now hand.old row result hand.new }
{
    let head = board.load_free(hand);
    let link = link_word(row.place());
    board.store_private(hand, &mut row, link, head);
    match board.swap_free_push(hand, &mut row, head) {
        Swap::Done => {
            row.forget();
            Given::Done
        }
        Swap::Found(found) => Given::Raced {
            row,
            expected: head,
            found,
        },
    }
}
