//! A caller takes a row from the free stack and fills it.
ghost use Rattle.std.specs.Prelude.{◌≡◌};
ghost use Rattle.index_machine.specs.Rows.{Holds, HoldsNone};
ghost use Rattle.index_machine.specs.Conditions.{IsReading, MayLeave};
ghost use Rattle.index_rule.specs.Hands.{IsHandOf, known, opening_of};
ghost use Rattle.index_rule.specs.OwnRows.{place_of_private};
ghost use Rattle.row_arena.specs.Fullness.{RowsAreUsedUp};
ghost use Rattle.row_arena.specs.Taking.{Fills, TakesRow, HoldsTaken};

use index_rule::{Board, Hand, OwnRow, PrivateRow, Swap};
use word_layout::{State, state_word, value_word};

/// What `take` found.
pub enum Taken {
    /// This row is the caller's own.
    Row(PrivateRow),
    /// The head was 0: no row is free.
    Empty,
    /// The head was `expected`, and `found` when it was to be exchanged.
    Raced { expected: u64, found: u64 },
}

/// Takes the first free row, tried once. It takes effect at the exchange of the head.
///
/// The row's link is still the one that was loaded where the head is: no row is given back while a
/// caller relies on it.
#[inline]
pub fn take(board: &Board, hand: &mut Hand) -> Taken
    requires hand { IsHandOf board.now hand.old }
    requires reading { IsReading (opening_of board.now) hand.old.number (known hand.old) }
    requires none { HoldsNone (opening_of board.now) hand.old.number (known hand.old) }
    ensures hand { IsHandOf board.now hand.new }
    ensures number { hand.new.number ≡ hand.old.number }
    ensures steps { TakesRow board.now hand.old result hand.new }
    ensures reading { IsReading (opening_of board.now) hand.new.number (known hand.new) }
    ensures may_leave { MayLeave (opening_of board.now) hand.old.number (known hand.old) →
        MayLeave (opening_of board.now) hand.new.number (known hand.new) }
    ensures holds { HoldsTaken (opening_of board.now) hand.new.number result (known hand.new) }
    ensures used_up { result ≡ Taken.Empty → RowsAreUsedUp (opening_of board.now) (known hand.new) }
{
    let head = board.load_free(hand);
    if head == 0 {
        return Taken::Empty;
    }
    let place = head as u32;
    let next = board.load_free_link(hand, place);
    match board.swap_free_pop(hand, head, next) {
        Swap::Done => Taken::Row(PrivateRow::of(board, hand, place)),
        Swap::Found(found) => Taken::Raced {
            expected: head,
            found,
        },
    }
}

/// Stores a key, a value and a state that is neither locked nor removed, of the first version.
#[inline]
pub fn fill(board: &Board, hand: &mut Hand, row: &mut PrivateRow, key: u64, value: u64)
    requires hand { IsHandOf board.now hand.old }
    requires reading { IsReading (opening_of board.now) hand.old.number (known hand.old) }
    requires held { Holds (opening_of board.now) hand.old.number (place_of_private row.old)
        (known hand.old) }
    ensures hand { IsHandOf board.now hand.new }
    ensures number { hand.new.number ≡ hand.old.number }
    ensures row { row.new ≡ row.old }
    ensures reading { IsReading (opening_of board.now) hand.new.number (known hand.new) }
    ensures may_leave { MayLeave (opening_of board.now) hand.old.number (known hand.old) →
        MayLeave (opening_of board.now) hand.new.number (known hand.new) }
    ensures filled { Fills board.now hand.old (place_of_private row.old) key value hand.new }
{
    let place = row.place();
    let version = board.layout().limits().first_version;
    let state = State::Direct {
        version,
        locked: false,
        removed: false,
    };
    board.store_private(hand, row, place, key);
    board.store_private(hand, row, value_word(place), value);
    board.store_private(hand, row, state_word(place), state.word());
}
