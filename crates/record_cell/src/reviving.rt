//! A tombstone of a buffer comes to life again.
//!
//! No other place of its key has a value while the version lock of the tombstone is held: a tombstone
//! of an array stays one, and nobody may insert into an old group's buffer.
ghost use Rattle.std.specs.Prelude.{◌≡◌};
ghost use Rattle.index_rule.specs.Hands.{known, opening_of};
ghost use Rattle.record_cell.specs.Finding.{IsReadyAt};
ghost use Rattle.record_cell.specs.Reviving.{BringsToLife, MayRevive, RevivalTells};

use crate::answers::Wrote;
use crate::changing::lock;
use crate::finding::Condition;
use index_rule::{Board, Hand};
use word_layout::LAST_VERSION;

/// Gives the tombstone at a row of a buffer this value, tried once.
///
/// A row does not forward, so the record is there. It takes effect at the store that unlocks it.
#[inline]
pub fn revive(board: &Board, hand: &mut Hand, place: u32, value: u64) -> Wrote
    requires ready { IsReadyAt board.now hand.old place }
    requires may { MayRevive (opening_of board.now) hand.old.number place (known hand.old) }
    ensures number { hand.new.number ≡ hand.old.number }
    ensures ready { IsReadyAt board.now hand.new place }
    ensures steps { BringsToLife board.now hand.old place value result hand.new }
    ensures tells { RevivalTells board.now hand.old place value result hand.new }
{
    let word = board.load_state(hand, place);
    match Condition::read(word) {
        Condition::Locked => Wrote::Locked { place, word },
        Condition::Live { .. } => Wrote::Live { word },
        Condition::Tombstone { version } if version < LAST_VERSION => {
            match lock(board, hand, place, word) {
                Ok(_) => {
                    board.store_value(hand, place, value);
                    board.store_unlock(hand, place, false);
                    Wrote::Done { old: None }
                }
                Err(refusal) => refusal,
            }
        }
        Condition::Tombstone { .. } => Wrote::Worn { place, word },
    }
}
