//! A record is read.
//!
//! The value is that of the state word if this is the same before and after its load, as with a
//! sequence lock: each change raises the version.
ghost use Rattle.std.specs.Prelude.{◌≡◌};
ghost use Rattle.index_rule.specs.Moments.{AddsNoEntry};
ghost use Rattle.record_cell.specs.Finding.{IsReadyAt};
ghost use Rattle.record_cell.specs.Reads.{Reads, ReadTells};

use crate::answers::Read;
use crate::finding::{Condition, find};
use index_rule::{Board, Hand};

/// Reads the record of the place, tried once.
///
/// `Live` takes effect at the load of the value, and `Gone` at the load of the state word.
#[inline]
pub fn read(board: &Board, hand: &mut Hand, place: u32) -> Read
    requires { IsReadyAt board.now hand.old place }
    ensures number { hand.new.number ≡ hand.old.number }
    ensures ready { IsReadyAt board.now hand.new place }
    ensures steps { Reads board.now hand.old place result hand.new }
    ensures tells { ReadTells board.now hand.old place result hand.new }
    ensures log { AddsNoEntry hand.old hand.new }
{
    let record = find(board, hand, place);
    match Condition::read(record.word) {
        Condition::Locked => Read::Locked {
            place: record.place,
            word: record.word,
        },
        Condition::Tombstone { .. } => Read::Gone,
        Condition::Live { .. } => {
            let value = board.load_value(hand, record.place);
            let second = board.load_state(hand, record.place);
            if second == record.word {
                Read::Live(value)
            } else {
                Read::Changed {
                    place: record.place,
                    first: record.word,
                    second,
                }
            }
        }
    }
}
