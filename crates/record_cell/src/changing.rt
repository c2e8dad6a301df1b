//! A record is changed in place, under its version lock.
ghost use Rattle.std.specs.Prelude.{◌≡◌, MatchResult};
ghost use Rattle.word_layout.specs.State.{IsLockable};
ghost use Rattle.index_machine.specs.declared.events.Action.TheVariants.{Lock};
ghost use Rattle.index_rule.specs.Hands.{Makes};
ghost use Rattle.record_cell.specs.Finding.{CanStepAt, IsReadyAt};
ghost use Rattle.record_cell.specs.Writes.{Writes, WriteTells, put_at, remove_at};
ghost use Rattle.record_cell.specs.Locking.{HasLocked, IsRefused, LosesRace};

use crate::answers::Wrote;
use crate::finding::{Condition, find};
use index_rule::{Board, Hand, Swap};
use word_layout::LAST_VERSION;

/// Gives the record of the place this value, tried once, if it is no tombstone.
///
/// It takes effect at the store that unlocks the record.
#[inline]
pub fn update(board: &Board, hand: &mut Hand, place: u32, value: u64) -> Wrote
    requires { IsReadyAt board.now hand.old place }
    ensures number { hand.new.number ≡ hand.old.number }
    ensures ready { IsReadyAt board.now hand.new place }
    ensures steps { Writes board.now hand.old place (put_at board.now hand.old place value)
        result hand.new }
    ensures tells { WriteTells board.now hand.old place (put_at board.now hand.old place value)
        result hand.new }
{
    match lock_live(board, hand, place) {
        Ok(at) => {
            let old = board.load_value(hand, at);
            board.store_value(hand, at, value);
            board.store_unlock(hand, at, false);
            Wrote::Done { old: Some(old) }
        }
        Err(refusal) => refusal,
    }
}

/// Makes the record of the place a tombstone, tried once, if it is none.
///
/// It takes effect at the store that unlocks the record.
#[inline]
pub fn kill(board: &Board, hand: &mut Hand, place: u32) -> Wrote
    requires { IsReadyAt board.now hand.old place }
    ensures number { hand.new.number ≡ hand.old.number }
    ensures ready { IsReadyAt board.now hand.new place }
    ensures steps { Writes board.now hand.old place (remove_at board.now hand.old place)
        result hand.new }
    ensures tells { WriteTells board.now hand.old place (remove_at board.now hand.old place)
        result hand.new }
{
    match lock_live(board, hand, place) {
        Ok(at) => {
            let old = board.load_value(hand, at);
            board.store_unlock(hand, at, true);
            Wrote::Done { old: Some(old) }
        }
        Err(refusal) => refusal,
    }
}

/// Takes the version lock of the record of a place, if it has a value, and answers where it is.
#[inline]
fn lock_live(board: &Board, hand: &mut Hand, place: u32) -> Result<u32, Wrote>
    requires { IsReadyAt board.now hand.old place }
    ensures number { hand.new.number ≡ hand.old.number }
    ensures answer { MatchResult result (λ at. HasLocked board.now hand.old place at hand.new)
        (λ refusal. IsRefused board.now hand.old place refusal hand.new) }
{
    let record = find(board, hand, place);
    match Condition::read(record.word) {
        Condition::Locked => Err(Wrote::Locked {
            place: record.place,
            word: record.word,
        }),
        Condition::Tombstone { .. } => Err(Wrote::Gone { word: record.word }),
        Condition::Live { version } if version < LAST_VERSION => {
            lock(board, hand, record.place, record.word)
        }
        Condition::Live { .. } => Err(Wrote::Worn {
            place: record.place,
            word: record.word,
        }),
    }
}

/// Takes the version lock by the state word that was loaded.
#[inline]
pub(crate) fn lock(board: &Board, hand: &mut Hand, place: u32, word: u64) -> Result<u32, Wrote>
    requires can_step { CanStepAt board.now hand.old place }
    requires lockable { IsLockable word }
    ensures number { hand.new.number ≡ hand.old.number }
    ensures answer { MatchResult result
        (λ at. (at ≡ place) × Makes board.now hand.old (Lock place word) hand.new)
        (λ refusal. LosesRace board.now hand.old place word refusal hand.new) }
{
    match board.swap_lock(hand, place, word) {
        Swap::Done => Ok(place),
        Swap::Found(found) => Err(Wrote::Raced {
            place,
            expected: word,
            found,
        }),
    }
}
