//! Where the record of a place is.
ghost use Rattle.std.specs.Prelude.{◌≡◌};
ghost use Rattle.index_rule.specs.Hands.{known, opening_of};
ghost use Rattle.index_rule.specs.Moments.{AddsNoEntry};
ghost use Rattle.record_cell.specs.Finding.{CanStepAt, FollowsPointer, ForwardsTo};
ghost use Rattle.record_cell.specs.Finding.{IsFoundAt, IsReadyAt};
ghost use Rattle.record_cell.specs.Conditions.{IsRecordWord, SaysCondition};

use index_rule::{Board, Hand};
use word_layout::{State, says_locked, says_removed, version_in};

/// A record, by the place where it was found and the state word that was loaded there last.
#[derive(Clone, Copy)]
pub(crate) struct Record {
    pub(crate) place: u32,
    pub(crate) word: u64,
}

/// What the state word of a record says of it.
#[derive(Clone, Copy)]
pub(crate) enum Condition {
    /// Its version lock is held.
    Locked,
    /// It is unlocked, a tombstone, and has this version.
    Tombstone { version: u64 },
    /// It is unlocked, has a value, and this version.
    Live { version: u64 },
}

impl Condition {
    /// What the word of a record says.
    #[inline]
    pub(crate) fn read(word: u64) -> Condition
        requires { IsRecordWord word }
        ensures { SaysCondition word result }
    {
        let version = version_in(word);
        if says_locked(word) {
            Condition::Locked
        } else if says_removed(word) {
            Condition::Tombstone { version }
        } else {
            Condition::Live { version }
        }
    }
}

/// Loads the state word of the record, where it is: the place, or what the place forwards to.
#[inline]
pub(crate) fn find(board: &Board, hand: &mut Hand, place: u32) -> Record
    requires { IsReadyAt board.now hand.old place }
    ensures number { hand.new.number ≡ hand.old.number }
    ensures ready { IsReadyAt board.now hand.new place }
    ensures can_step { CanStepAt board.now hand.new result.place }
    ensures found { IsFoundAt board.now hand.old place result.place result.word hand.new }
    ensures log { AddsNoEntry hand.old hand.new }
{
    let word = board.load_state(hand, place);
    match State::read(word) {
        Some(State::Redirect { place: to }) => follow(board, hand, place, to),
        _ => Record { place, word },
    }
}

/// Loads the state word at the place that a forwarding pointer named. Where that record was copied
/// meanwhile, it stands at the first place by now.
fn follow(board: &Board, hand: &mut Hand, place: u32, to: u32) -> Record
    requires ready { IsReadyAt board.now hand.old place }
    requires forwards { ForwardsTo (opening_of board.now) place to (known hand.old) }
    requires target { CanStepAt board.now hand.old to }
    ensures number { hand.new.number ≡ hand.old.number }
    ensures ready { IsReadyAt board.now hand.new place }
    ensures can_step { CanStepAt board.now hand.new result.place }
    ensures steps { FollowsPointer board.now hand.old place to result.place result.word hand.new }
    ensures is_record { IsRecordWord result.word }
    ensures log { AddsNoEntry hand.old hand.new }
{
    let word = board.load_state(hand, to);
    match State::read(word) {
        Some(State::Moved) => Record {
            place,
            word: board.load_state(hand, place),
        },
        _ => Record { place: to, word },
    }
}
