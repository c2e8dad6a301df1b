//! A key is sought in its lane of a buffer.
ghost use Rattle.std.specs.Prelude.{◌≡◌};
ghost use Rattle.index_machine.specs.Lanes.{HasLane};
ghost use Rattle.index_rule.specs.Hands.{known, opening_of};
ghost use Rattle.index_rule.specs.Moments.{AddsNoEntry};
ghost use Rattle.sorted_group.specs.Standing.{CanSearch};
ghost use Rattle.delta_buffer.specs.Searching.{Finds, FindsFirst};
ghost use Rattle.delta_buffer.specs.Walks.{Walks};

use crate::answers::Found;
use crate::walking::follow;
use index_rule::{Board, Hand};
use sorted_group::Lane;

/// Seeks the row of the key in its lane.
///
/// A `Gap` takes effect at the load of the link behind `before`.
#[inline]
pub fn find(board: &Board, hand: &mut Hand, lane: Lane, key: u64) -> Found
    requires search { CanSearch board.now lane.group hand.old }
    requires lane { HasLane (opening_of board.now) lane.group lane.number key (known hand.old) }
    ensures number { hand.new.number ≡ hand.old.number }
    ensures search { CanSearch board.now lane.group hand.new }
    ensures lane { HasLane (opening_of board.now) lane.group lane.number key (known hand.new) }
    ensures steps { Walks board.now lane.group lane.number hand.old hand.new }
    ensures finds { Finds board.now lane.group lane.number key hand.old result hand.new }
    ensures log { AddsNoEntry hand.old hand.new }
{
    let mut before = 0u32;
    let mut next = follow(board, hand, lane, before);
    while next != 0 {
        let met = board.load_key(hand, next);
        if met == key {
            return Found::Row(next);
        }
        if met > key {
            return Found::Gap { before, next };
        }
        before = next;
        next = follow(board, hand, lane, before);
    }
    Found::Gap { before, next }
}

/// Seeks the first row of the key's lane whose key is not below this one.
///
/// That no key from this one up to the row's had a row, or with `None` no key of the lane from this one on,
/// held at the load of the link that led there.
#[inline]
pub fn first_from(board: &Board, hand: &mut Hand, lane: Lane, key: u64) -> Option<u32>
    requires search { CanSearch board.now lane.group hand.old }
    requires lane { HasLane (opening_of board.now) lane.group lane.number key (known hand.old) }
    ensures number { hand.new.number ≡ hand.old.number }
    ensures search { CanSearch board.now lane.group hand.new }
    ensures lane { HasLane (opening_of board.now) lane.group lane.number key (known hand.new) }
    ensures steps { Walks board.now lane.group lane.number hand.old hand.new }
    ensures finds { FindsFirst board.now lane.group lane.number key hand.old result hand.new }
    ensures log { AddsNoEntry hand.old hand.new }
{
    match find(board, hand, lane, key) {
        Found::Row(place) => Some(place),
        Found::Gap { next: 0, .. } => None,
        Found::Gap { next, .. } => Some(next),
    }
}
