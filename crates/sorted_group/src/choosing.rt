//! The lane of a key is chosen, and where its keys end.
ghost use Rattle.std.specs.Prelude.{◌≡◌, ◌<◌};
ghost use Rattle.index_machine.specs.Lanes.{HasLane, lanes};
ghost use Rattle.index_rule.specs.Hands.{known, opening_of};
ghost use Rattle.index_rule.specs.Moments.{AddsNoEntry};
ghost use Rattle.sorted_group.specs.Standing.{CanFollow, CanSearch, IsOfBuffer};
ghost use Rattle.sorted_group.specs.Loads.{LoadsLanes};
ghost use Rattle.sorted_group.specs.LaneEnds.{EndsLane};

use crate::answers::Lane;
use crate::headers::lanes;
use index_rule::{Board, Hand};
use word_layout::HeaderWord;

/// The lane that has the key, of the buffer of a group to which the key belongs.
///
/// It loads the number of lanes, and at most three cuts. It adds no entry.
#[inline]
pub fn lane_for(board: &Board, hand: &mut Hand, group: u32, key: u64) -> Lane
    requires can { CanFollow board.now group hand.old }
    requires key { IsOfBuffer (opening_of board.now) group key (known hand.old) }
    ensures number { hand.new.number ≡ hand.old.number }
    ensures can { CanFollow board.now group hand.new }
    ensures search { CanSearch board.now group hand.old → CanSearch board.now group hand.new }
    ensures steps { LoadsLanes board.now group 3 hand.old hand.new }
    ensures group { result.group ≡ group }
    ensures lane { HasLane (opening_of board.now) group result.number key (known hand.new) }
    ensures log { AddsNoEntry hand.old hand.new }
{
    let mut low = 0;
    let mut high = lanes(board, hand, group) - 1;
    while low < high {
        let middle = (low + high + 1) / 2;
        let cut = board.load_header(hand, group, HeaderWord::Cut { lane: middle });
        if cut <= key {
            low = middle;
        } else {
            high = middle - 1;
        }
    }
    Lane { group, number: low }
}

/// The greatest key of a lane, where `end` is that of its group.
///
/// It loads the number of lanes, and the cut of the next one if there is one. It adds no entry.
pub fn lane_end(board: &Board, hand: &mut Hand, lane: Lane, end: u64) -> u64
    requires can { CanFollow board.now lane.group hand.old }
    requires lane { lane.number < lanes (opening_of board.now) lane.group (known hand.old) }
    ensures number { hand.new.number ≡ hand.old.number }
    ensures can { CanFollow board.now lane.group hand.new }
    ensures search { CanSearch board.now lane.group hand.old →
        CanSearch board.now lane.group hand.new }
    ensures steps { LoadsLanes board.now lane.group 1 hand.old hand.new }
    ensures end { EndsLane (opening_of board.now) lane end result (known hand.new) }
    ensures log { AddsNoEntry hand.old hand.new }
{
    let count = lanes(board, hand, lane.group);
    let next = lane.number + 1;
    if next == count {
        return end;
    }
    board.load_header(hand, lane.group, HeaderWord::Cut { lane: next }) - 1
}
