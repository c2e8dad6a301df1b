//! The rows of a buffer are counted.
ghost use Rattle.std.specs.Prelude.{◌≡◌, ◌<◌, ◌≤◌, length};
ghost use Rattle.index_machine.specs.Lanes.{cut, lanes};
ghost use Rattle.machine_readers.specs.Buffers.{rows};
ghost use Rattle.index_rule.specs.Hands.{known, opening_of};
ghost use Rattle.index_rule.specs.Moments.{AddsNoEntry};
ghost use Rattle.sorted_group.specs.Standing.{CanFollow, CanSearch};
ghost use Rattle.delta_buffer.specs.Counting.{CountsLane, LoadsForCount, keys_below};

use crate::walking::follow;
use index_rule::{Board, Hand};
use sorted_group::{Lane, lanes};

/// How many rows the group's buffer has in all its lanes, tombstones included. A caller in its read section
/// may count them, and so may the keeper of the group's part.
///
/// Rows that others link meanwhile may be counted or not, so where nobody links the number is exact.
/// It loads no key and adds no entry.
#[inline]
pub fn count(board: &Board, hand: &mut Hand, group: u32) -> u32
    requires { CanFollow board.now group hand.old }
    ensures number { hand.new.number ≡ hand.old.number }
    ensures can { CanFollow board.now group hand.new }
    ensures search { CanSearch board.now group hand.old → CanSearch board.now group hand.new }
    ensures steps { LoadsForCount board.now group hand.old hand.new }
    ensures at_least { length (rows group (known hand.old)) ≤ result }
    ensures at_most { result ≤ length (rows group (known hand.new)) }
    ensures log { AddsNoEntry hand.old hand.new }
{
    let many = lanes(board, hand, group);
    let mut count = 0u32;
    for number in 0..many {
        count = count_lane(board, hand, Lane { group, number }, count);
    }
    count
}

// How many rows there are so far, once those of this lane are counted too.
fn count_lane(board: &Board, hand: &mut Hand, lane: Lane, counted: u32) -> u32
    requires can { CanFollow board.now lane.group hand.old }
    requires is_lane { lane.number <
        lanes (opening_of board.now) lane.group (known hand.old) }
    requires counted { counted ≤
        keys_below (cut (opening_of board.now) lane.group lane.number (known hand.old))
        (rows lane.group (known hand.old)) }
    ensures number { hand.new.number ≡ hand.old.number }
    ensures can { CanFollow board.now lane.group hand.new }
    ensures search { CanSearch board.now lane.group hand.old →
        CanSearch board.now lane.group hand.new }
    ensures steps { LoadsForCount board.now lane.group hand.old hand.new }
    ensures counts { CountsLane (opening_of board.now) lane.group lane.number counted result
        (known hand.old) (known hand.new) }
    ensures log { AddsNoEntry hand.old hand.new }
{
    let mut count = counted;
    let mut next = follow(board, hand, lane, 0);
    while next != 0 {
        // It fits: each row that was met has a record row of its own.
        count += 1;
        next = follow(board, hand, lane, next);
    }
    count
}
