//! One step of a walk: the link behind a place is loaded.
ghost use Rattle.std.specs.Prelude.{◌<◌};
ghost use Rattle.index_machine.specs.Lanes.{lanes};
ghost use Rattle.index_machine.specs.RecordConditions.{IsLinkInto};
ghost use Rattle.index_rule.specs.Hands.{known, opening_of};
ghost use Rattle.sorted_group.specs.Standing.{CanFollow};
ghost use Rattle.delta_buffer.specs.Walks.{FollowsLink};

use index_rule::{Board, Hand};
use sorted_group::Lane;

/// The place to which the link behind the row at `before` leads, or the lane's head for 0. It is 0 for no
/// row.
#[inline]
pub(crate) fn follow(board: &Board, hand: &mut Hand, lane: Lane, before: u32) -> u32
    requires can { CanFollow board.now lane.group hand.old }
    requires is_lane { lane.number <
        lanes (opening_of board.now) lane.group (known hand.old) }
    requires link { IsLinkInto (opening_of board.now) lane.group lane.number before
        (known hand.old) }
    ensures { FollowsLink board.now hand.old lane.group lane.number before result hand.new }
{
    if before == 0 {
        board.load_head(hand, lane.group, lane.number) as u32
    } else {
        board.load_link(hand, lane.group, before) as u32
    }
}
