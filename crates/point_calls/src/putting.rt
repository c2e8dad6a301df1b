//! A key is put.
ghost use Rattle.std.specs.Prelude.{◌≡◌};
ghost use Rattle.index_rule.specs.Calls.{CanCall};
ghost use Rattle.point_calls.specs.Arrays.{CountsOnce};
ghost use Rattle.point_calls.specs.Exchanges.{MakesFewExchanges, one_of_each};
ghost use Rattle.point_calls.specs.PointCalls.{HasSpare, IsOneSection};
ghost use Rattle.point_calls.specs.Putting.{IsFullOnly, KeepsSpare, LeavesNone, MayPutInto};
ghost use Rattle.point_calls.specs.Putting.{PutTells, key_of_missed};

use crate::found::Missed;
use crate::linking::link_new;
use crate::making_room::make_room;
use crate::reviving::bring_back;
use index_rule::{Board, Hand, PrivateRow};
use line_window::Probes;
use root_table::group_for;
use std::snapshot::Snapshot;
use tried_calls::Tried;

/// Gives the key the value, tried once, and answers the one that it had, or `None`.
///
/// It takes effect at the store that unlocks the key's record, or at the exchange of the link by which
/// its new row comes into the buffer. A filled row that was not linked stays as `spare`.
pub fn put(
    board: &Board,
    hand: &mut Hand,
    spare: &mut Option<PrivateRow>,
    key: u64,
    value: u64,
    probes: &mut Probes,
) -> Tried<Option<u64>>
    requires call { CanCall board.now hand.old }
    requires spare { HasSpare board.now hand.old spare.old }
    ensures call { CanCall board.now hand.new }
    ensures number { hand.new.number ≡ hand.old.number }
    ensures section { IsOneSection hand.old hand.new }
    ensures exchanges { MakesFewExchanges one_of_each hand.old hand.new }
    ensures spare { HasSpare board.now hand.new spare.new }
    ensures tells { PutTells board.now key value hand.old result hand.new }
    ensures full { IsFullOnly spare.old result }
    ensures kept { KeepsSpare spare.old result spare.new }
    ensures none { LeavesNone spare.old result spare.new }
    ensures probes { CountsOnce board.now key hand.old probes.old probes.new }
{
    let start = Snapshot::of(&*hand);
    let group = group_for(board, hand, key);
    match make_room(board, hand, &start, group, key, value, probes) {
        Ok(missed) => put_into(board, hand, &start, spare, missed, value),
        Err(answer) => answer,
    }
}

/// Brings the key back to life, or in by a new row, tried once.
#[inline]
fn put_into(
    board: &Board,
    hand: &mut Hand,
    start: &Snapshot<Hand>,
    spare: &mut Option<PrivateRow>,
    missed: Missed,
    value: u64,
) -> Tried<Option<u64>>
    requires spare { HasSpare board.now start.now.value spare.old }
    requires may { MayPutInto board.now start.now.value hand.old missed }
    ensures call { CanCall board.now hand.new }
    ensures number { hand.new.number ≡ start.now.value.number }
    ensures section { IsOneSection start.now.value hand.new }
    ensures exchanges { MakesFewExchanges one_of_each hand.old hand.new }
    ensures spare { HasSpare board.now hand.new spare.new }
    ensures tells { PutTells board.now (key_of_missed missed) value start.now.value result hand.new }
    ensures full { IsFullOnly spare.old result }
    ensures kept { KeepsSpare spare.old result spare.new }
    ensures none { LeavesNone spare.old result spare.new }
{
    match missed {
        Missed::Tombstone { row, word } => bring_back(board, hand, start, row, word, value),
        Missed::Between(gap) => link_new(board, hand, start, spare, gap, value),
    }
}
