//! A new row for a key is linked.
ghost use Rattle.std.specs.Prelude.{◌≡◌, MatchResult, None, Some};
ghost use Rattle.index_rule.specs.Calls.{CanCall};
ghost use Rattle.point_calls.specs.Exchanges.{MakesFewExchanges, one_head, one_head_and_link};
ghost use Rattle.point_calls.specs.PointCalls.{HasSpare, IsOneSection};
ghost use Rattle.point_calls.specs.Putting.{GetsNoRow, IsFullOnly, KeepsSpare, LeavesNone, MayLinkIn, PutTells};

use crate::found::Gap;
use crate::refusing::raced;
use delta_buffer::insert;
use index_rule::{Board, Hand, Linked, PrivateRow};
use row_arena::{Taken, fill, take};
use std::snapshot::Snapshot;
use tried_calls::{Tried, Why};

/// Links a row for the key into the gap, tried once. It takes effect at the exchange of the link.
#[inline]
pub(crate) fn link_new(
    board: &Board,
    hand: &mut Hand,
    start: &Snapshot<Hand>,
    spare: &mut Option<PrivateRow>,
    gap: Gap,
    value: u64,
) -> Tried<Option<u64>>
    requires spare { HasSpare board.now hand.old spare.old }
    requires may { MayLinkIn board.now start.now.value hand.old gap }
    ensures call { CanCall board.now hand.new }
    ensures number { hand.new.number ≡ start.now.value.number }
    ensures section { IsOneSection start.now.value hand.new }
    ensures exchanges { MakesFewExchanges one_head_and_link hand.old hand.new }
    ensures spare { HasSpare board.now hand.new spare.new }
    ensures tells { PutTells board.now gap.key value start.now.value result hand.new }
    ensures full { IsFullOnly spare.old result }
    ensures kept { KeepsSpare spare.old result spare.new }
    ensures none { LeavesNone spare.old result spare.new }
{
    let mut row = match own_row(board, hand, start, spare, gap) {
        Ok(row) => row,
        Err(refusal) => return refusal,
    };
    fill(board, hand, &mut row, gap.key, value);
    match insert(board, hand, gap.lane, gap.before, gap.next, row) {
        Linked::Done => Tried::Done(None),
        Linked::Raced { row, found } => {
            keep(spare, row);
            let link = board.link_address(gap.lane.group, gap.lane.number, gap.before);
            raced(link, gap.next as u64, found)
        }
    }
}

/// A row of the hand's own: the spare one, or else one that is taken, tried once.
#[inline]
fn own_row(
    board: &Board,
    hand: &mut Hand,
    start: &Snapshot<Hand>,
    spare: &mut Option<PrivateRow>,
    gap: Gap,
) -> Result<PrivateRow, Tried<Option<u64>>>
    requires spare { HasSpare board.now hand.old spare.old }
    requires may { MayLinkIn board.now start.now.value hand.old gap }
    ensures gone { spare.new ≡ None }
    ensures may { MayLinkIn board.now start.now.value hand.new gap }
    ensures exchanges { MakesFewExchanges one_head hand.old hand.new }
    ensures answer { MatchResult result (λ row. HasSpare board.now hand.new (Some row))
        (λ refusal. GetsNoRow board.now gap.key start.now.value spare.old refusal hand.new) }
{
    match spare.take() {
        Some(row) => Ok(row),
        None => match take(board, hand) {
            Taken::Row(row) => Ok(row),
            Taken::Empty => Err(Tried::Full),
            Taken::Raced { expected, found } => Err(Tried::Again(Why::Raced {
                place: board.layout().free_head(),
                expected,
                found,
            })),
        },
    }
}

/// Keeps the row for a later insertion. There is none there.
#[inline]
fn keep(spare: &mut Option<PrivateRow>, row: PrivateRow)
    requires { spare.old ≡ None }
    ensures { spare.new ≡ Some row }
{
    if let Some(other) = spare.replace(row) {
        other.forget();
    }
}
