//! A tombstone that a key has in a buffer is brought back to life.
ghost use Rattle.point_calls.specs.Exchanges.{MakesFewExchanges, one_lock};
ghost use Rattle.point_calls.specs.Putting.{HasFoundTombstone, MayComeInto};
ghost use Rattle.point_calls.specs.Updating.{EndsPut};

use crate::found::FoundRow;
use crate::refusing::refused;
use index_rule::{Board, Hand};
use record_cell::{Wrote, revive};
use std::snapshot::Snapshot;
use tried_calls::{Tried, Why};

/// Gives the tombstone of the key the value, tried once. `first` is the state word by which it is one.
#[inline]
pub(crate) fn bring_back(
    board: &Board,
    hand: &mut Hand,
    start: &Snapshot<Hand>,
    row: FoundRow,
    first: u64,
    value: u64,
) -> Tried<Option<u64>>
    requires found { HasFoundTombstone board.now start.now.value hand.old row first }
    requires may { MayComeInto board.now start.now.value hand.old row.group row.key }
    ensures exchanges { MakesFewExchanges one_lock hand.old hand.new }
    ensures ends { EndsPut board.now row.key value start.now.value result hand.new }
{
    match revive(board, hand, row.place, value) {
        Wrote::Done { old } => Tried::Done(old),
        Wrote::Live { word } => Tried::Again(Why::Changed {
            place: row.place,
            first,
            second: word,
        }),
        refusal => refused(refusal),
    }
}
