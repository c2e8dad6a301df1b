//! A value that a key has is changed in place.
ghost use Rattle.std.specs.Prelude.{MatchResult};
ghost use Rattle.point_calls.specs.Exchanges.{MakesFewExchanges, one_lock};
ghost use Rattle.point_calls.specs.Places.{IsAtBufferOf, IsAtPlaceOf};
ghost use Rattle.point_calls.specs.Updating.{EndsPut, LeavesInBuffer, StopsAt};

use crate::found::{FoundRow, Gap, Missed};
use crate::refusing::refused;
use delta_buffer::{Found, find};
use index_rule::{Board, Hand};
use record_cell::{Wrote, update};
use sorted_group::lane_for;
use std::snapshot::Snapshot;
use tried_calls::Tried;

/// Gives the record of a place of the key this value, tried once. `Ok` is the state word of a tombstone, and `Err`
/// the answer of the call.
#[inline]
pub(crate) fn update_at(
    board: &Board,
    hand: &mut Hand,
    start: &Snapshot<Hand>,
    key: u64,
    place: u32,
    value: u64,
) -> Result<u64, Tried<Option<u64>>>
    requires { IsAtPlaceOf board.now start.now.value hand.old key place }
    ensures exchanges { MakesFewExchanges one_lock hand.old hand.new }
    ensures answer { MatchResult result
        (λ word. StopsAt board.now start.now.value hand.old key place word hand.new)
        (λ answer. EndsPut board.now key value start.now.value answer hand.new) }
{
    match update(board, hand, place, value) {
        Wrote::Done { old } => Err(Tried::Done(old)),
        Wrote::Gone { word } => Ok(word),
        refusal => Err(refused(refusal)),
    }
}

/// Gives the row of the key in the group's buffer this value, tried once. `Ok` says where the key can come in, and
/// `Err` is the answer of the call.
#[inline]
pub(crate) fn update_in(
    board: &Board,
    hand: &mut Hand,
    start: &Snapshot<Hand>,
    group: u32,
    key: u64,
    value: u64,
) -> Result<Missed, Tried<Option<u64>>>
    requires { IsAtBufferOf board.now start.now.value hand.old group key }
    ensures exchanges { MakesFewExchanges one_lock hand.old hand.new }
    ensures answer { MatchResult result
        (λ missed. LeavesInBuffer board.now start.now.value hand.old group key missed hand.new)
        (λ answer. EndsPut board.now key value start.now.value answer hand.new) }
{
    let lane = lane_for(board, hand, group, key);
    match find(board, hand, lane, key) {
        Found::Gap { before, next } => Ok(Missed::Between(Gap {
            lane,
            before,
            next,
            key,
        })),
        Found::Row(place) => {
            let word = update_at(board, hand, start, key, place, value)?;
            let row = FoundRow { group, place, key };
            Ok(Missed::Tombstone { row, word })
        }
    }
}
