//! What a get and a remove do with the record of a place: they go the same way, and differ here alone.
ghost use Rattle.std.specs.Prelude.{MatchOption};
ghost use Rattle.point_calls.specs.Exchanges.{MakesFewExchanges};
ghost use Rattle.point_calls.specs.Places.{EndsWith, IsAtBufferOf, IsAtPlaceOf, PassesBuffer};
ghost use Rattle.point_calls.specs.Places.{LacksInOpened, Misses, PassesBy, most_of};

use crate::lookup::look;
use crate::refusing::refused;
use delta_buffer::{Found, find};
use index_rule::{Board, Hand};
use record_cell::{Read, Wrote, kill, read};
use root_table::walk_new;
use sorted_group::lane_for;
use std::snapshot::Snapshot;
use tried_calls::{Tried, Why};

/// What a call does with the value of its key.
#[derive(Clone, Copy)]
pub(crate) enum Aim {
    Read,
    Remove,
}

/// Does it with the record of a place of the key, tried once, and answers `None` where the record has no value.
#[inline]
pub(crate) fn act_at(
    board: &Board,
    hand: &mut Hand,
    start: &Snapshot<Hand>,
    aim: Aim,
    key: u64,
    place: u32,
) -> Option<Tried<Option<u64>>>
    requires { IsAtPlaceOf board.now start.now.value hand.old key place }
    ensures exchanges { MakesFewExchanges (most_of aim) hand.old hand.new }
    ensures answer { MatchOption result (PassesBy board.now start.now.value hand.old place hand.new)
        (λ answer. EndsWith aim board.now key start.now.value answer hand.new) }
{
    match aim {
        Aim::Read => read_at(board, hand, start, key, place),
        Aim::Remove => remove_at(board, hand, start, key, place),
    }
}

/// Does it with the row of the key in the group's buffer, and answers `None` where none has a value.
#[inline]
pub(crate) fn act_in(
    board: &Board,
    hand: &mut Hand,
    start: &Snapshot<Hand>,
    aim: Aim,
    group: u32,
    key: u64,
) -> Option<Tried<Option<u64>>>
    requires { IsAtBufferOf board.now start.now.value hand.old group key }
    ensures exchanges { MakesFewExchanges (most_of aim) hand.old hand.new }
    ensures answer { MatchOption result
        (PassesBuffer board.now start.now.value hand.old group key hand.new)
        (λ answer. EndsWith aim board.now key start.now.value answer hand.new) }
{
    let lane = lane_for(board, hand, group, key);
    match find(board, hand, lane, key) {
        Found::Row(place) => act_at(board, hand, start, aim, key, place),
        Found::Gap { .. } => None,
    }
}

/// Does it with the row of the key in the buffer of an opened group, or in that of the key's new group, and answers
/// `None` where none has a value.
///
/// Nobody inserts into an opened group, so a row that is not there now comes no more.
pub(crate) fn act_behind(
    board: &Board,
    hand: &mut Hand,
    start: &Snapshot<Hand>,
    aim: Aim,
    group: u32,
    first: u32,
    key: u64,
) -> Option<Tried<Option<u64>>>
    requires { LacksInOpened board.now start.now.value hand.old group first key }
    ensures exchanges { MakesFewExchanges (most_of aim) hand.old hand.new }
    ensures answer { MatchOption result (Misses board.now start.now.value hand.old key hand.new)
        (λ answer. EndsWith aim board.now key start.now.value answer hand.new) }
{
    if let Some(answer) = act_in(board, hand, start, aim, group, key) {
        return Some(answer);
    }
    let new = walk_new(board, hand, group, first, key);
    act_in(board, hand, start, aim, new, key)
}

/// Reads the record of the place.
#[inline]
fn read_at(
    board: &Board,
    hand: &mut Hand,
    start: &Snapshot<Hand>,
    key: u64,
    place: u32,
) -> Option<Tried<Option<u64>>>
    requires { IsAtPlaceOf board.now start.now.value hand.old key place }
    ensures exchanges { MakesFewExchanges (most_of Aim.Read) hand.old hand.new }
    ensures answer { MatchOption result (PassesBy board.now start.now.value hand.old place hand.new)
        (λ answer. EndsWith Aim.Read board.now key start.now.value answer hand.new) }
{
    match read(board, hand, place) {
        Read::Live(value) => Some(look(board, hand, start, key, Some(value))),
        Read::Gone => None,
        Read::Locked { place, word } => Some(Tried::Again(Why::Locked { place, word })),
        Read::Changed {
            place,
            first,
            second,
        } => Some(Tried::Again(Why::Changed {
            place,
            first,
            second,
        })),
    }
}

/// Removes the record of the place.
#[inline]
fn remove_at(
    board: &Board,
    hand: &mut Hand,
    start: &Snapshot<Hand>,
    key: u64,
    place: u32,
) -> Option<Tried<Option<u64>>>
    requires { IsAtPlaceOf board.now start.now.value hand.old key place }
    ensures exchanges { MakesFewExchanges (most_of Aim.Remove) hand.old hand.new }
    ensures answer { MatchOption result (PassesBy board.now start.now.value hand.old place hand.new)
        (λ answer. EndsWith Aim.Remove board.now key start.now.value answer hand.new) }
{
    match kill(board, hand, place) {
        Wrote::Done { old } => Some(Tried::Done(old)),
        Wrote::Gone { .. } => None,
        refusal => Some(refused(refusal)),
    }
}
