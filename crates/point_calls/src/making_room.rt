//! The way of a put through the groups of its key, up to where the key can come in.
ghost use Rattle.std.specs.Prelude.{MatchResult};
ghost use Rattle.point_calls.specs.Arrays.{CountsProbes};
ghost use Rattle.point_calls.specs.Exchanges.{MakesFewExchanges, one_lock};
ghost use Rattle.point_calls.specs.Places.{IsInGroupFor, LacksInOpened};
ghost use Rattle.point_calls.specs.Putting.{MeetsRoom};
ghost use Rattle.point_calls.specs.Seeking.{PassesArray};
ghost use Rattle.point_calls.specs.Updating.{EndsPut, LeavesRoom};

use crate::arrays::place_in_array;
use crate::found::Missed;
use crate::phases::phase_of;
use crate::refusing::frozen;
use crate::updating::{update_at, update_in};
use index_rule::{Board, Hand};
use line_window::Probes;
use root_table::walk_new;
use std::snapshot::Snapshot;
use tried_calls::Tried;
use word_layout::Phase;

/// Gives the record that the key has this value, tried once. `Ok` says where the key can come in, where it has no
/// value, and `Err` is the answer of the call.
///
/// A frozen group is met before a row is taken, so `Frozen` stands before `Full`.
#[inline]
pub(crate) fn make_room(
    board: &Board,
    hand: &mut Hand,
    start: &Snapshot<Hand>,
    group: u32,
    key: u64,
    value: u64,
    probes: &mut Probes,
) -> Result<Missed, Tried<Option<u64>>>
    requires { IsInGroupFor board.now start.now.value hand.old group key }
    ensures exchanges { MakesFewExchanges one_lock hand.old hand.new }
    ensures answer { MatchResult result
        (λ missed. LeavesRoom board.now start.now.value hand.old key missed hand.new)
        (λ answer. EndsPut board.now key value start.now.value answer hand.new) }
    ensures probes { CountsProbes board.now group key hand.old probes.old probes.new }
{
    update_in_array(board, hand, start, group, key, value, probes)?;
    let missed = update_in(board, hand, start, group, key, value)?;
    match phase_of(board, hand, group) {
        Phase::Open => Ok(missed),
        Phase::Frozen => Err(frozen(group)),
        Phase::Opened { first } => make_room_behind(board, hand, start, group, first, key, value),
    }
}

/// Gives the record at the key's place in the array of its group this value, tried once. `Ok` says that the array has
/// no value for the key, and `Err` is the answer of the call.
#[inline]
fn update_in_array(
    board: &Board,
    hand: &mut Hand,
    start: &Snapshot<Hand>,
    group: u32,
    key: u64,
    value: u64,
    probes: &mut Probes,
) -> Result<(), Tried<Option<u64>>>
    requires { IsInGroupFor board.now start.now.value hand.old group key }
    ensures exchanges { MakesFewExchanges one_lock hand.old hand.new }
    ensures answer { MatchResult result
        (λ none. PassesArray board.now start.now.value hand.old group key hand.new)
        (λ answer. EndsPut board.now key value start.now.value answer hand.new) }
    ensures probes { CountsProbes board.now group key hand.old probes.old probes.new }
{
    if let Some(place) = place_in_array(board, hand, start, group, key, probes) {
        update_at(board, hand, start, key, place, value)?;
    }
    Ok(())
}

/// Gives the row that the key has in the buffer of an opened group, or in that of its new group, this value, tried
/// once. `Ok` says where the key can come into the new group, and `Err` is the answer of the call.
///
/// Nobody inserts into an opened group, so a row that is not there now comes no more.
fn make_room_behind(
    board: &Board,
    hand: &mut Hand,
    start: &Snapshot<Hand>,
    group: u32,
    first: u32,
    key: u64,
    value: u64,
) -> Result<Missed, Tried<Option<u64>>>
    requires lacks { LacksInOpened board.now start.now.value hand.old group first key }
    requires room { MeetsRoom start.now.value hand.old }
    ensures exchanges { MakesFewExchanges one_lock hand.old hand.new }
    ensures answer { MatchResult result
        (λ missed. LeavesRoom board.now start.now.value hand.old key missed hand.new)
        (λ answer. EndsPut board.now key value start.now.value answer hand.new) }
{
    update_in(board, hand, start, group, key, value)?;
    let new = walk_new(board, hand, group, first, key);
    update_in(board, hand, start, new, key, value)
}
