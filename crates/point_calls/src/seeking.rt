//! The way of a get and of a remove through the groups of a key.
ghost use Rattle.std.specs.Prelude.{MatchOption};
ghost use Rattle.point_calls.specs.Arrays.{CountsOnce, CountsProbes};
ghost use Rattle.point_calls.specs.Exchanges.{MakesFewExchanges};
ghost use Rattle.point_calls.specs.Places.{EndsWith, IsInGroupFor, most_of};
ghost use Rattle.point_calls.specs.Seeking.{PassesArray, SeeksAsOf};

use crate::acting::{Aim, act_at, act_behind, act_in};
use crate::arrays::place_in_array;
use crate::lookup::look;
use crate::phases::phase_of;
use index_rule::{Board, Hand};
use line_window::Probes;
use root_table::group_for;
use std::snapshot::Snapshot;
use tried_calls::Tried;
use word_layout::Phase;

/// Reads or removes the record that the key has, tried once.
///
/// It looks in the array of the key's group and in its buffer. Where the group is opened to a rebuild, it looks in
/// the buffer once more, and in that of the key's new group.
#[inline]
pub(crate) fn seek(
    board: &Board,
    hand: &mut Hand,
    start: &Snapshot<Hand>,
    aim: Aim,
    key: u64,
    probes: &mut Probes,
) -> Tried<Option<u64>>
    requires { SeeksAsOf board.now start.now.value hand.old }
    ensures exchanges { MakesFewExchanges (most_of aim) hand.old hand.new }
    ensures ends { EndsWith aim board.now key start.now.value result hand.new }
    ensures probes { CountsOnce board.now key hand.old probes.old probes.new }
{
    let group = group_for(board, hand, key);
    if let Some(answer) = act_in_array(board, hand, start, aim, group, key, probes) {
        return answer;
    }
    if let Some(answer) = act_in(board, hand, start, aim, group, key) {
        return answer;
    }
    if let Phase::Opened { first } = phase_of(board, hand, group) {
        if let Some(answer) = act_behind(board, hand, start, aim, group, first, key) {
            return answer;
        }
    }
    look(board, hand, start, key, None)
}

/// Does it with the record of the key's place in the array of its group, and answers `None` where there is none or it
/// has no value.
#[inline]
fn act_in_array(
    board: &Board,
    hand: &mut Hand,
    start: &Snapshot<Hand>,
    aim: Aim,
    group: u32,
    key: u64,
    probes: &mut Probes,
) -> Option<Tried<Option<u64>>>
    requires { IsInGroupFor board.now start.now.value hand.old group key }
    ensures exchanges { MakesFewExchanges (most_of aim) hand.old hand.new }
    ensures answer { MatchOption result
        (PassesArray board.now start.now.value hand.old group key hand.new)
        (λ answer. EndsWith aim board.now key start.now.value answer hand.new) }
    ensures probes { CountsProbes board.now group key hand.old probes.old probes.new }
{
    match place_in_array(board, hand, start, group, key, probes) {
        Some(place) => act_at(board, hand, start, aim, key, place),
        None => None,
    }
}
