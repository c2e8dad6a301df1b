//! The place of a key in the sorted array of its group.
ghost use Rattle.std.specs.Prelude.{MatchOption};
ghost use Rattle.machine_readers.specs.Readers.{ArrayHasNone};
ghost use Rattle.index_rule.specs.Hands.{known, opening_of};
ghost use Rattle.point_calls.specs.Arrays.{CountsProbes, HasSearched, IsAtArrayPlace};
ghost use Rattle.point_calls.specs.Places.{IsInGroupFor};

use index_rule::{Board, Hand};
use line_window::Probes;
use sorted_group::{Located, locate};
use std::snapshot::Snapshot;

/// The place of the array that has the key, or `None`.
#[inline]
pub(crate) fn place_in_array(
    board: &Board,
    hand: &mut Hand,
    start: &Snapshot<Hand>,
    group: u32,
    key: u64,
    probes: &mut Probes,
) -> Option<u32>
    requires { IsInGroupFor board.now start.now.value hand.old group key }
    ensures searched { HasSearched board.now start.now.value hand.old group key hand.new }
    ensures answer { MatchOption result (ArrayHasNone (opening_of board.now) (known hand.new) group key)
        (λ place. IsAtArrayPlace board.now start.now.value hand.new group key place) }
    ensures probes { CountsProbes board.now group key hand.old probes.old probes.new }
{
    match locate(board, hand, group, key, probes) {
        Located::At(place) => Some(place),
        Located::Between(_) => None,
    }
}
