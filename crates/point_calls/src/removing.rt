//! A key is removed.
ghost use Rattle.std.specs.Prelude.{◌≡◌};
ghost use Rattle.index_rule.specs.Calls.{CanCall};
ghost use Rattle.point_calls.specs.Arrays.{CountsOnce};
ghost use Rattle.point_calls.specs.Exchanges.{MakesFewExchanges, one_lock};
ghost use Rattle.point_calls.specs.PointCalls.{IsOneSection, KeepsRows};
ghost use Rattle.point_calls.specs.Removing.{RemoveTells};

use crate::acting::Aim;
use crate::seeking::seek;
use index_rule::{Board, Hand};
use line_window::Probes;
use std::snapshot::Snapshot;
use tried_calls::Tried;

/// Removes the key, tried once, and answers the value that it had, or `None`.
///
/// A removal takes effect at the store that unlocks the record. `None` does as for [`get`](crate::get).
pub fn remove(board: &Board, hand: &mut Hand, key: u64, probes: &mut Probes) -> Tried<Option<u64>>
    requires { CanCall board.now hand.old }
    ensures call { CanCall board.now hand.new }
    ensures number { hand.new.number ≡ hand.old.number }
    ensures section { IsOneSection hand.old hand.new }
    ensures rows { KeepsRows board.now hand.old hand.new }
    ensures exchanges { MakesFewExchanges one_lock hand.old hand.new }
    ensures tells { RemoveTells board.now key hand.old result hand.new }
    ensures probes { CountsOnce board.now key hand.old probes.old probes.new }
{
    let start = Snapshot::of(&*hand);
    seek(board, hand, &start, Aim::Remove, key, probes)
}
