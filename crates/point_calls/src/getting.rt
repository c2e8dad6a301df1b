//! A key is looked up.
ghost use Rattle.std.specs.Prelude.{◌≡◌};
ghost use Rattle.index_rule.specs.Calls.{CanCall};
ghost use Rattle.point_calls.specs.Arrays.{CountsOnce};
ghost use Rattle.point_calls.specs.Exchanges.{MakesFewExchanges, no_exchange};
ghost use Rattle.point_calls.specs.PointCalls.{IsOneSection, KeepsRows};
ghost use Rattle.point_calls.specs.Getting.{GetTells};

use crate::acting::Aim;
use crate::seeking::seek;
use index_rule::{Board, Hand};
use line_window::Probes;
use std::snapshot::Snapshot;
use tried_calls::Tried;

/// The value of the key, or `None`, tried once.
///
/// A value takes effect at its load. `None` does at the load of the state word of the key's row, or of the link that
/// passed over the key, in the last buffer where the call looked.
pub fn get(board: &Board, hand: &mut Hand, key: u64, probes: &mut Probes) -> Tried<Option<u64>>
    requires { CanCall board.now hand.old }
    ensures call { CanCall board.now hand.new }
    ensures number { hand.new.number ≡ hand.old.number }
    ensures section { IsOneSection hand.old hand.new }
    ensures rows { KeepsRows board.now hand.old hand.new }
    ensures exchanges { MakesFewExchanges no_exchange hand.old hand.new }
    ensures tells { GetTells board.now key hand.old result hand.new }
    ensures probes { CountsOnce board.now key hand.old probes.old probes.new }
{
    let start = Snapshot::of(&*hand);
    seek(board, hand, &start, Aim::Read, key, probes)
}
