//! The look that ends a call which found the key or missed it.
ghost use Rattle.std.specs.Prelude.{◌≡◌};
ghost use Rattle.index_rule.specs.Looks.{MayWriteLook};
ghost use Rattle.tried_calls.specs.declared.tried.Tried.TheVariants.{Done};
ghost use Rattle.index_rule.specs.Calls.{CanCall};
ghost use Rattle.point_calls.specs.Exchanges.{MakesFewExchanges, no_exchange};
ghost use Rattle.point_calls.specs.PointCalls.{IsOneSection, KeepsRows, LooksUp};

use index_rule::{Board, Hand};
use std::marker::Brand;
use std::snapshot::Snapshot;
use tried_calls::Tried;

/// Ends the call by its look, at a moment at which the key had this value, or none.
#[inline]
pub(crate) fn look(
    board: &Board,
    hand: &mut Hand,
    start: &Snapshot<Hand>,
    key: u64,
    found: Option<u64>,
) -> Tried<Option<u64>>
    requires call { CanCall board.now hand.old }
    requires section { IsOneSection start.now.value hand.old }
    requires rows { KeepsRows board.now start.now.value hand.old }
    requires may { MayWriteLook board.now start.now.value hand.old key found }
    ensures call { CanCall board.now hand.new }
    ensures number { hand.new.number ≡ start.now.value.number }
    ensures section { IsOneSection start.now.value hand.new }
    ensures exchanges { MakesFewExchanges no_exchange hand.old hand.new }
    ensures rows { KeepsRows board.now start.now.value hand.new }
    ensures done { result ≡ Done found }
    ensures looks { LooksUp board.now key start.now.value found hand.new }
{
    board.write_look::<Brand>(hand, start, key, found);
    Tried::Done(found)
}
