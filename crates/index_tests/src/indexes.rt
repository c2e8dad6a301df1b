//! The indexes and passes that the tests stand on.
ghost use Rattle.std.specs.Prelude.{◌+◌, []};
ghost use Rattle.std.specs.Vec.Iter.{into_iter_items};
ghost use Rattle.xindex_core.specs.OneOrder.{IsPassOfCaller};
ghost use Rattle.xindex_core.specs.Opened.{IsNewlyOpened};
ghost use Rattle.xindex_core.specs.Passes.{AreNewPasses, IsKeeperOf, IsPassOf};

use std::alloc::Global;
use std::process::Abort;
use std::vec::IntoIter;
use word_layout::Limits;
use xindex_core::{Index, Keeper, Opened, Pass};

/// A new index with these limits, which is empty.
pub(crate) fn opened_index(rt: &impl Abort, alloc: Global, limits: Limits) -> Opened
    ensures { IsNewlyOpened limits [] result }
{
    let Ok(opened) = Index::open(alloc, limits, &[]) else {
        panic!(rt; "the limits are kept, and there is memory");
    };
    opened
}

/// The next of the new passes, which has this number.
pub(crate) fn next_pass(
    rt: &impl Abort,
    _index: &Index,
    _number: u32,
    passes: &mut IntoIter<Pass>,
) -> Pass
    requires { AreNewPasses _index.now _number (into_iter_items passes.old) }
    ensures pass { IsPassOfCaller _index.now _number result }
    ensures others { AreNewPasses _index.now (_number + 1) (into_iter_items passes.new) }
{
    match passes.next() {
        Some(pass) => pass,
        None => panic!(rt; "each caller has a pass"),
    }
}

/// A new index, which is empty, with the passes of its first two callers, and its keeper.
pub(crate) fn opened_for_two(
    rt: &impl Abort,
    alloc: Global,
    limits: Limits,
) -> (Index, (Pass, Pass), Keeper)
    ensures first { IsPassOf result.0 result.1.0 }
    ensures second { IsPassOf result.0 result.1.1 }
    ensures keeper { IsKeeperOf result.0 result.2 }
{
    let Opened {
        index,
        passes,
        keeper,
    } = opened_index(rt, alloc, limits);
    let mut passes = passes.into_iter();
    let first = next_pass(rt, &index, 0, &mut passes);
    let second = next_pass(rt, &index, 1, &mut passes);
    (index, (first, second), keeper)
}
