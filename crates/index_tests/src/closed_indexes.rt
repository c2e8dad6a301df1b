//! An index that is closed gives the pairs that its callers left.
ghost use Rattle.std.specs.Prelude.{◌≡◌, []};
ghost use Rattle.xindex_core.specs.OneOrder.{IsPassOfCaller};
ghost use Rattle.xindex_core.specs.Passes.{IsKeeperOf, bounds_of_index, limits_of_index};

use crate::boards::SMALL;
use crate::indexes::{next_pass, opened_index};
use std::alloc::{AllocError, Global};
use std::process::Abort;
use std::test::Fail;
use word_layout::Limits;
use xindex_core::{Index, Keeper, Opened, Pass, Tried, passes_in_order_are_all};

/// The caller puts the row, whose key had this value.
pub(crate) fn put(
    rt: &impl Abort,
    index: &Index,
    _caller: u32,
    pass: &mut Pass,
    row: (u64, u64),
    old: Option<u64>,
)
    requires { IsPassOfCaller index.now _caller pass.old }
    ensures { IsPassOfCaller index.now _caller pass.new }
{
    assert_eq!(rt; pass.try_put(index, row.0, row.1), Tried::Done(old));
}

/// The caller removes the key, which had this value.
pub(crate) fn remove(
    rt: &impl Abort,
    index: &Index,
    _caller: u32,
    pass: &mut Pass,
    key: u64,
    old: Option<u64>,
)
    requires { IsPassOfCaller index.now _caller pass.old }
    ensures { IsPassOfCaller index.now _caller pass.new }
{
    assert_eq!(rt; pass.try_remove(index, key), Tried::Done(old));
}

/// The index of two callers is closed, and this is what it had.
pub(crate) fn pairs_of(
    rt: &impl Abort,
    alloc: Global,
    index: Index,
    passes: (Pass, Pass),
    keeper: Keeper,
) -> Result<Vec<(u64, u64)>, AllocError>
    requires callers { (limits_of_index index).callers ≡ 2 }
    requires one_part { bounds_of_index index ≡ [] }
    requires first { IsPassOfCaller index 0 passes.0 }
    requires second { IsPassOfCaller index 1 passes.1 }
    requires keeper { IsKeeperOf index keeper }
{
    let (first, second) = passes;
    let all = vec![in alloc; first, second]?;
    passes_in_order_are_all();
    match index.close(alloc, all, keeper) {
        Ok(pairs) => Ok(pairs),
        Err(unclosed) => panic!(rt; "{unclosed}"),
    }
}

#[test]
fn closing_gives_what_all_callers_left(rt: HostRuntime) -> Result<(), Fail> {
    let limits = Limits {
        callers: 2,
        records: 4,
        ..SMALL
    };
    let Opened {
        index,
        passes,
        keeper,
    } = opened_index(&rt, rt.alloc(), limits);
    let mut passes = passes.into_iter();
    let mut first = next_pass(&rt, &index, 0, &mut passes);
    let mut second = next_pass(&rt, &index, 1, &mut passes);
    put(&rt, &index, 0, &mut first, (1, 10), None);
    put(&rt, &index, 0, &mut first, (2, 20), None);
    put(&rt, &index, 0, &mut first, (2, 21), Some(20));
    put(&rt, &index, 0, &mut first, (3, 30), None);
    remove(&rt, &index, 1, &mut second, 1, Some(10));
    let pairs = pairs_of(&rt, rt.alloc(), index, (first, second), keeper)?;
    assert_eq!(rt; pairs.as_slice(), &[(2, 21), (3, 30)][..]);
    Ok(())
}

#[test]
fn an_index_that_nobody_changed_is_empty(rt: HostRuntime) -> Result<(), Fail> {
    let limits = Limits {
        callers: 2,
        ..SMALL
    };
    let Opened {
        index,
        passes,
        keeper,
    } = opened_index(&rt, rt.alloc(), limits);
    let mut passes = passes.into_iter();
    let first = next_pass(&rt, &index, 0, &mut passes);
    let second = next_pass(&rt, &index, 1, &mut passes);
    let pairs = pairs_of(&rt, rt.alloc(), index, (first, second), keeper)?;
    assert_eq!(rt; pairs.len(), 0);
    Ok(())
}
