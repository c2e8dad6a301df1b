//! Callers of an index that was opened with rows call for keys of several groups and parts.
ghost use Rattle.xindex_core.specs.OneOrder.{IsPassOfCaller};
ghost use Rattle.xindex_core.specs.Opened.{IsNewlyOpenedIn};

use crate::boards::SMALL;
use crate::closed_indexes::{put, remove};
use crate::indexes::{next_pass, opened_for_two};
use crate::parts::{THIRTEEN, pairs_of_parts};
use std::alloc::Global;
use std::process::Abort;
use std::test::Fail;
use word_layout::{Limits, Parts};
use xindex_core::{Index, OpenedParts, Pass, Tried};

// The limits of an index for two callers whose parts have two groups each, with a row for each of thirteen keys.
const ROOMY: Limits = Limits {
    callers: 2,
    records: 16,
    due: 8,
    ..SMALL
};

// A new index of these parts with these rows.
fn opened_in(rt: &impl Abort, alloc: Global, parts: Parts, rows: &[(u64, u64)]) -> OpenedParts
    ensures { IsNewlyOpenedIn ROOMY parts rows.now result }
{
    match Index::open_in(alloc, ROOMY, parts, rows) {
        Ok(opened) => opened,
        Err(error) => panic!(rt; "{error}"),
    }
}

// ---- calls for keys of arrays and of buffers ----

// The caller moves each row of the opening to a key that is greater by five.
fn move_all(rt: &impl Abort, index: &Index, caller: u32, pass: &mut Pass)
    requires { IsPassOfCaller index.now caller pass.old }
    ensures { IsPassOfCaller index.now caller pass.new }
{
    for (key, value) in THIRTEEN {
        let next = key.wrapping_add(5);
        put(rt, index, caller, pass, (key, 0), Some(value));
        put(rt, index, caller, pass, (next, value), None);
        remove(rt, index, caller, pass, key, Some(0));
    }
}

#[test]
fn rows_of_several_groups_and_parts_are_moved(rt: HostRuntime) -> Result<(), Fail> {
    for bound in [20, 70, 75, 130] {
        let parts = Parts::of(&[bound])?;
        let OpenedParts {
            index,
            passes,
            keepers,
        } = opened_in(&rt, rt.alloc(), parts, &THIRTEEN);
        let mut passes = passes.into_iter();
        let first = next_pass(&rt, &index, 0, &mut passes);
        let mut second = next_pass(&rt, &index, 1, &mut passes);
        move_all(&rt, &index, 1, &mut second);
        let pairs = pairs_of_parts(&rt, rt.alloc(), index, (first, second), keepers)?;
        assert_eq!(rt; pairs.len(), THIRTEEN.len(), "cut at {bound}");
        for (now, before) in pairs.iter().zip(&THIRTEEN) {
            assert_eq!(rt; now.0, before.0.wrapping_add(5), "cut at {bound}");
            assert_eq!(rt; now.1, before.1, "cut at {bound}");
        }
    }
    Ok(())
}

// ---- probes ----

#[test]
fn a_caller_counts_the_keys_that_it_compares_in_windows(rt: HostRuntime) {
    // The keys of the opening, the key that is read, and how many are compared for it.
    let cases = [
        (&[(0, 1), (1, 1), (2, 1), (100, 1)][..], 2, 2),
        (&[(110, 1), (120, 1), (130, 1)][..], 115, 1),
        (&[][..], 115, 0),
    ];
    for (rows, key, count) in cases {
        let OpenedParts { index, passes, .. } = opened_in(&rt, rt.alloc(), Parts::whole(), rows);
        let mut passes = passes.into_iter();
        let mut pass = next_pass(&rt, &index, 0, &mut passes);
        assert_eq!(rt; pass.probes(), 0);
        let _came = pass.try_get(&index, key);
        assert_eq!(rt; pass.probes(), count, "for {key}");
        let _came = pass.try_get(&index, key);
        assert_eq!(rt; pass.probes(), 2 * count, "for {key} twice");
    }
}

// ---- held callers ----

#[test]
fn a_held_caller_calls_and_tells_and_leaves(rt: HostRuntime) {
    let (index, (first, mut second), _keeper) = opened_for_two(&rt, rt.alloc(), ROOMY);
    let mut held = first.hold(&index);
    assert_eq!(rt; held.try_put(&index, 5, 50), Tried::Done(None));
    assert_eq!(rt; second.try_put(&index, 5, 51), Tried::Done(Some(50)));
    let note = second.tell(&index);
    held.heed(&index, note);
    assert_eq!(rt; held.try_get(&index, 5), Tried::Done(Some(51)));
    assert_eq!(rt; held.try_remove(&index, 5), Tried::Done(Some(51)));
    let note = held.tell(&index);
    second.heed(&index, note);
    assert_eq!(rt; second.try_get(&index, 5), Tried::Done(None));
    assert_eq!(rt; (held.number(), held.probes()), (0, 0));
    let mut first = held.free(&index);
    assert_eq!(rt; first.try_put(&index, 5, 52), Tried::Done(None));
    assert_eq!(rt; first.number(), 0);
}
