//! A waiter answers each call.
ghost use Rattle.xindex_core.specs.Naming.{IsNameOf};
ghost use Rattle.xindex_core.specs.Passes.{IsKeeperOf, IsPassOf};

use crate::boards::SMALL;
use crate::indexes::opened_for_two;
use map_model::{Answer, Answerer, Call, Near};
use std::marker::Brand;
use std::process::Abort;
use std::sync::{Mutex, Wait};
use word_layout::{LAST_VERSION, Limits};
use xindex_core::{Index, Keeper, Name, NamedKeeper, NamedPass, Pass, Tried, Waiter};

// Asks each call of a waiter, which has to answer as the table says, and gives the pass back.
fn waited<N: Name, R: Wait + Copy + Abort>(
    rt: &R,
    index: &Index,
    pass: Pass,
    keeper: Keeper,
    table: &[(Call, Answer)],
) -> Pass
    requires name { IsNameOf N.table N.opening index.now }
    requires pass { IsPassOf index.now pass }
    requires keeper { IsKeeperOf index.now keeper }
    ensures { IsPassOf index.now result }
{
    let keeper = Mutex::new(NamedKeeper::<N>::new(keeper));
    let mut waiter = Waiter::new(index, pass, &keeper);
    for (call, answer) in table {
        assert_eq!(rt; waiter.ask(rt, *call), *answer, "to {call:?}");
    }
    waiter.finish()
}

// The pass and the keeper, behind types that say whose they are.
fn named<N: Name>(_index: &Index, pass: Pass, keeper: Keeper) -> (Pass, Keeper)
    requires name { IsNameOf N.table N.opening _index.now }
    requires pass { IsPassOf _index.now pass }
    requires keeper { IsKeeperOf _index.now keeper }
    ensures pass { IsPassOf _index.now result.0 }
    ensures keeper { IsKeeperOf _index.now result.1 }
{
    let pass = NamedPass::<N>::new(pass);
    let keeper = NamedKeeper::<N>::new(keeper);
    (pass.into_inner(), keeper.into_inner())
}

#[test]
fn a_waiter_answers_until_no_row_is_free(rt: HostRuntime) {
    let (index, (first, _second), keeper) = opened_for_two(&rt, rt.alloc(), SMALL);
    let (first, keeper) = named::<Brand>(&index, first, keeper);
    let put = |key: u64, value: u64| Call::Put { key, value };
    let table = [
        (Call::Get { key: 5 }, Answer::Value(None)),
        (put(5, 50), Answer::Old(None)),
        (put(5, 51), Answer::Old(Some(50))),
        (Call::Get { key: 5 }, Answer::Value(Some(51))),
        (
            Call::Next { from: 5 },
            Answer::Near(Near::Row { key: 5, value: 51 }),
        ),
        (Call::Next { from: 4 }, Answer::Near(Near::Gap { hi: 4 })),
        (put(3, 30), Answer::Old(None)),
        (put(4, 40), Answer::Full),
        (Call::Remove { key: 5 }, Answer::Old(Some(51))),
        (Call::Remove { key: 5 }, Answer::Old(None)),
        (Call::Next { from: 5 }, Answer::Near(Near::Gap { hi: 5 })),
        (put(4, 40), Answer::Full),
        (put(5, 52), Answer::Old(None)),
    ];
    let mut pass = waited::<Brand, _>(&rt, &index, first, keeper, &table);
    assert_eq!(rt; pass.try_get(&index, 5), Tried::Done(Some(52)));
}

#[test]
fn a_waiter_answers_that_a_version_is_exhausted(rt: HostRuntime) {
    let limits = Limits {
        first_version: LAST_VERSION,
        ..SMALL
    };
    let (index, (first, _second), keeper) = opened_for_two(&rt, rt.alloc(), limits);
    let table = [
        (Call::Put { key: 5, value: 50 }, Answer::Old(None)),
        (Call::Put { key: 5, value: 51 }, Answer::Worn),
        (Call::Remove { key: 5 }, Answer::Worn),
        (Call::Get { key: 5 }, Answer::Value(Some(50))),
    ];
    let mut pass = waited::<Brand, _>(&rt, &index, first, keeper, &table);
    assert_eq!(rt; pass.try_get(&index, 5), Tried::Done(Some(50)));
}
