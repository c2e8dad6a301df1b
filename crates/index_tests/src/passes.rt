//! Passes and keepers tell each other, and limits are refused.
use crate::boards::SMALL;
use crate::indexes::opened_for_two;
use word_layout::{LAST_VERSION, Limits};
use xindex_core::{Index, OpenError, Tried};

#[test]
fn a_pass_that_heeds_sees_what_was_put(rt: HostRuntime) {
    let (index, (mut first, mut second), _keeper) = opened_for_two(&rt, rt.alloc(), SMALL);
    assert_eq!(rt; first.try_put(&index, 5, 50), Tried::Done(None));
    let note = first.tell(&index);
    second.heed(&index, note);
    assert_eq!(rt; second.try_get(&index, 5), Tried::Done(Some(50)));
    assert_eq!(rt; second.try_remove(&index, 5), Tried::Done(Some(50)));
    assert_eq!(rt; first.try_get(&index, 5), Tried::Done(None));
    assert_eq!(rt; (first.number(), second.number()), (0, 1));
}

#[test]
fn a_keeper_hands_on_what_it_heeded(rt: HostRuntime) {
    let (index, (mut first, mut second), mut keeper) = opened_for_two(&rt, rt.alloc(), SMALL);
    assert_eq!(rt; first.try_put(&index, 5, 50), Tried::Done(None));
    let note = first.tell(&index);
    keeper.heed(&index, note);
    let note = keeper.tell(&index);
    second.heed(&index, note);
    assert_eq!(rt; second.try_get(&index, 5), Tried::Done(Some(50)));
    assert_eq!(rt; keeper.part(), 0);
}

#[test]
fn the_first_broken_limit_is_told(rt: HostRuntime) {
    let limits = Limits {
        records: 1,
        first_version: LAST_VERSION,
        ..SMALL
    };
    match Index::open(rt.alloc(), limits, &[]) {
        Ok(_opened) => panic!(rt; "one record row is too few"),
        Err(error) => assert_eq!(rt; error, OpenError::BadLimit { number: 2 }),
    }
    let limits = Limits {
        first_version: 7,
        ..SMALL
    };
    let (index, _passes, _keeper) = opened_for_two(&rt, rt.alloc(), limits);
    assert_eq!(rt; index.limits(), limits);
}
