//! An index is opened with rows and closed with them, or tells why it is not opened.
ghost use Rattle.std.specs.Prelude.{◌≡◌};
ghost use Rattle.xindex_core.specs.Opened.{IsNewlyOpened, IsNewlyOpenedIn};

use crate::boards::SMALL;
use crate::closed_indexes::{pairs_of, put, remove};
use crate::indexes::next_pass;
use crate::parts::{THIRTEEN, pairs_of_parts};
use std::alloc::{AllocError, Global};
use std::process::Abort;
use std::test::Fail;
use word_layout::{Limits, Parts};
use xindex_core::{Index, OpenError, Opened, OpenedParts};

// The limits of an index of two callers whose parts have two groups each, of eight places.
const TWO_GROUPS: Limits = Limits {
    callers: 2,
    due: 8,
    ..SMALL
};

// A new index of one part with these rows.
fn opened_with(rt: &impl Abort, alloc: Global, limits: Limits, rows: &[(u64, u64)]) -> Opened
    ensures { IsNewlyOpened limits rows.now result }
{
    match Index::open(alloc, limits, rows) {
        Ok(opened) => opened,
        Err(error) => panic!(rt; "{error}"),
    }
}

// A new index of these parts with these rows.
fn opened_in(rt: &impl Abort, alloc: Global, parts: Parts, rows: &[(u64, u64)]) -> OpenedParts
    ensures { IsNewlyOpenedIn TWO_GROUPS parts rows.now result }
{
    match Index::open_in(alloc, TWO_GROUPS, parts, rows) {
        Ok(opened) => opened,
        Err(error) => panic!(rt; "{error}"),
    }
}

// What an index of two callers with these rows has when it is closed at once.
fn closed_at_once(
    rt: &impl Abort,
    alloc: Global,
    rows: &[(u64, u64)],
) -> Result<Vec<(u64, u64)>, AllocError> {
    let Opened {
        index,
        passes,
        keeper,
    } = opened_with(rt, alloc, TWO_GROUPS, rows);
    let mut passes = passes.into_iter();
    let first = next_pass(rt, &index, 0, &mut passes);
    let second = next_pass(rt, &index, 1, &mut passes);
    pairs_of(rt, alloc, index, (first, second), keeper)
}

// The same of an index of these parts.
fn closed_in_parts(
    rt: &impl Abort,
    alloc: Global,
    parts: Parts,
    rows: &[(u64, u64)],
) -> Result<Vec<(u64, u64)>, AllocError> {
    let OpenedParts {
        index,
        passes,
        keepers,
    } = opened_in(rt, alloc, parts, rows);
    let mut passes = passes.into_iter();
    let first = next_pass(rt, &index, 0, &mut passes);
    let second = next_pass(rt, &index, 1, &mut passes);
    pairs_of_parts(rt, alloc, index, (first, second), keepers)
}

#[test]
fn an_index_that_nobody_changed_has_the_rows_of_its_opening(rt: HostRuntime) -> Result<(), Fail> {
    let (twelve, _last) = THIRTEEN.split_at(12);
    let (six, _others) = THIRTEEN.split_at(6);
    for rows in [&[(1, 10), (2, 20)][..], six, twelve] {
        let pairs = closed_at_once(&rt, rt.alloc(), rows)?;
        assert_eq!(rt; pairs.as_slice(), rows);
    }
    Ok(())
}

#[test]
fn several_groups_of_several_parts_have_the_rows_of_their_opening(
    rt: HostRuntime,
) -> Result<(), Fail> {
    for bound in [20, 70, 130] {
        let parts = Parts::of(&[bound])?;
        let pairs = closed_in_parts(&rt, rt.alloc(), parts, &THIRTEEN)?;
        assert_eq!(rt; pairs.as_slice(), THIRTEEN.as_slice(), "cut at {bound}");
    }
    Ok(())
}

// What an index with the rows (1, 10) and (2, 20) has after some calls of its two callers.
fn changed_and_closed(
    rt: &impl Abort,
    alloc: Global,
    limits: Limits,
) -> Result<Vec<(u64, u64)>, AllocError>
    requires { limits.callers ≡ 2 }
{
    let Opened {
        index,
        passes,
        keeper,
    } = opened_with(rt, alloc, limits, &[(1, 10), (2, 20)]);
    let mut passes = passes.into_iter();
    let mut first = next_pass(rt, &index, 0, &mut passes);
    let mut second = next_pass(rt, &index, 1, &mut passes);
    put(rt, &index, 0, &mut first, (2, 21), Some(20));
    put(rt, &index, 0, &mut first, (3, 30), None);
    remove(rt, &index, 1, &mut second, 1, Some(10));
    pairs_of(rt, alloc, index, (first, second), keeper)
}

#[test]
fn callers_change_the_rows_of_an_opening(rt: HostRuntime) -> Result<(), Fail> {
    for due in [8, 1] {
        let limits = Limits { due, ..TWO_GROUPS };
        let pairs = changed_and_closed(&rt, rt.alloc(), limits)?;
        assert_eq!(rt; pairs.as_slice(), &[(2, 21), (3, 30)][..], "due {due}");
    }
    Ok(())
}

// Why an index of one part is not opened.
fn refused(rt: &impl Abort, alloc: Global, limits: Limits, rows: &[(u64, u64)]) -> OpenError {
    match Index::open(alloc, limits, rows) {
        Ok(_opened) => panic!(rt; "a rule is broken"),
        Err(error) => error,
    }
}

#[test]
fn the_first_key_that_is_not_above_the_one_before_it_is_told(rt: HostRuntime) {
    let cases = [
        (&[(5, 1), (5, 2)][..], 1),
        (&[(2, 1), (1, 2)][..], 1),
        (&[(1, 1), (3, 2), (2, 3), (1, 4)][..], 2),
    ];
    for (rows, at) in cases {
        let error = refused(&rt, rt.alloc(), Limits::standard(), rows);
        assert_eq!(rt; error, OpenError::Unsorted { at });
    }
}

#[test]
fn rows_are_refused_for_which_the_plan_needs_more_groups(rt: HostRuntime) {
    let error = refused(&rt, rt.alloc(), TWO_GROUPS, &THIRTEEN);
    assert_eq!(rt; error, OpenError::TooMany { need: 3, have: 2 });
}

#[test]
fn the_first_part_with_too_many_rows_is_told(rt: HostRuntime) -> Result<(), Fail> {
    // Part 0 has no row, and part 1 all of them.
    let parts = Parts::of(&[5])?;
    match Index::open_in(rt.alloc(), TWO_GROUPS, parts, &THIRTEEN) {
        Ok(_opened) => panic!(rt; "part 1 has too many rows"),
        Err(error) => assert_eq!(rt; error, OpenError::TooMany { need: 3, have: 2 }),
    }
    Ok(())
}

#[test]
fn limits_are_refused_before_rows_and_their_order_before_their_number(rt: HostRuntime) {
    let mut falling = THIRTEEN;
    falling[12] = (0, 0);
    let limits = Limits {
        records: 1,
        ..TWO_GROUPS
    };
    let error = refused(&rt, rt.alloc(), limits, &falling);
    assert_eq!(rt; error, OpenError::BadLimit { number: 2 });
    let error = refused(&rt, rt.alloc(), TWO_GROUPS, &falling);
    assert_eq!(rt; error, OpenError::Unsorted { at: 12 });
}
