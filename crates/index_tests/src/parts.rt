//! An index of several parts has the keys of all of them, and a caller comes to each by the root of its part.
ghost use Rattle.std.specs.Prelude.{◌≡◌, [], length};
ghost use Rattle.word_layout.specs.Parts.{part_count};
ghost use Rattle.index_rule.specs.Calls.{CanCall};
ghost use Rattle.index_rule.specs.Opened.{AreNewHands};
ghost use Rattle.xindex_core.specs.OneOrder.{IsPassOfCaller};
ghost use Rattle.xindex_core.specs.Opened.{IsNewlyOpenedIn};
ghost use Rattle.xindex_core.specs.Passes.{AreNewKeepers, IsPassOf, bounds_of_index, limits_of_index};

use crate::boards::{SMALL, assert_words, words_of};
use crate::closed_indexes::{put, remove};
use crate::indexes::next_pass;
use index_rule::{Board, Hand};
use reader_epochs::enter;
use std::alloc::{AllocError, Global};
use std::process::Abort;
use std::test::Fail;
use word_layout::{Limits, Parts};
use xindex_core::{Index, Keeper, OpenError, OpenedParts, Pass, Tried, passes_in_order_are_all};

/// The least key of part 1, where there are two.
const BOUND: u64 = 100;

/// The limits of a small index for two callers.
const FOR_TWO: Limits = Limits {
    callers: 2,
    records: 5,
    ..SMALL
};

// ---- an index of several parts ----

// A new index with these limits and parts, which is empty.
fn opened_in(rt: &impl Abort, alloc: Global, limits: Limits, parts: Parts) -> OpenedParts
    ensures { IsNewlyOpenedIn limits parts [] result }
{
    let Ok(opened) = Index::open_in(alloc, limits, parts, &[]) else {
        panic!(rt; "the limits are kept, and there is memory");
    };
    opened
}

// One caller puts the row, and the other one reads and removes it.
fn put_and_removed(
    rt: &impl Abort,
    index: &Index,
    one: &mut Pass,
    other: &mut Pass,
    key: u64,
    value: u64,
)
    requires one { IsPassOf index.now one.old }
    requires other { IsPassOf index.now other.old }
    ensures one { IsPassOf index.now one.new }
    ensures other { IsPassOf index.now other.new }
{
    assert_eq!(rt;
        one.try_put(index, key, value),
        Tried::Done(None),
        "of {key}"
    );
    assert_eq!(rt;
        other.try_get(index, key),
        Tried::Done(Some(value)),
        "of {key}"
    );
    assert_eq!(rt;
        other.try_remove(index, key),
        Tried::Done(Some(value)),
        "of {key}"
    );
    assert_eq!(rt; one.try_get(index, key), Tried::Done(None), "of {key}");
}

#[test]
fn both_callers_put_read_and_remove_keys_of_both_parts(rt: HostRuntime) -> Result<(), Fail> {
    let parts = Parts::of(&[BOUND])?;
    let OpenedParts { index, passes, .. } = opened_in(&rt, rt.alloc(), FOR_TWO, parts);
    let mut passes = passes.into_iter();
    let mut first = next_pass(&rt, &index, 0, &mut passes);
    let mut second = next_pass(&rt, &index, 1, &mut passes);
    for key in [0, BOUND - 1, BOUND, u64::MAX] {
        put_and_removed(&rt, &index, &mut first, &mut second, key, 10);
        put_and_removed(&rt, &index, &mut second, &mut first, key, 20);
    }
    Ok(())
}

#[test]
fn an_index_tells_its_parts_and_each_keeper_its_own(rt: HostRuntime) -> Result<(), Fail> {
    for parts in [Parts::whole(), Parts::of(&[BOUND])?, Parts::even(16)] {
        let OpenedParts { index, keepers, .. } = opened_in(&rt, rt.alloc(), FOR_TWO, parts);
        assert_eq!(rt; index.parts(), parts);
        assert_eq!(rt; keepers.len(), parts.count() as usize);
        for (part, keeper) in keepers.iter().enumerate() {
            assert_eq!(rt; keeper.part() as usize, part);
        }
    }
    Ok(())
}

#[test]
fn limits_are_refused_that_need_too_many_words_for_two_parts(rt: HostRuntime) {
    let limits = Limits {
        groups: 65536,
        group_size: 1000,
        ..FOR_TWO
    };
    assert!(rt; limits.layout().is_ok());
    match Index::open_in(rt.alloc(), limits, Parts::even(2), &[]) {
        Ok(_opened) => panic!(rt; "two parts have too many words"),
        Err(error) => assert_eq!(rt; error, OpenError::BadLimit { number: 10 }),
    }
}

// ---- it is closed ----

/// The index of two callers is closed, and this is what it had.
pub(crate) fn pairs_of_parts(
    rt: &impl Abort,
    alloc: Global,
    index: Index,
    passes: (Pass, Pass),
    keepers: Vec<Keeper>,
) -> Result<Vec<(u64, u64)>, AllocError>
    requires callers { (limits_of_index index).callers ≡ 2 }
    requires first { IsPassOfCaller index 0 passes.0 }
    requires second { IsPassOfCaller index 1 passes.1 }
    requires keepers { AreNewKeepers index 0 keepers.items }
    requires each { length keepers.items ≡ part_count (bounds_of_index index) }
{
    let (first, second) = passes;
    let all = vec![in alloc; first, second]?;
    passes_in_order_are_all();
    match index.close_in(alloc, all, keepers) {
        Ok(pairs) => Ok(pairs),
        Err(unclosed) => panic!(rt; "{unclosed}"),
    }
}

#[test]
fn closing_gives_the_rows_of_both_parts_by_rising_key(rt: HostRuntime) -> Result<(), Fail> {
    let parts = Parts::of(&[BOUND])?;
    let OpenedParts {
        index,
        passes,
        keepers,
    } = opened_in(&rt, rt.alloc(), FOR_TWO, parts);
    let mut passes = passes.into_iter();
    let mut first = next_pass(&rt, &index, 0, &mut passes);
    let mut second = next_pass(&rt, &index, 1, &mut passes);
    put(&rt, &index, 0, &mut first, (150, 15), None);
    put(&rt, &index, 0, &mut first, (5, 50), None);
    put(&rt, &index, 1, &mut second, (BOUND, 10), None);
    put(&rt, &index, 1, &mut second, (BOUND - 1, 9), None);
    put(&rt, &index, 1, &mut second, (u64::MAX, 1), None);
    remove(&rt, &index, 1, &mut second, 5, Some(50));
    let pairs = pairs_of_parts(&rt, rt.alloc(), index, (first, second), keepers)?;
    let expected = [(99, 9), (100, 10), (150, 15), (u64::MAX, 1)];
    assert_eq!(rt; pairs.as_slice(), &expected[..]);
    Ok(())
}

// ---- a board of two parts ----

// A row of each part.
const ROWS: [(u64, u64); 2] = [(5, 50), (150, 70)];

// The first of the new hands, which enters.
fn first_inside(rt: &impl Abort, board: &Board, hands: Vec<Hand>) -> Hand
    requires { AreNewHands board.now 0 hands.items }
    ensures { CanCall board.now result }
{
    let mut hands = hands.into_iter();
    let Some(mut hand) = hands.next() else {
        panic!(rt; "each caller has a hand");
    };
    enter(board, &mut hand);
    hand
}

// The group to which the caller comes by the root of the key's part.
fn group_for(board: &Board, hand: &mut Hand, key: u64) -> u32
    requires { CanCall board.now hand.old }
    ensures { CanCall board.now hand.new }
{
    root_table::group_for(board, hand, key)
}

#[test]
fn a_caller_comes_to_the_group_of_a_key_by_the_root_of_its_part(
    rt: HostRuntime,
) -> Result<(), Fail> {
    let layout = SMALL.layout_in(Parts::of(&[BOUND])?)?;
    let (board, hands) = Board::open(rt.alloc(), &layout, &ROWS)?;
    let mut hand = first_inside(&rt, &board, hands);
    for (key, group) in [(0, 0), (BOUND - 1, 0), (BOUND, 2), (u64::MAX, 2)] {
        assert_eq!(rt; group_for(&board, &mut hand, key), group, "of {key}");
    }
    Ok(())
}

// ---- the words of a board as it is opened ----

#[test]
fn the_rows_of_each_part_stand_in_its_first_group(rt: HostRuntime) -> Result<(), Fail> {
    let words = words_of(&rt, rt.alloc(), SMALL, Parts::of(&[BOUND])?, &ROWS);
    // The root words, the first slot of each root with its pivot and group, and an array's first place each.
    assert_words(&rt, words.get(1..3), &[2, 2]);
    assert_words(&rt, words.get(6..8), &[0, 0]);
    assert_words(&rt, words.get(10..12), &[BOUND, 2]);
    assert_words(&rt, words.get(38..42), &[5, 50, 0, 0]);
    assert_words(&rt, words.get(150..154), &[150, 70, 0, 0]);
    Ok(())
}

// The limits of a board whose part has four groups, and two slots for them.
const WIDE: Limits = Limits {
    groups: 4,
    slots: 2,
    ..SMALL
};

/// More rows than two groups are given.
pub(crate) const THIRTEEN: [(u64, u64); 13] = [
    (10, 1),
    (20, 2),
    (30, 3),
    (40, 4),
    (50, 5),
    (60, 6),
    (70, 7),
    (80, 8),
    (90, 9),
    (100, 10),
    (110, 11),
    (120, 12),
    (130, 13),
];

#[test]
fn many_rows_are_shared_out_among_the_first_groups_of_a_part(rt: HostRuntime) {
    let words = words_of(&rt, rt.alloc(), WIDE, Parts::whole(), &THIRTEEN);
    // The root word, and the pivots and groups of its two slots.
    assert_words(&rt, words.get(1..2), &[4]);
    assert_words(&rt, words.get(5..9), &[0, 0, 110, 2]);
    // Each header's pivot, size, line error, number of lanes, phase and next word.
    let headers = [
        (13, [0, 5, 0, 5, 0, 2]),
        (69, [60, 5, 0, 5, 0, 3]),
        (125, [110, 3, 0, 3, 0, 0]),
        (181, [0, 0, 0, 0, 0, 0]),
    ];
    for (at, header) in headers {
        assert_words(&rt, words.get(at..at + 6), &header);
    }
    // The first place of each array, and the place behind the last row.
    assert_words(&rt, words.get(37..41), &[10, 1, 0, 0]);
    assert_words(&rt, words.get(93..97), &[60, 6, 0, 0]);
    assert_words(&rt, words.get(149..153), &[110, 11, 0, 0]);
    assert_words(&rt, words.get(161..165), &[0, 0, 0, 0]);
}
