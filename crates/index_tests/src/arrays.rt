//! A key of the opening is at its place of the sorted array, and another key is between two of them.
ghost use Rattle.std.specs.Prelude.{◌≤◌, length};
ghost use Rattle.map_model.specs.Map.{IsRising};
ghost use Rattle.rebuild_plan.specs.Plan.{fill_limit};
ghost use Rattle.index_tests.specs.Boards.{IsInside};

use crate::boards::{SMALL, come_to, enter, next_hand, opened};
use index_rule::{Board, Hand};
use line_window::{Keys, Probes};
use sorted_group::Located::{self, At, Between};
use sorted_group::{GroupKeys, locate, pivot, size};
use std::alloc::Global;
use std::process::Abort;

/// Rows that stand at equal steps.
const EVEN: [(u64, u64); 6] = [(10, 1), (20, 2), (30, 3), (40, 4), (50, 5), (60, 6)];

/// Rows of which a straight line is far off.
const UNEVEN: [(u64, u64); 6] = [
    (1, 0),
    (2, 0),
    (3, 0),
    (1000, 0),
    (1_099_511_627_776, 0),
    (18_446_744_073_709_551_615, 0),
];

// Asserts where the caller finds a key in the array of its group.
fn assert_located(
    rt: &impl Abort,
    board: &Board,
    number: u32,
    hand: &mut Hand,
    key: u64,
    expected: Located,
)
    requires { IsInside board.now number hand.old }
    ensures { IsInside board.now number hand.new }
{
    let group = come_to(board, number, hand, key);
    let found = locate(board, hand, group, key, &mut Probes::new());
    assert_eq!(rt; found, expected, "of {key}");
}

// Asserts how many keys the array of the first group has, and the least key of the group.
fn assert_size(rt: &impl Abort, board: &Board, number: u32, hand: &mut Hand, expected: usize)
    requires { IsInside board.now number hand.old }
    ensures { IsInside board.now number hand.new }
{
    let group = come_to(board, number, hand, 0);
    assert_eq!(rt; size(board, hand, group) as usize, expected);
    assert_eq!(rt; pivot(board, hand, group), 0);
}

// Asserts where the keys are in the array of a board that is opened with these rows.
fn assert_array(rt: &impl Abort, alloc: Global, rows: &[(u64, u64)], cases: &[(u64, Located)])
    requires rising { IsRising rows.now }
    requires few { length rows.now ≤ fill_limit 8 }
{
    let (board, mut hands) = opened(rt, alloc, SMALL, rows);
    let mut hand = next_hand(rt, &board, 0, &mut hands);
    enter(&board, 0, &mut hand);
    assert_size(rt, &board, 0, &mut hand, rows.len());
    for (key, expected) in cases {
        assert_located(rt, &board, 0, &mut hand, *key, *expected);
    }
}

#[test]
fn a_key_is_at_its_place_or_between_two_others(rt: HostRuntime) {
    let even = [
        (0, Between(0)),
        (9, Between(0)),
        (10, At(33)),
        (15, Between(1)),
        (20, At(37)),
        (35, Between(3)),
        (40, At(45)),
        (59, Between(5)),
        (60, At(53)),
        (61, Between(6)),
        (u64::MAX, Between(6)),
    ];
    assert_array(&rt, rt.alloc(), &EVEN, &even);
    let uneven = [
        (0, Between(0)),
        (1, At(33)),
        (2, At(37)),
        (3, At(41)),
        (4, Between(3)),
        (999, Between(3)),
        (1000, At(45)),
        (1_099_511_627_775, Between(4)),
        (1_099_511_627_776, At(49)),
        (u64::MAX - 1, Between(5)),
        (u64::MAX, At(53)),
    ];
    assert_array(&rt, rt.alloc(), &UNEVEN, &uneven);
    let one = [
        (9, Between(0)),
        (10, At(33)),
        (11, Between(1)),
        (u64::MAX, Between(1)),
    ];
    assert_array(&rt, rt.alloc(), &[(10, 1)], &one);
    let none = [(0, Between(0)), (5, Between(0)), (u64::MAX, Between(0))];
    assert_array(&rt, rt.alloc(), &[], &none);
}

// Asserts which keys the caller reads in the array of the first group, one by one, and how far their line is off.
fn assert_keys(
    rt: &impl Abort,
    board: &Board,
    number: u32,
    mut hand: Hand,
    expected: &[u64],
    error: usize,
)
    requires { IsInside board.now number hand }
{
    let group = come_to(board, number, &mut hand, 0);
    let len = size(board, &mut hand, group) as usize;
    assert_eq!(rt; len, expected.len());
    let mut keys = GroupKeys::of(board, &mut hand, group, len);
    assert_eq!(rt; keys.line().error(), error);
    for (i, key) in expected.iter().enumerate() {
        assert_eq!(rt; keys.key(i), *key, "at {i}");
    }
}

// Asserts them of a board that is opened with these rows.
fn assert_keys_of(
    rt: &impl Abort,
    alloc: Global,
    rows: &[(u64, u64)],
    expected: &[u64],
    error: usize,
)
    requires rising { IsRising rows.now }
    requires few { length rows.now ≤ fill_limit 8 }
{
    let (board, mut hands) = opened(rt, alloc, SMALL, rows);
    let mut hand = next_hand(rt, &board, 0, &mut hands);
    enter(&board, 0, &mut hand);
    assert_keys(rt, &board, 0, hand, expected, error);
}

#[test]
fn the_keys_of_an_array_are_those_of_the_opening(rt: HostRuntime) {
    assert_keys_of(&rt, rt.alloc(), &EVEN, &[10, 20, 30, 40, 50, 60], 0);
    let uneven = [1, 2, 3, 1000, 1_099_511_627_776, u64::MAX];
    assert_keys_of(&rt, rt.alloc(), &UNEVEN, &uneven, 4);
    assert_keys_of(&rt, rt.alloc(), &[], &[], 0);
}
