//! The buffer of a board that was opened with rows has lanes, and a row is linked into that of its key alone.
ghost use Rattle.std.specs.Prelude.{◌≡◌, ◌≤◌, length};
ghost use Rattle.map_model.specs.Map.{IsRising};
ghost use Rattle.rebuild_plan.specs.Plan.{fill_limit};
ghost use Rattle.index_machine.specs.Sections.{IsCaller};
ghost use Rattle.index_rule.specs.Hands.{opening_of};
ghost use Rattle.index_tests.specs.Boards.{IsInside, Rests, RestsWithNoRow};

use crate::boards::{SMALL, assert_words, closed, come_to, enter, leave, next_hand, opened};
use crate::buffers::{
    VALUE, assert_finds, assert_first, come_to_lane, count_of_caller, enter_to_link, find_gap,
    link_at, link_row,
};
use delta_buffer::Found;
use index_rule::{Board, Hand};
use sorted_group::{lane_end, lanes};
use std::alloc::Global;
use std::process::Abort;
use std::thread;
use word_layout::{HeaderWord, Limits};

/// The rows of a board whose buffer has a lane for each of them.
const ROWS: [(u64, u64); 6] = [(10, 1), (20, 2), (30, 3), (40, 4), (50, 5), (60, 6)];

/// The least keys of its lanes.
const CUTS: [u64; 6] = [0, 20, 30, 40, 50, 60];

/// The rows of a board for more keys than a buffer can have lanes.
const NINE: [(u64, u64); 9] = [
    (1, 0),
    (2, 0),
    (3, 0),
    (4, 0),
    (5, 0),
    (6, 0),
    (7, 0),
    (8, 0),
    (9, 0),
];

// Asserts how many lanes the buffer of the first group has, and which are their least keys.
fn assert_lanes(rt: &impl Abort, board: &Board, number: u32, hand: &mut Hand, cuts: &[u64])
    requires { IsInside board.now number hand.old }
    ensures { IsInside board.now number hand.new }
{
    let group = come_to(board, number, hand, 0);
    let many = lanes(board, hand, group);
    assert_eq!(rt; many as usize, cuts.len());
    for lane in 0..many {
        let cut = board.load_header(hand, group, HeaderWord::Cut { lane });
        assert_eq!(rt; Some(&cut), cuts.get(lane as usize), "of lane {lane}");
    }
}

// Asserts which is the greatest key of the lane that has a key.
fn assert_lane_ends(
    rt: &impl Abort,
    board: &Board,
    number: u32,
    hand: &mut Hand,
    key: u64,
    expected: u64,
)
    requires { IsInside board.now number hand.old }
    ensures { IsInside board.now number hand.new }
{
    let lane = come_to_lane(board, number, hand, key);
    assert_eq!(rt; lane_end(board, hand, lane, u64::MAX), expected, "of {key}");
}

#[test]
fn a_lane_ends_before_the_next_one_and_the_last_with_the_group(rt: HostRuntime) {
    let (board, mut hands) = opened(&rt, rt.alloc(), SMALL, &ROWS);
    let mut hand = next_hand(&rt, &board, 0, &mut hands);
    enter(&board, 0, &mut hand);
    assert_lane_ends(&rt, &board, 0, &mut hand, 0, 19);
    assert_lane_ends(&rt, &board, 0, &mut hand, 19, 19);
    assert_lane_ends(&rt, &board, 0, &mut hand, 20, 29);
    assert_lane_ends(&rt, &board, 0, &mut hand, 59, 59);
    assert_lane_ends(&rt, &board, 0, &mut hand, 60, u64::MAX);
    assert_lane_ends(&rt, &board, 0, &mut hand, u64::MAX, u64::MAX);
}

// Asserts which are the least keys of the lanes of a board with these rows.
fn assert_lanes_of(
    rt: &impl Abort,
    alloc: Global,
    limits: Limits,
    rows: &[(u64, u64)],
    cuts: &[u64],
)
    requires callers { limits.callers ≡ 3 }
    requires rising { IsRising rows.now }
    requires few { length rows.now ≤ fill_limit limits.group_size }
{
    let (board, mut hands) = opened(rt, alloc, limits, rows);
    let mut hand = next_hand(rt, &board, 0, &mut hands);
    enter(&board, 0, &mut hand);
    assert_lanes(rt, &board, 0, &mut hand, cuts);
}

#[test]
fn a_buffer_has_the_lanes_that_the_rows_are_cut_into(rt: HostRuntime) {
    let due = Limits { due: 8, ..SMALL };
    let large = Limits {
        group_size: 16,
        ..SMALL
    };
    assert_lanes_of(&rt, rt.alloc(), due, &[], &[0]);
    assert_lanes_of(&rt, rt.alloc(), due, &[(10, 0)], &[0]);
    assert_lanes_of(&rt, rt.alloc(), due, &ROWS, &CUTS);
    // They are too many for a lane each, so each lane but the last has two.
    assert_lanes_of(&rt, rt.alloc(), large, &NINE, &[0, 3, 5, 7, 9]);
}

// Asserts that the row is the first one of this lane, and that no other lane has a row.
fn assert_only_in(
    rt: &impl Abort,
    board: &Board,
    number: u32,
    hand: &mut Hand,
    lane: u32,
    place: u32,
)
    requires { IsInside board.now number hand.old }
    ensures { IsInside board.now number hand.new }
{
    for (i, cut) in CUTS.iter().enumerate() {
        let expected = if i == lane as usize {
            Some(place)
        } else {
            None
        };
        assert_first(rt, board, number, hand, *cut, expected);
    }
}

// The caller links a row for the key, which is met in this lane alone, and leaves.
fn link_and_look(rt: &impl Abort, board: &Board, number: u32, hand: &mut Hand, key: u64, lane: u32)
    requires caller { IsCaller (opening_of board.now) number }
    requires rests { RestsWithNoRow board.now number hand.old }
    ensures { Rests board.now number hand.new }
{
    let place = link_row(rt, board, number, hand, key);
    assert_eq!(rt; come_to_lane(board, number, hand, key).number, lane);
    assert_finds(rt, board, number, hand, key, Found::Row(place));
    assert_only_in(rt, board, number, hand, lane, place);
    assert_eq!(rt; count_of_caller(board, number, hand), 1);
    leave(board, number, hand);
}

#[test]
fn a_row_is_met_in_the_lane_of_its_key_alone(rt: HostRuntime) {
    let table = [
        (5, 0, [121, 0, 0, 0, 0, 0, 0, 0]),
        (19, 0, [121, 0, 0, 0, 0, 0, 0, 0]),
        (25, 1, [0, 121, 0, 0, 0, 0, 0, 0]),
        (59, 4, [0, 0, 0, 0, 121, 0, 0, 0]),
        (u64::MAX, 5, [0, 0, 0, 0, 0, 121, 0, 0]),
    ];
    for (key, lane, heads) in table {
        let (board, mut hands) = opened(&rt, rt.alloc(), SMALL, &ROWS);
        let mut first = next_hand(&rt, &board, 0, &mut hands);
        let second = next_hand(&rt, &board, 1, &mut hands);
        let third = next_hand(&rt, &board, 2, &mut hands);
        let keeper = next_hand(&rt, &board, 3, &mut hands);
        link_and_look(&rt, &board, 0, &mut first, key, lane);
        let words = closed(&rt, rt.alloc(), board, (first, second, third), keeper);
        assert_words(&rt, words.get(17..25), &heads);
        assert_words(&rt, words.get(121..125), &[key, VALUE, 0, 0]);
    }
}

// Two callers find where their keys are to be, and then link one after the other. This is what the second one
// finds in place of the expected link.
fn link_after_another(
    rt: &impl Abort,
    board: &Board,
    first: &mut Hand,
    second: &mut Hand,
    keys: (u64, u64),
) -> Option<u64>
    requires callers { IsCaller (opening_of board.now) 1 }
    requires first { RestsWithNoRow board.now 0 first.old }
    requires second { RestsWithNoRow board.now 1 second.old }
    ensures first { Rests board.now 0 first.new }
    ensures second { Rests board.now 1 second.new }
{
    let (group, row) = enter_to_link(rt, board, 0, first, keys.0);
    let (other_group, other) = enter_to_link(rt, board, 1, second, keys.1);
    let gap = find_gap(rt, board, 0, first, group, keys.0, &row);
    let other_gap = find_gap(rt, board, 1, second, other_group, keys.1, &other);
    assert_eq!(rt; link_at(board, 0, first, gap, row), None);
    let found = link_at(board, 1, second, other_gap, other);
    leave(board, 0, first);
    leave(board, 1, second);
    found
}

#[test]
fn rows_of_two_lanes_are_linked_whatever_the_other_caller_did(rt: HostRuntime) {
    let table = [
        ((25, 45), None, [0, 121, 0, 125, 0, 0, 0, 0]),
        ((45, 25), None, [0, 125, 0, 121, 0, 0, 0, 0]),
        ((25, 28), Some(121), [0, 121, 0, 0, 0, 0, 0, 0]),
    ];
    for (keys, found, heads) in table {
        let (board, mut hands) = opened(&rt, rt.alloc(), SMALL, &ROWS);
        let mut first = next_hand(&rt, &board, 0, &mut hands);
        let mut second = next_hand(&rt, &board, 1, &mut hands);
        let third = next_hand(&rt, &board, 2, &mut hands);
        let keeper = next_hand(&rt, &board, 3, &mut hands);
        let met = link_after_another(&rt, &board, &mut first, &mut second, keys);
        assert_eq!(rt; met, found);
        let words = closed(&rt, rt.alloc(), board, (first, second, third), keeper);
        assert_words(&rt, words.get(17..25), &heads);
    }
}

// The caller links a row for the key at once, and leaves.
fn visit(rt: &impl Abort, board: &Board, number: u32, mut hand: Hand, key: u64) -> (Hand, u32)
    requires caller { IsCaller (opening_of board.now) number }
    requires rests { RestsWithNoRow board.now number hand }
    ensures { Rests board.now number result.0 }
{
    let place = link_row(rt, board, number, &mut hand, key);
    leave(board, number, &mut hand);
    (hand, place)
}

#[test]
fn callers_at_once_do_not_meet_in_lanes_of_their_own(rt: HostRuntime) {
    let (board, mut hands) = opened(&rt, rt.alloc(), SMALL, &ROWS);
    let first = next_hand(&rt, &board, 0, &mut hands);
    let second = next_hand(&rt, &board, 1, &mut hands);
    let third = next_hand(&rt, &board, 2, &mut hands);
    let keeper = next_hand(&rt, &board, 3, &mut hands);
    let shared = &board;
    let ((first, place), (second, other)) = thread::join(
        &rt,
        || -> (Hand, u32)
            requires caller { IsCaller (opening_of shared.now) 0 }
            requires rests { RestsWithNoRow shared.now 0 first }
            ensures { Rests shared.entry.now 0 result.0 }
        { visit(&rt, shared, 0, first, 25) },
        || -> (Hand, u32)
            requires caller { IsCaller (opening_of shared.now) 1 }
            requires rests { RestsWithNoRow shared.now 1 second }
            ensures { Rests shared.entry.now 1 result.0 }
        { visit(&rt, shared, 1, second, 45) },
    );
    let words = closed(&rt, rt.alloc(), board, (first, second, third), keeper);
    let (head, other_head) = (u64::from(place), u64::from(other));
    assert_words(
        &rt,
        words.get(17..25),
        &[0, head, 0, other_head, 0, 0, 0, 0],
    );
}
