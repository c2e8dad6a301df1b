//! A row is linked where its key was not found, and is found then.
ghost use Rattle.std.specs.Prelude.{◌≡◌, ◌≢◌, ℕ, []};
ghost use Rattle.word_layout.specs.declared.phase.Phase.TheVariants.{Open};
ghost use Rattle.word_layout.specs.Phase.{word_of_phase};
ghost use Rattle.index_machine.specs.declared.events.Action.TheVariants.{LoadPhase};
ghost use Rattle.index_machine.specs.Keepers.{IsPartKeeper};
ghost use Rattle.index_machine.specs.Rows.{InArray, role};
ghost use Rattle.index_machine.specs.Sections.{IsCaller};
ghost use Rattle.index_rule.specs.Hands.{IsHandOf, Makes, known, opening_of};
ghost use Rattle.index_rule.specs.OwnRows.{place_of_private};
ghost use Rattle.sorted_group.specs.Arrays.{CanLocate};
ghost use Rattle.sorted_group.specs.Located.{LoadsToLocate};
ghost use Rattle.sorted_group.specs.Standing.{CanSearch};
ghost use Rattle.index_tests.specs.Boards.{HasOneGroup, IsInside, RestsWithNoRow};
ghost use Rattle.index_tests.specs.Buffers.{CanLink, HasComeToLink, HasRowFor, IsInLaneOf};

use crate::boards::{SMALL, come_to, enter, next_hand, opened};
use crate::free_rows::take_within;
use delta_buffer::{Found, count, find, first_from, insert};
use index_rule::{Board, Hand, Linked, OwnRow, PrivateRow};
use line_window::Probes;
use row_arena::fill;
use sorted_group::{Lane, Located, lane_for, locate};
use std::process::Abort;
use word_layout::Phase;

/// The value of each row that is linked.
pub(crate) const VALUE: u64 = 70;

/// Where a row is to be linked: in this lane, between two places.
#[derive(Clone, Copy)]
pub(crate) struct Gap {
    lane: Lane,
    before: u32,
    next: u32,
}

// ---- a caller in its read section ----

/// The caller comes to the lane of the key, by the root.
pub(crate) fn come_to_lane(board: &Board, number: u32, hand: &mut Hand, key: u64) -> Lane
    requires { IsInside board.now number hand.old }
    ensures { IsInLaneOf board.now number result key hand.new }
{
    let group = come_to(board, number, hand, key);
    lane_for(board, hand, group, key)
}

/// Asserts what the caller finds of a key in its lane.
pub(crate) fn assert_finds(
    rt: &impl Abort,
    board: &Board,
    number: u32,
    hand: &mut Hand,
    key: u64,
    expected: Found,
)
    requires { IsInside board.now number hand.old }
    ensures { IsInside board.now number hand.new }
{
    let lane = come_to_lane(board, number, hand, key);
    let found = find(board, hand, lane, key);
    assert_eq!(rt; found, expected, "of {key}");
}

/// Asserts which row the caller comes to first in the lane of a key, from the key on.
pub(crate) fn assert_first(
    rt: &impl Abort,
    board: &Board,
    number: u32,
    hand: &mut Hand,
    key: u64,
    expected: Option<u32>,
)
    requires { IsInside board.now number hand.old }
    ensures { IsInside board.now number hand.new }
{
    let lane = come_to_lane(board, number, hand, key);
    let first = first_from(board, hand, lane, key);
    assert_eq!(rt; first, expected, "from {key} on");
}

/// How many rows the caller counts in the group of key 0.
pub(crate) fn count_of_caller(board: &Board, number: u32, hand: &mut Hand) -> u32
    requires { IsInside board.now number hand.old }
    ensures { IsInside board.now number hand.new }
{
    let group = come_to(board, number, hand, 0);
    count(board, hand, group)
}

/// How many rows the keeper counts in group 0, which has key 0 as long as the keeper makes no other steps.
pub(crate) fn count_of_keeper(board: &Board, keeper: &mut Hand) -> u32
    requires hand { IsHandOf board.now keeper.old }
    requires new { known keeper.old ≡ [] }
    requires one_group { HasOneGroup board.now }
    requires number { IsPartKeeper (opening_of board.now) keeper.old.number 0 }
{
    board.load_root(keeper, 0);
    count(board, keeper, 0)
}

// ---- a row is linked ----

// The caller enters, and takes a row and fills it.
fn enter_with_row(
    rt: &impl Abort,
    board: &Board,
    number: u32,
    hand: &mut Hand,
    key: u64,
) -> PrivateRow
    requires caller { IsCaller (opening_of board.now) number }
    requires rests { RestsWithNoRow board.now number hand.old }
    ensures inside { IsInside board.now number hand.new }
    ensures row { HasRowFor board.now key (place_of_private result) hand.new }
{
    enter(board, number, hand);
    let Some(mut row) = take_within(board, number, hand, 3) else {
        panic!(rt; "a row is free");
    };
    fill(board, hand, &mut row, key, VALUE);
    row
}

// The caller sees that the group is open.
fn see_open(rt: &impl Abort, board: &Board, hand: &mut Hand, group: u32)
    requires { CanSearch board.now group hand.old }
    ensures { Makes board.now hand.old (LoadPhase group (word_of_phase Open)) hand.new }
{
    let word = board.load_phase(hand, group);
    assert_eq!(rt; word, Phase::Open.word());
}

// The caller finds that the array of the group does not have the key.
fn miss_in_array(rt: &impl Abort, board: &Board, hand: &mut Hand, group: u32, key: u64)
    requires { CanLocate board.now group hand.old }
    ensures search { CanSearch board.now group hand.old → CanSearch board.now group hand.new }
    ensures steps { LoadsToLocate board.now group hand.old hand.new }
    ensures none { (place : ℕ) →
        role (opening_of board.now) place (known hand.new) ≢ InArray group key }
{
    let Located::Between(_) = locate(board, hand, group, key, &mut Probes::new()) else {
        panic!(rt; "the array does not have {key}");
    };
}

// The caller comes to the group of its row's key, which is open and does not have the key in its array.
fn come_to_link(
    rt: &impl Abort,
    board: &Board,
    number: u32,
    hand: &mut Hand,
    key: u64,
    _row: &PrivateRow,
) -> u32
    requires inside { IsInside board.now number hand.old }
    requires row { HasRowFor board.now key (place_of_private _row.now) hand.old }
    ensures { HasComeToLink board.now number result key (place_of_private _row.now) hand.new }
{
    let group = come_to(board, number, hand, key);
    see_open(rt, board, hand, group);
    miss_in_array(rt, board, hand, group, key);
    group
}

/// The caller enters with a new row for the key, which the board's rows do not have, and comes to the key's group.
pub(crate) fn enter_to_link(
    rt: &impl Abort,
    board: &Board,
    number: u32,
    hand: &mut Hand,
    key: u64,
) -> (u32, PrivateRow)
    requires caller { IsCaller (opening_of board.now) number }
    requires rests { RestsWithNoRow board.now number hand.old }
    ensures { HasComeToLink board.now number result.0 key (place_of_private result.1) hand.new }
{
    let row = enter_with_row(rt, board, number, hand, key);
    let group = come_to_link(rt, board, number, hand, key, &row);
    (group, row)
}

/// Where the caller does not find the key in the buffer of the group.
pub(crate) fn find_gap(
    rt: &impl Abort,
    board: &Board,
    _number: u32,
    hand: &mut Hand,
    group: u32,
    key: u64,
    _row: &PrivateRow,
) -> Gap
    requires { HasComeToLink board.now _number group key (place_of_private _row.now) hand.old }
    ensures { CanLink board.now _number result.lane (place_of_private _row.now) result.before
        result.next hand.new }
{
    let lane = lane_for(board, hand, group, key);
    let Found::Gap { before, next } = find(board, hand, lane, key) else {
        panic!(rt; "the key is not there");
    };
    Gap { lane, before, next }
}

/// The caller links the row there, tried once. Where another row was linked there since, it answers with
/// that row's place.
pub(crate) fn link_at(
    board: &Board,
    _number: u32,
    hand: &mut Hand,
    gap: Gap,
    row: PrivateRow,
) -> Option<u64>
    requires { CanLink board.now _number gap.lane (place_of_private row) gap.before gap.next
        hand.old }
    ensures { IsInside board.now _number hand.new }
{
    match insert(board, hand, gap.lane, gap.before, gap.next, row) {
        Linked::Done => None,
        Linked::Raced { row, found } => {
            row.forget();
            Some(found)
        }
    }
}

/// The caller enters, and links a new row for the key where it was not found. This is the row's place.
pub(crate) fn link_row(
    rt: &impl Abort,
    board: &Board,
    number: u32,
    hand: &mut Hand,
    key: u64,
) -> u32
    requires caller { IsCaller (opening_of board.now) number }
    requires rests { RestsWithNoRow board.now number hand.old }
    ensures { IsInside board.now number hand.new }
{
    let (group, row) = enter_to_link(rt, board, number, hand, key);
    let place = row.place();
    let gap = find_gap(rt, board, number, hand, group, key, &row);
    assert_eq!(rt; link_at(board, number, hand, gap, row), None);
    place
}

#[test]
fn a_row_is_found_once_it_is_linked(rt: HostRuntime) {
    let (board, mut hands) = opened(&rt, rt.alloc(), SMALL, &[]);
    let mut hand = next_hand(&rt, &board, 0, &mut hands);
    let _second = next_hand(&rt, &board, 1, &mut hands);
    let _third = next_hand(&rt, &board, 2, &mut hands);
    let mut keeper = next_hand(&rt, &board, 3, &mut hands);
    let place = link_row(&rt, &board, 0, &mut hand, 7);
    let ahead = Found::Gap {
        before: 0,
        next: place,
    };
    let behind = Found::Gap {
        before: place,
        next: 0,
    };
    assert_finds(&rt, &board, 0, &mut hand, 6, ahead);
    assert_finds(&rt, &board, 0, &mut hand, 7, Found::Row(place));
    assert_finds(&rt, &board, 0, &mut hand, 8, behind);
    assert_first(&rt, &board, 0, &mut hand, 6, Some(place));
    assert_first(&rt, &board, 0, &mut hand, 8, None);
    assert_eq!(rt; count_of_caller(&board, 0, &mut hand), 1);
    assert_eq!(rt; count_of_keeper(&board, &mut keeper), 1);
}

#[test]
fn a_buffer_without_a_row_counts_none(rt: HostRuntime) {
    let (board, mut hands) = opened(&rt, rt.alloc(), SMALL, &[]);
    let mut hand = next_hand(&rt, &board, 0, &mut hands);
    enter(&board, 0, &mut hand);
    assert_eq!(rt; count_of_caller(&board, 0, &mut hand), 0);
}
