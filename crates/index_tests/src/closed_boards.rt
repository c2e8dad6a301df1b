//! A board that is closed hands out its words.
ghost use Rattle.std.specs.Prelude.{◌≤◌, length};
ghost use Rattle.map_model.specs.Map.{IsRising};

use crate::boards::{SMALL, assert_words, words_of};
use index_rule::Board;
use std::alloc::Global;
use std::process::Abort;
use std::test::Fail;
use word_layout::{Limits, Parts};

fn may_move_to_another_thread<T: Send>(_value: &T) {}

fn may_be_shared_by_threads<T: Sync>(_value: &T) {}

// Asserts which words the header of group 0 has, whose array of 11 places has these rows: the size, the line's error
// and the number of lanes, and the cuts. All others are 0.
fn assert_header(
    rt: &impl Abort,
    alloc: Global,
    rows: &[(u64, u64)],
    sizes: [u64; 3],
    cuts: [u64; 8],
)
    requires rising { IsRising rows.now }
    requires few { length rows.now ≤ 8 }
{
    let limits = Limits {
        group_size: 11,
        ..SMALL
    };
    let words = words_of(rt, alloc, limits, Parts::whole(), rows);
    assert_eq!(rt; words.get(9), Some(&0));
    assert_words(rt, words.get(10..13), &sizes);
    assert_words(rt, words.get(13..17), &[0; 4]);
    assert_words(rt, words.get(17..25), &[0; 8]);
    assert_words(rt, words.get(25..33), &cuts);
}

#[test]
fn a_new_board_hands_out_its_opening_words(rt: HostRuntime) -> Result<(), Fail> {
    let layout = SMALL.layout()?;
    let (board, hands) = Board::open(rt.alloc(), &layout, &[])?;
    may_be_shared_by_threads(&board);
    assert_eq!(rt; (board.layout().words(), hands.len()), (129, 4));
    for i in 0..hands.len() {
        may_move_to_another_thread(&hands[i]);
        assert_eq!(rt; hands[i].number() as usize, i);
    }
    let words = match board.close(rt.alloc(), hands) {
        Ok(words) => words,
        Err(_kept) => Vec::new(rt.alloc()),
    };
    assert_eq!(rt; words.len(), 129);
    for i in 0..words.len() {
        // The free head and the root, the one lane of group 0, and a link from the first row to the second.
        let expected = match i {
            0 => 121,
            1 => 2,
            12 => 1,
            124 => 125,
            _ => 0,
        };
        assert_eq!(rt; words[i], expected, "at {i}");
    }
    Ok(())
}

#[test]
fn a_board_with_rows_hands_out_their_words_too(rt: HostRuntime) {
    for first_version in [0, 3] {
        let limits = Limits {
            first_version,
            ..SMALL
        };
        let words = words_of(&rt, rt.alloc(), limits, Parts::whole(), &[(5, 50), (7, 70)]);
        assert_eq!(rt; words.len(), 129);
        // Key, value, state and link of the first two places of the array of group 0.
        let state = 16 * first_version;
        let expected = [5, 50, state, 0, 7, 70, state, 0];
        assert_words(&rt, words.get(33..41), &expected);
        for i in 41..words.len() {
            assert_eq!(rt; words[i], if i == 124 { 125 } else { 0 }, "at {i}");
        }
    }
}

#[test]
fn the_header_of_a_group_has_the_lanes_that_its_rows_are_cut_into(rt: HostRuntime) {
    let alloc = rt.alloc();
    assert_header(&rt, alloc, &[], [0, 0, 1], [0; 8]);
    assert_header(&rt, alloc, &[(5, 0)], [1, 0, 1], [0; 8]);
    assert_header(
        &rt,
        alloc,
        &[(5, 50), (7, 70)],
        [2, 0, 2],
        [0, 7, 0, 0, 0, 0, 0, 0],
    );
    // The keys are as far from each other, so each is where the line guesses.
    let rows = [(10, 0), (20, 0), (30, 0), (40, 0), (50, 0), (60, 0)];
    assert_header(&rt, alloc, &rows, [6, 0, 6], [0, 20, 30, 40, 50, 60, 0, 0]);
    // The line guesses place 0 for each key but the last, so it is wrong by 6 at the last but one.
    let rows = [
        (1, 0),
        (2, 0),
        (3, 0),
        (4, 0),
        (5, 0),
        (6, 0),
        (7, 0),
        (100, 0),
    ];
    assert_header(&rt, alloc, &rows, [8, 6, 8], [0, 2, 3, 4, 5, 6, 7, 100]);
}
