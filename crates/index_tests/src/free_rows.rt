//! Hands take rows one after another and at once, and the words that are left are read.
ghost use Rattle.std.specs.Prelude.{◌≡◌, ◌<◌, IfSome};
ghost use Rattle.index_machine.specs.Rows.{Holds, HoldsNone};
ghost use Rattle.index_machine.specs.Words.{limits};
ghost use Rattle.index_rule.specs.Hands.{known, opening_of};
ghost use Rattle.index_rule.specs.OwnRows.{place_of_private};
ghost use Rattle.index_tests.specs.Boards.{IsInside, Rests, RestsWithNoRow};

use crate::boards::{SMALL, assert_words, closed, enter, leave, next_hand, opened};
use index_rule::{Board, Hand, OwnRow, PrivateRow};
use row_arena::{Taken, fill, take};
use std::thread;
use std::thread::Threads;
use word_layout::{Layout, Limits, link_word};

/// The hand takes a row within so many tries.
pub(crate) fn take_within(
    board: &Board,
    _number: u32,
    hand: &mut Hand,
    tries: u32,
) -> Option<PrivateRow>
    requires inside { IsInside board.now _number hand.old }
    requires none { HoldsNone (opening_of board.now) hand.old.number (known hand.old) }
    ensures inside { IsInside board.now _number hand.new }
    ensures held { IfSome result (λ row. Holds (opening_of board.now) hand.new.number
        (place_of_private row) (known hand.new)) }
{
    for _ in 0..tries {
        match take(board, hand) {
            Taken::Row(row) => return Some(row),
            Taken::Empty => return None,
            Taken::Raced {
                expected: _,
                found: _,
            } => {}
        }
    }
    None
}

// A hand that came back, and the place of the row that it took.
type Visit = (Hand, Option<u32>);

// The caller with this number enters, takes a row, fills it, and leaves.
fn visit(board: &Board, number: u32, mut hand: Hand) -> Visit
    requires callers { (limits (opening_of board.now)).callers ≡ 3 }
    requires number { number < 3 }
    requires rests { RestsWithNoRow board.now number hand }
    ensures { Rests board.now number result.0 }
{
    enter(board, number, &mut hand);
    let place = match take_within(board, number, &mut hand, 3) {
        Some(mut row) => {
            let place = row.place();
            let part = u64::from(number);
            fill(board, &mut hand, &mut row, 10 + part, 20 + part);
            row.forget();
            Some(place)
        }
        None => None,
    };
    leave(board, number, &mut hand);
    (hand, place)
}

// Three hands visit, each in a thread of its own where one can be made.
fn visit_at_once<R: Threads>(
    rt: &R,
    board: &Board,
    first: Hand,
    second: Hand,
    third: Hand,
) -> (Visit, (Visit, Visit))
    requires callers { (limits (opening_of board.now)).callers ≡ 3 }
    requires first { RestsWithNoRow board.now 0 first }
    requires second { RestsWithNoRow board.now 1 second }
    requires third { RestsWithNoRow board.now 2 third }
    ensures first { Rests board.now 0 result.0.0 }
    ensures second { Rests board.now 1 result.1.0.0 }
    ensures third { Rests board.now 2 result.1.1.0 }
{
    thread::join(
        rt,
        move || -> Visit
            requires callers { (limits (opening_of board.now)).callers ≡ 3 }
            requires first { RestsWithNoRow board.now 0 first }
            ensures { Rests board.entry.now 0 result.0 }
        { visit(board, 0, first) },
        move || -> (Visit, Visit)
            requires callers { (limits (opening_of board.now)).callers ≡ 3 }
            requires second { RestsWithNoRow board.now 1 second }
            requires third { RestsWithNoRow board.now 2 third }
            ensures second { Rests board.entry.now 1 result.0.0 }
            ensures third { Rests board.entry.now 2 result.1.0 }
        {
            thread::join(
                rt,
                move || -> Visit
                    requires callers { (limits (opening_of board.now)).callers ≡ 3 }
                    requires second { RestsWithNoRow board.now 1 second }
                    ensures { Rests board.entry.now 1 result.0 }
                { visit(board, 1, second) },
                move || -> Visit
                    requires callers { (limits (opening_of board.now)).callers ≡ 3 }
                    requires third { RestsWithNoRow board.now 2 third }
                    ensures { Rests board.entry.now 2 result.0 }
                { visit(board, 2, third) },
            )
        },
    )
}

// How many rows are linked from the head, where the links end within so many.
fn linked(layout: &Layout, words: &[u64], most: u32) -> Option<u32> {
    let mut at = *words.get(layout.free_head() as usize)?;
    for count in 0..most {
        if at == 0 {
            return Some(count);
        }
        let place = u32::try_from(at).ok()?;
        if place >= 1 << 28 {
            return None;
        }
        at = *words.get(link_word(place) as usize)?;
    }
    if at == 0 { Some(most) } else { None }
}

#[test]
fn two_rows_are_taken_in_turn_and_filled(rt: HostRuntime) {
    let (board, mut hands) = opened(&rt, rt.alloc(), SMALL, &[]);
    let first = next_hand(&rt, &board, 0, &mut hands);
    let second = next_hand(&rt, &board, 1, &mut hands);
    let third = next_hand(&rt, &board, 2, &mut hands);
    let keeper = next_hand(&rt, &board, 3, &mut hands);
    let (first, place) = visit(&board, 0, first);
    assert_eq!(rt; place, Some(121));
    let (second, place) = visit(&board, 1, second);
    assert_eq!(rt; place, Some(125));
    let (third, place) = visit(&board, 2, third);
    assert_eq!(rt; place, None);
    let words = closed(&rt, rt.alloc(), board, (first, second, third), keeper);
    assert_eq!(rt; words.len(), 129);
    assert_words(&rt, words.get(121..129), &[10, 20, 0, 125, 11, 21, 0, 0]);
    assert_words(&rt, words.get(0..5), &[0, 2, 2, 2, 2]);
}

#[test]
fn rows_are_taken_at_once(rt: HostRuntime) {
    let limits = Limits {
        records: 5,
        ..SMALL
    };
    let (board, mut hands) = opened(&rt, rt.alloc(), limits, &[]);
    let layout = board.layout();
    let first = next_hand(&rt, &board, 0, &mut hands);
    let second = next_hand(&rt, &board, 1, &mut hands);
    let third = next_hand(&rt, &board, 2, &mut hands);
    let keeper = next_hand(&rt, &board, 3, &mut hands);
    let ((first, a), ((second, b), (third, c))) = visit_at_once(&rt, &board, first, second, third);
    let taken = u32::from(a.is_some()) + u32::from(b.is_some()) + u32::from(c.is_some());
    let words = closed(&rt, rt.alloc(), board, (first, second, third), keeper);
    assert_eq!(rt; linked(&layout, words.as_slice(), 5), Some(5 - taken));
    assert_words(&rt, words.get(2..5), &[2, 2, 2]);
}
