//! A record is read and changed by one hand, and under another's lock.
ghost use Rattle.std.specs.Prelude.{◌≡◌, false};
ghost use Rattle.index_machine.specs.Sections.{IsCaller};
ghost use Rattle.index_rule.specs.Hands.{IsHandOf, known, opening_of};
ghost use Rattle.index_rule.specs.Records.{MayRelease};
ghost use Rattle.record_cell.specs.Finding.{IsReadyAt};
ghost use Rattle.index_tests.specs.Boards.{Rests};

use crate::boards::{SMALL, come_to, enter, next_hand, opened};
use index_rule::{Board, Hand, Swap};
use line_window::Probes;
use record_cell::{Read, Wrote, kill, read, update};
use sorted_group::{Located, locate};
use std::process::Abort;
use word_layout::{LAST_VERSION, Limits};

/// The rows of a board for three keys.
pub(crate) const ROWS: [(u64, u64); 3] = [(5, 50), (6, 60), (7, 70)];

/// The caller enters, and comes to the place that a key has in the array of its group.
pub(crate) fn enter_at(
    rt: &impl Abort,
    board: &Board,
    number: u32,
    hand: &mut Hand,
    key: u64,
) -> u32
    requires caller { IsCaller (opening_of board.now) number }
    requires rests { Rests board.now number hand.old }
    ensures number { hand.new.number ≡ number }
    ensures ready { IsReadyAt board.now hand.new result }
{
    enter(board, number, hand);
    let group = come_to(board, number, hand, key);
    let Located::At(place) = locate(board, hand, group, key, &mut Probes::new()) else {
        panic!(rt; "the array has {key}");
    };
    place
}

// Takes the version lock of a record that was never changed.
fn take_lock(rt: &impl Abort, board: &Board, hand: &mut Hand, place: u32)
    requires { IsReadyAt board.now hand.old place }
    ensures hand { IsHandOf board.now hand.new }
    ensures may { MayRelease (opening_of board.now) hand.new.number place false (known hand.new) }
{
    match board.swap_lock(hand, place, 0) {
        Swap::Done => {}
        Swap::Found(_) => panic!(rt; "nobody changed it"),
    }
}

#[test]
fn a_record_is_changed_until_it_is_removed(rt: HostRuntime) {
    let (board, mut hands) = opened(&rt, rt.alloc(), SMALL, &ROWS);
    let mut hand = next_hand(&rt, &board, 0, &mut hands);
    let place = enter_at(&rt, &board, 0, &mut hand, 5);
    assert_eq!(rt; read(&board, &mut hand, place), Read::Live(50));
    let done = update(&board, &mut hand, place, 51);
    assert_eq!(rt; done, Wrote::Done { old: Some(50) });
    let done = kill(&board, &mut hand, place);
    assert_eq!(rt; done, Wrote::Done { old: Some(51) });
    let gone = update(&board, &mut hand, place, 52);
    assert_eq!(rt; gone, Wrote::Gone { word: 40 });
    assert_eq!(rt; read(&board, &mut hand, place), Read::Gone);
}

#[test]
fn a_record_of_the_last_version_is_worn(rt: HostRuntime) {
    let limits = Limits {
        first_version: LAST_VERSION,
        ..SMALL
    };
    let (board, mut hands) = opened(&rt, rt.alloc(), limits, &ROWS);
    let mut hand = next_hand(&rt, &board, 0, &mut hands);
    let place = enter_at(&rt, &board, 0, &mut hand, 5);
    let worn = Wrote::Worn {
        place,
        word: 18446744073709551600,
    };
    assert_eq!(rt; update(&board, &mut hand, place, 51), worn);
    assert_eq!(rt; read(&board, &mut hand, place), Read::Live(50));
    assert_eq!(rt; kill(&board, &mut hand, place), worn);
}

#[test]
fn a_lock_keeps_others_out_until_it_is_released(rt: HostRuntime) {
    let (board, mut hands) = opened(&rt, rt.alloc(), SMALL, &ROWS);
    let mut holder = next_hand(&rt, &board, 0, &mut hands);
    let mut other = next_hand(&rt, &board, 1, &mut hands);
    let place = enter_at(&rt, &board, 0, &mut holder, 5);
    let same = enter_at(&rt, &board, 1, &mut other, 5);
    assert_eq!(rt; same, place);
    take_lock(&rt, &board, &mut holder, place);
    assert_eq!(rt;
        read(&board, &mut other, same),
        Read::Locked { place, word: 4 }
    );
    let locked = update(&board, &mut other, same, 51);
    assert_eq!(rt; locked, Wrote::Locked { place, word: 4 });
    board.store_unlock(&mut holder, place, false);
    assert_eq!(rt; read(&board, &mut other, same), Read::Live(50));
}
