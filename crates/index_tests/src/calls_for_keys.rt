//! One caller reads, puts and removes until no row is free.
ghost use Rattle.std.specs.Prelude.{None};
ghost use Rattle.index_machine.specs.Sections.{IsCaller};
ghost use Rattle.index_rule.specs.Hands.{opening_of};
ghost use Rattle.index_tests.specs.Boards.{RestsWithNoRow};
ghost use Rattle.index_tests.specs.Calls.{CanAsk};

use crate::boards::{SMALL, enter, next_hand, opened};
use index_rule::{Board, Hand, OwnRow, PrivateRow};
use line_window::Probes;
use map_model::Call;
use point_calls::{get, put, remove};
use std::process::Abort;
use tried_calls::Tried;

// The caller enters, with no row of its own.
fn enter_to_call(board: &Board, hand: &mut Hand)
    requires caller { IsCaller (opening_of board.now) 0 }
    requires rests { RestsWithNoRow board.now 0 hand.old }
    ensures { CanAsk board.now hand.new None }
{
    enter(board, 0, hand);
}

// Makes the call, once.
fn tried(
    board: &Board,
    hand: &mut Hand,
    spare: &mut Option<PrivateRow>,
    call: Call,
    probes: &mut Probes,
) -> Tried<Option<u64>>
    requires { CanAsk board.now hand.old spare.old }
    ensures { CanAsk board.now hand.new spare.new }
{
    match call {
        Call::Get { key } | Call::Next { from: key } => get(board, hand, key, probes),
        Call::Put { key, value } => put(board, hand, spare, key, value, probes),
        Call::Remove { key } => remove(board, hand, key, probes),
    }
}

// Makes each call of the table, which has to come to what the table says.
fn assert_tried(
    rt: &impl Abort,
    board: &Board,
    hand: &mut Hand,
    table: &[(Call, Tried<Option<u64>>)],
)
    requires { CanAsk board.now hand.old None }
{
    let mut spare = None;
    let mut probes = Probes::new();
    for (call, came) in table {
        assert_eq!(rt;
            tried(board, hand, &mut spare, *call, &mut probes),
            *came,
            "to {call:?}"
        );
    }
    if let Some(row) = spare {
        row.forget();
    }
}

#[test]
fn a_key_is_put_and_removed_until_no_row_is_free(rt: HostRuntime) {
    let (board, mut hands) = opened(&rt, rt.alloc(), SMALL, &[]);
    let mut hand = next_hand(&rt, &board, 0, &mut hands);
    enter_to_call(&board, &mut hand);
    let put = |key: u64, value: u64| Call::Put { key, value };
    let table = [
        (put(5, 50), Tried::Done(None)),
        (put(5, 51), Tried::Done(Some(50))),
        (Call::Get { key: 5 }, Tried::Done(Some(51))),
        (put(3, 30), Tried::Done(None)),
        (put(4, 40), Tried::Full),
        (Call::Remove { key: 5 }, Tried::Done(Some(51))),
        (Call::Remove { key: 5 }, Tried::Done(None)),
        (Call::Get { key: 5 }, Tried::Done(None)),
        (put(5, 52), Tried::Done(None)),
        (Call::Get { key: 5 }, Tried::Done(Some(52))),
        (Call::Get { key: 3 }, Tried::Done(Some(30))),
        (Call::Get { key: 4 }, Tried::Done(None)),
    ];
    assert_tried(&rt, &board, &mut hand, &table);
}

#[test]
fn keys_of_an_array_are_put_and_removed_in_place(rt: HostRuntime) {
    let rows = [(10, 1), (20, 2), (30, 3)];
    let (board, mut hands) = opened(&rt, rt.alloc(), SMALL, &rows);
    let mut hand = next_hand(&rt, &board, 0, &mut hands);
    enter_to_call(&board, &mut hand);
    let put = |key: u64, value: u64| Call::Put { key, value };
    let table = [
        (Call::Get { key: 10 }, Tried::Done(Some(1))),
        (Call::Get { key: 15 }, Tried::Done(None)),
        (put(20, 21), Tried::Done(Some(2))),
        (Call::Get { key: 20 }, Tried::Done(Some(21))),
        (Call::Remove { key: 30 }, Tried::Done(Some(3))),
        (Call::Get { key: 30 }, Tried::Done(None)),
        (Call::Remove { key: 30 }, Tried::Done(None)),
        // A removed key of the array comes back by a row of the buffer.
        (put(30, 31), Tried::Done(None)),
        (put(30, 32), Tried::Done(Some(31))),
        (put(40, 4), Tried::Done(None)),
        (put(50, 5), Tried::Full),
        (Call::Get { key: 30 }, Tried::Done(Some(32))),
        (Call::Get { key: 40 }, Tried::Done(Some(4))),
    ];
    assert_tried(&rt, &board, &mut hand, &table);
}
