//! Three callers read and change three records at once.
ghost use Rattle.std.specs.Prelude.{◌≡◌, ◌<◌};
ghost use Rattle.index_machine.specs.Sections.{IsCaller};
ghost use Rattle.index_rule.specs.Hands.{opening_of};
ghost use Rattle.record_cell.specs.Finding.{IsReadyAt};
ghost use Rattle.index_machine.specs.Words.{limits};
ghost use Rattle.index_tests.specs.Boards.{Rests};

use crate::boards::{SMALL, assert_words, closed, next_hand, opened};
use crate::records::{ROWS, enter_at};
use crate::values_in_turn::{Seen, Step, chain_of, changes_of, goes_forward, left_by};
use index_rule::{Board, Hand};
use record_cell::{Read, Wrote, kill, read, update};
use std::alloc::{AllocError, Global};
use std::process::Abort;
use std::test::Fail;
use std::thread;
use std::thread::Threads;

// How many calls each caller makes.
const ROUNDS: u32 = 600;

// What a caller does in one visit.
#[derive(Clone, Copy)]
enum Call {
    Read,
    Update(u64),
    Kill,
}

// What the caller does in a round: its updates have values that no other update has.
fn call_of(caller: u32, round: u32) -> Call
    requires caller { caller < 3 }
    requires round { round < 600 }
{
    if round == 400 + 50 * caller {
        Call::Kill
    } else if round % 2 == 0 {
        Call::Update(u64::from(1000 * (caller + 1) + round))
    } else {
        Call::Read
    }
}

// The number of the row that the caller visits in a round.
fn key_of(caller: u32, round: u32) -> u32
    requires caller { caller < 3 }
    requires round { round < 600 }
    ensures { result < 3 }
{
    if caller == 1 {
        2 - round % 3
    } else {
        (round + caller) % 3
    }
}

// What an answer to a change that leaves this value says of the key.
fn step_of(wrote: Wrote, value: Option<u64>) -> Option<Step> {
    match wrote {
        Wrote::Done { old } => Some(Step {
            before: old,
            behind: value,
        }),
        Wrote::Gone { word: _ } => Some(Step {
            before: None,
            behind: None,
        }),
        _ => None,
    }
}

// Makes the call.
fn answered(board: &Board, hand: &mut Hand, place: u32, call: Call) -> Option<Step>
    requires { IsReadyAt board.now hand.old place }
    ensures number { hand.new.number ≡ hand.old.number }
    ensures ready { IsReadyAt board.now hand.new place }
{
    match call {
        Call::Read => match read(board, hand, place) {
            Read::Live(value) => Some(Step {
                before: Some(value),
                behind: Some(value),
            }),
            Read::Gone => Some(Step {
                before: None,
                behind: None,
            }),
            _ => None,
        },
        Call::Update(value) => step_of(update(board, hand, place, value), Some(value)),
        Call::Kill => step_of(kill(board, hand, place), None),
    }
}

// The caller enters, makes the call for a key, and leaves.
fn visited(
    rt: &impl Abort,
    board: &Board,
    caller: u32,
    hand: &mut Hand,
    key: u64,
    call: Call,
) -> Option<Step>
    requires caller { IsCaller (opening_of board.now) caller }
    requires rests { Rests board.now caller hand.old }
    ensures { Rests board.now caller hand.new }
{
    let place = enter_at(rt, board, caller, hand, key);
    let step = answered(board, hand, place, call);
    board.store_leave(hand);
    step
}

// The caller makes its calls, one after another.
fn visits(
    rt: &impl Abort,
    board: &Board,
    alloc: Global,
    caller: u32,
    hand: &mut Hand,
) -> Result<Vec<Seen>, AllocError>
    requires three { (limits (opening_of board.now)).callers ≡ 3 }
    requires caller { caller < 3 }
    requires rests { Rests board.now caller hand.old }
    ensures { Rests board.now caller hand.new }
{
    let mut seen = Vec::new(alloc);
    for round in 0..ROUNDS {
        let key = key_of(caller, round);
        let call = call_of(caller, round);
        if let Some(step) = visited(rt, board, caller, hand, u64::from(5 + key), call) {
            seen.push(Seen { caller, key, step })?;
        }
    }
    Ok(seen)
}

// A hand that came back, and what its caller saw.
type Visit = (Hand, Result<Vec<Seen>, AllocError>);

// The caller with this hand makes its calls.
fn visit(rt: &impl Abort, board: &Board, alloc: Global, caller: u32, mut hand: Hand) -> Visit
    requires three { (limits (opening_of board.now)).callers ≡ 3 }
    requires caller { caller < 3 }
    requires rests { Rests board.now caller hand }
    ensures { Rests board.now caller result.0 }
{
    let seen = visits(rt, board, alloc, caller, &mut hand);
    (hand, seen)
}

// All three callers at once, each in a thread of its own where one can be made.
fn visit_at_once<R: Threads + Abort + Sync>(
    rt: &R,
    board: &Board,
    alloc: Global,
    callers: (Hand, Hand, Hand),
) -> (Visit, (Visit, Visit))
    requires three { (limits (opening_of board.now)).callers ≡ 3 }
    requires first { Rests board.now 0 callers.0 }
    requires second { Rests board.now 1 callers.1 }
    requires third { Rests board.now 2 callers.2 }
    ensures first { Rests board.now 0 result.0.0 }
    ensures second { Rests board.now 1 result.1.0.0 }
    ensures third { Rests board.now 2 result.1.1.0 }
{
    let (first, second, third) = callers;
    thread::join(
        rt,
        move || -> Visit
            requires three { (limits (opening_of board.now)).callers ≡ 3 }
            requires rests { Rests board.now 0 first }
            ensures { Rests board.entry.now 0 result.0 }
        { visit(rt, board, alloc, 0, first) },
        move || -> (Visit, Visit)
            requires three { (limits (opening_of board.now)).callers ≡ 3 }
            requires second { Rests board.now 1 second }
            requires third { Rests board.now 2 third }
            ensures second { Rests board.entry.now 1 result.0.0 }
            ensures third { Rests board.entry.now 2 result.1.0 }
        {
            thread::join(
                rt,
                move || -> Visit
                    requires three { (limits (opening_of board.now)).callers ≡ 3 }
                    requires rests { Rests board.now 1 second }
                    ensures { Rests board.entry.now 1 result.0 }
                { visit(rt, board, alloc, 1, second) },
                move || -> Visit
                    requires three { (limits (opening_of board.now)).callers ≡ 3 }
                    requires rests { Rests board.now 2 third }
                    ensures { Rests board.entry.now 2 result.0 }
                { visit(rt, board, alloc, 2, third) },
            )
        },
    )
}

#[test]
fn changes_of_a_key_have_one_order(rt: HostRuntime) -> Result<(), Fail> {
    let (board, mut hands) = opened(&rt, rt.alloc(), SMALL, &ROWS);
    let first = next_hand(&rt, &board, 0, &mut hands);
    let second = next_hand(&rt, &board, 1, &mut hands);
    let third = next_hand(&rt, &board, 2, &mut hands);
    let keeper = next_hand(&rt, &board, 3, &mut hands);
    let callers = (first, second, third);
    let ((first, a), ((second, b), (third, c))) = visit_at_once(&rt, &board, rt.alloc(), callers);
    let words = closed(&rt, rt.alloc(), board, (first, second, third), keeper);
    let mut seen = a?;
    seen.extend_from_slice(b?.as_slice())?;
    seen.extend_from_slice(c?.as_slice())?;
    for (key, from) in [(0u32, 33), (1, 37), (2, 41)] {
        let chain = chain_of(rt.alloc(), seen.as_slice(), key, u64::from(50 + 10 * key))?;
        let changes = changes_of(seen.as_slice(), key);
        assert_eq!(rt; chain.len() as u64, changes.wrapping_add(1));
        for caller in 0..3 {
            assert!(rt; goes_forward(seen.as_slice(), chain.as_slice(), caller, key));
        }
        let (value, state) = left_by(chain.as_slice());
        let row = [u64::from(5 + key), value, state, 0];
        assert_words(&rt, words.get(from..from + 4), &row);
    }
    Ok(())
}
