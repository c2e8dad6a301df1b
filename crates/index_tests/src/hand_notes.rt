//! Two callers and the keeper tell each other what they know, between their steps.
ghost use Rattle.index_rule.specs.Hands.{IsHandOf};
ghost use Rattle.index_tests.specs.Boards.{MayDoAs};

use crate::boards::{SMALL, enter, leave, next_hand, opened};
use index_rule::{Board, Hand};
use word_layout::Limits;

fn may_move_to_another_thread<T: Send>(_value: &T) {}

// One hand tells, and the other heeds. What each of them may do stays.
fn let_know(board: &Board, first: &mut Hand, second: &mut Hand)
    requires first { IsHandOf board.now first.old }
    requires second { IsHandOf board.now second.old }
    ensures first { MayDoAs board.now first.old first.new }
    ensures second { MayDoAs board.now second.old second.new }
{
    let note = board.tell(first);
    may_move_to_another_thread(&note);
    board.heed(second, note);
}

#[test]
fn hands_that_told_each_other_step_on(rt: HostRuntime) {
    let limits = Limits {
        callers: 2,
        ..SMALL
    };
    let (board, mut hands) = opened(&rt, rt.alloc(), limits, &[]);
    let mut first = next_hand(&rt, &board, 0, &mut hands);
    let mut second = next_hand(&rt, &board, 1, &mut hands);
    let mut keeper = next_hand(&rt, &board, 2, &mut hands);
    enter(&board, 0, &mut first);
    let_know(&board, &mut first, &mut second);
    enter(&board, 1, &mut second);
    let_know(&board, &mut second, &mut first);
    leave(&board, 0, &mut first);
    leave(&board, 1, &mut second);
    let_know(&board, &mut second, &mut keeper);
    let_know(&board, &mut keeper, &mut first);
    assert_eq!(rt; board.load_epoch(&mut keeper, 0), 2);
    assert_eq!(rt; board.load_epoch(&mut keeper, 1), 2);
}
