//! The keeper waits for a caller that was inside as it took its marks.
use crate::boards::{SMALL, enter, leave, next_hand, opened};
use reader_epochs::{Barrier, Marks};

#[test]
fn a_barrier_waits_for_a_caller_inside_and_for_no_other(rt: HostRuntime) {
    let (board, mut hands) = opened(&rt, rt.alloc(), SMALL, &[]);
    let mut first = next_hand(&rt, &board, 0, &mut hands);
    let _second = next_hand(&rt, &board, 1, &mut hands);
    let _third = next_hand(&rt, &board, 2, &mut hands);
    let mut keeper = next_hand(&rt, &board, 3, &mut hands);
    enter(&board, 0, &mut first);
    let mut marks = Marks::mark(&board, &mut keeper);
    let waiting = Barrier::Waiting { caller: 0, word: 1 };
    assert_eq!(rt; marks.check(&board, &mut keeper), waiting);
    assert_eq!(rt; marks.check(&board, &mut keeper), waiting);
    leave(&board, 0, &mut first);
    enter(&board, 0, &mut first);
    assert_eq!(rt; marks.check(&board, &mut keeper), Barrier::Quiet);
}
