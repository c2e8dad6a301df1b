//! The boards and hands that the tests stand on.
ghost use Rattle.std.specs.Prelude.{◌≡◌, ◌+◌, ◌*◌, ◌≤◌, [], length};
ghost use Rattle.std.specs.Vec.Iter.{into_iter_items};
ghost use Rattle.map_model.specs.Map.{IsRising};
ghost use Rattle.rebuild_plan.specs.Plan.{fill_limit};
ghost use Rattle.index_machine.specs.Rows.{HoldsNone};
ghost use Rattle.index_machine.specs.Sections.{IsCaller};
ghost use Rattle.index_machine.specs.Words.{limits};
ghost use Rattle.index_rule.specs.Hands.{known, opening_of};
ghost use Rattle.index_rule.specs.Opened.{AreNewHands};
ghost use Rattle.root_table.specs.Finding.{FindsGroup};
ghost use Rattle.index_tests.specs.Boards.{HasOneGroup, IsInGroupOf, IsInside, IsNewBoard};
ghost use Rattle.index_tests.specs.Boards.{Rests, RestsWithNoRow};

use index_rule::{Board, Hand};
use root_table::group_for;
use std::alloc::Global;
use std::process::Abort;
use std::vec::IntoIter;
use word_layout::{Limits, Parts};

/// The limits of a small board for three callers.
pub(crate) const SMALL: Limits = Limits {
    callers: 3,
    records: 2,
    groups: 2,
    group_size: 8,
    slots: 1,
    due: 1,
    help: 1,
    chain: 1,
    first_version: 0,
};

/// A board of one part with these rows, which fit into one group, and its hands.
pub(crate) fn opened(
    rt: &impl Abort,
    alloc: Global,
    limits: Limits,
    rows: &[(u64, u64)],
) -> (Board, IntoIter<Hand>)
    requires rising { IsRising rows.now }
    requires few { length rows.now ≤ fill_limit limits.group_size }
    ensures board { IsNewBoard limits rows.now result.0 }
    ensures hands { AreNewHands result.0 0 (into_iter_items result.1) }
{
    let Ok(layout) = limits.layout() else {
        panic!(rt; "the limits are kept");
    };
    let Ok((board, hands)) = Board::open(alloc, &layout, rows) else {
        panic!(rt; "there is memory");
    };
    (board, hands.into_iter())
}

/// The next of the new hands, which has this number.
pub(crate) fn next_hand(
    rt: &impl Abort,
    _board: &Board,
    _number: u32,
    hands: &mut IntoIter<Hand>,
) -> Hand
    requires hands { AreNewHands _board.now _number (into_iter_items hands.old) }
    ensures rests { RestsWithNoRow _board.now _number result }
    ensures new { known result ≡ [] }
    ensures others { AreNewHands _board.now (_number + 1) (into_iter_items hands.new) }
{
    match hands.next() {
        Some(hand) => hand,
        None => panic!(rt; "a hand is left"),
    }
}

/// The caller enters its read section.
pub(crate) fn enter(board: &Board, _number: u32, hand: &mut Hand)
    requires caller { IsCaller (opening_of board.now) _number }
    requires rests { Rests board.now _number hand.old }
    ensures inside { IsInside board.now _number hand.new }
    ensures none { HoldsNone (opening_of board.now) hand.old.number (known hand.old) →
        HoldsNone (opening_of board.now) hand.new.number (known hand.new) }
{
    reader_epochs::enter(board, hand);
}

/// The caller comes to the group of the key, by the root.
pub(crate) fn come_to(board: &Board, _number: u32, hand: &mut Hand, key: u64) -> u32
    requires { IsInside board.now _number hand.old }
    ensures there { IsInGroupOf board.now _number result key hand.new }
    ensures steps { FindsGroup board.now key hand.old result hand.new }
{
    group_for(board, hand, key)
}

/// The caller leaves its read section.
pub(crate) fn leave(board: &Board, _number: u32, hand: &mut Hand)
    requires { IsInside board.now _number hand.old }
    ensures { Rests board.now _number hand.new }
{
    reader_epochs::leave(board, hand);
}

/// The words of a board of three callers, once all its hands rest.
pub(crate) fn closed(
    rt: &impl Abort,
    alloc: Global,
    board: Board,
    callers: (Hand, Hand, Hand),
    keeper: Hand,
) -> Vec<u64>
    requires one_group { HasOneGroup board }
    requires callers { (limits (opening_of board)).callers ≡ 3 }
    requires first { Rests board 0 callers.0 }
    requires second { Rests board 1 callers.1 }
    requires third { Rests board 2 callers.2 }
    requires keeper { Rests board 3 keeper }
{
    let (first, second, third) = callers;
    let Ok(hands) = vec![in alloc; first, second, third, keeper] else {
        panic!(rt; "there is memory");
    };
    let Ok(words) = board.close(alloc, hands) else {
        panic!(rt; "there is memory");
    };
    words
}

/// The words of a board with these limits, parts and rows that is closed as it was opened.
pub(crate) fn words_of(
    rt: &impl Abort,
    alloc: Global,
    limits: Limits,
    parts: Parts,
    rows: &[(u64, u64)],
) -> Vec<u64>
    requires rising { IsRising rows.now }
    requires few { length rows.now ≤ limits.groups * fill_limit limits.group_size }
{
    let Ok(layout) = limits.layout_in(parts) else {
        panic!(rt; "the limits are kept");
    };
    let Ok((board, hands)) = Board::open(alloc, &layout, rows) else {
        panic!(rt; "there is memory");
    };
    let Ok(words) = board.close(alloc, hands) else {
        panic!(rt; "there is memory");
    };
    words
}

/// Asserts that the words are these, and that there are so many.
pub(crate) fn assert_words(rt: &impl Abort, found: Option<&[u64]>, expected: &[u64]) {
    assert_eq!(rt; found, Some(expected));
}
