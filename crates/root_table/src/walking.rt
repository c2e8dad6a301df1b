//! The walk along the chain to the group of a key.
ghost use Rattle.std.specs.Prelude.{◌≡◌, IfSome};
ghost use Rattle.machine_chain.specs.Walks.{AnswersFor, AnswersForNew, BeginsBeforeNew};
ghost use Rattle.index_rule.specs.Hands.{known, opening_of};
ghost use Rattle.index_rule.specs.Moments.{AddsNoEntry};
ghost use Rattle.root_table.specs.Standing.{IsBehindKey, IsInOpened, LeadsIntoTable, StandsIn};
ghost use Rattle.root_table.specs.Walks.{StopsOrGoesOn, WalksTo};

use index_rule::{Board, Hand};
use word_layout::HeaderWord;

/// The last group along the chain, from this one on, whose pivot is at most the key.
///
/// It loads the next word of each group that it comes to, and the pivot of the one that this names. It adds no
/// entry.
pub fn walk(board: &Board, hand: &mut Hand, from: u32, key: u64) -> u32
    requires { IsBehindKey board.now from key hand.old }
    ensures number { hand.new.number ≡ hand.old.number }
    ensures there { StandsIn board.now result hand.new }
    ensures answers { AnswersFor (opening_of board.now) key result (known hand.new) }
    ensures steps { WalksTo board.now from key hand.old result hand.new }
    ensures log { AddsNoEntry hand.old hand.new }
{
    let mut group = from;
    while let Some(next) = next_from(board, hand, group, key) {
        group = next;
    }
    group
}

/// The new group of the key, for a caller of an old group that is opened: along the new groups from the first
/// one, which the old group's phase names, and after the install along the chain.
///
/// It loads what [`walk`] loads, and adds no entry.
pub fn walk_new(board: &Board, hand: &mut Hand, old: u32, first: u32, key: u64) -> u32
    requires opened { IsInOpened board.now old first key hand.old }
    requires begins { BeginsBeforeNew (opening_of board.now) old first key first (known hand.old) }
    ensures number { hand.new.number ≡ hand.old.number }
    ensures there { StandsIn board.now result hand.new }
    ensures opened { IsInOpened board.now old first key hand.new }
    ensures answers { AnswersForNew (opening_of board.now) old key result (known hand.new) }
    ensures steps { WalksTo board.now first key hand.old result hand.new }
    ensures log { AddsNoEntry hand.old hand.new }
{
    let mut group = first;
    while let Some(next) = next_from(board, hand, group, key) {
        group = next;
    }
    group
}

/// The next group, if there is one whose pivot is at most the key.
#[inline]
fn next_from(board: &Board, hand: &mut Hand, group: u32, key: u64) -> Option<u32>
    requires there { StandsIn board.now group hand.old }
    requires leads { LeadsIntoTable (opening_of board.now) hand.old.number group (known hand.old) }
    ensures number { hand.new.number ≡ hand.old.number }
    ensures there { StandsIn board.now group hand.new }
    ensures next { IfSome result (λ next. StandsIn board.now next hand.new) }
    ensures steps { StopsOrGoesOn board.now group key hand.old result hand.new }
    ensures log { AddsNoEntry hand.old hand.new }
{
    let word = board.load_next(hand, group);
    if word == 0 {
        return None;
    }
    let next = (word - 1) as u32;
    let pivot = board.load_header(hand, next, HeaderWord::Pivot);
    if key < pivot { None } else { Some(next) }
}
