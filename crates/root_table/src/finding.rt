//! The way from the root of a part to the group of a key.
//!
//! The root is loaded once: the slots of that root word stay readable, and their pivots stay, while the caller loads
//! no root again.
ghost use Rattle.std.specs.Prelude.{◌≡◌, ◌<◌};
ghost use Rattle.index_machine.specs.declared.events.Action.TheVariants.{LoadRoot};
ghost use Rattle.index_machine.specs.Keepers.{IsKeyIn, IsPart};
ghost use Rattle.machine_chain.specs.Walks.{AnswersFor};
ghost use Rattle.index_rule.specs.Calls.{CanCall};
ghost use Rattle.index_rule.specs.Hands.{Makes, known, opening_of};
ghost use Rattle.index_rule.specs.Moments.{AddsNoEntry};
ghost use Rattle.root_table.specs.Finding.{FindsGroup, LoadsFewPivots};
ghost use Rattle.root_table.specs.Slots.{IsLastSlot, SeesSlots, root_word_of};
ghost use Rattle.root_table.specs.Standing.{StandsIn};

use crate::slots::Slots;
use crate::walking::walk;
use index_rule::{Board, Hand};

/// The group that answers for a key, or did before the key's last install, where the caller comes to stand.
///
/// It loads the root word of the key's part, halves the slots that this names, and walks from the group of the last
/// one that begins at or before the key. It adds no entry.
pub fn group_for(board: &Board, hand: &mut Hand, key: u64) -> u32
    requires { CanCall board.now hand.old }
    ensures number { hand.new.number ≡ hand.old.number }
    ensures there { StandsIn board.now result hand.new }
    ensures answers { AnswersFor (opening_of board.now) key result (known hand.new) }
    ensures steps { FindsGroup board.now key hand.old result hand.new }
    ensures log { AddsNoEntry hand.old hand.new }
{
    let part = board.part_of(key);
    let slots = slots_in_use(board, hand, part);
    let slot = last_slot(board, hand, slots, key);
    let from = board.load_slot_group(hand, slots.part, slots.side, slot) as u32;
    walk(board, hand, from, key)
}

/// The slots of a part's root that are in use. The caller may read these until it loads a root again.
#[inline]
fn slots_in_use(board: &Board, hand: &mut Hand, part: u32) -> Slots
    requires call { CanCall board.now hand.old }
    requires part { IsPart (opening_of board.now) part }
    ensures number { hand.new.number ≡ hand.old.number }
    ensures part { result.part ≡ part }
    ensures sees { SeesSlots board.now result hand.new }
    ensures step { Makes board.now hand.old (LoadRoot part (root_word_of result)) hand.new }
    ensures log { AddsNoEntry hand.old hand.new }
{
    let word = board.load_root(hand, part);
    Slots {
        part,
        side: (word % 2) as u32,
        count: (word / 2) as u32,
    }
}

/// The last of the slots whose pivot is at most the key.
#[inline]
fn last_slot(board: &Board, hand: &mut Hand, slots: Slots, key: u64) -> u32
    requires sees { SeesSlots board.now slots hand.old }
    requires key { IsKeyIn (opening_of board.now) slots.part key }
    ensures number { hand.new.number ≡ hand.old.number }
    ensures sees { SeesSlots board.now slots hand.new }
    ensures steps { LoadsFewPivots board.now slots hand.old hand.new }
    ensures last { IsLastSlot (opening_of board.now) slots key result (known hand.new) }
    ensures log { AddsNoEntry hand.old hand.new }
{
    let mut low = 0;
    let mut high = slots.count - 1;
    while low < high {
        let middle = high - (high - low) / 2;
        let pivot = board.load_slot_pivot(hand, slots.part, slots.side, middle);
        if pivot <= key {
            low = middle;
        } else {
            high = middle - 1;
        }
    }
    low
}
