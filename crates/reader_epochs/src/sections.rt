//! A caller enters and leaves.
ghost use Rattle.index_machine.specs.declared.events.Action.TheVariants.{Enter, Leave};
ghost use Rattle.index_machine.specs.Conditions.{IsReading, MayEnter, MayLeave, next_epoch};
ghost use Rattle.index_rule.specs.Hands.{IsHandOf, Makes, known, opening_of};

use index_rule::{Board, Hand};

/// Begins a read section: until it leaves, the caller may rely on what it loads.
#[inline]
pub fn enter(board: &Board, hand: &mut Hand)
    requires hand { IsHandOf board.now hand.old }
    requires may { MayEnter (opening_of board.now) hand.old.number (known hand.old) }
    ensures step { Makes board.now hand.old (Enter (next_epoch hand.old.number (known hand.old)))
        hand.new }
    ensures inside { IsReading (opening_of board.now) hand.new.number (known hand.new) }
    ensures may_leave { MayLeave (opening_of board.now) hand.new.number (known hand.new) }
{
    board.store_enter(hand);
}

/// Ends the read section: what the caller loaded in it is of no use any more.
#[inline]
pub fn leave(board: &Board, hand: &mut Hand)
    requires hand { IsHandOf board.now hand.old }
    requires may { MayLeave (opening_of board.now) hand.old.number (known hand.old) }
    ensures step { Makes board.now hand.old (Leave (next_epoch hand.old.number (known hand.old)))
        hand.new }
    ensures outside { MayEnter (opening_of board.now) hand.new.number (known hand.new) }
{
    board.store_leave(hand);
}
