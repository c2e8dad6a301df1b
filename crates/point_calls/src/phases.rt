//! The phase of a group where a caller stands.
ghost use Rattle.std.specs.Prelude.{◌≡◌, ℕ, ◌≤◌};
ghost use Rattle.word_layout.specs.Parts.{greatest_key};
ghost use Rattle.word_layout.specs.Phase.{word_of_phase};
ghost use Rattle.index_machine.specs.declared.events.Action.TheVariants.{LoadPhase};
ghost use Rattle.index_machine.specs.Groups.{phase};
ghost use Rattle.machine_chain.specs.Walks.{AnswersFor};
ghost use Rattle.index_rule.specs.Hands.{Makes, known, opening_of};
ghost use Rattle.sorted_group.specs.Standing.{CanSearch};

use index_rule::{Board, Hand};
use word_layout::Phase;

/// The phase of a group that answers for a key, or did, where the caller stands. It is one load.
#[inline]
pub(crate) fn phase_of(board: &Board, hand: &mut Hand, group: u32) -> Phase
    requires search { CanSearch board.now group hand.old }
    requires answers { (key : ℕ) × (key ≤ greatest_key)
        × AnswersFor (opening_of board.now) key group (known hand.old) }
    ensures search { CanSearch board.now group hand.new }
    ensures step { Makes board.now hand.old (LoadPhase group (word_of_phase result)) hand.new }
    ensures phase { phase group (known hand.new) ≡ result }
{
    match Phase::read(board.load_phase(hand, group)) {
        Some(phase) => phase,
        None => unreachable!(),
    }
}
