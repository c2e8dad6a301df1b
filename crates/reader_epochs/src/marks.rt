//! Marks: the epoch words of all callers, and which of these callers have left since.
//!
//! A caller passes where its mark is even, or where its word is even or another than its mark. Who has passed is not
//! looked at again, so a caller that enters anew is not waited for.
ghost use Rattle.std.specs.Prelude.{◌≡◌, ◌%◌, MatchBool};
ghost use Rattle.index_machine.specs.Sections.{IsQuiescent};
ghost use Rattle.index_machine.specs.Keepers.{IsKeeper};
ghost use Rattle.index_rule.specs.Hands.{IsHandOf, MakesAll, known, opening_of};
ghost use Rattle.reader_epochs.specs.Marking.{AreMarks, Checked, Passes, beginning, epoch_loads, words_of};

use index_rule::{Board, Hand};
use std::snapshot::Snapshot;

// Limits allow at most so many callers.
const MOST_CALLERS: usize = 64;

/// A snapshot of the epochs, taken for one barrier.
#[derive(Drop)]
pub struct Marks {
    words: [u64; MOST_CALLERS],
    passed: u32,
    // The keeper's hand as the marks were begun; for proofs alone.
    began: Snapshot<Hand>,
}

/// Whether a barrier is over.
#[derive(Clone, Copy, Debug, PartialEq, Eq)]
pub enum Barrier {
    /// Each caller was outside at its mark, or has left that read section since.
    Quiet,
    /// This caller's word is odd and still the one that was marked.
    Waiting { caller: u32, word: u64 },
}

impl Marks {
    /// Loads the epoch words of all callers, from 0 up.
    pub fn mark(board: &Board, hand: &mut Hand) -> Marks
        requires hand { IsHandOf board.now hand.old }
        requires keeper { IsKeeper (opening_of board.now) hand.old.number }
        ensures hand { IsHandOf board.now hand.new }
        ensures steps { let callers = (opening_of board.now).layout.limits.callers in
            MakesAll board.now hand.old (epoch_loads (words_of result) callers) hand.new }
        ensures begun { beginning result ≡ known hand.old }
        ensures marks { AreMarks (opening_of board.now) result (known hand.new) }
    {
        let began = Snapshot::of(&*hand);
        let mut words = [0u64; MOST_CALLERS];
        for caller in 0..board.layout().limits().callers {
            words[caller as usize] = board.load_epoch(hand, caller);
        }
        Marks {
            words,
            passed: 0,
            began,
        }
    }

    /// Looks at the callers that have not passed, from the least on, up to one that does not pass.
    pub fn check(&mut self, board: &Board, hand: &mut Hand) -> Barrier
        requires hand { IsHandOf board.now hand.old }
        requires keeper { IsKeeper (opening_of board.now) hand.old.number }
        requires marks { AreMarks (opening_of board.now) self.old (known hand.old) }
        ensures hand { IsHandOf board.now hand.new }
        ensures steps { Checked board.now hand.old self.old result self.new hand.new }
        ensures marks { AreMarks (opening_of board.now) self.new (known hand.new) }
        ensures quiet { result ≡ Barrier.Quiet →
            IsQuiescent (opening_of board.now) (beginning self.new) (known hand.new) }
    {
        let callers = board.layout().limits().callers;
        while self.passed < callers {
            let caller = self.passed;
            let word = board.load_epoch(hand, caller);
            if !passes(self.words[caller as usize], word) {
                return Barrier::Waiting { caller, word };
            }
            self.passed += 1;
        }
        Barrier::Quiet
    }
}

// An even mark needs no test of its own: a word that equals it is even.
#[inline]
fn passes(mark: u64, word: u64) -> bool
    ensures { MatchBool result (Passes mark word) ((word % 2 ≡ 1) × (word ≡ mark)) }
{
    word % 2 == 0 || word != mark
}
