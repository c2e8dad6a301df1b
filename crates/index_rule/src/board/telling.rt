//! Hands tell each other what they know, by notes.
//!
//! A hand that heeds a note knows all that the hand knew that told it, and made no event by that. What
//! it was to the table it still is: inside or outside, with its rows, its locks and its log.
ghost use Rattle.std.specs.Prelude.{◌≡◌};
ghost use Rattle.index_rule.specs.Hands.{IsHandOf, known, view};
ghost use Rattle.index_rule.specs.Notes.{Heeds, IsNoteOf, known_of};

use crate::board::Board;
use crate::hand::Hand;
use crate::note::Note;
use crate::plays::{SettlesHeard, TakesIn, TellsNote};

impl Board {
    /// A note of what the hand knows. The hand stays as it is.
    #[inline]
    pub fn tell(&self, hand: &mut Hand) -> Note
        requires hand { IsHandOf self.now hand.old }
        ensures hand { IsHandOf self.now hand.new }
        ensures number { hand.new.number ≡ hand.old.number }
        ensures view { view hand.new ≡ view hand.old }
        ensures note { IsNoteOf self.now result }
        ensures known { known_of result ≡ known hand.old }
    {
        Note {
            seat: self.words.shared.split_seat::<TellsNote>(&mut hand.seat),
        }
    }

    /// From then on the hand knows the longer of what it and the note knew. It is no event.
    #[inline]
    pub fn heed(&self, hand: &mut Hand, note: Note)
        requires hand { IsHandOf self.now hand.old }
        requires note { IsNoteOf self.now note }
        ensures { Heeds self.now hand.old (known_of note) hand.new }
    {
        let offset = self.free_head_offset();
        self.words
            .shared
            .join_seat::<TakesIn>(&mut hand.seat, note.seat);
        // Taking in a seat tells nothing. That both knew beginnings of one execution is told by a load.
        self.words
            .shared
            .load::<SettlesHeard>(&mut hand.seat, offset);
    }
}
