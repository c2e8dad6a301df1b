//! A board is closed: its hands are joined, and its words are handed out.
ghost use Rattle.std.specs.Prelude.{◌≡◌, IfOk, IfErr, Some, length};
ghost use Rattle.std.specs.Slots.{IsFull, slots_items, slots_len};
ghost use Rattle.word_layout.specs.Limits.{word_count};
ghost use Rattle.word_layout.specs.Layout.{shape_of};
ghost use Rattle.index_rule.specs.Hands.{opening_of};
ghost use Rattle.index_rule.specs.declared.hand.Hand.{Hand};
ghost use Rattle.index_rule.specs.Ended.{AreAllHands, AreOf, Includes, IncludesAll, Leaves};
ghost use Rattle.index_rule.specs.Ended.{LeavesInMemory};
ghost use Rattle.index_rule.specs.Offsets.{offset_count};

use crate::board::Board;
use crate::hand::Hand;
use crate::memory::offset_of;
use crate::plays::TakesIn;
use crate::rule::Place;
use atomic_table::Closed;
use std::alloc::Global;

impl Board {
    /// Takes back all hands, in any order, and gives the words by their addresses.
    ///
    /// Memory is taken first. Where there is none, everything is handed back as it was.
    pub fn close(self, alloc: Global, hands: Vec<Hand>) -> Result<Vec<u64>, (Board, Vec<Hand>)>
        requires { AreAllHands self hands.items }
        ensures words { IfOk result (λ words. Leaves (opening_of self) hands.items words.items) }
        ensures board { IfErr result (λ kept. kept.0 ≡ self) }
        ensures hands { IfErr result (λ kept. kept.1 ≡ hands) }
    {
        let count = self.layout.words() as usize;
        let Ok(words) = vec![in alloc; 0u64; count] else {
            return Err((self, hands));
        };
        Ok(self.close_into(hands, words))
    }

    /// Takes back all hands, in any order, and writes the words by their addresses over these, which are
    /// as many. It takes no memory, so nothing has to be handed back.
    pub fn close_into(self, hands: Vec<Hand>, mut words: Vec<u64>) -> Vec<u64>
        requires hands { AreAllHands self hands.items }
        requires many { length words.items ≡ word_count (shape_of self.layout) }
        ensures { Leaves (opening_of self) hands.items result.items }
    {
        let count = words.len();
        let layout = self.layout;
        let closed = self.end(hands);
        for i in 0..count {
            words[i] = closed.word(offset_of(&layout, i as u32));
        }
        closed.free();
        words
    }

    // Once all hands are one seat, it knows every event.
    fn end(self, mut hands: Vec<Hand>) -> Closed<(), Global>
        requires { AreAllHands self hands.items }
        ensures words { LeavesInMemory (opening_of self) hands.items (slots_items result.words) }
        ensures full { IsFull result.words }
        ensures wide { slots_len result.words ≡ offset_count (shape_of self.layout) }
        ensures slotless { slots_len result.slots ≡ 0 }
    {
        let Hand {
            mut seat,
            number: _,
            epoch: _,
            locked: _,
        } = hands.pop().unwrap();
        self.join_all(&mut seat, hands);
        let Board {
            words,
            layout: _,
            shift: _,
        } = self;
        words.close_with(seat)
    }

    // The seat takes in the hands, and has heard what each of them knew.
    fn join_all(&self, seat: &mut Place, hands: Vec<Hand>)
        requires table { seat.old.table_id ≡ self.now.words.shared.table_id }
        requires opened { seat.old.me.0.opening ≡ Some (opening_of self.now) }
        requires hands { AreOf self.now hands.items }
        ensures table { seat.new.table_id ≡ seat.old.table_id }
        ensures opened { seat.new.me.0.opening ≡ seat.old.me.0.opening }
        ensures joined { IncludesAll seat.new.me.0 hands.items }
        ensures kept { (hand : Hand) → Includes seat.old.me.0 hand → Includes seat.new.me.0 hand }
    {
        for hand in hands {
            let Hand {
                seat: other,
                number: _,
                epoch: _,
                locked: _,
            } = hand;
            self.words.shared.join_seat::<TakesIn>(seat, other);
        }
    }
}
