//! A board is opened, with a hand for each caller and one for the keeper of each part.
ghost use Rattle.std.specs.Prelude.{◌≡◌, ◌+◌, IfOk, []};
ghost use Rattle.map_model.specs.Map.{IsRising};
ghost use Rattle.word_layout.specs.Layout.{shape_of};
ghost use Rattle.word_layout.specs.Shape.{parts_in};
ghost use Rattle.index_machine.specs.OpeningPlan.{FitsTable};
ghost use Rattle.index_machine.specs.Words.{limits, shape};
ghost use Rattle.index_rule.specs.Rule.{first_view};
ghost use Rattle.index_rule.specs.Hands.{opening_of};
ghost use Rattle.index_rule.specs.Opened.{HasNewHands};
ghost use Rattle.index_rule.specs.Ended.{AreAllHands};

use crate::board::Board;
use crate::hand::Hand;
use crate::memory::{shift_of, spread};
use crate::plays::MakesHand;
use crate::rule::{Place, Words};
use atomic_table::Table;
use opened_table::{laid_words, opening_with};
use std::alloc::{AllocError, Global};
use word_layout::Layout;

impl Board {
    /// A board with its hands, by rising numbers: one for each caller, and behind them one for the
    /// keeper of each part. The plan shares out each part's rows among the part's first groups, by rising key.
    pub fn open(
        alloc: Global,
        layout: &Layout,
        rows: &[(u64, u64)],
    ) -> Result<(Board, Vec<Hand>), AllocError>
        requires rising { IsRising rows.now }
        requires fits { FitsTable (shape_of layout.now) rows.now }
        ensures rows { IfOk result (λ opened. (opening_of opened.0).rows ≡ rows.now) }
        ensures layout { IfOk result (λ opened. (opening_of opened.0).layout ≡ layout.now) }
        ensures hands { IfOk result (λ opened. HasNewHands opened.0 opened.1.items) }
        ensures all { IfOk result (λ opened. AreAllHands opened.0 opened.1.items) }
    {
        let opening = opening_with(alloc, layout, rows)?;
        let laid = laid_words(alloc, &opening, rows)?;
        let memory = spread(alloc, layout, laid)?;
        let (words, seat): (Words, _) = Table::of_words(alloc, memory.as_slice(), &opening)?;
        let board = Board {
            words,
            layout: *layout,
            shift: shift_of(layout),
        };
        let hands = board.make_hands(alloc, seat)?;
        Ok((board, hands))
    }

    /// The layout that the board was opened with.
    #[inline]
    pub fn layout(&self) -> Layout
        ensures { result ≡ (opening_of self.now).layout }
    {
        self.layout
    }

    // The greatest number of a hand, which is that of the last part's keeper.
    fn last_hand(&self) -> u32
        ensures { let o = opening_of self.now in
            result + 1 ≡ (limits o).callers + parts_in (shape o) }
    {
        self.layout.limits().callers + self.layout.parts().count() - 1
    }

    fn make_hands(&self, alloc: Global, mut seat: Place) -> Result<Vec<Hand>, AllocError>
        requires table { seat.table_id ≡ self.now.words.shared.table_id }
        requires first { seat.me.0 ≡ first_view (opening_of self.now) }
        requires bare { seat.me.1 ≡ [] }
        ensures { IfOk result (λ hands. HasNewHands self.now hands.items) }
    {
        let mut hands = Vec::new(alloc);
        let last = self.last_hand();
        for number in 0..last {
            let one = self.words.shared.split_seat::<MakesHand>(&mut seat);
            hands.push(Hand {
                seat: one,
                number,
                epoch: 0,
                locked: 0,
            })?;
        }
        hands.push(Hand {
            seat,
            number: last,
            epoch: 0,
            locked: 0,
        })?;
        Ok(hands)
    }
}
