//! The log of a hand gets a look.
ghost use Rattle.std.specs.Prelude.{◌≡◌};
ghost use Rattle.index_rule.specs.Hands.{IsHandOf, view};
ghost use Rattle.index_rule.specs.Looks.{MayWriteLook, AddsLook};

use crate::board::Board;
use crate::hand::Hand;
use crate::looks::Sight;
use crate::plays::WritesLook;
use std::snapshot::Snapshot;

impl Board {
    /// Writes a look of the call that began at `start` into the hand's log. It loads a word that
    /// nobody reads, and is no event.
    #[inline]
    pub fn write_look<L: Sight>(
        &self,
        hand: &mut Hand,
        start: &Snapshot<Hand>,
        key: u64,
        found: Option<u64>,
    )
        requires start { L.start ≡ view start.now.value }
        requires key { L.key ≡ key }
        requires found { L.found ≡ found }
        requires hand { IsHandOf self.now hand.old }
        requires may { MayWriteLook self.now start.now.value hand.old key found }
        ensures hand { IsHandOf self.now hand.new }
        ensures number { hand.new.number ≡ hand.old.number }
        ensures written { AddsLook self.now start.now.value hand.old key found hand.new }
    {
        let offset = self.free_head_offset();
        self.words
            .shared
            .load::<WritesLook<L>>(&mut hand.seat, offset);
    }
}
