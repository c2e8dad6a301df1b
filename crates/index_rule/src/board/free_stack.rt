//! The free stack of record rows, and the rows that hands take from it.
//!
//! The head names the first free row, and each row's link the next one, as in Treiber's stack.
//! What a caller observed of the head stays true while the row is free, since no row is pushed that
//! a caller may still rely on.
ghost use Rattle.std.specs.Prelude.{◌≡◌, ◌≢◌};
ghost use Rattle.word_layout.specs.declared.places.Part.TheVariants.{Link};
ghost use Rattle.word_layout.specs.Places.{FitsPart, IsRow, IsWordOf, part_of};
ghost use Rattle.word_layout.specs.Words.{PlaceWord};
ghost use Rattle.index_machine.specs.declared.events.Action.TheVariants.{LoadFree, LoadFreeLink};
ghost use Rattle.index_machine.specs.declared.events.Action.TheVariants.{PopFree, FailPop};
ghost use Rattle.index_machine.specs.declared.events.Action.TheVariants.{StorePrivate, PushFree};
ghost use Rattle.index_machine.specs.declared.events.Action.TheVariants.{FailPush};
ghost use Rattle.index_machine.specs.Words.{shape, word};
ghost use Rattle.index_machine.specs.Keepers.{IsKeeper};
ghost use Rattle.index_machine.specs.Rows.{Holds, HoldsNone};
ghost use Rattle.index_machine.specs.ObservedHeads.{HeadAndLink, observed_head, Observes};
ghost use Rattle.index_machine.specs.ObservedHeads.{IsUnobserved};
ghost use Rattle.index_machine.specs.Conditions.{IsReading, MayLoadFree};
ghost use Rattle.index_rule.specs.Hands.{IsHandOf, Makes, Exchanges, known, opening_of};
ghost use Rattle.index_rule.specs.OwnRows.{place_of_retired};

use crate::board::Board;
use crate::hand::Hand;
use crate::own_rows::OwnRow;
use crate::plays::{LoadsFree, LoadsFreeLink, PopsFree, PushesFree, StoresPrivate};
use crate::rows::RetiredRow;
use crate::swap::Swap;
use word_layout::link_word;

impl Board {
    /// Loads the head of the free stack: the place of the first free row, or 0.
    #[inline]
    pub fn load_free(&self, hand: &mut Hand) -> u64
        requires hand { IsHandOf self.now hand.old }
        requires may { MayLoadFree (opening_of self.now) hand.old.number (known hand.old) }
        ensures step { Makes self.now hand.old (LoadFree result) hand.new }
        ensures row { result ≢ 0 → IsRow (shape (opening_of self.now)) result }
    {
        let offset = self.free_head_offset();
        self.words.shared.load::<LoadsFree>(&mut hand.seat, offset)
    }

    /// Loads the link of the row that this hand observed as the head.
    #[inline]
    pub fn load_free_link(&self, hand: &mut Hand, place: u32) -> u64
        requires hand { IsHandOf self.now hand.old }
        requires reading { IsReading (opening_of self.now) hand.old.number (known hand.old) }
        requires observed { Observes hand.old.number place (known hand.old) }
        ensures { Makes self.now hand.old (LoadFreeLink place result) hand.new }
    {
        let offset = self.cold_offset(link_word(place));
        self.words
            .shared
            .load::<LoadsFreeLink>(&mut hand.seat, offset)
    }

    /// Takes the observed row from the stack, where the head still names it.
    #[inline]
    pub fn swap_free_pop(&self, hand: &mut Hand, expected: u64, next: u64) -> Swap
        requires hand { IsHandOf self.now hand.old }
        requires reading { IsReading (opening_of self.now) hand.old.number (known hand.old) }
        requires observed { observed_head hand.old.number (known hand.old)
            ≡ HeadAndLink expected next }
        requires none { HoldsNone (opening_of self.now) hand.old.number (known hand.old) }
        ensures { Exchanges self.now hand.old expected (PopFree expected next) (FailPop expected)
            result hand.new }
    {
        let offset = self.free_head_offset();
        let found = self
            .words
            .shared
            .compare_exchange::<PopsFree>(&mut hand.seat, offset, expected, next);
        if found == expected {
            Swap::Done
        } else {
            Swap::Found(found)
        }
    }

    /// Stores one of the four words of a row that is the hand's own. `word` is its address.
    #[inline]
    pub fn store_private<R: OwnRow>(&self, hand: &mut Hand, row: &mut R, word: u32, value: u64)
        requires hand { IsHandOf self.now hand.old }
        requires held { Holds (opening_of self.now) hand.old.number (R.place_of row.old)
            (known hand.old) }
        requires word { IsWordOf (R.place_of row.old) word }
        requires fits { FitsPart (shape (opening_of self.now))
            (part_of (R.place_of row.old) word) value }
        ensures step { let place = R.place_of row.old in
            Makes self.now hand.old (StorePrivate place (part_of place word) value) hand.new }
        ensures row { row.new ≡ row.old }
    {
        let offset = self.cold_offset(word);
        self.words
            .shared
            .store::<StoresPrivate>(&mut hand.seat, offset, value);
    }

    /// Puts the row on the stack, where the head still is the one to which the row's link leads.
    #[inline]
    pub fn swap_free_push(&self, hand: &mut Hand, row: &mut RetiredRow, expected: u64) -> Swap
        requires hand { IsHandOf self.now hand.old }
        requires keeper { IsKeeper (opening_of self.now) hand.old.number }
        requires held { Holds (opening_of self.now) hand.old.number (place_of_retired row.old)
            (known hand.old) }
        requires linked { word (opening_of self.now) (known hand.old)
            (PlaceWord (place_of_retired row.old) Link) ≡ expected }
        requires unobserved { IsUnobserved (opening_of self.now) (place_of_retired row.old)
            (known hand.old) }
        ensures step { let place = place_of_retired row.old in
            Exchanges self.now hand.old expected (PushFree place expected) (FailPush place expected)
            result hand.new }
        ensures row { row.new ≡ row.old }
    {
        let offset = self.free_head_offset();
        let place = row.place as u64;
        let found = self
            .words
            .shared
            .compare_exchange::<PushesFree>(&mut hand.seat, offset, expected, place);
        if found == expected {
            Swap::Done
        } else {
            Swap::Found(found)
        }
    }
}
