//! The steps on a record: its key, its state and its value are loaded, its version lock is taken, its
//! value is stored, and the lock is released.
//!
//! While a caller holds the lock nobody else changes the record. The change takes effect as the lock
//! is released.
ghost use Rattle.word_layout.specs.State.{IsLockable};
ghost use Rattle.index_machine.specs.declared.events.Action.TheVariants.{LoadKey, LoadState};
ghost use Rattle.index_machine.specs.declared.events.Action.TheVariants.{LoadValue};
ghost use Rattle.index_machine.specs.declared.events.Action.TheVariants.{Lock, FailLock};
ghost use Rattle.index_machine.specs.declared.events.Action.TheVariants.{StoreValue, Unlock};
ghost use Rattle.index_machine.specs.RecordConditions.{HoldsNoLock, IsAt};
ghost use Rattle.index_rule.specs.Hands.{IsHandOf, Makes, Exchanges, known, opening_of};
ghost use Rattle.index_rule.specs.Records.{CanSee, HoldsLock, MayRelease};
ghost use Rattle.index_rule.specs.Records.{change_by, unlocked_word};

use crate::board::Board;
use crate::hand::Hand;
use crate::plays::{LoadsKey, LoadsState, LoadsValue, Locks, StoresValue, Unlocks};
use crate::swap::Swap;
use word_layout::{locked_word, released_word, state_word, value_word};

impl Board {
    /// Loads the key word of a place.
    #[inline]
    pub fn load_key(&self, hand: &mut Hand, place: u32) -> u64
        requires hand { IsHandOf self.now hand.old }
        requires may { CanSee (opening_of self.now) hand.old.number place (known hand.old) }
        ensures { Makes self.now hand.old (LoadKey place result) hand.new }
    {
        let offset = self.cold_offset(place);
        self.words.shared.load::<LoadsKey>(&mut hand.seat, offset)
    }

    /// Loads the state word of a place.
    #[inline]
    pub fn load_state(&self, hand: &mut Hand, place: u32) -> u64
        requires hand { IsHandOf self.now hand.old }
        requires may { CanSee (opening_of self.now) hand.old.number place (known hand.old) }
        ensures { Makes self.now hand.old (LoadState place result) hand.new }
    {
        let offset = self.cold_offset(state_word(place));
        self.words.shared.load::<LoadsState>(&mut hand.seat, offset)
    }

    /// Loads the value word of a place.
    #[inline]
    pub fn load_value(&self, hand: &mut Hand, place: u32) -> u64
        requires hand { IsHandOf self.now hand.old }
        requires may { CanSee (opening_of self.now) hand.old.number place (known hand.old) }
        ensures { Makes self.now hand.old (LoadValue place result) hand.new }
    {
        let offset = self.cold_offset(value_word(place));
        self.words.shared.load::<LoadsValue>(&mut hand.seat, offset)
    }

    /// Takes the version lock of a place, where its state word still is the expected one.
    #[inline]
    pub fn swap_lock(&self, hand: &mut Hand, place: u32, expected: u64) -> Swap
        requires hand { IsHandOf self.now hand.old }
        requires there { IsAt (opening_of self.now) hand.old.number place (known hand.old) }
        requires none { HoldsNoLock (opening_of self.now) hand.old.number (known hand.old) }
        requires lockable { IsLockable expected }
        ensures { Exchanges self.now hand.old expected (Lock place expected)
            (FailLock place expected) result hand.new }
    {
        let offset = self.cold_offset(state_word(place));
        let locked = locked_word(expected);
        let found = self
            .words
            .shared
            .compare_exchange::<Locks>(&mut hand.seat, offset, expected, locked);
        if found == expected {
            hand.locked = expected;
            Swap::Done
        } else {
            Swap::Found(found)
        }
    }

    /// Stores the value of a place that the caller holds locked.
    #[inline]
    pub fn store_value(&self, hand: &mut Hand, place: u32, value: u64)
        requires hand { IsHandOf self.now hand.old }
        requires holds { HoldsLock (opening_of self.now) hand.old.number place (known hand.old) }
        ensures { Makes self.now hand.old (StoreValue place value) hand.new }
    {
        let offset = self.cold_offset(value_word(place));
        self.words
            .shared
            .store::<StoresValue>(&mut hand.seat, offset, value);
    }

    /// Releases the version lock of a place and raises its version. The record is removed from then
    /// on, or has the value that stands there.
    #[inline]
    pub fn store_unlock(&self, hand: &mut Hand, place: u32, removed: bool)
        requires hand { IsHandOf self.now hand.old }
        requires may { MayRelease (opening_of self.now) hand.old.number place removed
            (known hand.old) }
        ensures { let o = opening_of self.now in let t = known hand.old in
            Makes self.now hand.old (Unlock place removed
            (change_by o hand.old.number place removed t) (unlocked_word o place removed t))
            hand.new }
    {
        let word = released_word(hand.locked, removed);
        let offset = self.cold_offset(state_word(place));
        self.words
            .shared
            .store::<Unlocks>(&mut hand.seat, offset, word);
    }
}
