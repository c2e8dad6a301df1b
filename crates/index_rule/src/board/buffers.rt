//! The steps on the buffer of a group: its phase, its lanes' number, cuts and heads, and the links of its
//! rows are loaded, and a row is linked.
//!
//! A lane is a list of rows by rising keys. The exchange of a link succeeds where nothing was linked
//! since it was loaded, so a key that had no row then has none until its own is there.
ghost use Rattle.std.specs.Prelude.{◌≡◌, ◌<◌, ◌^◌};
ghost use Rattle.word_layout.specs.Headers.{most_lanes};
ghost use Rattle.word_layout.specs.Shape.{group_total};
ghost use Rattle.word_layout.specs.Words.{address_of};
ghost use Rattle.index_machine.specs.declared.events.Action.TheVariants.{LoadHead, LoadHeader};
ghost use Rattle.index_machine.specs.declared.events.Action.TheVariants.{LoadLink, LoadPhase};
ghost use Rattle.index_machine.specs.Lanes.{lanes};
ghost use Rattle.index_machine.specs.Words.{shape, link_behind};
ghost use Rattle.machine_buffers.specs.Walks.{IsWalkable};
ghost use Rattle.index_rule.specs.Buffers.{CanSeePhase, CanWalk, IsLaneHeader, IsLoadable, IsRowOf};
ghost use Rattle.index_rule.specs.Buffers.{Links, MayInsertRow, TellsBegun};
ghost use Rattle.index_rule.specs.Chains.{TellsHeader};
ghost use Rattle.index_rule.specs.Hands.{IsHandOf, Makes, known, opening_of};
ghost use Rattle.index_rule.specs.OwnRows.{place_of_private};

use crate::board::Board;
use crate::hand::Hand;
use crate::plays::{LinksRow, LoadsHead, LoadsHeader, LoadsPhase, LoadsRowLink};
use crate::rows::PrivateRow;
use crate::swap::Linked;
use word_layout::{HeaderWord, link_word};

impl Board {
    /// Loads a word of a group's header: its pivot, its size, the error of its line, the number of lanes of its
    /// buffer, or the cut of a lane, which is the lane's least key.
    ///
    /// The number of lanes and the cuts stay as the group was begun with them, so any number of them that are
    /// loaded belong together.
    #[inline]
    pub fn load_header(&self, hand: &mut Hand, group: u32, which: HeaderWord) -> u64
        requires hand { IsHandOf self.now hand.old }
        requires group { group < group_total (shape (opening_of self.now)) }
        requires may { CanWalk (opening_of self.now) hand.old.number group (known hand.old) }
        requires which { IsLoadable (opening_of self.now) group which (known hand.old) }
        ensures step { Makes self.now hand.old (LoadHeader group which result) hand.new }
        ensures tells { IsLaneHeader (opening_of self.now) group which (known hand.old) →
            IsWalkable (opening_of self.now) group (known hand.old) →
            TellsBegun (opening_of self.now) group which result (known hand.old)
            (known hand.new) }
        ensures says { TellsHeader (opening_of self.now) hand.new.number group which result
            (known hand.new) }
    {
        let address = self.layout.header(group, which.number());
        let offset = self.cold_offset(address);
        self.words
            .shared
            .load::<LoadsHeader>(&mut hand.seat, offset)
    }

    /// Loads the head of a lane of a group's buffer: the place of the lane's first row, or 0.
    #[inline]
    pub fn load_head(&self, hand: &mut Hand, group: u32, lane: u32) -> u64
        requires hand { IsHandOf self.now hand.old }
        requires group { group < group_total (shape (opening_of self.now)) }
        requires may { CanWalk (opening_of self.now) hand.old.number group (known hand.old) }
        requires lane { lane < lanes (opening_of self.now) group (known hand.old) }
        ensures { Makes self.now hand.old (LoadHead group lane result) hand.new }
    {
        let offset = self.cold_offset(self.layout.lane_head(group, lane));
        self.words.shared.load::<LoadsHead>(&mut hand.seat, offset)
    }

    /// Loads the link of a row of the group's buffer: the place of the next row of its lane, or 0.
    #[inline]
    pub fn load_link(&self, hand: &mut Hand, group: u32, place: u32) -> u64
        requires hand { IsHandOf self.now hand.old }
        requires may { CanWalk (opening_of self.now) hand.old.number group (known hand.old) }
        requires row { IsRowOf (opening_of self.now) group place (known hand.old) }
        ensures { Makes self.now hand.old (LoadLink group place result) hand.new }
    {
        let offset = self.cold_offset(link_word(place));
        self.words
            .shared
            .load::<LoadsRowLink>(&mut hand.seat, offset)
    }

    /// Loads the phase word of a group.
    #[inline]
    pub fn load_phase(&self, hand: &mut Hand, group: u32) -> u64
        requires hand { IsHandOf self.now hand.old }
        requires group { group < group_total (shape (opening_of self.now)) }
        requires may { CanSeePhase (opening_of self.now) hand.old.number group (known hand.old) }
        ensures { Makes self.now hand.old (LoadPhase group result) hand.new }
    {
        let address = self.layout.header(group, HeaderWord::Phase.number());
        let offset = self.cold_offset(address);
        self.words.shared.load::<LoadsPhase>(&mut hand.seat, offset)
    }

    /// Links the row behind the row at `before`, or as the first one of the lane where this is 0, if the
    /// link still leads to the expected place.
    #[inline]
    pub fn swap_link(
        &self,
        hand: &mut Hand,
        group: u32,
        lane: u32,
        before: u32,
        expected: u32,
        row: PrivateRow,
    ) -> Linked
        requires hand { IsHandOf self.now hand.old }
        requires group { group < group_total (shape (opening_of self.now)) }
        requires may { MayInsertRow (opening_of self.now) hand.old.number group lane
            (place_of_private row) before expected (known hand.old) }
        ensures { Links self.now hand.old group lane (place_of_private row) before expected result
            hand.new }
    {
        let offset = self.cold_offset(self.link_address(group, lane, before));
        let place = row.place as u64;
        let found = self
            .words
            .shared
            .compare_exchange::<LinksRow>(&mut hand.seat, offset, expected as u64, place);
        if found == expected as u64 {
            row.forget();
            Linked::Done
        } else {
            Linked::Raced { row, found }
        }
    }

    /// The address of the link behind a row of a group's buffer, or of the lane's head for 0.
    #[inline]
    pub fn link_address(&self, group: u32, lane: u32, before: u32) -> u32
        requires group { group < group_total (shape (opening_of self.now)) }
        requires lane { lane < most_lanes }
        requires place { before < 2 ^ 28 }
        ensures { result ≡ address_of (shape (opening_of self.now))
            (link_behind group lane before) }
    {
        if before == 0 {
            self.layout.lane_head(group, lane)
        } else {
            link_word(before)
        }
    }
}
