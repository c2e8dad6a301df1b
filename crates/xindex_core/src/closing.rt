//! An index is closed: all that steps on it is taken back, and its words are read as the map.
//!
//! Memory is taken before anything is given up, so where there is none all is handed back as it was.
ghost use Rattle.std.specs.Prelude.{◌≡◌, ◌≤◌, ◌+◌, ◌++◌, [], IfErr, IfOk, length, vec_capacity};
ghost use Rattle.word_layout.specs.Layout.{shape_of};
ghost use Rattle.word_layout.specs.Limits.{word_count};
ghost use Rattle.index_machine.specs.Words.{shape};
ghost use Rattle.resting_table.specs.Resting.{place_count};
ghost use Rattle.xindex_core.specs.Closing.{AreAllKeepers, AreAllPasses, AreGivenBack, IsClosedWith};
ghost use Rattle.xindex_core.specs.Closing.{IsReadBack, calling_hands, keeping_hands};
ghost use Rattle.xindex_core.specs.Passes.{IsKeeperOf, bounds_of_index, opening_with};

use crate::index::Index;
use crate::keeper::Keeper;
use crate::pass::Pass;
use index_rule::Hand;
use resting_table::pairs_of;
use std::alloc::{AllocError, Global};
use std::error::Error;
use std::fmt;
use word_layout::Layout;

/// An index that was not closed, since there was not enough memory for a copy of its words, its hands or its pairs.
#[derive(Drop)]
pub struct Unclosed {
    pub index: Index,
    pub passes: Vec<Pass>,
    pub keeper: Keeper,
}

/// An index of several parts that was not closed, since there was not enough memory for a copy of its words, its
/// hands or its pairs.
#[derive(Drop)]
pub struct UnclosedParts {
    pub index: Index,
    pub passes: Vec<Pass>,
    pub keepers: Vec<Keeper>,
}

impl fmt::Display for UnclosedParts {
    fn fmt<W: fmt::Write>(&self, f: &mut fmt::Formatter<W>) -> fmt::Result {
        write!(f, "out of memory")
    }
}

impl fmt::Debug for UnclosedParts {
    fn fmt<W: fmt::Write>(&self, f: &mut fmt::Formatter<W>) -> fmt::Result {
        write!(f, "UnclosedParts")
    }
}

impl Error for UnclosedParts {}

impl fmt::Display for Unclosed {
    fn fmt<W: fmt::Write>(&self, f: &mut fmt::Formatter<W>) -> fmt::Result {
        write!(f, "out of memory")
    }
}

impl fmt::Debug for Unclosed {
    fn fmt<W: fmt::Write>(&self, f: &mut fmt::Formatter<W>) -> fmt::Result {
        write!(f, "Unclosed")
    }
}

impl Error for Unclosed {}

impl Index {
    /// Takes back all passes of an index with one part, in any order, and the keeper, and gives the pairs that
    /// the rows of the opening and the whole history leave, by rising key.
    pub fn close(
        self,
        alloc: Global,
        passes: Vec<Pass>,
        keeper: Keeper,
    ) -> Result<Vec<(u64, u64)>, Unclosed>
        requires one_part { bounds_of_index self ≡ [] }
        requires passes { AreAllPasses self passes.items }
        requires keeper { IsKeeperOf self keeper }
        ensures closed { IfOk result (λ pairs. IsClosedWith self passes.items pairs.items) }
        ensures index { IfErr result (λ kept. kept.index ≡ self) }
        ensures passes { IfErr result (λ kept. kept.passes ≡ passes) }
        ensures keeper { IfErr result (λ kept. kept.keeper ≡ keeper) }
    {
        let layout = self.board.layout();
        let Ok(room) = room_for(alloc, &layout, passes.len() + 1) else {
            return Err(Unclosed {
                index: self,
                passes,
                keeper,
            });
        };
        let Room {
            pairs,
            words,
            hands,
        } = room;
        let mut hands = with_passes(hands, passes);
        let Keeper { hand, part: _ } = keeper;
        hands.push(hand).unwrap();
        Ok(self.read_back(hands, words, pairs))
    }

    /// Takes back all passes and all keepers, in any order, and gives the pairs that the rows of the opening and the
    /// whole history leave, by rising key.
    pub fn close_in(
        self,
        alloc: Global,
        passes: Vec<Pass>,
        keepers: Vec<Keeper>,
    ) -> Result<Vec<(u64, u64)>, UnclosedParts>
        requires passes { AreAllPasses self passes.items }
        requires keepers { AreAllKeepers self keepers.items }
        ensures closed { IfOk result (λ pairs. IsClosedWith self passes.items pairs.items) }
        ensures index { IfErr result (λ kept. kept.index ≡ self) }
        ensures passes { IfErr result (λ kept. kept.passes ≡ passes) }
        ensures keepers { IfErr result (λ kept. kept.keepers ≡ keepers) }
    {
        let layout = self.board.layout();
        let Ok(room) = room_for(alloc, &layout, passes.len() + keepers.len()) else {
            return Err(UnclosedParts {
                index: self,
                passes,
                keepers,
            });
        };
        let Room {
            pairs,
            words,
            hands,
        } = room;
        let hands = with_keepers(with_passes(hands, passes), keepers);
        Ok(self.read_back(hands, words, pairs))
    }

    // Once all hands are given up, the words are the map.
    fn read_back(self, hands: Vec<Hand>, words: Vec<u64>, pairs: Vec<(u64, u64)>) -> Vec<(u64, u64)>
        requires hands { AreGivenBack self hands.items }
        requires words { length words.items ≡ word_count (shape (opening_with self)) }
        requires none { pairs.items ≡ [] }
        requires room { place_count (shape (opening_with self)) ≤ vec_capacity pairs }
        ensures { IsReadBack self hands.items result.items }
    {
        let layout = self.board.layout();
        let Index { board } = self;
        let words = board.close_into(hands, words);
        pairs_of(words.as_slice(), &layout, pairs)
    }
}

// The memory that closing needs.
#[derive(Drop)]
struct Room {
    pairs: Vec<(u64, u64)>,
    words: Vec<u64>,
    hands: Vec<Hand>,
}

// There are no more pairs than places of the table.
fn room_for(alloc: Global, layout: &Layout, hands: usize) -> Result<Room, AllocError>
    ensures no_pairs { IfOk result (λ room. room.pairs.items ≡ []) }
    ensures pairs { IfOk result (λ room.
        place_count (shape_of layout.now) ≤ vec_capacity room.pairs) }
    ensures words { IfOk result (λ room.
        length room.words.items ≡ word_count (shape_of layout.now)) }
    ensures no_hands { IfOk result (λ room. room.hands.items ≡ []) }
    ensures hands { IfOk result (λ room. hands ≤ vec_capacity room.hands) }
{
    Ok(Room {
        pairs: Vec::with_capacity(alloc, places_in(layout))?,
        words: vec![in alloc; 0u64; layout.words() as usize]?,
        hands: Vec::with_capacity(alloc, hands)?,
    })
}

// How many records the table has places for: its record rows, and the arrays of all groups.
fn places_in(layout: &Layout) -> usize
    ensures { result ≡ place_count (shape_of layout.now) }
{
    let limits = layout.limits();
    let groups = layout.parts().count() as usize * limits.groups as usize;
    limits.records as usize + groups * limits.group_size as usize
}

fn with_passes(mut hands: Vec<Hand>, passes: Vec<Pass>) -> Vec<Hand>
    requires none { hands.items ≡ [] }
    requires room { length passes.items ≤ vec_capacity hands }
    ensures hands { result.items ≡ calling_hands passes.items }
    ensures many { length result.items ≡ length passes.items }
    ensures room { vec_capacity hands ≤ vec_capacity result }
{
    for pass in passes {
        hands.push(pass.into_hand()).unwrap();
    }
    hands
}

fn with_keepers(mut hands: Vec<Hand>, keepers: Vec<Keeper>) -> Vec<Hand>
    requires room { length hands.items + length keepers.items ≤ vec_capacity hands }
    ensures { result.items ≡ hands.items ++ keeping_hands keepers.items }
{
    for keeper in keepers {
        let Keeper { hand, part: _ } = keeper;
        hands.push(hand).unwrap();
    }
    hands
}
