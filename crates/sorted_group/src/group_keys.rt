//! The keys of a group's array, as a search reads them.
ghost use Rattle.std.specs.Prelude.{◌≡◌, ℕ, ◌+◌, ◌-◌, ◌<◌, ◌≤◌, length};
ghost use Rattle.word_layout.specs.Shape.{group_total};
ghost use Rattle.index_machine.specs.Words.{shape};
ghost use Rattle.machine_arrays.specs.Arrays.{array_keys};
ghost use Rattle.index_rule.specs.declared.view.View.{View};
ghost use Rattle.index_rule.specs.Hands.{IsHandOf, known, opening_of, view};
ghost use Rattle.sorted_group.specs.Arrays.{CanReadKeys, MayReadKeys};
ghost use Rattle.sorted_group.specs.KeyLoads.{key_loads, key_loads_since};
ghost use Rattle.sorted_group.specs.OneProof.{IsHandOf-prop};

use crate::searching::index_of;
use index_rule::{Board, Hand};
use line_window::{Keys, Line, Probes};
use std::snapshot::Snapshot;

/// The first keys of a group's array, each loaded when it is read.
pub struct GroupKeys<'a> {
    board: &'a Board,
    hand: &'a mut Hand,
    group: u32,
    len: usize,
    // The hand as this was made; for proofs alone.
    made: Snapshot<Hand>,
    ghost of: { IsHandOf board.now hand.now } by { IsHandOf-prop board.now hand.now },
    ghost in_table: { group < group_total (shape (opening_of board.now)) },
    ghost may: { ∥ MayReadKeys (opening_of board.now) hand.now.number group
        (known hand.now) ∥₁ },
    ghost fits: { len ≤ length (array_keys (opening_of board.now) group (known hand.now)) },
    ghost since: { key_loads hand.now.number (known made.value)
        ≤ key_loads hand.now.number (known hand.now) },
}

impl<'a> GroupKeys<'a> {
    ghost use Rattle.std.specs.Prelude.{min};
    ghost use Rattle.std.specs.List.Sorted.{IsStrictlyIncreasing};
    ghost use Rattle.line_window.specs.Line.{error_of, line_of};
    ghost use Rattle.line_window.specs.Search.{probes_of};
    ghost use Rattle.sorted_group.specs.KeyLoads.{ReadsOn};
    ghost use Rattle.sorted_group.specs.Located.{FewKeyLoads};
    ghost use Rattle.sorted_group.specs.Readers.{IsNewReader, keys_of};
    ghost use Rattle.sorted_group.specs.Searches.{FindsIndex};

    /// The first `len` keys of the group's array, read by this hand.
    #[inline]
    pub fn of(board: &'a Board, hand: &'a mut Hand, group: u32, len: usize) -> GroupKeys<'a>
        requires can { CanReadKeys board.now group hand.old }
        requires len { len ≤ length (array_keys (opening_of board.now) group (known hand.old)) }
        ensures same_hand { result.hand.ghost_name ≡ hand.entry.ghost_name }
        ensures new { IsNewReader board.now hand.old group len result }
    {
        let made = Snapshot::of(&*hand);
        GroupKeys {
            board,
            hand,
            group,
            len,
            made,
        }
    }

    /// The line of these keys. It reads each key once, and the first and the last once more.
    #[inline]
    pub fn line(&mut self) -> Line
        requires { IsStrictlyIncreasing (keys_of self.old) }
        ensures same_hand { self.new.hand.ghost_name ≡ self.old.hand.ghost_name }
        ensures line { result ≡ line_of (keys_of self.old) }
        ensures list { keys_of self.new ≡ keys_of self.old }
        ensures loads { ReadsOn self.old.board.now self.old.group self.old.hand.now
            self.new.hand.now }
    {
        Line::of(self)
    }

    /// The index of the key, or as an error how many keys are smaller, by the line with this error.
    #[inline]
    pub(crate) fn find(
        &mut self,
        error: usize,
        key: u64,
        probes: &mut Probes,
    ) -> Result<usize, usize>
        requires rising { IsStrictlyIncreasing (keys_of self.old) }
        requires error { error ≡ error_of (keys_of self.old) }
        ensures same_hand { self.new.hand.ghost_name ≡ self.old.hand.ghost_name }
        ensures index { FindsIndex (keys_of self.old) key result }
        ensures probes { probes.new
            ≡ min (probes.old + probes_of (keys_of self.old) key) u64.MAX }
        ensures loads { FewKeyLoads self.old.board.now self.old.group error self.old.hand.now
            self.new.hand.now }
    {
        index_of(self, error, key, probes)
    }
}

// Its hand comes back as the last read left it.
impl Drop for GroupKeys<'_> {
    #[inline]
    fn drop(self)
        ensures { self.exit.1.0.now ≡ self.entry.hand.now }
    {
        let GroupKeys {
            board: _,
            hand: _,
            group: _,
            len: _,
            made: _,
        } = self;
    }
}

impl<'a> Keys for GroupKeys<'a> {
    ghost use Rattle.sorted_group.specs.Readers.{ReadsTo, keys_of, reads_to_itself, reads_to_on};

    ghost list = { keys_of };

    ghost Origin = { View };

    ghost origin = { λ s. view s.made.value };

    ghost reads = { λ s. key_loads_since (known s.made.value) s.hand.now };

    ghost leads_to = { ReadsTo };

    ghost leads_to_itself = { reads_to_itself };

    ghost leads_on = { reads_to_on };

    #[inline]
    fn len(&self) -> usize {
        self.len
    }

    #[inline]
    fn key(&mut self, i: usize) -> u64 {
        let place = self.board.array_place(self.group, i as u32);
        self.board.load_key(self.hand, place)
    }
}
