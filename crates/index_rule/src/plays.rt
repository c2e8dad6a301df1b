//! What each kind of step tells its hand: the event that it added, by the name of the word at its
//! address.
ghost use Rattle.std.specs.Prelude.{◌==◌, cond};
ghost use Rattle.index_machine.specs.declared.events.Action.TheVariants.{Enter, Leave, LoadFree};
ghost use Rattle.index_machine.specs.declared.events.Action.TheVariants.{PopFree, FailPop};
ghost use Rattle.index_machine.specs.declared.events.Action.TheVariants.{PushFree, FailPush};
ghost use Rattle.index_rule.specs.Rule.{Does, word_in};
ghost use Rattle.index_rule.specs.Steps.{epoch_load, link_load, private_store};
ghost use Rattle.index_rule.specs.Steps.{root_load, slot_group_load, state_load, value_load};
ghost use Rattle.index_rule.specs.Steps.{lock_made, lock_failed, value_store, unlock_store};
ghost use Rattle.index_rule.specs.Steps.{key_load, head_load, header_load, phase_load, row_link_load};
ghost use Rattle.index_rule.specs.Steps.{link_made, link_failed, next_load, slot_pivot_load};

use crate::looks::Sight;
use crate::view::View;
use atomic_table::{Join, Play, Split};
use std::marker::PhantomData;

pub struct LoadsEpoch;

impl Play<(), View> for LoadsEpoch {
    ghost then = { λ st me n w. Does me (epoch_load (word_in me.0 st.word) n) w };
}

pub struct StoresEnter;

impl Play<(), View> for StoresEnter {
    ghost then = { λ st me n w. Does me (Enter n) w };
}

pub struct StoresLeave;

impl Play<(), View> for StoresLeave {
    ghost then = { λ st me n w. Does me (Leave n) w };
}

pub struct LoadsFree;

impl Play<(), View> for LoadsFree {
    ghost then = { λ st me n w. Does me (LoadFree n) w };
}

pub struct LoadsFreeLink;

impl Play<(), View> for LoadsFreeLink {
    ghost then = { λ st me n w. Does me (link_load (word_in me.0 st.word) n) w };
}

pub struct PopsFree;

impl Play<(), View> for PopsFree {
    ghost then = { λ st me n w.
        Does me (cond (n == st.first) (PopFree st.first st.second) (FailPop st.first n)) w };
}

pub struct StoresPrivate;

impl Play<(), View> for StoresPrivate {
    ghost then = { λ st me n w. Does me (private_store (word_in me.0 st.word) n) w };
}

pub struct PushesFree;

impl Play<(), View> for PushesFree {
    ghost then = { λ st me n w.
        Does me (cond (n == st.first) (PushFree st.second st.first)
        (FailPush st.second st.first n)) w };
}

pub struct LoadsRoot;

impl Play<(), View> for LoadsRoot {
    ghost then = { λ st me n w. Does me (root_load (word_in me.0 st.word) n) w };
}

pub struct LoadsSlotGroup;

impl Play<(), View> for LoadsSlotGroup {
    ghost then = { λ st me n w. Does me (slot_group_load (word_in me.0 st.word) n) w };
}

pub struct LoadsState;

impl Play<(), View> for LoadsState {
    ghost then = { λ st me n w. Does me (state_load (word_in me.0 st.word) n) w };
}

pub struct LoadsValue;

impl Play<(), View> for LoadsValue {
    ghost then = { λ st me n w. Does me (value_load (word_in me.0 st.word) n) w };
}

pub struct Locks;

impl Play<(), View> for Locks {
    ghost then = { λ st me n w.
        Does me (cond (n == st.first) (lock_made (word_in me.0 st.word) st.first)
        (lock_failed (word_in me.0 st.word) st.first n)) w };
}

pub struct StoresValue;

impl Play<(), View> for StoresValue {
    ghost then = { λ st me n w. Does me (value_store (word_in me.0 st.word) n) w };
}

pub struct Unlocks;

impl Play<(), View> for Unlocks {
    ghost then = { λ st me n w. Does me (unlock_store me.0 (word_in me.0 st.word) n) w };
}

pub struct LoadsKey;

impl Play<(), View> for LoadsKey {
    ghost then = { λ st me n w. Does me (key_load (word_in me.0 st.word) n) w };
}

pub struct LoadsHead;

impl Play<(), View> for LoadsHead {
    ghost then = { λ st me n w. Does me (head_load (word_in me.0 st.word) n) w };
}

pub struct LoadsRowLink;

impl Play<(), View> for LoadsRowLink {
    ghost then = { λ st me n w. Does me (row_link_load me.0 (word_in me.0 st.word) n) w };
}

pub struct LoadsHeader;

impl Play<(), View> for LoadsHeader {
    ghost then = { λ st me n w. Does me (header_load (word_in me.0 st.word) n) w };
}

pub struct LoadsNext;

impl Play<(), View> for LoadsNext {
    ghost then = { λ st me n w. Does me (next_load (word_in me.0 st.word) n) w };
}

pub struct LoadsSlotPivot;

impl Play<(), View> for LoadsSlotPivot {
    ghost then = { λ st me n w. Does me (slot_pivot_load (word_in me.0 st.word) n) w };
}

pub struct LoadsPhase;

impl Play<(), View> for LoadsPhase {
    ghost then = { λ st me n w. Does me (phase_load (word_in me.0 st.word) n) w };
}

pub struct LinksRow;

impl Play<(), View> for LinksRow {
    ghost then = { λ st me n w.
        Does me (cond (n == st.first) (link_made me.0 (word_in me.0 st.word) st.first st.second)
        (link_failed me.0 (word_in me.0 st.word) st.first n)) w };
}

pub struct WritesLook<L: Sight> {
    of: PhantomData<L>,
}

impl<L: Sight> Play<(), View> for WritesLook<L> {
    ghost use Rattle.index_rule.specs.Looks.{TellsLook};

    ghost then = { λ st me n w. TellsLook L.start L.key L.found me w };
}

pub struct SettlesHeard;

impl Play<(), View> for SettlesHeard {
    ghost use Rattle.index_rule.specs.Notes.{Settles};

    ghost then = { λ st me n w. Settles me w };
}

pub struct MakesHand;

impl Split<View> for MakesHand {
    ghost use Rattle.index_rule.specs.Seats.{others_left, one_hand};

    ghost left = { others_left };

    ghost right = { one_hand };
}

pub struct TellsNote;

impl Split<View> for TellsNote {
    ghost use Rattle.index_rule.specs.Seats.{told};

    ghost left = { λ v. v };

    ghost right = { told };
}

pub struct TakesIn;

impl Join<View> for TakesIn {
    ghost use Rattle.index_rule.specs.Seats.{joined, spent};

    ghost both = { joined };

    ghost spent = { spent };
}
