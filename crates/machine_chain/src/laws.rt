//! What holds after every valid execution. Each function is a law and does nothing.
ghost use Rattle.machine_chain.specs.Chain.{EachKeyHasAGroup, GroupsAreChained};
ghost use Rattle.machine_chain.specs.Chain.{OldGroupsAreChained, OldGroupsAreUnchained};
ghost use Rattle.machine_chain.specs.Chain.{PivotsOfTheChainAreLeast, RebuildsUnderWayHold};
ghost use Rattle.machine_chain.specs.Keepers.{InstallsEndRebuilds, KeepersAloneChangeStructure};
ghost use Rattle.machine_chain.specs.Keepers.{LastKeysHaveNextWords, NextWordsOfTheChain};
ghost use Rattle.machine_chain.specs.Keepers.{NoRebuildIsUnderWayAtFirst, PivotsOfTheChainRise};
ghost use Rattle.machine_chain.specs.Keepers.{TheChainBeginsAtTheFirstSlot};
ghost use Rattle.machine_chain.specs.Laws.{AnswersStay, AnswersWhileUnopened};
ghost use Rattle.machine_chain.specs.Laws.{BuffersWhereCallersStand, CallersStandInGroupsOfKeys};
ghost use Rattle.machine_chain.specs.Laws.{GroupsLeadOn, NewAnswersAreBehind, NewGroupsLeadOn};
ghost use Rattle.machine_chain.specs.Laws.{NewWalksBegin, NewWalksEnd, NewWalksGoOn, NewWalksStay};
ghost use Rattle.machine_chain.specs.Laws.{NextPivotsAreGreater, NextWordsAreReachable};
ghost use Rattle.machine_chain.specs.Laws.{PhasesWhereCallersStand, PivotsAreLeastKeys, PivotsStay};
ghost use Rattle.machine_chain.specs.Laws.{SlotGroupsAreTrue, SlotsAreAtOrBehindTheirGroups};
ghost use Rattle.machine_chain.specs.Laws.{SlotsLeadToGroups, SlotsSeenStay};
ghost use Rattle.machine_chain.specs.Laws.{WalksBegin, WalksEnd, WalksGoOn};
ghost use Rattle.machine_chain.specs.WholeWalks.{WalksEndAtTheGroupOfTheKey, WalksStayBehindTheKey};

/// The groups of the chain lead from key range to key range, by their next words and pivots.
pub fn groups_are_chained()
    ensures { GroupsAreChained }
{}

/// The pivot of a group of the chain is the least of its keys, which lie side by side.
pub fn pivots_of_the_chain_are_least()
    ensures { PivotsOfTheChainAreLeast }
{}

/// Keys have groups of the table, and what is no key has none.
pub fn each_key_has_a_group()
    ensures { EachKeyHasAGroup }
{}

/// A rebuild under way has all its new groups, chained, and no other is under way.
pub fn rebuilds_under_way_hold()
    ensures { RebuildsUnderWayHold }
{}

/// The old groups of a rebuild lead as before the install, until all of them are gone.
pub fn old_groups_are_chained()
    ensures { OldGroupsAreChained }
{}

/// A group that had a key before answers for none.
pub fn old_groups_are_unchained()
    ensures { OldGroupsAreUnchained }
{}

/// The slots that can be loaded lead to groups of keys at or before their pivots, which rise.
pub fn slots_lead_to_groups()
    ensures { SlotsLeadToGroups }
{}

/// The group of such a slot has its pivot at or before the slot's.
pub fn slots_are_at_or_behind_their_groups()
    ensures { SlotsAreAtOrBehindTheirGroups }
{}

/// A hand that may read a slot may load its group, whatever it finds.
pub fn slot_groups_are_true()
    ensures { SlotGroupsAreTrue }
{}

/// A caller that loads no root again sees the same slots, which keep their pivots.
pub fn slots_seen_stay()
    ensures { SlotsSeenStay }
{}

/// A caller stands in groups that answer for a key, or did, and in awaited new ones.
pub fn callers_stand_in_groups_of_keys()
    ensures { CallersStandInGroupsOfKeys }
{}

/// A hand that may walk a group may load its next word, whatever it finds.
pub fn next_words_are_reachable()
    ensures { NextWordsAreReachable }
{}

/// A caller that may walk a group may load its phase word, which is true.
pub fn phases_where_callers_stand()
    ensures { PhasesWhereCallersStand }
{}

/// Where a caller stands the buffer is walkable.
pub fn buffers_where_callers_stand()
    ensures { BuffersWhereCallersStand }
{}

/// Where a caller stands in a group that answers, or did, the next word says where its keys end.
pub fn groups_lead_on()
    ensures { GroupsLeadOn }
{}

/// The pivot of such a group is the least of its keys.
pub fn pivots_are_least_keys()
    ensures { PivotsAreLeastKeys }
{}

/// The group behind it has a greater pivot.
pub fn next_pivots_are_greater()
    ensures { NextPivotsAreGreater }
{}

/// Such a group stays one while the caller stands there.
pub fn answers_stay()
    ensures { AnswersStay }
{}

/// A group keeps its pivot while a caller stands there.
pub fn pivots_stay()
    ensures { PivotsStay }
{}

/// One that is not opened at a later moment of the read section answered at this one.
pub fn answers_while_unopened()
    ensures { AnswersWhileUnopened }
{}

/// A walk begins at the group of a slot whose pivot is at most the key.
pub fn walks_begin()
    ensures { WalksBegin }
{}

/// It goes on where the next pivot is at most the key, and else has come to the group of the key.
pub fn walks_go_on()
    ensures { WalksGoOn }
{}

/// A walk has come to the group of the key where there is no next group.
pub fn walks_end()
    ensures { WalksEnd }
{}

/// On its way a caller stands in groups that begin at its key or before.
pub fn walks_stay_behind_the_key()
    ensures { WalksStayBehindTheKey }
{}

/// A whole walk ends at the group that answers for the key, or did before its last install.
pub fn walks_end_at_the_group_of_the_key()
    ensures { WalksEndAtTheGroupOfTheKey }
{}

/// The next word of a new group says where the keys end for which it is awaited.
pub fn new_groups_lead_on()
    ensures { NewGroupsLeadOn }
{}

/// A caller of an opened group begins a walk at the first new group.
pub fn new_walks_begin()
    ensures { NewWalksBegin }
{}

/// It goes on where the next pivot is at most the key, and else has come to the key's new group.
pub fn new_walks_go_on()
    ensures { NewWalksGoOn }
{}

/// Such a walk has come to the key's new group where there is no next group.
pub fn new_walks_end()
    ensures { NewWalksEnd }
{}

/// That the new group begins before the key, or is the key's, stays while the caller stands in the
/// old group, through the install.
pub fn new_walks_stay()
    ensures { NewWalksStay }
{}

/// A caller that came to the key's new group is behind it, and this rebuild made it.
pub fn new_answers_are_behind()
    ensures { NewAnswersAreBehind }
{}

/// The keeper alone changes key ranges, phases, the root, the words that lead through them, the lanes with
/// which groups are begun, and the words of headers, but for the heads of groups that have keys.
pub fn keepers_alone_change_structure()
    ensures { KeepersAloneChangeStructure }
{}

/// The next word of a group of the chain names the group of the key after its range.
pub fn next_words_of_the_chain()
    ensures { NextWordsOfTheChain }
{}

/// Along next words the pivots of the chain rise.
pub fn pivots_of_the_chain_rise()
    ensures { PivotsOfTheChainRise }
{}

/// At the last key of a group its next word is that of a group whose keys end there.
pub fn last_keys_have_next_words()
    ensures { LastKeysHaveNextWords }
{}

/// The chain begins at the group of the first slot in use.
pub fn the_chain_begins_at_the_first_slot()
    ensures { TheChainBeginsAtTheFirstSlot }
{}

/// From an install on no rebuild is under way, until a group is opened.
pub fn installs_end_rebuilds()
    ensures { InstallsEndRebuilds }
{}

/// From the opening of the table on none is, until a group is opened.
pub fn no_rebuild_is_under_way_at_first()
    ensures { NoRebuildIsUnderWayAtFirst }
{}
