//! What holds after every valid execution. Each function is a law and does nothing.
ghost use Rattle.machine_buffers.specs.Cuts.{CutsAreKeys, CutsStayOfTheGroup};
ghost use Rattle.machine_buffers.specs.Cuts.{GroupsHaveLanesForTheirKeys, NewCutsAreOfTheGroup};
ghost use Rattle.machine_buffers.specs.Cuts.{OpeningCutsAreOfTheGroup};
ghost use Rattle.machine_buffers.specs.Groups.{FrozenGroupsAnswer, NewGroupsAreOpen};
ghost use Rattle.machine_buffers.specs.Groups.{OpenedGroupsAreNotNew};
ghost use Rattle.machine_buffers.specs.Inserting.{ArraysWithoutValueStay, GapsAreAbsent};
ghost use Rattle.machine_buffers.specs.Inserting.{GapsBehindAreAbsent, MayLinkBehindOpened};
ghost use Rattle.machine_buffers.specs.Inserting.{MayLinkWhereSeenOpen};
ghost use Rattle.machine_buffers.specs.Inserting.{OpenedBuffersWithoutValueStay};
ghost use Rattle.machine_buffers.specs.Lanes.{LaneLinksDecide, LaneLinksLeadIntoTheLane};
ghost use Rattle.machine_buffers.specs.Lanes.{LaneLinksRise, LeftLaneLinksDoNotComeBack};
ghost use Rattle.machine_buffers.specs.Lanes.{LinkedRowsTakeTheirPlace, OtherLanesStayLinked};
ghost use Rattle.machine_buffers.specs.Phases.{InsertPermissionsLast, OpenedPhasesStay};
ghost use Rattle.machine_buffers.specs.Phases.{PhasesBeforeAreTrue};
ghost use Rattle.machine_buffers.specs.Phases.{PhasesOfKeysAreTrue};
ghost use Rattle.machine_buffers.specs.Phases.{TruePhasesStay};
ghost use Rattle.machine_buffers.specs.Reclaiming.{LaneWordsStay, LinksLeadAsBefore};
ghost use Rattle.machine_buffers.specs.Reclaiming.{NoneIsLinkedOutOfUse, RowsStandUntilRetired};
ghost use Rattle.machine_buffers.specs.Reclaiming.{WalkableBuffersHaveLaneWords};
ghost use Rattle.machine_buffers.specs.Reclaiming.{WholeLanesStayLinked};
ghost use Rattle.machine_buffers.specs.Walks.{BuffersAreWalkableOrOutOfUse, CutsRise};
ghost use Rattle.machine_buffers.specs.Walks.{LanesAreInOrder, LanesHaveNoGaps};
ghost use Rattle.machine_buffers.specs.Walks.{LinkedRowsHaveLanes};
ghost use Rattle.machine_buffers.specs.Walks.{KeysOfGroupsHaveLanes, LanesAreApart};
ghost use Rattle.machine_buffers.specs.Walks.{LanesStay, LanesStayUntilBegun, RowsHaveLanes};
ghost use Rattle.machine_buffers.specs.Walks.{BuffersBeforeAreWalkable, BuffersOfKeysAreWalkable};
ghost use Rattle.machine_buffers.specs.Walks.{KeysOfRowsRise};
ghost use Rattle.machine_buffers.specs.Walks.{LeftLinksDoNotComeBack, LinkedRowsStay};
ghost use Rattle.machine_buffers.specs.Walks.{LinksBeforeAKeyDecide};
ghost use Rattle.machine_buffers.specs.Walks.{LinksBeforeAKeyStay, LinksLeadIntoTheBuffer};
ghost use Rattle.machine_buffers.specs.Walks.{LinksLeadToTheNextRow, LinksRise};
ghost use Rattle.machine_buffers.specs.Walks.{LinkedRowsStayUntilBegun, OldBuffersAreWalkable};
ghost use Rattle.machine_buffers.specs.Walks.{RowsHaveKeysOfTheirGroup, RowsOfTheChainAreInRange};
ghost use Rattle.machine_buffers.specs.Walks.{WalkableBuffersAreLinked, WalkableBuffersStay};
ghost use Rattle.machine_buffers.specs.Walks.{WholeBuffersStayWalkable};

/// A row that is linked into any linked lane, behind smaller keys and ahead of greater ones, takes its
/// place there.
pub fn linked_rows_take_their_place()
    ensures { LinkedRowsTakeTheirPlace }
{}

/// A lane into which none is linked stays linked, whatever is linked into other lanes.
pub fn other_lanes_stay_linked()
    ensures { OtherLanesStayLinked }
{}

/// A link of a lane leads to a row of it, or to none.
pub fn lane_links_lead_into_the_lane()
    ensures { LaneLinksLeadIntoTheLane }
{}

/// A link of any linked lane decides of a key that it stands before, unless it leads to a smaller one.
pub fn lane_links_decide()
    ensures { LaneLinksDecide }
{}

/// The row behind another one of a lane has a greater key.
pub fn lane_links_rise()
    ensures { LaneLinksRise }
{}

/// Where a link of a lane leads as it did before, it led there all the time.
pub fn left_lane_links_do_not_come_back()
    ensures { LeftLaneLinksDoNotComeBack }
{}

/// The cuts of a buffer's lanes rise, and it has at most eight lanes.
pub fn cuts_rise()
    ensures { CutsRise }
{}

/// A key of a later lane is greater.
pub fn lanes_are_in_order()
    ensures { LanesAreInOrder }
{}

/// No key is in two lanes of one buffer.
pub fn lanes_are_apart()
    ensures { LanesAreApart }
{}

/// A key between two keys of a lane is in the lane.
pub fn lanes_have_no_gaps()
    ensures { LanesHaveNoGaps }
{}

/// Each key of a group is in one of the lanes of its buffer.
pub fn keys_of_groups_have_lanes()
    ensures { KeysOfGroupsHaveLanes }
{}

/// The key of each row is in a lane of its buffer.
pub fn rows_have_lanes()
    ensures { RowsHaveLanes }
{}

/// So is that of each row that was linked, also where it was taken out again.
pub fn linked_rows_have_lanes()
    ensures { LinkedRowsHaveLanes }
{}

/// A group with a key has one to eight lanes, the first of which begins at its least key or below.
pub fn groups_have_lanes_for_their_keys()
    ensures { GroupsHaveLanesForTheirKeys }
{}

/// Each cut is a key.
pub fn cuts_are_keys()
    ensures { CutsAreKeys }
{}

/// The cuts of a group that was just begun are keys of its range.
pub fn new_cuts_are_of_the_group()
    ensures { NewCutsAreOfTheGroup }
{}

/// The cuts of the opening are keys of their group.
pub fn opening_cuts_are_of_the_group()
    ensures { OpeningCutsAreOfTheGroup }
{}

/// Cuts stay keys of their group until this is out of use, unless another group is begun over one.
pub fn cuts_stay_of_the_group()
    ensures { CutsStayOfTheGroup }
{}

/// The lanes of a buffer stay as they are until its group is begun anew.
pub fn lanes_stay_until_begun()
    ensures { LanesStayUntilBegun }
{}

/// So they do while a caller stands in the group.
pub fn lanes_stay()
    ensures { LanesStay }
{}

/// The link of a row leads to the row with the next key among those linked into its lane.
pub fn links_lead_to_the_next_row()
    ensures { LinksLeadToTheNextRow }
{}

/// The keys of a buffer's rows rise.
pub fn keys_of_rows_rise()
    ensures { KeysOfRowsRise }
{}

/// Each row is of a key of its group, unless the group is out of use.
pub fn rows_have_keys_of_their_group()
    ensures { RowsHaveKeysOfTheirGroup }
{}

/// In a group of the chain each row is of a key in the group's key range.
pub fn rows_of_the_chain_are_in_range()
    ensures { RowsOfTheChainAreInRange }
{}

/// Rows are only added to a buffer, until its group is begun anew.
pub fn linked_rows_stay_until_begun()
    ensures { LinkedRowsStayUntilBegun }
{}

/// So they are where a caller stands.
pub fn linked_rows_stay()
    ensures { LinkedRowsStay }
{}

/// Each buffer is walkable, or its group is out of use.
pub fn buffers_are_walkable_or_out_of_use()
    ensures { BuffersAreWalkableOrOutOfUse }
{}

/// A walk meets the rows of a group that answers for a key, or that is a key's new group: the head of
/// each lane leads to its first row, and all rows that were linked stand there.
pub fn buffers_of_keys_are_walkable()
    ensures { BuffersOfKeysAreWalkable }
{}

/// So it does in the group that had a key before, while a caller stands in it.
pub fn buffers_before_are_walkable()
    ensures { BuffersBeforeAreWalkable }
{}

/// So it does in an old group for the keeper, until all old groups of its rebuild are gone.
pub fn old_buffers_are_walkable()
    ensures { OldBuffersAreWalkable }
{}

/// A buffer stays walkable, whoever stands there, until a row is taken out of it or a word of
/// its lanes is refilled.
pub fn whole_buffers_stay_walkable()
    ensures { WholeBuffersStayWalkable }
{}

/// In each lane of a walkable buffer the rows are linked from its head.
pub fn walkable_buffers_are_linked()
    ensures { WalkableBuffersAreLinked }
{}

/// A buffer is not taken apart, nor its lanes refilled, while a caller stands in the group.
pub fn walkable_buffers_stay()
    ensures { WalkableBuffersStay }
{}

/// A link of a lane leads to a row of the lane, or to none.
pub fn links_lead_into_the_buffer()
    ensures { LinksLeadIntoTheBuffer }
{}

/// A link before a key decides of it at its load, unless it leads to a smaller key.
pub fn links_before_a_key_decide()
    ensures { LinksBeforeAKeyDecide }
{}

/// The row behind another one has a greater key.
pub fn links_rise()
    ensures { LinksRise }
{}

/// Where a link leads as it did before, it led there all the time.
pub fn left_links_do_not_come_back()
    ensures { LeftLinksDoNotComeBack }
{}

/// A walk may go on from a link before the key, whatever others link meanwhile.
pub fn links_before_a_key_stay()
    ensures { LinksBeforeAKeyStay }
{}

/// The header of a walkable buffer has its lanes' words.
pub fn walkable_buffers_have_lane_words()
    ensures { WalkableBuffersHaveLaneWords }
{}

/// The words of lanes lead to what was linked until one is refilled, whatever is taken out.
pub fn lane_words_stay()
    ensures { LaneWordsStay }
{}

/// A lane stays linked until a row of it is taken out, its head refilled, or its group begun anew.
pub fn whole_lanes_stay_linked()
    ensures { WholeLanesStayLinked }
{}

/// A row stands in its buffer until it is taken out itself.
pub fn rows_stand_until_retired()
    ensures { RowsStandUntilRetired }
{}

/// No row is linked into the buffer of a group that is out of use.
pub fn none_is_linked_out_of_use()
    ensures { NoneIsLinkedOutOfUse }
{}

/// While the rows of a group that is out of use are taken out, each head leads to the first row that
/// its lane had, and each row that still stands there to the one that was next.
pub fn links_lead_as_before()
    ensures { LinksLeadAsBefore }
{}

/// A frozen group answers for a key.
pub fn frozen_groups_answer()
    ensures { FrozenGroupsAnswer }
{}

/// A new group that is not in the chain yet is open.
pub fn new_groups_are_open()
    ensures { NewGroupsAreOpen }
{}

/// An opened group is no key's new one.
pub fn opened_groups_are_not_new()
    ensures { OpenedGroupsAreNotNew }
{}

/// The phase word of a group that answers for a key, or that is a key's new group, is not stale.
pub fn phases_of_keys_are_true()
    ensures { PhasesOfKeysAreTrue }
{}

/// Nor is that of the group that had a key before, while a caller stands in it.
pub fn phases_before_are_true()
    ensures { PhasesBeforeAreTrue }
{}

/// A phase word does not become stale while a caller stands in the group.
pub fn true_phases_stay()
    ensures { TruePhasesStay }
{}

/// An opened group stays so while a caller stands there.
pub fn opened_phases_stay()
    ensures { OpenedPhasesStay }
{}

/// An insert permission lasts as long as the read section in which a caller has it.
pub fn insert_permissions_last()
    ensures { InsertPermissionsLast }
{}

/// A key without a value in the final array of a group has none there while a caller stands in it.
pub fn arrays_without_value_stay()
    ensures { ArraysWithoutValueStay }
{}

/// Nor has one that has none in the buffer of an opened group.
pub fn opened_buffers_without_value_stay()
    ensures { OpenedBuffersWithoutValueStay }
{}

/// A caller that saw its group open may link a row for a key that has no value in the array, whenever
/// the key has no row.
pub fn may_link_where_seen_open()
    ensures { MayLinkWhereSeenOpen }
{}

/// A caller that saw its group opened may link a row for a key that has no value there into the
/// buffer of the new group, whenever the key has no row in this.
pub fn may_link_behind_opened()
    ensures { MayLinkBehindOpened }
{}

/// A key that has no value in the array of its group, and no row at a later moment of the read section, is
/// not in the map then, unless the group was opened.
pub fn gaps_are_absent()
    ensures { GapsAreAbsent }
{}

/// Nor is one that has no value in an opened group, and no row in the buffer of the new one.
pub fn gaps_behind_are_absent()
    ensures { GapsBehindAreAbsent }
{}
