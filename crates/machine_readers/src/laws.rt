//! What holds after every valid execution. Each function is a law and does nothing.
ghost use Rattle.machine_readers.specs.Readers.{ArrayTombstonesStay};
ghost use Rattle.machine_readers.specs.Readers.{BufferTombstonesStay};
ghost use Rattle.machine_readers.specs.Readers.{CallersStayBehind};
ghost use Rattle.machine_readers.specs.Readers.{EqualVersionsEncloseTheValue};
ghost use Rattle.machine_readers.specs.Readers.{GapsHaveNoRow};
ghost use Rattle.machine_readers.specs.Readers.{GroupsHaveOnePlaceEach};
ghost use Rattle.machine_readers.specs.Readers.{InstalledRedirectsLeadBack};
ghost use Rattle.machine_readers.specs.Readers.{LateCallersAreBehind};
ghost use Rattle.machine_readers.specs.Readers.{MayInsertBehindOpened};
ghost use Rattle.machine_readers.specs.Readers.{MayInsertWhereSeenOpen};
ghost use Rattle.machine_readers.specs.Readers.{NewRedirectsLeadIntoTheGroup};
ghost use Rattle.machine_readers.specs.Readers.{NotFoundBehindIsAbsent};
ghost use Rattle.machine_readers.specs.Readers.{NotFoundIsAbsent};
ghost use Rattle.machine_readers.specs.Readers.{PlacesStayWhereCallersStand};
ghost use Rattle.machine_readers.specs.Readers.{PlacesWithoutValueStay};
ghost use Rattle.machine_readers.specs.Readers.{ReachedPlacesHaveKeys};
ghost use Rattle.machine_readers.specs.Readers.{ReachedPlacesStay};
ghost use Rattle.machine_readers.specs.Readers.{ReadValueIsInMap};
ghost use Rattle.machine_readers.specs.Readers.{RedirectsLeadToOldPlaces};
ghost use Rattle.machine_readers.specs.Readers.{VersionsCountChanges};
ghost use Rattle.machine_readers.specs.Targets.{CallersMeetRecords, GroupsHoldRecords};
ghost use Rattle.machine_readers.specs.Targets.{PlacesOfKeysAreNotBlank};
ghost use Rattle.machine_readers.specs.Targets.{ReachedPlacesDoNotForward};
ghost use Rattle.machine_readers.specs.Targets.{RedirectTargetsAreDirect, RowsDoNotForward};

/// A value that is read at a place of a key is the value of the key in the map.
pub fn read_value_is_in_map()
    ensures { ReadValueIsInMap }
{}

/// Between two loads of one unlocked version nothing changed at the place.
pub fn equal_versions_enclose_the_value()
    ensures { EqualVersionsEncloseTheValue }
{}

/// A key without a value in the places of its group, which is not opened, is not in the map.
pub fn not_found_is_absent()
    ensures { NotFoundIsAbsent }
{}

/// A key without a value in the places of an opened group and in the buffer of its new group is not
/// in the map.
pub fn not_found_behind_is_absent()
    ensures { NotFoundBehindIsAbsent }
{}

/// What is new leads back into the old group where a caller stands, as long as it stands there.
pub fn callers_stay_behind()
    ensures { CallersStayBehind }
{}

/// A caller that comes to an old group after the install finds that what is new leads back into it.
pub fn late_callers_are_behind()
    ensures { LateCallersAreBehind }
{}

/// A caller that saw its group open may insert a key that has no value there.
pub fn may_insert_where_seen_open()
    ensures { MayInsertWhereSeenOpen }
{}

/// A caller that saw its group opened may insert a key that has no value there into the buffer of
/// the new group.
pub fn may_insert_behind_opened()
    ensures { MayInsertBehindOpened }
{}

/// A gap among the rows linked into a buffer is no row of the key.
pub fn gaps_have_no_row()
    ensures { GapsHaveNoRow }
{}

/// A tombstone of an array is never revived.
pub fn array_tombstones_stay()
    ensures { ArrayTombstonesStay }
{}

/// A tombstone of a buffer is not revived where nobody may insert.
pub fn buffer_tombstones_stay()
    ensures { BufferTombstonesStay }
{}

/// An array place without a value has none after its record is copied.
pub fn places_without_value_stay()
    ensures { PlacesWithoutValueStay }
{}

/// A group has one array place and one row for a key at most.
pub fn groups_have_one_place_each()
    ensures { GroupsHaveOnePlaceEach }
{}

/// No free row and no row in a hand is one that a caller reached.
pub fn reached_places_have_keys()
    ensures { ReachedPlacesHaveKeys }
{}

/// A place is not given to another record while a caller that reached it is inside.
pub fn reached_places_stay()
    ensures { ReachedPlacesStay }
{}

/// A redirect leads to a place of its key in an opened group.
pub fn redirects_lead_to_old_places()
    ensures { RedirectsLeadToOldPlaces }
{}

/// Before the install new places forward into the group of their key.
pub fn new_redirects_lead_into_the_group()
    ensures { NewRedirectsLeadIntoTheGroup }
{}

/// After the install new places forward into the group that had the key, until this is replaced.
pub fn installed_redirects_lead_back()
    ensures { InstalledRedirectsLeadBack }
{}

/// A place of a group where a caller stands, of its array or of its buffer, keeps its role while
/// the read section lasts.
pub fn places_stay_where_callers_stand()
    ensures { PlacesStayWhereCallersStand }
{}

/// The version of a place is raised once at most for each change of its key, and not past the last.
///
/// So whoever finds the last version knows that the key has that many changes.
pub fn versions_count_changes()
    ensures { VersionsCountChanges }
{}

/// A redirect leads to the record itself, unlocked or locked.
pub fn redirect_targets_are_direct()
    ensures { RedirectTargetsAreDirect }
{}

/// A place that a caller reached, behind a redirect or by a link, is no redirect itself.
pub fn reached_places_do_not_forward()
    ensures { ReachedPlacesDoNotForward }
{}

/// What a key has in its group, and in the new one of an opened group, is the record itself or
/// forwards to it: nothing of the key was copied away.
pub fn groups_hold_records()
    ensures { GroupsHoldRecords }
{}

/// Nor does a caller meet what was copied away, in a group of the key where it stands or in the one
/// before, to the end of its read section.
pub fn callers_meet_records()
    ensures { CallersMeetRecords }
{}

/// A place of a key is not blank, whichever group it is of.
pub fn places_of_keys_are_not_blank()
    ensures { PlacesOfKeysAreNotBlank }
{}

/// A row does not forward, whichever buffer it is of.
pub fn rows_do_not_forward()
    ensures { RowsDoNotForward }
{}
