//! When nothing is left of the rebuilds of a part. Each function is a law and does nothing.
ghost use Rattle.machine_keeper.specs.Clearing.{ClearedPartsStay};
ghost use Rattle.machine_keeper.specs.Clearing.{GroupsOfClearedPartsAreNeededByNone};
ghost use Rattle.machine_keeper.specs.Clearing.{PartsAreClearedAtFirst, RebuildsClearParts};

/// Nothing is left of the rebuilds of a part until its keeper opens a group.
pub fn cleared_parts_stay()
    ensures { ClearedPartsStay }
{}

/// Before its keeper opens a group nothing is left of a rebuild of the part.
pub fn parts_are_cleared_at_first()
    ensures { PartsAreClearedAtFirst }
{}

/// A rebuild that is installed leaves its own old groups alone, and nothing once these are gone.
pub fn rebuilds_clear_parts()
    ensures { RebuildsClearParts }
{}

/// In a cleared part no rebuild is under way, and none needs a group.
pub fn groups_of_cleared_parts_are_needed_by_none()
    ensures { GroupsOfClearedPartsAreNeededByNone }
{}
