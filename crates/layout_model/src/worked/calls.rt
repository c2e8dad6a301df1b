//! Replays of calls on one group, worked out by hand. Each function is a law and does nothing.

ghost use Rattle.layout_model.specs.WorkedCalls.{ArraysReviveNothing, CopiesRenewVersions, FrozenBeforeFull};
ghost use Rattle.layout_model.specs.WorkedCalls.{HeldCallersCall, RemovedRowsWear, RevivalsTakeNoRow};
ghost use Rattle.layout_model.specs.WorkedCalls.{RowsComeBack, VersionsEnd, WornArraysGetRows};

/// A caller that is held goes on calling, and a row that was removed is revived.
pub fn held_callers_call()
    ensures { HeldCallersCall }
{}

/// No row is free until a rebuild gives them back.
pub fn rows_come_back()
    ensures { RowsComeBack }
{}

/// A record of the last version can be read alone.
pub fn versions_end()
    ensures { VersionsEnd }
{}

/// Copying gives a record the first version again.
pub fn copies_renew_versions()
    ensures { CopiesRenewVersions }
{}

/// A removed row of the last version is worn for a put alone.
pub fn removed_rows_wear()
    ensures { RemovedRowsWear }
{}

/// A frozen group refuses a new key before it is seen that no row is free.
pub fn frozen_before_full()
    ensures { FrozenBeforeFull }
{}

/// The key of a removed record of an array gets a row beside it.
pub fn arrays_revive_nothing()
    ensures { ArraysReviveNothing }
{}

/// The versions of a key begin anew beside its removed record in an array.
pub fn worn_arrays_get_rows()
    ensures { WornArraysGetRows }
{}

/// A removed row is revived where no row is free.
pub fn revivals_take_no_row()
    ensures { RevivalsTakeNoRow }
{}
