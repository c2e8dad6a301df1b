//! What a keeper may do, it may still do once other hands have stepped. Each function is a law and does
//! nothing.
ghost use Rattle.machine_keeper.specs.Staying.{CanBeginStays, CanTryToCloseStays};
ghost use Rattle.machine_keeper.specs.Staying.{LivePlacesOfMergedKeys, MayCopyStays};
ghost use Rattle.machine_keeper.specs.Staying.{MayDirectStays, MayFillArrayStays};
ghost use Rattle.machine_keeper.specs.Staying.{MayFillHeaderStays, MayFreezeStays};
ghost use Rattle.machine_keeper.specs.Staying.{MayInstallStays, MayMoveStays, MayOpenStays};
ghost use Rattle.machine_keeper.specs.Staying.{MayRedirectStays, MayRetireStays};
ghost use Rattle.machine_keeper.specs.Staying.{MayStoreRootStays, MayStoreSlotStays};
ghost use Rattle.machine_keeper.specs.Staying.{MayStoreUnusedStays, MayThawStays};
ghost use Rattle.machine_keeper.specs.Staying.{MergedKeysStay, TriesToCloseEnd};

/// An open group of the chain stays open until its keeper freezes it.
pub fn may_freeze_stays()
    ensures { MayFreezeStays }
{}

/// A frozen group stays frozen until its keeper opens it.
pub fn may_thaw_stays()
    ensures { MayThawStays }
{}

/// A group row that is free stays free until its keeper begins a group there.
pub fn may_fill_header_stays()
    ensures { MayFillHeaderStays }
{}

/// What is to be begun in a free group row can be begun later.
pub fn can_begin_stays()
    ensures { CanBeginStays }
{}

/// An array place that is nobody's stays so until the keeper writes a redirect there.
pub fn may_fill_array_stays()
    ensures { MayFillArrayStays }
{}

/// The old place of a key, and the array place for it, stay so until the keeper writes the redirect.
pub fn may_redirect_stays()
    ensures { MayRedirectStays }
{}

/// A frozen group stays closed to inserts, and what it is opened to stays as it is.
pub fn may_open_stays()
    ensures { MayOpenStays }
{}

/// A key whose old places its keeper has merged stays merged.
pub fn merged_keys_stay()
    ensures { MergedKeysStay }
{}

/// Where a key is merged, its live place has its redirect.
pub fn live_places_of_merged_keys()
    ensures { LivePlacesOfMergedKeys }
{}

/// What is to be installed stays as it is, and each live place in what goes has its redirect.
pub fn may_install_stays()
    ensures { MayInstallStays }
{}

/// An old place stays one that its keeper can try to lock.
pub fn can_try_to_close_stays()
    ensures { CanTryToCloseStays }
{}

/// A try to lock an old place locks it, or finds another state word.
pub fn tries_to_close_end()
    ensures { TriesToCloseEnd }
{}

/// A new place forwards to the old one that its keeper locked, until the keeper stores its state.
pub fn may_copy_stays()
    ensures { MayCopyStays }
{}

/// A new place and the locked old one go on to have one value.
pub fn may_direct_stays()
    ensures { MayDirectStays }
{}

/// A place whose record was copied away stays so until its keeper marks it as moved.
pub fn may_move_stays()
    ensures { MayMoveStays }
{}

/// A row of an old buffer to which nothing leads stays so until its keeper takes it out.
pub fn may_retire_stays()
    ensures { MayRetireStays }
{}

/// A slot in use, and the group that is to stand there, stay so.
pub fn may_store_slot_stays()
    ensures { MayStoreSlotStays }
{}

/// Nobody comes to stand on the side that is not in use.
pub fn may_store_unused_stays()
    ensures { MayStoreUnusedStays }
{}

/// A side that is ready to be used stays ready.
pub fn may_store_root_stays()
    ensures { MayStoreRootStays }
{}
