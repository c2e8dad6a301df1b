//! What holds after every valid execution. Each function is a law and does nothing.
ghost use Rattle.machine_keeper.specs.Keeper.{BarrierFreesSide};
ghost use Rattle.machine_keeper.specs.Keeper.{ClosedBuffersGainNoRow};
ghost use Rattle.machine_keeper.specs.Keeper.{FirstBarrierCloses};
ghost use Rattle.machine_keeper.specs.Keeper.{HeldRowsAreUnreached};
ghost use Rattle.machine_keeper.specs.Keeper.{InstallTakesOldGroupsOut};
ghost use Rattle.machine_keeper.specs.Keeper.{LivePlacesAreMerged};
ghost use Rattle.machine_keeper.specs.Keeper.{LocksStay};
ghost use Rattle.machine_keeper.specs.Keeper.{RedirectsArePending};
ghost use Rattle.machine_keeper.specs.Keeper.{SecondBarrierFrees};
ghost use Rattle.machine_keeper.specs.Keeper.{ThirdBarrierFrees};

/// A group that was frozen before the mark of the first barrier is closed to inserts at its end.
pub fn first_barrier_closes()
    ensures { FirstBarrierCloses }
{}

/// Old groups that were out of the chain and of the slots before the mark of the second barrier are
/// gone at its end.
pub fn second_barrier_frees()
    ensures { SecondBarrierFrees }
{}

/// An old place to which nothing led before the mark of the third barrier is reached by nobody at
/// its end.
pub fn third_barrier_frees()
    ensures { ThirdBarrierFrees }
{}

/// The side of a part's root that was not in use before a mark is empty at the end of the barrier.
pub fn barrier_frees_side()
    ensures { BarrierFreesSide }
{}

/// What others do leaves a locked place as it is.
pub fn locks_stay()
    ensures { LocksStay }
{}

/// The rows of a buffer are final once nobody may insert.
pub fn closed_buffers_gain_no_row()
    ensures { ClosedBuffersGainNoRow }
{}

/// A keeper knows every redirect that there is in its part.
pub fn redirects_are_pending()
    ensures { RedirectsArePending }
{}

/// Redirects to all old places that are not removed are redirects to all live places.
pub fn live_places_are_merged()
    ensures { LivePlacesAreMerged }
{}

/// From the install on the old groups are in no key range.
pub fn install_takes_old_groups_out()
    ensures { InstallTakesOldGroupsOut }
{}

/// A row that is given back is one that no caller relies on.
pub fn held_rows_are_unreached()
    ensures { HeldRowsAreUnreached }
{}
