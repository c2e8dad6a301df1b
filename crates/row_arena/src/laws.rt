//! What holds after every valid execution. Each function is a law and does nothing.
ghost use Rattle.row_arena.specs.Fullness.{UsedUpRowsStaySo, NoFreeRowMeansUsedUp};

/// Where the head is 0 and some caller holds no row, the history has at least
/// `records + 1 - callers` inserting changes.
pub fn no_free_row_means_used_up()
    ensures { NoFreeRowMeansUsedUp }
{}

/// Inserting changes are never undone, so the history goes on to have as many.
pub fn used_up_rows_stay_so()
    ensures { UsedUpRowsStaySo }
{}
