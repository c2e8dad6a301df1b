//! How long a tombstone may be revived. The function is a law and does nothing.
ghost use Rattle.record_cell.specs.Reviving.{WhatMayBeRevivedStaysSo};

/// The row that a caller may revive it may revive to the end of its read section.
pub fn what_may_be_revived_stays_so()
    ensures { WhatMayBeRevivedStaysSo }
{}
