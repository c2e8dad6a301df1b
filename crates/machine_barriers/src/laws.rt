//! What holds after every valid execution. Each function is a law and does nothing.
ghost use Rattle.machine_barriers.specs.Barriers.{BarrierEndsUnusedSide, FirstBarrierEndsInserts};
ghost use Rattle.machine_barriers.specs.Barriers.{CallersOutsideRelyOnNothing};
ghost use Rattle.machine_barriers.specs.Barriers.{OpenedGroupsAreClosed};
ghost use Rattle.machine_barriers.specs.Barriers.{SecondBarrierEndsOldGroups};
ghost use Rattle.machine_barriers.specs.Barriers.{ThirdBarrierEndsOldPlaces};
ghost use Rattle.machine_barriers.specs.GoneGroups.{BegunGroupsAreGone};
ghost use Rattle.machine_barriers.specs.GoneGroups.{GoneGroupsStay, NeverBegunGroupsAreLeftAlone};
ghost use Rattle.machine_barriers.specs.GoneGroups.{ReplacedGroupsAreLeftAlone};
ghost use Rattle.machine_barriers.specs.GoneGroups.{UnopenedGroupsAreLeftAlone};

/// Nobody may insert into a group that was opened to a rebuild, and of the rebuild that made it
/// nothing is left.
pub fn opened_groups_are_closed()
    ensures { OpenedGroupsAreClosed }
{}

/// Once those who were inside have left, nobody may insert into a group that was frozen meanwhile.
pub fn first_barrier_ends_inserts()
    ensures { FirstBarrierEndsInserts }
{}

/// Once those who were inside have left, nobody stands in an old group, nor on a side of the root
/// that names one.
pub fn second_barrier_ends_old_groups()
    ensures { SecondBarrierEndsOldGroups }
{}

/// Once those who were inside have left, nobody relies on an old place.
pub fn third_barrier_ends_old_places()
    ensures { ThirdBarrierEndsOldPlaces }
{}

/// Once those who were inside have left, nobody stands on the side of the root that is not in use.
pub fn barrier_ends_unused_side()
    ensures { BarrierEndsUnusedSide }
{}

/// Outside a read section a caller relies on nothing: no root word, no group and no place.
pub fn callers_outside_rely_on_nothing()
    ensures { CallersOutsideRelyOnNothing }
{}

/// A gone group stays gone while no install takes it in and nothing leads a caller to it.
pub fn gone_groups_stay()
    ensures { GoneGroupsStay }
{}

/// Nothing leads to an old group of a rebuild whose old groups are all gone.
pub fn replaced_groups_are_left_alone()
    ensures { ReplacedGroupsAreLeftAlone }
{}

/// Nothing leads to a gone group that was never begun.
pub fn never_begun_groups_are_left_alone()
    ensures { NeverBegunGroupsAreLeftAlone }
{}

/// Nothing leads to a gone group that is not opened, once the old groups of the rebuild that made it
/// are all gone: so it is where its phase counts as open since a name was used again.
pub fn unopened_groups_are_left_alone()
    ensures { UnopenedGroupsAreLeftAlone }
{}

/// A group that is begun anew is gone still, so being gone alone does not last.
pub fn begun_groups_are_gone()
    ensures { BegunGroupsAreGone }
{}
