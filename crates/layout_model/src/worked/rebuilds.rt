//! Replays of whole rebuilds, worked out by hand. Each function is a law and does nothing.

ghost use Rattle.layout_model.specs.WorkedRebuilds.{ChangedMeanwhile, HeldCallersStall, OneRebuild, RemovedMeanwhile};
ghost use Rattle.layout_model.specs.WorkedRebuilds.{ChangedBeforeEachTurn, RemovedThroughForwarding, TheLeastHeldIsNamed};
ghost use Rattle.layout_model.specs.WorkedRebuilds.{TooFewGroups, WornUntilCopied};

/// A frozen group refuses new keys alone, and the rebuild runs to its end.
pub fn one_rebuild()
    ensures { OneRebuild }
{}

/// Records are changed between the install and the copy, and after it.
pub fn changed_meanwhile()
    ensures { ChangedMeanwhile }
{}

/// A held caller stalls each barrier until it is freed.
pub fn held_callers_stall()
    ensures { HeldCallersStall }
{}

/// A key is removed and put again while its group is rebuilt.
pub fn removed_meanwhile()
    ensures { RemovedMeanwhile }
{}

/// Too few group rows are free, so the group is thawed.
pub fn too_few_groups()
    ensures { TooFewGroups }
{}

/// A record removed at its old place counts as removed in its new group.
pub fn removed_through_forwarding()
    ensures { RemovedThroughForwarding }
{}

/// Records are changed at the stages Ready, Copying and Reclaiming.
pub fn changed_before_each_turn()
    ensures { ChangedBeforeEachTurn }
{}

/// A record that is worn at Copying can be written once it is copied.
pub fn worn_until_copied()
    ensures { WornUntilCopied }
{}

/// A barrier names the least of the callers that it waits for.
pub fn the_least_held_is_named()
    ensures { TheLeastHeldIsNamed }
{}
