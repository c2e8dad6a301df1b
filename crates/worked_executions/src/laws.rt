//! Executions that are valid, and openings that there are. Each function is a law and does nothing.
ghost use Rattle.worked_executions.specs.BegunMeanwhile.{NoGroupIsBegunMeanwhile};
ghost use Rattle.worked_executions.specs.NameUsedAgain.{NamesAreUsedAgain};
ghost use Rattle.worked_executions.specs.SeveralGroups.{SeveralGroupsAreOpened};
ghost use Rattle.worked_executions.specs.TwoParts.{TwoPartsAreRebuiltAtOnce};
ghost use Rattle.worked_executions.specs.Witness.{WholeRebuildIsValid};

/// A whole rebuild, with callers' steps in between, is a valid execution, to its end with a row and
/// a group row used again.
pub fn whole_rebuild_is_valid()
    ensures { WholeRebuildIsValid }
{}

/// A rebuild may be named by a free group row while a group that the old rebuild of this name made
/// is still in the chain, and this group is opened to it.
pub fn names_are_used_again()
    ensures { NamesAreUsedAgain }
{}

/// Each step up to the opening of one of two groups is allowed, and then no group is begun anew.
pub fn no_group_is_begun_meanwhile()
    ensures { NoGroupIsBegunMeanwhile }
{}

/// The keepers of two parts are at different stages of a rebuild at once, and both install.
pub fn two_parts_are_rebuilt_at_once()
    ensures { TwoPartsAreRebuiltAtOnce }
{}

/// A table opens with several groups in a part, chained and with slots at equal steps, and the chain of a part ends
/// before the first group of the next part.
pub fn several_groups_are_opened()
    ensures { SeveralGroupsAreOpened }
{}
