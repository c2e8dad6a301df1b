//! Replays with several groups, worked out by hand. Each function is a law and does nothing.

ghost use Rattle.layout_model.specs.WorkedGroups.{LooksGoRound, NoRootYet, OneIntoThree, OneIntoTwo};
ghost use Rattle.layout_model.specs.WorkedGroups.{OpenedWithRows, RootsSkipGroups};

/// One group becomes three, and two of them one, with a new root after each install.
pub fn one_into_three()
    ensures { OneIntoThree }
{}

/// While no root is due, the three groups are looked at.
pub fn no_root_yet()
    ensures { NoRootYet }
{}

/// Seven records are too many for one group of eight.
pub fn one_into_two()
    ensures { OneIntoTwo }
{}

/// Twelve rows that an index is opened with make two groups.
pub fn opened_with_rows()
    ensures { OpenedWithRows }
{}

/// A look begins at the cursor, and goes round the chain.
pub fn looks_go_round()
    ensures { LooksGoRound }
{}

/// With more groups than slots, a root has a slot for each second group.
pub fn roots_skip_groups()
    ensures { RootsSkipGroups }
{}
