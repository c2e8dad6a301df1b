//! What holds of passes that know the same, and of a trace for which there is enough.
//!
//! The functions do nothing: each has a law for its contract, and so the check proves the law.
ghost use Rattle.caller_phases.specs.Enough.{EnoughRefusesNothing};
ghost use Rattle.caller_phases.specs.Ran.{WhatAllKnowIsAll};

/// Once the passes of all callers know the same, it is all that was changed: an index that is closed then
/// leaves what this history leaves.
pub fn what_all_know_is_all()
    ensures { WhatAllKnowIsAll }
{}

/// Where an index has a record row for each put of a trace and for each caller, and versions for all changes, no call
/// of the trace is refused.
pub fn enough_refuses_nothing()
    ensures { EnoughRefusesNothing }
{}
