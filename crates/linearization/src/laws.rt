//! What holds of the weave of any history with any logs of it.
//!
//! A function here does nothing: it has a law for its contract, and so the check proves the law.
ghost use Rattle.linearization.specs.Linearization.{WeavesAgree, LogsStandInTheWeave, OthersHaveNoEntry};

/// Each entry of a weave is true of the plain map that those before it leave.
pub fn weaves_agree()
    ensures { WeavesAgree }
{}

/// The entries of a caller in a weave are those of its log, in order, each once.
pub fn logs_stand_in_the_weave()
    ensures { LogsStandInTheWeave }
{}

/// Where each change is of a caller with a log, nothing but these logs stands in the weave.
pub fn others_have_no_entry()
    ensures { OthersHaveNoEntry }
{}
