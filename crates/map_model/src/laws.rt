//! What holds of all calls on a plain map, and of all logs.
//!
//! A function here does nothing: it has a law for its contract, and so the check proves the law.
ghost use Rattle.map_model.specs.Laws.{CallsHaveOneAnswer};
ghost use Rattle.map_model.specs.LogLaws.{LogsEndInTheHistory, OthersKeepLogs};
ghost use Rattle.map_model.specs.LogLaws.{ChangesEndLogs, LooksEndLogs};

/// What a plain map answers to a call of one key, and the map that the call leaves, are settled by the map before it.
pub fn a_call_of_one_key_has_one_answer()
    ensures { CallsHaveOneAnswer }
{}

/// The next entry of a log has a place in the history.
pub fn logs_end_in_the_history()
    ensures { LogsEndInTheHistory }
{}

/// A log stays one when other callers change the map.
pub fn others_keep_logs()
    ensures { OthersKeepLogs }
{}

/// A change of the caller's own is the next entry of its log, with the value that its key had.
pub fn changes_end_logs()
    ensures { ChangesEndLogs }
{}

/// A look that is true at a place behind the others is the next entry too.
pub fn looks_end_logs()
    ensures { LooksEndLogs }
{}
