//! What holds of all callers of an index.
//!
//! A function here does nothing: it has a law for its contract, and so the check proves the law.
ghost use Rattle.xindex_core.specs.Alone.{CallersAloneTellTheMap};
ghost use Rattle.xindex_core.specs.Closing.{ClosedLogsHaveOneOrder, PassesInOrderAreAll};
ghost use Rattle.xindex_core.specs.Naming.{NamesSettleTheIndex};
ghost use Rattle.xindex_core.specs.OneOrder.{CallersShareOneOrder};

/// Where caller 0 alone changes an index that was opened empty, the log of its calls tells the map, and
/// each of its answers is true of it.
pub fn callers_alone_tell_the_map()
    ensures { CallersAloneTellTheMap }
{}

/// Whoever has a pass or the keeper of an index has one of the index with its name: so it may be wrapped
/// in a `NamedPass` or a `NamedKeeper`.
pub fn names_settle_the_index()
    ensures { NamesSettleTheIndex }
{}

/// Once passes of an index know the same, the entries of their logs have one order, and each is true of
/// the plain map that is run over it.
pub fn callers_share_one_order()
    ensures { CallersShareOneOrder }
{}

/// The passes of callers 0 to the last one, in order, are all that closing asks for.
pub fn passes_in_order_are_all()
    ensures { PassesInOrderAreAll }
{}

/// What such passes have in their logs as the index is closed has one order, over which the plain map
/// runs to the pairs that closing gives.
pub fn closed_logs_have_one_order()
    ensures { ClosedLogsHaveOneOrder }
{}
