//! Looks: entries of a hand's log that no event writes.
//!
//! Which load of a call decided what it found is known only once the call is over. So one more load,
//! whose word is ignored and which is no event, writes the entry.
ghost use Rattle.std.specs.Prelude.{ℕ, Option};
ghost use Rattle.index_rule.specs.declared.view.View.{View};

use std::marker::Brand;

/// What a look says: what its hand knew when the call began, the key, and what was found. The caller
/// picks it where it calls.
pub trait Sight {
    ghost start: { View };

    ghost key: { ℕ };

    ghost found: { Option ℕ };
}

impl Sight for Brand {
    ghost use Rattle.std.specs.Prelude.{None};
    ghost use Rattle.index_rule.specs.Seats.{spent};

    ghost start = { spent };

    ghost key = { 0 };

    ghost found = { None };
}
