//! The rule over the table, and the types of a table and a seat under it.
use crate::view::View;
use atomic_table::{Seat, Table, TableRule};
use index_machine::Opening;
use std::alloc::Global;

/// The rule of the index.
pub struct IndexRule;

impl TableRule<(), View, Opening> for IndexRule {
    ghost use Rattle.index_rule.specs.Rule.{Kept, first_view};

    ghost holds = { Kept };

    ghost first = { first_view };
}

/// The words that all threads share.
pub type Words = Table<(), View, Opening, IndexRule, Global>;

/// A seat at these words.
pub type Place = Seat<(), View>;
