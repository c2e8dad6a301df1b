//! The tests of the crates that share one board, and of the index over them.
//!
//! They stand in a crate of their own, since others stand on those crates and a crate with tests is proved twice.
//! Nothing stands on this one.
#![tactic(auto)]

#[cfg(test)]
mod arrays;
#[cfg(test)]
mod barriers;
#[cfg(test)]
mod boards;
#[cfg(test)]
mod buffers;
#[cfg(test)]
mod called_rows;
#[cfg(test)]
mod calls_for_keys;
#[cfg(test)]
mod closed_boards;
#[cfg(test)]
mod closed_indexes;
#[cfg(test)]
mod example;
#[cfg(test)]
mod free_rows;
#[cfg(test)]
mod hand_notes;
#[cfg(test)]
mod indexes;
#[cfg(test)]
mod lanes;
#[cfg(test)]
mod opened_rows;
#[cfg(test)]
mod orders_of_one_key;
#[cfg(test)]
mod parts;
#[cfg(test)]
mod passes;
#[cfg(test)]
mod passes_at_once;
#[cfg(test)]
mod records;
#[cfg(test)]
mod records_at_once;
#[cfg(test)]
mod texts;
#[cfg(test)]
mod values_in_turn;
#[cfg(test)]
mod waiters;
#[cfg(test)]
mod words_in_memory;
