//! The tests of the crates that stand on nothing shared: maps, lines of keys, plans, words, requests,
//! traces and mixes.
//!
//! They stand in a crate of their own, since others stand on those crates and a crate with tests is proved twice.
//! Nothing stands on this one.
#![tactic(auto)]

#[cfg(test)]
mod counted_keys;
#[cfg(test)]
mod lines;
#[cfg(test)]
mod maps;
#[cfg(test)]
mod mixes;
#[cfg(test)]
mod parts;
#[cfg(test)]
mod plans;
#[cfg(test)]
mod replays;
#[cfg(test)]
mod replies;
#[cfg(test)]
mod requests;
#[cfg(test)]
mod scalings;
#[cfg(test)]
mod searches;
#[cfg(test)]
mod tables;
#[cfg(test)]
mod traces;
#[cfg(test)]
mod transcripts;
#[cfg(test)]
mod words;
