//! The tests of sessions, of the command line, and of the program over the index.
//!
//! They stand in a crate of their own, since others stand on those crates and a crate with tests is proved twice.
//! Nothing stands on this one.
#![tactic(auto)]

#[cfg(test)]
mod commands;
#[cfg(test)]
mod phases;
#[cfg(test)]
mod programs;
#[cfg(test)]
mod sessions;
#[cfg(test)]
mod streams;
#[cfg(test)]
mod traces;
