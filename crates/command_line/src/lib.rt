//! The command line: which words ask for which command.
//!
//! The fact to remember: the words mean what `clap` says of one command, and what this crate says
//! of the texts that it finds. `Usage` comes only where they ask for nothing by that meaning, and
//! never for want of memory.
#![tactic(auto)]

mod answers;
mod grammar;
mod laws;
mod limits;
mod reading;
mod recipes;
mod values;

pub use answers::{Command, CommandError, MOST_BYTES, MOST_LOAD, MOST_OPS, Mode, Print, Recipe};
pub use laws::{
    each_is_given_once, plain_forms_are_commands, saturation_keeps_rules,
    words_determine_the_command,
};
pub use reading::read_command;
