//! Reading the words of the command line.
ghost use Rattle.std.specs.Prelude.{◌≡◌, IfNone, IfOk, IfSome};
ghost use Rattle.clap.specs.Words.{found_of, rows_of};
ghost use Rattle.command_line.specs.Command.{AsksFor, IsCommand, KeepsBounds, texts_of};

use crate::answers::{Command, CommandError, MOST_BYTES, Mode};
use crate::grammar::{MODE, grammar};
use crate::limits::limits_in;
use crate::recipes::recipe_in;
use crate::values::number_in;
use clap::ArgMatches;
use std::alloc::Global;

/// What the words ask for: those of the command line, without the program's name.
///
/// `Memory` may come for any words.
pub fn read_command(alloc: Global, words: &[&str]) -> Result<Command, CommandError>
    ensures ok { IfOk result (IsCommand (texts_of words.now)) }
    ensures bounds { IfOk result KeepsBounds }
    ensures usage_only_for_no_command { result ≡ Err CommandError.Usage
        → (command : Command) → ¬ IsCommand (texts_of words.now) command }
{
    let matches = grammar(alloc)?.try_get_matches_from(words)?;
    command_in(&matches).ok_or(CommandError::Usage)
}

fn command_in(matches: &ArgMatches) -> Option<Command>
    ensures some { IfSome result (AsksFor (rows_of (found_of matches.now))) }
    ensures none { IfNone result ((command : Command)
        → ¬ AsksFor (rows_of (found_of matches.now)) command) }
{
    let mode = Mode::named(matches.get_str(MODE)?)?;
    let bytes = number_in(1, MOST_BYTES, matches, "bytes")?;
    let limits = limits_in(matches)?;
    let recipe = recipe_in(matches)?;
    Some(Command {
        mode,
        bytes,
        limits,
        recipe,
    })
}
