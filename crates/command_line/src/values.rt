//! Values of options, read from their texts.
ghost use Rattle.std.specs.Option.{SomeIff};
ghost use Rattle.clap.specs.Words.{found_of, rows_of};
ghost use Rattle.command_line.specs.Asked.{HasNumberAt, IsNumberFrom, number_at};
ghost use Rattle.wire_commands.specs.Numbers.{value_of};

use clap::ArgMatches;
use wire_commands::{is_number, value_within};

/// The number of an option, where it lies from `least` to `most`, both included.
pub fn number_in(least: u64, most: u64, matches: &ArgMatches, name: &str) -> Option<u64>
    ensures { let found = rows_of (found_of matches.now) in
        SomeIff result (HasNumberAt least most found name.now) (number_at found name.now) }
{
    number_from(least, most, matches.get_str(name)?)
}

/// The number that the text stands for, where it lies from `least` to `most`, both included.
fn number_from(least: u64, most: u64, text: &str) -> Option<u64>
    ensures { SomeIff result (IsNumberFrom least most text.now) (value_of text.now) }
{
    if !is_number(text.as_bytes()) {
        return None;
    }
    let value = value_within(text.as_bytes(), most)?;
    if value < least { None } else { Some(value) }
}
