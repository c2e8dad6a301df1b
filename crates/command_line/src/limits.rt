//! The limits that the words ask for.
//!
//! Whether they keep the rules is not asked here.
ghost use Rattle.std.specs.Prelude.{◌≡◌};
ghost use Rattle.std.specs.Option.{SomeIff};
ghost use Rattle.clap.specs.Words.{found_of, rows_of};
ghost use Rattle.command_line.specs.Asked.{HasLimitAt, HasLimits, limits_found, number_at};
ghost use Rattle.command_line.specs.Asked.{saturated, saturated_limits};

use crate::values::number_in;
use clap::ArgMatches;
use word_layout::Limits;

/// The limits by their options, where each is a number of 64 bits.
pub fn limits_in(matches: &ArgMatches) -> Option<Limits>
    ensures { let found = rows_of (found_of matches.now) in
        SomeIff result (HasLimits found) (saturated_limits (limits_found found)) }
{
    Some(Limits {
        callers: limit_in(matches, "callers")?,
        records: limit_in(matches, "records")?,
        groups: limit_in(matches, "groups")?,
        group_size: limit_in(matches, "group-size")?,
        slots: limit_in(matches, "slots")?,
        due: limit_in(matches, "due")?,
        help: limit_in(matches, "assist")?,
        chain: limit_in(matches, "chain")?,
        first_version: number_in(0, u64::MAX, matches, "first-version")?,
    })
}

fn limit_in(matches: &ArgMatches, name: &str) -> Option<u32>
    ensures { let found = rows_of (found_of matches.now) in
        SomeIff result (HasLimitAt found name.now) (saturated (number_at found name.now)) }
{
    Some(saturated(number_in(0, u64::MAX, matches, name)?))
}

fn saturated(number: u64) -> u32
    ensures { result ≡ saturated number }
{
    u32::try_from(number).unwrap_or(u32::MAX)
}
