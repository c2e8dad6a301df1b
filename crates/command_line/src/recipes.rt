//! The recipe that the words ask for: which trace is made, and what is written of it.
ghost use Rattle.std.specs.Prelude.{◌≡◌, ◌≢◌, IfNone, IfSome, Some};
ghost use Rattle.std.specs.Option.{SomeIff};
ghost use Rattle.clap.specs.Words.{found_of, rows_of};
ghost use Rattle.command_line.specs.Asked.{HasNumberAt, number_at};
ghost use Rattle.command_line.specs.Command.{AsksForRecipe, mix_word};

use crate::answers::{MOST_LOAD, MOST_OPS, Print, Recipe};
use crate::values::number_in;
use clap::ArgMatches;
use ycsb_mix::Mix;

/// The recipe by its options.
pub fn recipe_in(matches: &ArgMatches) -> Option<Recipe>
    ensures some { IfSome result (AsksForRecipe (rows_of (found_of matches.now))) }
    ensures none { IfNone result ((recipe : Recipe)
        → ¬ AsksForRecipe (rows_of (found_of matches.now)) recipe) }
{
    let mix = mix_named(matches.get_str("mix")?)?;
    let load = count_in(1, MOST_LOAD, matches, "load")?;
    let ops = count_in(0, MOST_OPS, matches, "ops")?;
    let seed = number_in(0, u64::MAX, matches, "seed")?;
    let print = Print::named(matches.get_str("print")?)?;
    Some(Recipe {
        mix,
        load,
        ops,
        seed,
        print,
    })
}

/// The mix that a word asks for.
fn mix_named(word: &str) -> Option<Mix>
    ensures some { IfSome result (λ mix. mix_word mix ≡ Some word.now) }
    ensures none { IfNone result ((mix : Mix) → mix_word mix ≢ Some word.now) }
{
    match word {
        "a" => Some(Mix::A),
        "b" => Some(Mix::B),
        "c" => Some(Mix::C),
        "d" => Some(Mix::D),
        "f" => Some(Mix::F),
        _ => None,
    }
}

/// The number of an option, where its bounds are of 32 bits.
fn count_in(least: u32, most: u32, matches: &ArgMatches, name: &str) -> Option<u32>
    ensures { let found = rows_of (found_of matches.now) in
        SomeIff result (HasNumberAt least most found name.now) (number_at found name.now) }
{
    let number = number_in(u64::from(least), u64::from(most), matches, name)?;
    Some(number as u32)
}
