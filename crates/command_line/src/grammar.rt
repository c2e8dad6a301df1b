//! The one command of `clap` that reads the words: a required positional, and options with defaults.
//!
//! Each value is plain text here. What it has to be is settled where it is read.
ghost use Rattle.std.specs.Prelude.{◌≡◌, false, fold, IfOk};
ghost use Rattle.clap.specs.Words.{app_of, rule_of};
ghost use Rattle.command_line.specs.Grammar.{option_rule, positional_rule, table_of, the_app, with_option};

use clap::Arg;
use std::alloc::{AllocError, Global};

pub const MODE: &str = "mode";

/// Each option by its name, with its default.
static OPTIONS: [(&str, &str); 15] = [
    ("bytes", "1099511627776"),
    ("callers", "4"),
    ("records", "65536"),
    ("groups", "256"),
    ("group-size", "256"),
    ("slots", "256"),
    ("due", "64"),
    ("assist", "64"),
    ("chain", "16"),
    ("first-version", "0"),
    ("mix", "a"),
    ("load", "1000"),
    ("ops", "1000"),
    ("seed", "1"),
    ("print", "summary"),
];

/// The command that knows the mode and each option.
pub fn grammar<'a>(alloc: Global) -> Result<clap::Command<'a>, AllocError>
    ensures { IfOk result (λ command. app_of command ≡ the_app) }
{
    let command = clap::Command::new(alloc, "xindex")
        .no_binary_name(true)
        .disable_help_flag(true)
        .arg(positional(alloc, MODE))?;
    with_options(alloc, command, OPTIONS.as_slice())
}

fn with_options<'a>(
    alloc: Global,
    bare: clap::Command<'a>,
    options: &[(&'a str, &'a str)],
) -> Result<clap::Command<'a>, AllocError>
    ensures { IfOk result (λ command.
        app_of command ≡ fold with_option (app_of bare.entry) (table_of options.now)) }
{
    let mut command = bare;
    for &(name, default) in options {
        command = command.arg(option(alloc, name, default))?;
    }
    Ok(command)
}

fn positional<'a>(alloc: Global, name: &'a str) -> Arg<'a>
    ensures rule { rule_of result ≡ positional_rule name.entry.now }
    ensures local { result.global ≡ false }
{
    Arg::new(alloc, name).required(true)
}

fn option<'a>(alloc: Global, name: &'a str, default: &'a str) -> Arg<'a>
    ensures rule { rule_of result ≡ option_rule name.entry.now default.entry.now }
    ensures local { result.global ≡ false }
{
    Arg::new(alloc, name).long(name).default_value(default)
}
