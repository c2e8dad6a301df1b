//! What the words of the command line ask for.
use command_line::{Command, CommandError, MOST_BYTES, Mode, Print, Recipe, read_command};
use std::alloc::Global;
use std::test::Fail;
use word_layout::Limits;
use ycsb_mix::Mix;

// The words of the line are parted by one blank each.
fn read_line(alloc: Global, line: &str) -> Result<Result<Command, CommandError>, Fail> {
    let words: Vec<&str> = line.split(' ').collect(alloc)?;
    Ok(read_command(alloc, words.as_slice()))
}

// What a mode alone asks for.
fn standard(mode: Mode) -> Command {
    Command {
        mode,
        bytes: MOST_BYTES,
        limits: Limits::standard(),
        recipe: Recipe {
            mix: Mix::A,
            load: 1000,
            ops: 1000,
            seed: 1,
            print: Print::Summary,
        },
    }
}

#[test]
fn each_mode_alone_has_the_standard_values(rt: HostRuntime) -> Result<(), Fail> {
    for (line, mode) in [("pipe", Mode::Pipe), ("run", Mode::Run), ("gen", Mode::Gen)] {
        assert_eq!(rt; read_line(rt.alloc(), line)?, Ok(standard(mode)), "{line}");
    }
    Ok(())
}

#[test]
fn words_of_the_grammar_ask_for_a_command(rt: HostRuntime) -> Result<(), Fail> {
    for (line, bytes) in [
        ("pipe", MOST_BYTES),
        ("pipe --bytes 8", 8),
        ("pipe --bytes=8", 8),
        ("--bytes 8 pipe", 8),
        ("--bytes=8 pipe", 8),
        ("pipe --bytes 1", 1),
        ("pipe --bytes 000008", 8),
        ("pipe --bytes 1099511627776", MOST_BYTES),
        (
            "pipe --bytes 0000000000000000000000000001099511627776",
            MOST_BYTES,
        ),
        ("-- pipe", MOST_BYTES),
        ("pipe --", MOST_BYTES),
        ("--bytes 8 -- pipe", 8),
    ] {
        let mut asked = standard(Mode::Pipe);
        asked.bytes = bytes;
        assert_eq!(rt; read_line(rt.alloc(), line)?, Ok(asked), "{line}");
    }
    Ok(())
}

#[test]
fn each_option_of_a_limit_changes_its_own_field(rt: HostRuntime) -> Result<(), Fail> {
    let table = [
        ("pipe --callers 7", [("callers", 7)].as_slice()),
        ("pipe --records=3", &[("records", 3)]),
        ("--groups 007 pipe", &[("groups", 7)]),
        ("--group-size=8 pipe", &[("group_size", 8)]),
        ("pipe --slots 0", &[("slots", 0)]),
        ("pipe --due 257", &[("due", 257)]),
        ("pipe --assist 1", &[("help", 1)]),
        ("pipe --chain 2", &[("chain", 2)]),
        ("pipe --callers 4294967295", &[("callers", u32::MAX)]),
        ("pipe --due 4294967296", &[("due", u32::MAX)]),
        ("pipe --chain 18446744073709551615", &[("chain", u32::MAX)]),
        (
            "--due 2 pipe --records 100 --assist=9",
            &[("due", 2), ("records", 100), ("help", 9)],
        ),
    ];
    for (line, changes) in table {
        let asked = Ok(pipe(changed(changes)));
        assert_eq!(rt; read_line(rt.alloc(), line)?, asked, "{line}");
    }
    let mut limits = Limits::standard();
    limits.first_version = u64::MAX;
    let line = "pipe --first-version 18446744073709551615";
    assert_eq!(rt; read_line(rt.alloc(), line)?, Ok(pipe(limits)), "{line}");
    Ok(())
}

// The command of a session with these limits.
fn pipe(limits: Limits) -> Command {
    let mut command = standard(Mode::Pipe);
    command.limits = limits;
    command
}

// The standard limits, but for these numbers.
fn changed(changes: &[(&str, u32)]) -> Limits {
    let mut limits = Limits::standard();
    for &(field, number) in changes {
        match field {
            "callers" => limits.callers = number,
            "records" => limits.records = number,
            "groups" => limits.groups = number,
            "group_size" => limits.group_size = number,
            "slots" => limits.slots = number,
            "due" => limits.due = number,
            "help" => limits.help = number,
            _ => limits.chain = number,
        }
    }
    limits
}

#[test]
fn each_option_of_a_recipe_changes_its_own_field(rt: HostRuntime) -> Result<(), Fail> {
    let table = [
        ("gen --mix a", Mix::A, 1000, 1000, 1),
        ("gen --mix b", Mix::B, 1000, 1000, 1),
        ("--mix=c gen", Mix::C, 1000, 1000, 1),
        ("--mix d gen", Mix::D, 1000, 1000, 1),
        ("gen --mix=f", Mix::F, 1000, 1000, 1),
        ("gen --load 1", Mix::A, 1, 1000, 1),
        ("gen --load=1048576", Mix::A, 1048576, 1000, 1),
        ("gen --load 000000000000000007", Mix::A, 7, 1000, 1),
        ("gen --ops 0", Mix::A, 1000, 0, 1),
        ("--ops=1048576 gen", Mix::A, 1000, 1048576, 1),
        ("gen --ops 00", Mix::A, 1000, 0, 1),
        ("gen --seed 0", Mix::A, 1000, 1000, 0),
        ("gen --seed=7", Mix::A, 1000, 1000, 7),
        ("gen --seed 000000000000000007", Mix::A, 1000, 1000, 7),
        ("--seed 3 gen --ops=2 --mix f --load 9", Mix::F, 9, 2, 3),
    ];
    for (line, mix, load, ops, seed) in table {
        let mut asked = standard(Mode::Gen);
        asked.recipe.mix = mix;
        asked.recipe.load = load;
        asked.recipe.ops = ops;
        asked.recipe.seed = seed;
        assert_eq!(rt; read_line(rt.alloc(), line)?, Ok(asked), "{line}");
    }
    Ok(())
}

#[test]
fn every_mode_takes_the_options_of_a_recipe(rt: HostRuntime) -> Result<(), Fail> {
    for (line, mode, seed) in [
        ("gen --seed 18446744073709551615", Mode::Gen, u64::MAX),
        ("run --seed 3", Mode::Run, 3),
        ("--seed=4 run", Mode::Run, 4),
        ("pipe --seed 5", Mode::Pipe, 5),
    ] {
        let mut asked = standard(mode);
        asked.recipe.seed = seed;
        assert_eq!(rt; read_line(rt.alloc(), line)?, Ok(asked), "{line}");
    }
    Ok(())
}

#[test]
fn what_is_written_of_a_trace_is_asked_for_by_its_word(rt: HostRuntime) -> Result<(), Fail> {
    for (line, mode, print) in [
        ("gen --print trace", Mode::Gen, Print::Trace),
        ("gen --print=summary", Mode::Gen, Print::Summary),
        ("--print trace run", Mode::Run, Print::Trace),
    ] {
        let mut asked = standard(mode);
        asked.recipe.print = print;
        assert_eq!(rt; read_line(rt.alloc(), line)?, Ok(asked), "{line}");
    }
    Ok(())
}

#[test]
fn all_other_words_are_bad_usage(rt: HostRuntime) -> Result<(), Fail> {
    assert_eq!(rt; read_command(rt.alloc(), &[]), Err(CommandError::Usage));
    for line in [
        "",
        "frob",
        "PIPE",
        "pipe ",
        "pipe pipe",
        "pipe --bytes",
        "pipe --bytes ",
        "pipe --bytes=",
        "pipe --bytes 0",
        "pipe --bytes 000",
        "pipe --bytes 1099511627777",
        "pipe --bytes 18446744073709551616",
        "pipe --bytes 18446744073709551624",
        "pipe --bytes x",
        "pipe --bytes 8x",
        "pipe --bytes +8",
        "pipe --bytes -8",
        "pipe --bytes=-8",
        "pipe --bytes 8 --bytes 8",
        "pipe --bytes=8 --bytes 9",
        "pipe -- --bytes 8",
        "pipe --byte 8",
        "pipe --records x",
        "pipe --records",
        "pipe --records=",
        "pipe --records -1",
        "pipe --records 3 --records 3",
        "pipe --callers 18446744073709551616",
        "pipe --first-version 18446744073709551616",
        "pipe --group-size 8x",
        "pipe --group_size 8",
        "pipe --help 64",
        "--due 3",
        "--help",
        "-h",
        "help",
        "pipe --help",
        "--version",
        "-V",
    ] {
        assert_eq!(rt;
            read_line(rt.alloc(), line)?,
            Err(CommandError::Usage),
            "{line}"
        );
    }
    Ok(())
}

#[test]
fn other_modes_and_values_of_a_recipe_are_bad_usage(rt: HostRuntime) -> Result<(), Fail> {
    for line in [
        "pipe gen",
        "gen run",
        "run --bytes 0",
        "gen --mix",
        "gen --mix=",
        "gen --mix e",
        "gen --mix A",
        "gen --mix ab",
        "gen --mix a --mix a",
        "gen --load 0",
        "gen --load 1048577",
        "gen --load 4294967297",
        "gen --load x",
        "gen --load 5 --load 5",
        "gen --ops 1048577",
        "gen --ops -1",
        "gen --ops 5 --ops=5",
        "gen --seed 18446744073709551616",
        "gen --seed 0x7",
        "gen --seed=7 --seed 7",
        "gen --print",
        "gen --print x",
        "gen --print Trace",
        "gen --print trace --print trace",
        "run --mix e",
        "pipe --load 0",
        "--mix a",
        "replay",
        "serve",
        "gen --port 7411",
        "gen --connections 0",
    ] {
        assert_eq!(rt;
            read_line(rt.alloc(), line)?,
            Err(CommandError::Usage),
            "{line}"
        );
    }
    Ok(())
}

#[test]
fn an_error_shows_its_cause(rt: HostRuntime) -> Result<(), Fail> {
    for (error, text) in [
        (CommandError::Usage, "bad usage"),
        (CommandError::Memory, "out of memory"),
    ] {
        let shown = format!(in rt.alloc(); "{error}")?;
        assert_eq!(rt; shown.as_str(), text);
    }
    Ok(())
}
