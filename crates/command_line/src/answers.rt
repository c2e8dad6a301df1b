//! What the words can ask for, and what becomes of words that ask for nothing.
ghost use Rattle.std.specs.Prelude.{◌≡◌, ◌≢◌, IfNone, IfSome};
ghost use Rattle.clap.specs.Words.{kind_of};

use clap::error::ErrorKind;
use std::alloc::AllocError;
use std::error::Error;
use std::fmt;
use word_layout::Limits;
use ycsb_mix::Mix;

/// The most bytes of input that `--bytes` can let through: 1 TiB. It is the default too.
pub const MOST_BYTES: u64 = 1099511627776;

/// The most keys that a trace loads.
pub const MOST_LOAD: u32 = 1048576;

/// The most operations of a trace.
pub const MOST_OPS: u32 = 1048576;

/// What the program is to do.
#[derive(Clone, Copy, Debug, PartialEq, Eq)]
pub enum Mode {
    /// Answers the requests of standard input on standard output.
    Pipe,
    /// Runs the trace of standard input, and writes its transcript.
    Run,
    /// Makes a trace, and writes it or what became of its calls.
    Gen,
}

/// What is written of a trace that was made.
#[derive(Clone, Copy, Debug, PartialEq, Eq)]
pub enum Print {
    /// Its lines.
    Trace,
    /// How many replies of each kind its calls get.
    Summary,
}

/// The trace that is to be made, and what is written of it.
#[derive(Clone, Copy, Debug, PartialEq, Eq)]
pub struct Recipe {
    pub mix: Mix,
    /// How many keys are loaded.
    pub load: u32,
    /// How many operations follow.
    pub ops: u32,
    pub seed: u64,
    pub print: Print,
}

/// A mode, and how it is to run.
#[derive(Clone, Copy, Debug, PartialEq, Eq)]
pub struct Command {
    pub mode: Mode,
    /// How many bytes of input may be read: 1 to `MOST_BYTES`.
    pub bytes: u64,
    /// The limits of the index, which may break its rules. A number too great for its field is
    /// the field's greatest, which breaks the same rule.
    pub limits: Limits,
    /// What `gen` makes. Other modes read it and leave it.
    pub recipe: Recipe,
}

/// Why there is no command.
#[derive(Clone, Copy, Debug, PartialEq, Eq)]
pub enum CommandError {
    /// The words ask for no command.
    Usage,
    /// There was not enough memory to read them.
    Memory,
}

impl Mode {
    ghost use Rattle.command_line.specs.Command.{mode_word};

    /// The mode that a word asks for.
    pub(crate) fn named(word: &str) -> Option<Mode>
        ensures some { IfSome result (λ mode. mode_word mode ≡ word.now) }
        ensures none { IfNone result ((mode : Mode) → mode_word mode ≢ word.now) }
    {
        match word {
            "pipe" => Some(Mode::Pipe),
            "run" => Some(Mode::Run),
            "gen" => Some(Mode::Gen),
            _ => None,
        }
    }
}

impl Print {
    ghost use Rattle.command_line.specs.Command.{print_word};

    /// What a word asks for.
    pub(crate) fn named(word: &str) -> Option<Print>
        ensures some { IfSome result (λ print. print_word print ≡ word.now) }
        ensures none { IfNone result ((print : Print) → print_word print ≢ word.now) }
    {
        match word {
            "trace" => Some(Print::Trace),
            "summary" => Some(Print::Summary),
            _ => None,
        }
    }
}

impl fmt::Display for CommandError {
    fn fmt<W: fmt::Write>(&self, f: &mut fmt::Formatter<W>) -> fmt::Result {
        match self {
            CommandError::Usage => write!(f, "bad usage"),
            CommandError::Memory => write!(f, "out of memory"),
        }
    }
}

impl Error for CommandError {}

impl From<AllocError> for CommandError {
    ghost use Rattle.command_line.specs.declared.answers.CommandError.TheVariants.{Memory};

    ghost from_gives = { λ _ cause. cause ≡ Memory };

    fn from(_error: AllocError) -> CommandError {
        CommandError::Memory
    }
}

impl From<clap::Error> for CommandError {
    ghost use Rattle.command_line.specs.Command.{cause_of};

    ghost from_gives = { λ error cause. cause ≡ cause_of (kind_of error) };

    fn from(error: clap::Error) -> CommandError {
        match error.kind() {
            ErrorKind::OutOfMemory => CommandError::Memory,
            _ => CommandError::Usage,
        }
    }
}
