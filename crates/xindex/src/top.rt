//! The top call.
ghost use Rattle.std.specs.Prelude.{◌≡◌, ◌≢◌, ◌≤◌, ℕ, IsSome};
ghost use Rattle.command_line.specs.declared.answers.Command.{Command};
ghost use Rattle.command_line.specs.Command.{IsCommand, KeepsBounds, asked_limits, texts_of};
ghost use Rattle.line_session.specs.Ends.{CountsRead, CountsWrite, ends_of};
ghost use Rattle.word_layout.specs.Limits.{IsFirstBroken, KeepsRules};
ghost use Rattle.xindex.specs.Completing.{BlamesNoInput, HasItsInput};
ghost use Rattle.xindex.specs.Outcome.{AsksBadLimits, Does, IsNoCommand, LacksMemory, OnlyRefuses};
ghost use Rattle.xindex.specs.Outcome.{limit_line, usage_line};

use crate::generating::generate;
use crate::piping::pipe;
use crate::running::run;
use crate::telling::{tell, tell_number};
use crate::{Outcome, Status};
use command_line::{Command, CommandError, Mode, read_command};
use line_session::{Gate, Sink, Source};
use std::alloc::Global;
use std::sync::{Arc, Wait};
use std::thread::Threads;

/// All that the program does. `words` are those of the command line after the program's name. Each request waits at the
/// gate before it is asked.
///
/// `pipe` serves a session over an empty index, by its pass 0, and hands the index out. `run` runs the trace that the
/// source gives over an empty index, and `gen` one that it makes. Words that ask for nothing are answered by one line,
/// and so are limits that break a rule; then nothing is read or opened. `Memory` may come for any words.
pub fn xindex<R, S: Source, K: Sink, G: Gate + Send + Sync + 'static>(
    rt: &R,
    alloc: Global,
    words: &[&str],
    source: &mut S,
    sink: &mut K,
    gate: Arc<G>,
) -> Outcome
where
    R: Threads + Wait + Copy + Send + Sync + 'static,
    // Words that ask for a mode, with limits that keep the rules, get what the mode does.
    ensures does { (command : Command) → IsCommand (texts_of words.now) command
        → KeepsRules (asked_limits (texts_of words.now)) → Does command.mode command
        (ends_of (S.state source.old) (K.state sink.old))
        (ends_of (S.state source.new) (K.state sink.new)) result }

    // Where the mode has the input that it reads, only want of memory or a fault of an end keeps it from its end.
    ensures completes { (command : Command) → IsCommand (texts_of words.now) command
        → KeepsRules (asked_limits (texts_of words.now))
        → HasItsInput command.mode command (ends_of (S.state source.old) (K.state sink.old))
        → BlamesNoInput result.status }

    // An index is handed out only where the words ask for a session.
    ensures opened { IsSome result.opened → (command : Command)
        × IsCommand (texts_of words.now) command × (command.mode ≡ Mode.Pipe)
        × KeepsRules command.limits }

    // Only words that ask for nothing are bad usage. They are told so; nothing is read or opened.
    ensures usage { result.status ≡ Status.Usage → IsNoCommand (texts_of words.now) }
    ensures refusal { IsNoCommand (texts_of words.now) → OnlyRefuses usage_line Status.Usage
        (ends_of (S.state source.old) (K.state sink.old))
        (ends_of (S.state source.new) (K.state sink.new)) result }

    // Only limits that break a rule are bad: the first such rule is told, nothing is read or opened.
    ensures limits { result.status ≡ Status.BadLimits
        → (number : ℕ) × AsksBadLimits (texts_of words.now) number }
    ensures limits_refusal { (number : ℕ) → AsksBadLimits (texts_of words.now) number
        → OnlyRefuses (limit_line number) Status.BadLimits
        (ends_of (S.state source.old) (K.state sink.old))
        (ends_of (S.state source.new) (K.state sink.new)) result }

    // Only a trace that is to be run is bad.
    ensures traces { result.status ≡ Status.BadTrace → (command : Command)
        × IsCommand (texts_of words.now) command × (command.mode ≡ Mode.Run) }

    // Want of memory comes before anything is written, and but for a trace that is to be run before anything is read.
    ensures memory_unread { (command : Command) → IsCommand (texts_of words.now) command
        → command.mode ≢ Mode.Run → result.status ≡ Status.Memory
        → (S.state source.new).left ≡ (S.state source.old).left }
    ensures memory_unwritten { result.status ≡ Status.Memory
        → (K.state sink.new).written ≡ (K.state sink.old).written }

    // A fault is the status wherever an end has counted one, and nowhere else.
    ensures read_faults { CountsRead (result.status ≡ Status.ReadFault)
        (S.state source.old) (S.state source.new) }
    ensures write_faults { CountsWrite (result.status ≡ Status.WriteFault)
        (K.state sink.old) (K.state sink.new) }
{
    match read_command(alloc, words) {
        Ok(command) => obey(rt, alloc, command, source, sink, gate),
        Err(CommandError::Usage) => { Outcome::unopened(tell(sink, b"bad usage\n", Status::Usage)) }
        Err(CommandError::Memory) => Outcome::unopened(Status::Memory),
    }
}

// Does what the mode is for, if the limits keep the rules.
fn obey<R, S: Source, K: Sink, G: Gate + Send + Sync + 'static>(
    rt: &R,
    alloc: Global,
    command: Command,
    source: &mut S,
    sink: &mut K,
    gate: Arc<G>,
) -> Outcome
where
    R: Threads + Wait + Copy + Send + Sync + 'static,
    requires { KeepsBounds command }
    ensures does { KeepsRules command.limits → Does command.mode command
        (ends_of (S.state source.old) (K.state sink.old))
        (ends_of (S.state source.new) (K.state sink.new)) result }
    ensures opened { IsSome result.opened
        → (command.mode ≡ Mode.Pipe) × KeepsRules command.limits }
    ensures no_usage { result.status ≢ Status.Usage }
    ensures limits { result.status ≡ Status.BadLimits
        → (number : ℕ) × IsFirstBroken command.limits number }
    ensures limits_refusal { (number : ℕ) → IsFirstBroken command.limits number
        → OnlyRefuses (limit_line number) Status.BadLimits
        (ends_of (S.state source.old) (K.state sink.old))
        (ends_of (S.state source.new) (K.state sink.new)) result }
    ensures traces { result.status ≡ Status.BadTrace → command.mode ≡ Mode.Run }
    ensures memory { result.status ≡ Status.Memory → LacksMemory command.mode
        (ends_of (S.state source.old) (K.state sink.old))
        (ends_of (S.state source.new) (K.state sink.new)) }
    ensures read_faults { CountsRead (result.status ≡ Status.ReadFault)
        (S.state source.old) (S.state source.new) }
    ensures write_faults { CountsWrite (result.status ≡ Status.WriteFault)
        (K.state sink.old) (K.state sink.new) }
{
    match command.limits.layout() {
        Ok(_) => begin(rt, alloc, command, source, sink, gate),
        Err(bad) => {
            let number = u64::from(bad.number);
            Outcome::unopened(tell_number(sink, b"bad limit ", number, Status::BadLimits))
        }
    }
}

// Does what the mode is for, over limits that keep the rules.
fn begin<R, S: Source, K: Sink, G: Gate + Send + Sync + 'static>(
    rt: &R,
    alloc: Global,
    command: Command,
    source: &mut S,
    sink: &mut K,
    gate: Arc<G>,
) -> Outcome
where
    R: Threads + Wait + Copy + Send + Sync + 'static,
    requires bounds { KeepsBounds command }
    requires rules { KeepsRules command.limits }
    ensures does { Does command.mode command
        (ends_of (S.state source.old) (K.state sink.old))
        (ends_of (S.state source.new) (K.state sink.new)) result }
    ensures opened { IsSome result.opened → command.mode ≡ Mode.Pipe }
    ensures no_usage { result.status ≢ Status.Usage }
    ensures no_bad_limits { result.status ≢ Status.BadLimits }
    ensures traces { result.status ≡ Status.BadTrace → command.mode ≡ Mode.Run }
    ensures memory { result.status ≡ Status.Memory → LacksMemory command.mode
        (ends_of (S.state source.old) (K.state sink.old))
        (ends_of (S.state source.new) (K.state sink.new)) }
    ensures read_faults { CountsRead (result.status ≡ Status.ReadFault)
        (S.state source.old) (S.state source.new) }
    ensures write_faults { CountsWrite (result.status ≡ Status.WriteFault)
        (K.state sink.old) (K.state sink.new) }
{
    let Command {
        mode,
        bytes,
        limits,
        recipe,
    } = command;
    match mode {
        Mode::Pipe => pipe(rt, alloc, limits, bytes, source, sink, &*gate),
        Mode::Run => Outcome::unopened(run(rt, alloc, limits, bytes, source, sink, gate)),
        Mode::Gen => Outcome::unopened(generate(rt, alloc, limits, recipe, sink, gate)),
    }
}
