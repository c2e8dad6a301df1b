//! What one line of a replay says.
//!
//! A line is skipped, or asks for the layout, or begins with a caller's number: then it is a call, or holds or frees the
//! caller, or asks for its probes. Every other line is bad.
ghost use Rattle.std.specs.Prelude.{◌↔◌, [], ◌∷◌, codes, IsTrue, MatchOption};
ghost use Rattle.trace_text.specs.declared.plays.Play.{Play};
ghost use Rattle.trace_text.specs.Lines.{Fits, HasWordsOf};
ghost use Rattle.trace_text.specs.Plays.{Does, IsDeed, IsPlayOf, SaysPlay};

use crate::lines::{is_skipped, named_caller};
use wire_commands::{Request, first_word, only_word, read_line, without_return};

/// The most bytes that a line may have.
const LONGEST: usize = 80;

/// What a line of a replay says. A caller stands by its number.
#[derive(Clone, Copy, Debug, PartialEq, Eq)]
pub enum Play {
    /// Nothing: the line is a comment or has no word.
    Skip,
    /// The caller makes this call.
    Ask { caller: u32, request: Request },
    /// The caller enters a read section and stays inside until it is freed.
    Hold(u32),
    /// The caller leaves the read section in which it is held.
    Free(u32),
    /// Tell how many probes the caller's calls made.
    Probes(u32),
    /// Tell each group along the chain, and what is free.
    Layout,
}

/// What a line says, which is given without its newline, or `None` where it is bad.
pub fn read_play_line(line: &[u8], callers: u32) -> Option<Play>
    ensures { MatchOption result ((play : Play) → ¬ (SaysPlay callers line.now play))
        (SaysPlay callers line.now) }
{
    if is_skipped(line) {
        return Some(Play::Skip);
    }
    if without_return(line).len() > LONGEST {
        return None;
    }
    read_play(line, callers)
}

/// Reads a line that is not too long.
fn read_play(line: &[u8], callers: u32) -> Option<Play>
    requires { Fits line.now }
    ensures { MatchOption result ((play : Play) → ¬ (IsPlayOf callers line.now play))
        (IsPlayOf callers line.now) }
{
    if asks_for_layout(line) {
        return Some(Play::Layout);
    }
    let (word, rest) = first_word(line)?;
    let caller = named_caller(word, callers)?;
    read_deed(rest, caller)
}

/// Whether the line asks for the layout.
fn asks_for_layout(line: &[u8]) -> bool
    ensures { IsTrue result ↔ HasWordsOf line.now (codes "layout" ∷ []) }
{
    let Some(word) = only_word(without_return(line)) else {
        return false;
    };
    word == b"layout".as_slice()
}

/// Reads what stands behind a caller's number, up to the end of the whole line.
fn read_deed(rest: &[u8], caller: u32) -> Option<Play>
    ensures { MatchOption result ((play : Play) → ¬ (Does rest.now caller play))
        (Does rest.now caller) }
{
    // A call has two words or more.
    if let Some(word) = only_word(without_return(rest)) {
        return deed_of(word, caller);
    }
    match read_line(rest) {
        Request::Quit | Request::Bad(_) => None,
        request => Some(Play::Ask { caller, request }),
    }
}

/// What a word that stands alone behind the caller's number makes the caller do.
fn deed_of(word: &[u8], caller: u32) -> Option<Play>
    ensures { MatchOption result ((play : Play) → ¬ (IsDeed word.now caller play))
        (IsDeed word.now caller) }
{
    match word {
        b"hold" => Some(Play::Hold(caller)),
        b"free" => Some(Play::Free(caller)),
        b"probes" => Some(Play::Probes(caller)),
        _ => None,
    }
}
