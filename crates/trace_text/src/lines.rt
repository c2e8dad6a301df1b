//! What one line of a trace says.
//!
//! A line is skipped, or a mark that says whose calls follow, or a call. Every other line is bad.
ghost use Rattle.std.specs.Prelude.{◌≡◌, ◌≢◌, ◌↔◌, ℕ, IsTrue, MatchOption};
ghost use Rattle.trace_text.specs.Lines.{IsSkipped, keyword_of, IsMark, HasCaller, NamesCaller, Says};

use wire_commands::{
    Reason, Request, first_word, has_no_word, is_number, only_word, read_line, value_within,
    without_return,
};

/// What a line of a trace says.
#[derive(Clone, Copy, Debug, PartialEq, Eq)]
pub enum Line {
    /// Nothing: the line is a comment or has no word.
    Skip,
    /// A phase ends, and the next one begins.
    Phase,
    /// The calls of this caller follow.
    Caller(u32),
    /// The present caller makes this call.
    Call(Request),
}

/// What a line says, which is given without its newline, or `None` where it is bad.
pub fn read_trace_line(line: &[u8], callers: u32) -> Option<Line>
    ensures { MatchOption result ((said : Line) → ¬ (Says callers line.now said))
        (Says callers line.now) }
{
    if is_skipped(line) {
        return Some(Line::Skip);
    }
    match read_line(line) {
        Request::Bad(reason) => match reason {
            Reason::Word => read_mark(line, callers),
            _ => None,
        },
        Request::Quit => None,
        call => Some(Line::Call(call)),
    }
}

/// Whether the line is a comment or has no word. Such a line may be of any length.
pub(crate) fn is_skipped(line: &[u8]) -> bool
    ensures { IsTrue result ↔ IsSkipped line.now }
{
    match line {
        [b'#', ..] => true,
        _ => has_no_word(without_return(line)),
    }
}

/// Reads a line whose first word is no keyword of a request.
fn read_mark(line: &[u8], callers: u32) -> Option<Line>
    ensures { MatchOption result ((said : Line) → ¬ (IsMark callers line.now said))
        (IsMark callers line.now) }
{
    let Some((keyword, rest)) = first_word(without_return(line)) else {
        return None;
    };
    let Some(mark) = mark_of(keyword) else {
        return None;
    };
    match mark {
        Mark::Phase => {
            if has_no_word(rest) {
                Some(Line::Phase)
            } else {
                None
            }
        }
        Mark::Caller => {
            let caller = caller_of(rest, callers)?;
            Some(Line::Caller(caller))
        }
    }
}

/// What a line can mark.
#[derive(Clone, Copy, Debug, PartialEq, Eq)]
enum Mark {
    /// The next phase.
    Phase,
    /// The caller of the calls that follow.
    Caller,
}

/// The mark whose keyword this is.
fn mark_of(word: &[u8]) -> Option<Mark>
    ensures { MatchOption result ((mark : Mark) → word.now ≢ keyword_of mark)
        (λ mark. word.now ≡ keyword_of mark) }
{
    match word {
        b"phase" => Some(Mark::Phase),
        b"caller" => Some(Mark::Caller),
        _ => None,
    }
}

/// The caller that a line names in its rest.
fn caller_of(rest: &[u8], callers: u32) -> Option<u32>
    ensures { MatchOption result ((caller : ℕ) → ¬ (HasCaller callers rest.now caller))
        (HasCaller callers rest.now) }
{
    let Some(word) = only_word(rest) else {
        return None;
    };
    named_caller(word, callers)
}

/// The caller whose number the word is.
pub(crate) fn named_caller(word: &[u8], callers: u32) -> Option<u32>
    ensures { MatchOption result ((caller : ℕ) → ¬ (NamesCaller callers word.now caller))
        (NamesCaller callers word.now) }
{
    if !is_number(word) {
        return None;
    }
    let Some(caller) = value_within(word, u64::from(callers)) else {
        return None;
    };
    let caller = caller as u32;
    if caller < callers { Some(caller) } else { None }
}
