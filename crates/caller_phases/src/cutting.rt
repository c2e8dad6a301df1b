//! The lines of a trace, phase by phase, and what each caller calls in one.
ghost use Rattle.std.specs.Prelude.{◌≡◌, ◌<◌, ℕ, [], ◌∷◌, MatchOption, false, length};
ghost use Rattle.caller_phases.specs.Calls.{calls_in, first_phase, later_phases, phases_of};

use trace_text::{Cursor, Line};

/// The next line of the first phase, or `None` behind its last.
pub(crate) fn next_in_phase(lines: &mut Cursor<'_>) -> Option<Line>
    ensures { MatchOption result (first_phase lines.old ≡ [])
        (λ line. first_phase lines.old ≡ line ∷ first_phase lines.new) }
{
    match lines.next_line() {
        Some(Line::Phase) => None,
        line => line,
    }
}

/// The lines behind the first phase, where another begins.
pub(crate) fn behind_phase<'a>(lines: &Cursor<'a>) -> Option<Cursor<'a>>
    ensures { MatchOption result (later_phases lines.now ≡ [])
        (λ more. (later_phases lines.now ≡ phases_of more) × (length more < length lines.now)) }
{
    let mut rest = lines.again();
    while let Some(line) = rest.next_line() {
        if let Line::Phase = line {
            return Some(rest);
        }
    }
    None
}

/// Whether a caller makes a call in the first phase.
pub(crate) fn has_call(lines: &Cursor<'_>) -> bool
    ensures { result ≡ false → (caller : ℕ) → calls_in caller (first_phase lines.now) ≡ [] }
{
    let mut rest = lines.again();
    while let Some(line) = next_in_phase(&mut rest) {
        if let Line::Call(_) = line {
            return true;
        }
    }
    false
}

/// How many calls the caller makes in the first phase.
pub(crate) fn call_count(caller: u32, lines: &Cursor<'_>) -> usize
    ensures { result ≡ length (calls_in caller (first_phase lines.now)) }
{
    let mut rest = lines.again();
    let mut present = 0;
    let mut count = 0;
    while let Some(line) = next_in_phase(&mut rest) {
        match line {
            Line::Caller(next) => present = next,
            Line::Call(_) => {
                if present == caller {
                    count += 1;
                }
            }
            Line::Phase | Line::Skip => {}
        }
    }
    count
}
