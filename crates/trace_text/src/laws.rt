//! What holds of all texts and all lines.
//!
//! The functions do nothing: each has a law for its contract, and so the check proves the law.
ghost use Rattle.std.specs.Prelude.{ℕ, ◌<◌, ◌^◌, List};
ghost use Rattle.trace_text.specs.Laws.{IsReadOnce, SaysOneThing, TextsHaveLines};
ghost use Rattle.trace_text.specs.Laws.{WrittenIsPlayed, WrittenIsRead};
ghost use Rattle.trace_text.specs.Lines.{Says};
ghost use Rattle.trace_text.specs.Plays.{SaysPlay, is_play};
ghost use Rattle.trace_text.specs.Traces.{is_told};

/// A text is cut into lines in one way.
pub fn each_text_has_its_lines()
    ensures { TextsHaveLines }
{}

/// What a line says is settled by its bytes and the number of callers.
pub fn no_line_says_two_things()
    ensures { (callers : ℕ) → SaysOneThing (Says callers) }
{}

/// What a line of a replay says is settled by its bytes and the number of callers.
pub fn no_play_line_says_two_things()
    ensures { (callers : ℕ) → SaysOneThing (SaysPlay callers) }
{}

/// Marks and calls that are written as lines are read as they were written.
pub fn written_lines_are_read()
    ensures { (callers : ℕ) → WrittenIsRead callers }
{}

/// Plays that are written as lines are read as they were written.
pub fn written_plays_are_read()
    ensures { (callers caller : ℕ) → caller < callers → caller < 2 ^ 64
        → WrittenIsPlayed callers caller }
{}

/// A text is one trace and has no bad line, or has one first bad line and is no trace.
pub fn no_text_is_two_traces()
    ensures { (callers : ℕ) → (text : List ℕ) → IsReadOnce (Says callers) is_told text }
{}

/// A text is one replay and has no bad line, or has one first bad line and is no replay.
pub fn no_text_is_two_replays()
    ensures { (callers : ℕ) → (text : List ℕ) → IsReadOnce (SaysPlay callers) is_play text }
{}
