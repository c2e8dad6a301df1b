//! A whole replay, which is given as one text.
ghost use Rattle.std.specs.Prelude.{◌≡◌, [], ◌∷◌, ◌++◌, IfOk, MatchResult, OnOk};
ghost use Rattle.std.specs.List.{AllByRecursion, filter};
ghost use Rattle.trace_text.specs.Plays.{IsPlayFor, IsReplay, SaysPlay, is_play};
ghost use Rattle.trace_text.specs.TextLines.{IsCauseBy};

use crate::cutting::TextLines;
use crate::plays::{Play, read_play_line};
use crate::traces::TraceError;
use std::alloc::{AllocError, Global};

/// Reads a replay for so many callers. Lines that are skipped are counted and left out.
pub fn read_replay(alloc: Global, text: &[u8], callers: u32) -> Result<Vec<Play>, TraceError>
    ensures reads { MatchResult result (λ plays. IsReplay callers text.now plays.items)
        (IsCauseBy (SaysPlay callers) text.now) }
    ensures fit { IfOk result (λ plays. AllByRecursion (IsPlayFor callers) plays.items) }
{
    let mut plays = Vec::new(alloc);
    let mut lines = TextLines::of(text);
    while let Some(line) = lines.next_line() {
        let Some(play) = read_play_line(line, callers) else {
            let number = lines.number();
            return Err(TraceError::BadLine { number });
        };
        keep(&mut plays, play)?;
    }
    Ok(plays)
}

/// Appends a play, but for a skipped line.
fn keep(plays: &mut Vec<Play>, play: Play) -> Result<(), AllocError>
    ensures { OnOk result (plays.new.items ≡ plays.old.items ++ filter is_play (play ∷ [])) }
{
    match play {
        Play::Skip => {}
        _ => plays.push(play)?,
    }
    Ok(())
}
