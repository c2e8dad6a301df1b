//! Transcripts: the replies phase by phase, caller by caller in each, and the final rows.
//!
//! A caller without calls in a phase is left out, and so is a phase without calls.
ghost use Rattle.std.specs.Prelude.{◌≡◌, ◌↔◌, [], ◌++◌, All, OnOk, IsTrue, map};
ghost use Rattle.trace_text.specs.Transcripts.{caller_text, callers_text, phase_text, rows_text};
ghost use Rattle.trace_text.specs.Transcripts.{AddsPhase, AddsRows};

use crate::appending::{append_number, append_pair};
use crate::replying::Replies;
use std::alloc::AllocError;

/// Appends the replies in a phase, of which each caller has a list, by its number.
///
/// A phase without calls appends nothing. The next one has the number that follows all the same.
pub fn append_phase(text: &mut Vec<u8>, number: u64, replies: &[Replies]) -> Result<(), AllocError>
    ensures appends { OnOk result (text.new.items
        ≡ text.old.items ++ phase_text number (map (λ own. own.replies) replies.now)) }
    ensures goes_on { OnOk result (AddsPhase number (map (λ own. own.replies) replies.now)
        text.old.items text.new.items) }
{
    if has_no_call(replies) {
        return Ok(());
    }
    append_number(text, b"phase ", number)?;
    append_callers(text, replies)
}

/// Whether no caller made a call.
fn has_no_call(replies: &[Replies]) -> bool
    ensures { IsTrue result ↔ All (λ own. own ≡ []) (map (λ own. own.replies) replies.now) }
{
    replies.iter().all(|own| own.len() == 0)
}

/// Appends the replies of each caller with a call, by its number.
fn append_callers(text: &mut Vec<u8>, replies: &[Replies]) -> Result<(), AllocError>
    ensures { OnOk result (text.new.items
        ≡ text.old.items ++ callers_text (map (λ own. own.replies) replies.now)) }
{
    for caller in 0..replies.len() {
        append_caller(text, caller as u64, &replies[caller])?;
    }
    Ok(())
}

/// Appends the replies to one caller's calls in a phase.
pub fn append_caller(text: &mut Vec<u8>, caller: u64, replies: &Replies) -> Result<(), AllocError>
    ensures { OnOk result (text.new.items
        ≡ text.old.items ++ caller_text caller replies.now.replies) }
{
    if replies.len() == 0 {
        return Ok(());
    }
    append_number(text, b"caller ", caller)?;
    replies.append_to(text)
}

/// Appends the final rows, and their number. After all phases this ends the transcript.
pub fn append_rows(text: &mut Vec<u8>, rows: &[(u64, u64)]) -> Result<(), AllocError>
    ensures appends { OnOk result (text.new.items ≡ text.old.items ++ rows_text rows.now) }
    ensures ends { OnOk result (AddsRows rows.now text.old.items text.new.items) }
{
    text.extend_from_slice(b"rows\n")?;
    for &(key, value) in rows {
        append_pair(text, b"row ", key, value)?;
    }
    append_number(text, b"end ", rows.len() as u64)
}
