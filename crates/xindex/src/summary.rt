//! The summary of a run: how many calls were made, how many replies of each form they got, and how many rows are left.
ghost use Rattle.std.specs.Prelude.{◌≡◌, ◌++◌, List, OnOk, length};
ghost use Rattle.std.specs.List.{filter};
ghost use Rattle.wire_commands.specs.declared.reply.Reply.{Reply};
ghost use Rattle.trace_text.specs.Counts.{all_replies};
ghost use Rattle.trace_text.specs.Transcripts.{phases_text};
ghost use Rattle.xindex.specs.Generated.{counts_text, is_call, summary_text};

use std::alloc::AllocError;
use trace_text::{Form, Line, Trace, append_number, reply_count};

/// How many lines of the trace are calls.
pub(crate) fn call_count(trace: &Trace) -> u64
    ensures { result ≡ length (filter is_call trace.now) }
{
    let mut lines = trace.cursor();
    let mut count: u64 = 0;
    while let Some(line) = lines.next_line() {
        if let Line::Call(_) = line {
            count += 1;
        }
    }
    count
}

/// Appends the nine lines of the summary of a run with so many calls and final rows, and with this text of its phases.
pub(crate) fn append_summary(
    text: &mut Vec<u8>,
    calls: u64,
    phases: &[u8],
    rows: u64,
) -> Result<(), AllocError>
    ensures { OnOk result ((replies : List (List (List Reply)))
        → phases.now ≡ phases_text replies
        → text.new.items ≡ text.old.items ++ summary_text calls (all_replies replies) rows) }
{
    append_number(text, b"calls ", calls)?;
    append_counts(text, phases)?;
    append_number(text, b"rows ", rows)
}

// Appends how many replies of each form the text of the phases has.
fn append_counts(text: &mut Vec<u8>, phases: &[u8]) -> Result<(), AllocError>
    ensures { OnOk result ((replies : List (List (List Reply)))
        → phases.now ≡ phases_text replies
        → text.new.items ≡ text.old.items ++ counts_text (all_replies replies)) }
{
    append_number(text, b"value ", reply_count(phases, Form::Value))?;
    append_number(text, b"none ", reply_count(phases, Form::NoValue))?;
    append_number(text, b"new ", reply_count(phases, Form::New))?;
    append_number(text, b"old ", reply_count(phases, Form::Old))?;
    append_number(text, b"full ", reply_count(phases, Form::Full))?;
    append_number(text, b"worn ", reply_count(phases, Form::Worn))?;
    append_number(text, b"end ", reply_count(phases, Form::End))
}
