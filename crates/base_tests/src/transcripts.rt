//! A whole transcript, phase by phase.
use std::alloc::{AllocError, Global};
use std::test::Fail;
use trace_text::{Replies, append_phase, append_rows};
use wire_commands::Reply;

// The replies to a caller's calls.
fn replies_of(alloc: Global, list: &[Reply]) -> Result<Replies, AllocError> {
    let mut replies = Replies::with_room(alloc, list.len())?;
    for &reply in list {
        replies.push(reply);
    }
    Ok(replies)
}

#[test]
fn a_transcript_leaves_out_who_made_no_call(rt: HostRuntime) -> Result<(), Fail> {
    let first = [
        replies_of(rt.alloc(), &[Reply::New, Reply::Value(7)])?,
        replies_of(rt.alloc(), &[])?,
        replies_of(rt.alloc(), &[Reply::Old(3)])?,
    ];
    let no_call = [replies_of(rt.alloc(), &[])?, replies_of(rt.alloc(), &[])?];
    let last = [
        replies_of(rt.alloc(), &[])?,
        replies_of(rt.alloc(), &[Reply::NoValue])?,
    ];
    let mut text = Vec::new(rt.alloc());
    append_phase(&mut text, 0, &first)?;
    append_phase(&mut text, 1, &no_call)?;
    append_phase(&mut text, 2, &last)?;
    append_rows(&mut text, &[(1, 10), (2, 20)])?;
    let lines: [&[u8]; 12] = [
        b"phase 0\n",
        b"caller 0\n",
        b"new\n",
        b"value 7\n",
        b"caller 2\n",
        b"old 3\n",
        b"phase 2\n",
        b"caller 1\n",
        b"none\n",
        b"rows\n",
        b"row 1 10\n",
        b"row 2 20\nend 2\n",
    ];
    let mut want = Vec::new(rt.alloc());
    for line in lines {
        want.extend_from_slice(line)?;
    }
    assert_eq!(rt; &text[..], &want[..]);
    Ok(())
}
