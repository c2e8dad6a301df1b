//! Worked sessions, and what stops one.
use crate::streams::{ErrsAtOneFlush, Unreadable, Unwritable};
use line_session::{BytesSink, BytesSource};
use std::alloc::{AllocError, Global};
use std::io::Read;
use std::process::Abort;
use std::sync::{Arc, Wait};
use std::test::Fail;
use std::thread::Threads;
use xindex::{NoGate, StandardInput, StandardOutput, Status, xindex};

const SESSION: &[u8] = b"put 5 50\nget 5\nput 5 51\nremove 5\nget 5\nremove 5\n";

const REPLIES: &[u8] = b"new\nvalue 50\nold 50\nold 51\nnone\nnone\n";

// A gate that holds no request.
pub(crate) fn no_gate(alloc: Global) -> Result<Arc<NoGate>, AllocError> {
    Ok(Arc::new(alloc, NoGate)?)
}

// The program on these words and this input, from bytes to bytes.
pub(crate) fn assert_writes<R: Threads + Wait + Copy + Send + Sync + Abort + 'static>(
    rt: &R,
    alloc: Global,
    words: &[&str],
    input: &[u8],
    output: &[u8],
    status: Status,
) -> Result<(), Fail> {
    for step in [1, 4096] {
        let mut source = BytesSource::new(alloc, input, step, &[])?;
        let mut sink = BytesSink::new(alloc, 1000, &[])?;
        let ended = xindex(rt, alloc, words, &mut source, &mut sink, no_gate(alloc)?).status;
        assert_eq!(rt; ended, status, "at steps of {step}");
        assert_eq!(rt; sink.bytes(), output, "at steps of {step}");
    }
    Ok(())
}

#[test]
fn a_session_writes_the_replies_of_its_lines(rt: HostRuntime) -> Result<(), Fail> {
    let table = [
        (b"".as_slice(), b"".as_slice()),
        (SESSION, REPLIES),
        (
            b"put 5 50\nget 5\nput 5 51\nremove 5\nget 5\nremove 5",
            REPLIES,
        ),
        (
            b"put 5 50\r\nget 5\r\nput 5 51\r\nremove 5\r\nget 5\r\nremove 5\r\n",
            REPLIES,
        ),
        (b"put 5 50\r\nget 5\r\nget 6", b"new\nvalue 50\nnone\n"),
        (
            b"put 0 18446744073709551615\nput 18446744073709551615 0\nget 0\nget 18446744073709551615\n",
            b"new\nnew\nvalue 18446744073709551615\nvalue 0\n",
        ),
        (
            b" get  007 \nGET 5\n\n\r\nquit x\nget 1\r\r\n",
            b"none\nbad word\nbad empty\nbad empty\nbad count\nbad number\n",
        ),
        (
            b"get 18446744073709551616\nget x\nget\nget x 1\nscan 0 9\nquit\nget 5\n",
            b"bad range\nbad number\nbad count\nbad count\nbad word\nbye\n",
        ),
    ];
    for (input, output) in table {
        assert_writes(&rt, rt.alloc(), &["pipe"], input, output, Status::Done)?;
    }
    Ok(())
}

#[test]
fn a_line_has_at_most_80_bytes_beside_its_end(rt: HostRuntime) -> Result<(), Fail> {
    let table = [
        (80, b"\n".as_slice(), b"bad word\n".as_slice()),
        (81, b"\n", b"bad long\n"),
        (80, b"\r\n", b"bad word\n"),
        (81, b"\r\n", b"bad long\n"),
        (80, b"", b"bad word\n"),
        (1_000_000, b"\nget 1\n", b"bad long\nnone\n"),
    ];
    for (letters, end, output) in table {
        let mut input = vec![in rt.alloc(); b'a'; letters]?;
        input.extend_from_slice(end)?;
        assert_writes(&rt, rt.alloc(), &["pipe"], &input, output, Status::Done)?;
    }
    Ok(())
}

#[test]
fn words_that_ask_for_nothing_are_bad_usage(rt: HostRuntime) -> Result<(), Fail> {
    let table = [
        [].as_slice(),
        &["frob"],
        &["pipe", "--records", "x"],
        &["pipe", "--bytes", "0"],
        &["--help"],
    ];
    for words in table {
        assert_writes(
            &rt,
            rt.alloc(),
            words,
            SESSION,
            b"bad usage\n",
            Status::Usage,
        )?;
    }
    Ok(())
}

#[test]
fn bad_limits_are_told_by_the_first_rule_that_they_break(rt: HostRuntime) -> Result<(), Fail> {
    let table = [
        (
            ["pipe", "--callers=0"].as_slice(),
            b"bad limit 1\n".as_slice(),
        ),
        (&["pipe", "--records", "1"], b"bad limit 2\n"),
        (
            &["pipe", "--callers", "65", "--records", "1"],
            b"bad limit 1\n",
        ),
        (&["--groups=65537", "pipe"], b"bad limit 3\n"),
        (&["pipe", "--group-size", "7"], b"bad limit 4\n"),
        (&["pipe", "--slots", "4097"], b"bad limit 5\n"),
        (&["pipe", "--due", "257"], b"bad limit 6\n"),
        (&["pipe", "--assist", "0"], b"bad limit 7\n"),
        (
            &["pipe", "--chain", "18446744073709551615"],
            b"bad limit 8\n",
        ),
        (
            &["pipe", "--first-version", "1152921504606846976"],
            b"bad limit 9\n",
        ),
        (
            &["pipe", "--groups", "65536", "--group-size", "1024"],
            b"bad limit 10\n",
        ),
        (
            &["pipe", "--due", "4294967297", "--group-size", "4294967298"],
            b"bad limit 4\n",
        ),
    ];
    for (words, line) in table {
        assert_writes(&rt, rt.alloc(), words, SESSION, line, Status::BadLimits)?;
    }
    Ok(())
}

#[test]
fn limits_that_keep_the_rules_are_taken(rt: HostRuntime) -> Result<(), Fail> {
    let words = [
        "pipe",
        "--callers",
        "64",
        "--due=256",
        "--first-version",
        "1152921504606846965",
    ];
    assert_writes(&rt, rt.alloc(), &words, SESSION, REPLIES, Status::Done)
}

#[test]
fn new_keys_are_refused_when_no_row_is_free(rt: HostRuntime) -> Result<(), Fail> {
    assert_writes(
        &rt,
        rt.alloc(),
        &["pipe", "--callers", "1", "--records", "2"],
        b"put 1 10\nput 2 20\nput 3 30\nget 1\nremove 2\nput 2 21\n",
        b"new\nnew\nfull\nvalue 10\nold 20\nnew\n",
        Status::Done,
    )
}

#[test]
fn a_record_of_the_last_version_is_worn(rt: HostRuntime) -> Result<(), Fail> {
    assert_writes(
        &rt,
        rt.alloc(),
        &["pipe", "--first-version=1152921504606846974"],
        b"put 5 50\nput 5 51\nput 5 52\nremove 5\nget 5\n",
        b"new\nold 50\nworn\nworn\nvalue 51\n",
        Status::Done,
    )
}

#[test]
fn a_session_hands_out_a_pass_for_each_caller_and_a_refusal_none(
    rt: HostRuntime,
) -> Result<(), Fail> {
    for (words, many) in [(["pipe"].as_slice(), Some(4)), (&["pipe", "--due=0"], None)] {
        let mut source = BytesSource::new(rt.alloc(), SESSION, 7, &[])?;
        let mut sink = BytesSink::new(rt.alloc(), 1000, &[])?;
        let outcome = xindex(
            &rt,
            rt.alloc(),
            words,
            &mut source,
            &mut sink,
            no_gate(rt.alloc())?,
        );
        let passes = outcome.opened.map(|opened| opened.passes.len());
        assert_eq!(rt; passes, many);
    }
    Ok(())
}

#[test]
fn a_limit_of_bytes_ends_the_session(rt: HostRuntime) -> Result<(), Fail> {
    let table = [
        ("8", b"none\n".as_slice(), Status::Limit),
        ("12", b"none\nnone\n", Status::Limit),
        ("13", b"none\nnone\n", Status::Done),
    ];
    for (bytes, output, status) in table {
        let words = ["pipe", "--bytes", bytes];
        assert_writes(&rt, rt.alloc(), &words, b"get 5\nget 6\n", output, status)?;
    }
    Ok(())
}

#[test]
fn a_fault_has_its_status_and_loses_no_reply_before_it(rt: HostRuntime) -> Result<(), Fail> {
    let table = [
        ("pipe", 0, 9, 100, Status::ReadFault, b"".as_slice()),
        ("pipe", 1, 9, 100, Status::ReadFault, b"new\n"),
        ("pipe", 9, 1, 100, Status::WriteFault, b"new\n"),
        ("pipe", 9, 9, 12, Status::WriteFault, b"new\n"),
        ("frob", 0, 0, 100, Status::WriteFault, b""),
        ("frob --due 0", 0, 0, 100, Status::WriteFault, b""),
        ("pipe --due 0", 0, 0, 100, Status::WriteFault, b""),
        ("pipe --due 0", 0, 9, 11, Status::WriteFault, b""),
    ];
    for (line, read, write, room, status, output) in table {
        let mut source = BytesSource::new(rt.alloc(), SESSION, 9, &[read])?;
        let mut sink = BytesSink::new(rt.alloc(), room, &[write])?;
        let words: Vec<&str> = line.split(' ').collect(rt.alloc())?;
        let ended = xindex(
            &rt,
            rt.alloc(),
            &words,
            &mut source,
            &mut sink,
            no_gate(rt.alloc())?,
        )
        .status;
        assert_eq!(rt;
            ended,
            status,
            "{line} with failing calls {read} and {write}"
        );
        assert_eq!(rt;
            sink.bytes(),
            output,
            "{line} with failing calls {read} and {write}"
        );
    }
    Ok(())
}

#[test]
fn an_error_of_a_stream_has_its_status(rt: HostRuntime) -> Result<(), Fail> {
    let mut source = StandardInput::new(SESSION.chain(Unreadable));
    let mut sink = BytesSink::new(rt.alloc(), 1000, &[])?;
    let outcome = xindex(
        &rt,
        rt.alloc(),
        &["pipe"],
        &mut source,
        &mut sink,
        no_gate(rt.alloc())?,
    );
    assert_eq!(rt; outcome.status.number(), 3);
    assert_eq!(rt; sink.bytes(), REPLIES);
    for writer in [Unwritable::ErrsAtWrite, Unwritable::ErrsAtFlush] {
        let mut source = StandardInput::new(SESSION);
        let mut sink = StandardOutput::new(rt.alloc(), writer)?;
        let outcome = xindex(
            &rt,
            rt.alloc(),
            &["pipe"],
            &mut source,
            &mut sink,
            no_gate(rt.alloc())?,
        );
        assert_eq!(rt; outcome.status.number(), 4, "{writer:?}");
    }
    Ok(())
}

#[test]
fn an_error_of_any_flush_is_told_of_the_last_one_too(rt: HostRuntime) -> Result<(), Fail> {
    // The replies go out before the second and the third read, and at the end.
    for (flush, status) in [(0, 4), (1, 4), (2, 4), (3, 0)] {
        let reader = b"put 5 50\n".chain(b"get 5\n".chain(b"get 6".as_slice()));
        let mut source = StandardInput::new(reader);
        let mut sink = StandardOutput::new(rt.alloc(), ErrsAtOneFlush(flush))?;
        let outcome = xindex(
            &rt,
            rt.alloc(),
            &["pipe"],
            &mut source,
            &mut sink,
            no_gate(rt.alloc())?,
        );
        assert_eq!(rt; outcome.status.number(), status, "at flush {flush}");
    }
    for (input, words) in [("quit\n", "pipe"), ("", "frob"), ("", "pipe --due 0")] {
        let words: Vec<&str> = words.split(' ').collect(rt.alloc())?;
        let mut source = StandardInput::new(input.as_bytes());
        let mut sink = StandardOutput::new(rt.alloc(), ErrsAtOneFlush(0))?;
        let outcome = xindex(
            &rt,
            rt.alloc(),
            &words,
            &mut source,
            &mut sink,
            no_gate(rt.alloc())?,
        );
        assert_eq!(rt; outcome.status.number(), 4, "{input:?}");
    }
    Ok(())
}

#[test]
fn each_status_has_its_number(rt: HostRuntime) {
    let table = [
        (Status::Done, 0),
        (Status::Usage, 2),
        (Status::ReadFault, 3),
        (Status::WriteFault, 4),
        (Status::BadTrace, 5),
        (Status::Memory, 6),
        (Status::BadLimits, 7),
        (Status::Limit, 9),
    ];
    for (status, number) in table {
        assert_eq!(rt; status.number(), number, "{status:?}");
    }
}
