//! Traces that the program runs, and traces that it makes.
use crate::programs::{assert_writes, no_gate};
use line_session::{BytesSink, BytesSource};
use std::test::Fail;
use xindex::{Status, xindex};

// Two callers, of which each gets in the second phase what the other one put in the first.
const TRACE: &[u8] =
    b"phase\ncaller 0\nput 1 10\ncaller 1\nput 2 20\nphase\ncaller 0\nget 2\ncaller 1\nget 1\n";

const TRANSCRIPT: &[u8] = b"phase 1\ncaller 0\nnew\ncaller 1\nnew\n\
phase 2\ncaller 0\nvalue 20\ncaller 1\nvalue 10\nrows\nrow 1 10\nrow 2 20\nend 2\n";

// A line of more than 80 bytes, and a comment of as many.
const LONG: &[u8] = &[b'a'; 100];

const COMMENT: &[u8] = &[b'#'; 100];

#[test]
fn a_trace_is_answered_by_its_transcript(rt: HostRuntime) -> Result<(), Fail> {
    let table = [
        (TRACE, TRANSCRIPT),
        (b"", b"rows\nend 0\n"),
        (
            b"# nothing\n\n \t\nphase\nphase\ncaller 3\n",
            b"rows\nend 0\n",
        ),
        (
            b"put 7 70\nput 7 71\nremove 7\nget 7\nremove 7",
            b"phase 0\ncaller 0\nnew\nold 70\nold 71\nnone\nnone\nrows\nend 0\n",
        ),
        (
            b"caller 1\r\nput 2 20\r\ncaller 0\r\nput 1 10\r\ncaller 01\r\nget 2\r\n",
            b"phase 0\ncaller 0\nnew\ncaller 1\nnew\nvalue 20\nrows\nrow 1 10\nrow 2 20\nend 2\n",
        ),
        (
            b"caller 3\nphase\nput 5 50\nphase\nphase\ncaller 2\nget 5\n",
            b"phase 1\ncaller 0\nnew\nphase 3\ncaller 2\nvalue 50\nrows\nrow 5 50\nend 1\n",
        ),
    ];
    for (input, output) in table {
        assert_writes(&rt, rt.alloc(), &["run"], input, output, Status::Done)?;
    }
    Ok(())
}

#[test]
fn a_bad_line_is_told_by_its_number_among_all_lines(rt: HostRuntime) -> Result<(), Fail> {
    let table = [
        (b"phase\nput 5\n".as_slice(), b"bad line 2\n".as_slice()),
        (b"caller 4\n", b"bad line 1\n"),
        (b"quit\n", b"bad line 1\n"),
        (b"put 5 50\n# a comment\n\nget x\nfrob\n", b"bad line 4\n"),
        (b"get 5\n # no comment\n", b"bad line 2\n"),
        (b"scan 0 9\n", b"bad line 1\n"),
        (b"phase 1\n", b"bad line 1\n"),
        (b"caller\n", b"bad line 1\n"),
        (b"caller 0 1\n", b"bad line 1\n"),
        (b"get 18446744073709551616\n", b"bad line 1\n"),
        (b"get 5\nGET 5", b"bad line 2\n"),
    ];
    for (input, output) in table {
        assert_writes(&rt, rt.alloc(), &["run"], input, output, Status::BadTrace)?;
    }
    Ok(())
}

#[test]
fn only_a_line_that_is_skipped_may_be_long(rt: HostRuntime) -> Result<(), Fail> {
    let table = [
        (COMMENT, b"rows\nend 0\n".as_slice(), Status::Done),
        (LONG, b"bad line 1\n", Status::BadTrace),
    ];
    for (input, output, status) in table {
        assert_writes(&rt, rt.alloc(), &["run"], input, output, status)?;
    }
    Ok(())
}

#[test]
fn a_caller_is_below_the_number_that_is_asked_for(rt: HostRuntime) -> Result<(), Fail> {
    let table = [
        ("1", b"bad line 1\n".as_slice(), Status::BadTrace),
        ("2", b"phase 0\ncaller 1\nnone\nrows\nend 0\n", Status::Done),
    ];
    for (callers, output, status) in table {
        let words = ["run", "--callers", callers];
        assert_writes(
            &rt,
            rt.alloc(),
            &words,
            b"caller 1\nget 5\n",
            output,
            status,
        )?;
    }
    Ok(())
}

#[test]
fn a_text_that_does_not_end_before_the_limit_is_not_run(rt: HostRuntime) -> Result<(), Fail> {
    let table = [
        ("8", b"".as_slice(), Status::Limit),
        ("12", b"", Status::Limit),
        (
            "13",
            b"phase 0\ncaller 0\nnone\nnone\nrows\nend 0\n",
            Status::Done,
        ),
    ];
    for (bytes, output, status) in table {
        let words = ["run", "--bytes", bytes];
        assert_writes(&rt, rt.alloc(), &words, b"get 5\nget 6\n", output, status)?;
    }
    Ok(())
}

#[test]
fn nothing_is_written_before_the_end(rt: HostRuntime) -> Result<(), Fail> {
    let trace = "gen --mix c --load 1 --ops 0 --print trace";
    let table = [
        ("run", 0, 9, 1000, Status::ReadFault),
        ("run", 1, 9, 1000, Status::ReadFault),
        ("run", 9, 0, 1000, Status::WriteFault),
        ("run", 9, 9, 12, Status::WriteFault),
        ("gen", 0, 0, 1000, Status::WriteFault),
        (trace, 0, 0, 1000, Status::WriteFault),
        ("gen --due 257", 0, 0, 1000, Status::WriteFault),
    ];
    for (line, read, write, room, status) in table {
        let mut source = BytesSource::new(rt.alloc(), TRACE, 80, &[read])?;
        let mut sink = BytesSink::new(rt.alloc(), room, &[write])?;
        let words: Vec<&str> = line.split(' ').collect(rt.alloc())?;
        let gate = no_gate(rt.alloc())?;
        let outcome = xindex(&rt, rt.alloc(), &words, &mut source, &mut sink, gate);
        assert_eq!(rt;
            outcome.status,
            status,
            "{line} with failing calls {read} and {write}"
        );
        assert!(rt; outcome.opened.is_none(), "{line}");
        assert!(rt;
            sink.bytes().is_empty(),
            "{line} with failing calls {read} and {write}"
        );
    }
    Ok(())
}

#[test]
fn a_trace_is_made_of_a_mix(rt: HostRuntime) -> Result<(), Fail> {
    let table = [
        (
            "gen --mix c --load 1 --ops 2 --callers 2 --print trace",
            b"phase\ncaller 0\nput 0 1\nphase\ncaller 0\nget 0\ncaller 1\nget 0\n".as_slice(),
        ),
        (
            "gen --mix c --load 2 --ops 0 --callers 1 --print trace",
            b"phase\ncaller 0\nput 0 1\nput 11400714819323198485 2\nphase\n",
        ),
        (
            "gen --mix=a --load=3 --ops=6 --callers=2 --seed=7 --print=trace",
            b"phase\ncaller 0\nput 0 1\nput 4354685564936845354 3\ncaller 1\n\
put 11400714819323198485 2\nphase\ncaller 0\nput 0 4\nput 0 6\nput 0 8\n\
caller 1\nget 11400714819323198485\nput 0 7\nput 0 9\n",
        ),
    ];
    for (line, output) in table {
        let words: Vec<&str> = line.split(' ').collect(rt.alloc())?;
        assert_writes(&rt, rt.alloc(), &words, b"frob\n", output, Status::Done)?;
    }
    Ok(())
}

#[test]
fn a_summary_counts_the_replies_of_each_form(rt: HostRuntime) -> Result<(), Fail> {
    let table = [
        (
            "gen --mix c --load 1000 --ops 1000",
            b"calls 2000\nvalue 1000\nnone 0\nnew 1000\nold 0\nfull 0\nworn 0\nend 0\nrows 1000\n".as_slice(),
        ),
        (
            "gen --mix a --load 1000 --ops 1000 --seed 1",
            b"calls 2000\nvalue 521\nnone 0\nnew 1000\nold 479\nfull 0\nworn 0\nend 0\nrows 1000\n",
        ),
        (
            "gen",
            b"calls 2000\nvalue 521\nnone 0\nnew 1000\nold 479\nfull 0\nworn 0\nend 0\nrows 1000\n",
        ),
        (
            "gen --mix b --print summary",
            b"calls 2000\nvalue 960\nnone 0\nnew 1000\nold 40\nfull 0\nworn 0\nend 0\nrows 1000\n",
        ),
        (
            "gen --mix d",
            b"calls 2000\nvalue 948\nnone 0\nnew 1052\nold 0\nfull 0\nworn 0\nend 0\nrows 1052\n",
        ),
        (
            "gen --mix f",
            b"calls 2479\nvalue 1000\nnone 0\nnew 1000\nold 479\nfull 0\nworn 0\nend 0\nrows 1000\n",
        ),
        (
            "gen --mix f --load 10 --ops 0",
            b"calls 10\nvalue 0\nnone 0\nnew 10\nold 0\nfull 0\nworn 0\nend 0\nrows 10\n",
        ),
        (
            "gen --mix c --load 3 --ops 0 --callers 1 --records 2",
            b"calls 3\nvalue 0\nnone 0\nnew 2\nold 0\nfull 1\nworn 0\nend 0\nrows 2\n",
        ),
    ];
    for (line, output) in table {
        let words: Vec<&str> = line.split(' ').collect(rt.alloc())?;
        assert_writes(&rt, rt.alloc(), &words, b"frob\n", output, Status::Done)?;
    }
    Ok(())
}

#[test]
fn limits_and_words_are_refused_before_a_mode_begins(rt: HostRuntime) -> Result<(), Fail> {
    let table = [
        (
            "run --due 257",
            b"bad limit 6\n".as_slice(),
            Status::BadLimits,
        ),
        (
            "gen --print trace --due 257",
            b"bad limit 6\n",
            Status::BadLimits,
        ),
        ("gen --mix e", b"bad usage\n", Status::Usage),
        ("gen --load 0", b"bad usage\n", Status::Usage),
        ("run --ops x", b"bad usage\n", Status::Usage),
    ];
    for (line, output, status) in table {
        let words: Vec<&str> = line.split(' ').collect(rt.alloc())?;
        assert_writes(&rt, rt.alloc(), &words, b"frob\n", output, status)?;
    }
    Ok(())
}
