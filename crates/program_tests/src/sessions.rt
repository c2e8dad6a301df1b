//! Sessions over a plain map, from bytes to bytes.
ghost use Rattle.std.specs.Prelude.{◌≤◌};

use line_session::{
    BytesSink, BytesSource, CountSink, Ended, NoGate, Sink, Source, SureSource, Took, serve_one,
};
use map_model::PlainMap;
use std::alloc::Global;
use std::sync::Wait;
use std::test::Fail;

const INPUT: &[u8] = b"put 5 50\nget 5\nput 5 51\nremove 5\nget 5\nremove 5";

const REPLIES: &[u8] = b"new\nvalue 50\nold 50\nold 51\nnone\nnone\n";

// One session over an empty map, from bytes to bytes.
fn served<R: Wait + Copy, S: Source>(
    rt: &R,
    alloc: Global,
    source: &mut S,
    sink: &mut BytesSink,
    most: u64,
) -> Result<Ended, Fail>
    requires { 1 ≤ most }
{
    let mut map = PlainMap::with_room(alloc, 2)?;
    Ok(serve_one(rt, &mut map, source, sink, &NoGate, 0, most))
}

#[test]
fn replies_are_the_same_however_the_input_is_cut(rt: HostRuntime) -> Result<(), Fail> {
    for step in [1, 2, 7, 4096, 5000] {
        let mut source = SureSource::new(rt.alloc(), INPUT, step)?;
        let mut sink = BytesSink::new(rt.alloc(), 100, &[])?;
        let ended = served(&rt, rt.alloc(), &mut source, &mut sink, u64::MAX)?;
        assert_eq!(rt; ended, Ended::End, "at steps of {step}");
        assert_eq!(rt; sink.bytes(), REPLIES, "at steps of {step}");
    }
    Ok(())
}

#[test]
fn a_session_ends_where_the_first_end_comes(rt: HostRuntime) -> Result<(), Fail> {
    let table = [
        (b"".as_slice(), 1, Ended::End, b"".as_slice()),
        (b"get 5\nget 6", 1, Ended::Limit, b""),
        (b"get 5\nget 6", 8, Ended::Limit, b"none\n"),
        (b"get 5\nget 6", 11, Ended::Limit, b"none\n"),
        (b"get 5\nget 6", 12, Ended::End, b"none\nnone\n"),
        (b"quit\nget 5\n", 5, Ended::Quit, b"bye\n"),
        (b"quit\nget 5\n", 100, Ended::Quit, b"bye\n"),
        (b"frob\nquit", 100, Ended::Quit, b"bad word\nbye\n"),
        (
            b"put 1 1\nput 2 2\nput 3 3\n",
            99,
            Ended::End,
            b"new\nnew\nfull\n",
        ),
    ];
    for (input, most, ended, replies) in table {
        assert!(rt; most > 0);
        let mut source = SureSource::new(rt.alloc(), input, 3)?;
        let mut sink = BytesSink::new(rt.alloc(), 100, &[])?;
        assert_eq!(rt;
            served(&rt, rt.alloc(), &mut source, &mut sink, most)?,
            ended
        );
        assert_eq!(rt; sink.bytes(), replies);
    }
    Ok(())
}

#[test]
fn a_read_that_fails_ends_the_session_behind_the_lines_before_it(
    rt: HostRuntime,
) -> Result<(), Fail> {
    for (call, replies) in [(0, b"".as_slice()), (1, b"new\n"), (2, b"new\nvalue 50\n")] {
        let mut source = BytesSource::new(rt.alloc(), b"put 5 50\nget 5\nget 5\n", 9, &[call])?;
        let mut sink = BytesSink::new(rt.alloc(), 100, &[])?;
        let ended = served(&rt, rt.alloc(), &mut source, &mut sink, 100)?;
        assert_eq!(rt; ended, Ended::ReadFault, "at call {call}");
        assert_eq!(rt; sink.bytes(), replies, "at call {call}");
        assert_eq!(rt; Source::faults(&source), 1);
    }
    Ok(())
}

#[test]
fn a_write_that_fails_ends_the_session_with_the_replies_before_it(
    rt: HostRuntime,
) -> Result<(), Fail> {
    let table = [
        (100, 0, b"".as_slice()),
        (100, 1, b"new\n"),
        (12, 9, b"new\n"),
    ];
    for (room, call, replies) in table {
        let mut source = SureSource::new(rt.alloc(), INPUT, 4096)?;
        let mut sink = BytesSink::new(rt.alloc(), room, &[call])?;
        let ended = served(&rt, rt.alloc(), &mut source, &mut sink, 100)?;
        assert_eq!(rt;
            ended,
            Ended::WriteFault,
            "with room {room}, at call {call}"
        );
        assert_eq!(rt; sink.bytes(), replies, "with room {room}, at call {call}");
        assert_eq!(rt; Sink::faults(&sink), 1);
    }
    Ok(())
}

#[test]
fn a_sink_may_only_count(rt: HostRuntime) -> Result<(), Fail> {
    let mut map = PlainMap::with_room(rt.alloc(), 2)?;
    let mut source = SureSource::new(rt.alloc(), INPUT, 4096)?;
    let mut sink = CountSink::new();
    assert_eq!(rt;
        serve_one(&rt, &mut map, &mut source, &mut sink, &NoGate, 0, 100),
        Ended::End
    );
    assert_eq!(rt; sink.count(), REPLIES.len() as u64);
    assert_eq!(rt; Source::faults(&source) + Sink::faults(&sink), 0);
    assert_eq!(rt; source.read(&mut [0; 4]), Took::End);
    Ok(())
}
