//! The lines of a trace, and its first bad line.
use std::process::Abort;
use std::test::Fail;
use trace_text::{Line, Trace, TraceError, read_trace, read_trace_line};
use wire_commands::Request;

#[test]
fn a_line_is_skipped_or_a_mark_or_a_call(rt: HostRuntime) {
    let put = Request::Put { key: 1, value: 2 };
    let rows: [(&[u8], Line); 12] = [
        (b"", Line::Skip),
        (b"\r", Line::Skip),
        (&[b' '; 100], Line::Skip),
        (b"#phase", Line::Skip),
        (&[b'#'; 100], Line::Skip),
        (b"phase", Line::Phase),
        (b"\tphase \r", Line::Phase),
        (b"caller 0", Line::Caller(0)),
        (b" caller  003", Line::Caller(3)),
        (b"put 1 2\r", Line::Call(put)),
        (b"get 7", Line::Call(Request::Get { key: 7 })),
        (b"remove 7", Line::Call(Request::Remove { key: 7 })),
    ];
    for (line, said) in rows {
        assert_eq!(rt; read_trace_line(line, 4), Some(said), "at {line:?}");
    }
}

#[test]
fn every_other_line_is_bad(rt: HostRuntime) {
    let mut long = [b' '; 81];
    long[..5].copy_from_slice(b"phase");
    let rows: [&[u8]; 13] = [
        b" #",
        b"phase 1",
        b"Phase",
        b"caller",
        b"caller 4",
        b"caller x",
        b"caller 1 2",
        b"caller 18446744073709551616",
        b"quit",
        b"scan 0 9",
        b"get x",
        b"put 1 99999999999999999999",
        &long,
    ];
    for line in rows {
        assert_eq!(rt; read_trace_line(line, 4), None, "at {line:?}");
    }
    assert_eq!(rt; read_trace_line(&long[..80], 4), Some(Line::Phase));
}

/// The lines of a trace are these, in order.
pub(crate) fn assert_lines<R: Abort>(rt: &R, trace: &Trace, lines: &[Line]) {
    let mut cursor = trace.cursor();
    for (at, &line) in lines.iter().enumerate() {
        assert_eq!(rt; cursor.next_line(), Some(line), "line {at}");
    }
    assert_eq!(rt; cursor.next_line(), None);
}

const TWO_PHASES: &[u8] = b"phase\ncaller 0\nput 1 10\r\n\n# two\ncaller 1\nput 2 20\nphase\nget 2";

#[test]
fn a_trace_is_its_lines_without_the_skipped_ones(rt: HostRuntime) {
    let want = [
        Line::Phase,
        Line::Caller(0),
        Line::Call(Request::Put { key: 1, value: 10 }),
        Line::Caller(1),
        Line::Call(Request::Put { key: 2, value: 20 }),
        Line::Phase,
        Line::Call(Request::Get { key: 2 }),
    ];
    let trace = read_trace(rt.alloc(), TWO_PHASES, 2).expect(&rt, "memory");
    assert_lines(&rt, &trace, &want);
    let none = read_trace(rt.alloc(), b"", 1).expect(&rt, "memory");
    assert_lines(&rt, &none, &[]);
}

#[test]
fn a_trace_grows_line_by_line(rt: HostRuntime) -> Result<(), Fail> {
    let mut trace = Trace::new(rt.alloc());
    let lines = [
        Line::Caller(u32::MAX),
        Line::Call(Request::Put {
            key: 1,
            value: u64::MAX,
        }),
        Line::Phase,
        Line::Call(Request::Remove { key: 1 }),
    ];
    for line in lines {
        trace.push(line)?;
        trace.push(Line::Skip)?;
    }
    assert_lines(&rt, &trace, &lines);
    let mut cursor = trace.cursor();
    assert_eq!(rt; cursor.next_line(), Some(lines[0]));
    let mut other = cursor.again();
    assert_eq!(rt; other.next_line(), Some(lines[1]));
    assert_eq!(rt; cursor.next_line(), Some(lines[1]));
    Ok(())
}

#[test]
fn each_error_of_a_trace_is_told(rt: HostRuntime) -> Result<(), Fail> {
    let bad = format!(in rt.alloc(); "{}", TraceError::BadLine { number: 7 })?;
    assert_eq!(rt; bad.as_str(), "bad line 7");
    let memory = format!(in rt.alloc(); "{}", TraceError::Memory)?;
    assert_eq!(rt; memory.as_str(), "not enough memory for the lines");
    Ok(())
}

#[test]
fn the_first_bad_line_is_counted_over_all_lines(rt: HostRuntime) {
    let rows: [(&[u8], u64); 6] = [
        (b"phase\nput 5", 2),
        (b"caller 2\n", 1),
        (b"quit", 1),
        (b"\n# first\n\nput 5\nput 5\n", 4),
        (b"caller 0\n #\n", 2),
        (b"get 1\nget 2\nscan 0 9", 3),
    ];
    for (text, number) in rows {
        let error = read_trace(rt.alloc(), text, 2).err();
        assert_eq!(rt; error, Some(TraceError::BadLine { number }), "{text:?}");
    }
}
