//! The request of a line, and of bytes that come one by one.
use wire_commands::{Feed, Reason, Request, read_line};

#[test]
fn a_line_is_a_request_of_its_form(rt: HostRuntime) {
    let put = Request::Put { key: 1, value: 2 };
    let rows: [(&[u8], Request); 14] = [
        (b"get 0", Request::Get { key: 0 }),
        (b" get  007 ", Request::Get { key: 7 }),
        (b"\tget\t7", Request::Get { key: 7 }),
        (b"get 18446744073709551615", Request::Get { key: u64::MAX }),
        (
            b"get 000000000000000000000000000000009",
            Request::Get { key: 9 },
        ),
        (
            b"get 9999999999999999999",
            Request::Get {
                key: 9_999_999_999_999_999_999,
            },
        ),
        (
            b"get 10000000000000000000",
            Request::Get {
                key: 10_000_000_000_000_000_000,
            },
        ),
        (b"put 01 00000000000000000002", put),
        (b"\tput  1\t 2  ", put),
        (b"put 1 2", put),
        (b"put 1 2\r", put),
        (b"remove 10", Request::Remove { key: 10 }),
        (b"quit", Request::Quit),
        (b"  quit \t", Request::Quit),
    ];
    for (line, request) in rows {
        assert_eq!(rt; read_line(line), request, "at {line:?}");
    }
}

#[test]
fn a_bad_line_has_the_first_reason_that_holds(rt: HostRuntime) {
    let rows: [(&[u8], Reason); 26] = [
        (&[b'a'; 81], Reason::Long),
        (&[b' '; 81], Reason::Long),
        (b"", Reason::Empty),
        (b" \t ", Reason::Empty),
        (b"\r", Reason::Empty),
        (&[b'a'; 80], Reason::Word),
        (b"GET 5", Reason::Word),
        (b"scan 0 9", Reason::Word),
        (b"gets 5", Reason::Word),
        (b"5", Reason::Word),
        (b"get", Reason::Count),
        (b"get x 1", Reason::Count),
        (b"put 1", Reason::Count),
        (b"put x 1 2", Reason::Count),
        (b"quit x", Reason::Count),
        (b"get x", Reason::Number),
        (b"get -1", Reason::Number),
        (b"get 1\r\r", Reason::Number),
        (b"put x 99999999999999999999", Reason::Number),
        (b"put 99999999999999999999 x", Reason::Number),
        (b"get 1 2", Reason::Count),
        (b"put 1 2 3", Reason::Count),
        (b"put 12345678901234567890x 1", Reason::Number),
        (b"get 18446744073709551616", Reason::Range),
        (b"get 99999999999999999999", Reason::Range),
        (b"put 0 99999999999999999999", Reason::Range),
    ];
    for (line, reason) in rows {
        assert_eq!(rt; read_line(line), Request::Bad(reason), "at {line:?}");
    }
}

#[test]
fn one_return_at_the_end_is_not_counted(rt: HostRuntime) {
    let mut line = [b'a'; 82];
    line[80] = b'\r';
    assert_eq!(rt; read_line(&line[..81]), Request::Bad(Reason::Word));
    line[80] = b'a';
    line[81] = b'\r';
    assert_eq!(rt; read_line(&line), Request::Bad(Reason::Long));
}

const INPUT: &[u8] = b"put 1 2\r\n\nget x\nget 1";

#[test]
fn a_request_comes_with_its_newline_or_the_end(rt: HostRuntime) {
    let mut feed = Feed::new();
    for (i, &byte) in INPUT.iter().enumerate() {
        let want = match i {
            8 => Some(Request::Put { key: 1, value: 2 }),
            9 => Some(Request::Bad(Reason::Empty)),
            15 => Some(Request::Bad(Reason::Number)),
            _ => None,
        };
        assert_eq!(rt; feed.byte(byte), want, "at byte {i}");
    }
    assert_eq!(rt; feed.end(), Some(Request::Get { key: 1 }));
    assert_eq!(rt; feed.end(), None);
    assert_eq!(rt; feed.byte(b'\r'), None);
    assert_eq!(rt; feed.end(), Some(Request::Bad(Reason::Empty)));
}

#[test]
fn lines_that_come_some_at_a_time_are_read_however_they_are_cut(rt: HostRuntime) {
    let mut feed = Feed::new();
    let put = Request::Put { key: 1, value: 2 };
    for cut in 0..INPUT.len() {
        let (first, second) = INPUT.split_at(cut);
        let mut wanted = [
            put,
            Request::Bad(Reason::Empty),
            Request::Bad(Reason::Number),
        ]
        .into_iter();
        for piece in [first, second] {
            let mut rest = piece;
            // No piece has more lines than bytes.
            for _ in 0..piece.len() {
                let Some((request, more)) = feed.line(rest) else {
                    break;
                };
                assert_eq!(rt; Some(request), wanted.next(), "cut at {cut}");
                rest = more;
            }
        }
        assert_eq!(rt; wanted.next(), None, "cut at {cut}");
        assert_eq!(rt; feed.end(), Some(Request::Get { key: 1 }), "cut at {cut}");
    }
}

#[test]
fn a_long_line_that_comes_in_pieces_is_too_long(rt: HostRuntime) {
    let mut feed = Feed::new();
    for length in [79, 80, 81, 200] {
        let reason = if length > 80 {
            Reason::Long
        } else {
            Reason::Word
        };
        assert_eq!(rt; feed.line(&[b'a'; 200][..length - 1]), None);
        let ended = feed.line(b"a\nget 7\n");
        assert_eq!(rt; ended, Some((Request::Bad(reason), b"get 7\n".as_slice())));
        let ended = feed.line(b"get 7\n");
        assert_eq!(rt; ended, Some((Request::Get { key: 7 }, b"".as_slice())));
    }
}

#[test]
fn a_line_of_any_length_leaves_no_trace_in_the_next(rt: HostRuntime) {
    let mut feed = Feed::default();
    for length in [80u32, 81, 82, 83, 1_000_000] {
        for _ in 0..length {
            assert_eq!(rt; feed.byte(b'a'), None);
        }
        assert_eq!(rt; feed.byte(b'\r'), None);
        let reason = if length == 80 {
            Reason::Word
        } else {
            Reason::Long
        };
        assert_eq!(rt; feed.byte(b'\n'), Some(Request::Bad(reason)), "at {length}");
    }
    for &byte in b"quit" {
        assert_eq!(rt; feed.byte(byte), None);
    }
    assert_eq!(rt; feed.byte(b'\n'), Some(Request::Quit));
}
