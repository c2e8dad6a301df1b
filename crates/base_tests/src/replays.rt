//! The lines of a replay, its first bad line, and what a replay tells.
use std::test::Fail;
use trace_text::{GroupPhase, Play, Told, TraceError, append_told, read_play_line, read_replay};
use wire_commands::Request;

const GET: Request = Request::Get { key: 5 };

#[test]
fn a_line_is_skipped_or_a_play(rt: HostRuntime) {
    let put = Request::Put { key: 5, value: 50 };
    let remove = Request::Remove { key: u64::MAX };
    let rows: [(&[u8], Play); 15] = [
        (b"", Play::Skip),
        (b" \t\r", Play::Skip),
        (&[b' '; 100], Play::Skip),
        (b"#0 get 5", Play::Skip),
        (&[b'#'; 100], Play::Skip),
        (b"layout", Play::Layout),
        (b"\tlayout \r", Play::Layout),
        (
            b"0 get 5",
            Play::Ask {
                caller: 0,
                request: GET,
            },
        ),
        (
            b" 003\tget  0005\r",
            Play::Ask {
                caller: 3,
                request: GET,
            },
        ),
        (
            b"1 put 5 50",
            Play::Ask {
                caller: 1,
                request: put,
            },
        ),
        (
            b"2 remove 18446744073709551615",
            Play::Ask {
                caller: 2,
                request: remove,
            },
        ),
        (b"1 hold", Play::Hold(1)),
        (b"1 free\r", Play::Free(1)),
        (b"3 probes ", Play::Probes(3)),
        (b"0000000000000000000000 hold", Play::Hold(0)),
    ];
    for (line, play) in rows {
        assert_eq!(rt; read_play_line(line, 4), Some(play), "at {line:?}");
    }
}

#[test]
fn a_bad_call_is_no_play(rt: HostRuntime) {
    let rows: [&[u8]; 17] = [
        b"4 get 5",
        b"18446744073709551616 get 5",
        b"x get 5",
        b"-1 get 5",
        b"get 5",
        b"0 1 get 5",
        b"0 get",
        b"0 get x",
        b"0 get 5 6",
        b"0 get 18446744073709551616",
        b"0 get 5\r\r",
        b"0 put 5",
        b"0 put 5 x",
        b"0 Get 5",
        b"0 quit",
        b"0 jump",
        b"0 scan 0 9",
    ];
    for line in rows {
        assert_eq!(rt; read_play_line(line, 4), None, "at {line:?}");
    }
}

#[test]
fn a_word_out_of_its_place_is_no_play(rt: HostRuntime) {
    let rows: [&[u8]; 15] = [
        b" #",
        b"0",
        b"0\r",
        b"0 layout",
        b"0 phase",
        b"hold",
        b"0 hold 1",
        b"0 holds",
        b"0 free free",
        b"4 probes",
        b"layout 1",
        b"Layout",
        b"jump",
        b"turn",
        b"caller 0",
    ];
    for line in rows {
        assert_eq!(rt; read_play_line(line, 4), None, "at {line:?}");
    }
}

#[test]
fn a_line_of_more_than_80_bytes_is_no_play(rt: HostRuntime) {
    let mut long = [b' '; 82];
    long[..6].copy_from_slice(b"0 hold");
    assert_eq!(rt; read_play_line(&long[..80], 1), Some(Play::Hold(0)));
    assert_eq!(rt; read_play_line(&long[..81], 1), None);
    // The carriage return at the end is none of the 80.
    long[80] = b'\r';
    assert_eq!(rt; read_play_line(&long[..81], 1), Some(Play::Hold(0)));
    long[81] = b'\r';
    assert_eq!(rt; read_play_line(&long, 1), None);
}

#[test]
fn a_replay_is_its_lines_without_the_skipped_ones(rt: HostRuntime) {
    let text = b"0 get 5\r\n\n# two\n1 hold\n1 get 5\n1 free\n0 probes\nlayout";
    let want = [
        Play::Ask {
            caller: 0,
            request: GET,
        },
        Play::Hold(1),
        Play::Ask {
            caller: 1,
            request: GET,
        },
        Play::Free(1),
        Play::Probes(0),
        Play::Layout,
    ];
    let plays = read_replay(rt.alloc(), text, 2).expect(&rt, "memory");
    assert_eq!(rt; &plays[..], &want[..]);
    let none = read_replay(rt.alloc(), b"\n#\n", 1).expect(&rt, "memory");
    assert_eq!(rt; none.len(), 0);
}

#[test]
fn the_first_bad_line_of_a_replay_is_counted_over_all_lines(rt: HostRuntime) {
    let rows: [(&[u8], u64); 6] = [
        (b"0 jump", 1),
        (b"0 get 5\n2 get 5\n", 2),
        (b"\n# first\n\n0 hold 1\njump\n", 4),
        (b"layout\n #\n", 2),
        (b"0 hold\n1 free\nturn", 3),
        (b"phase\n", 1),
    ];
    for (text, number) in rows {
        let error = read_replay(rt.alloc(), text, 2).err();
        assert_eq!(rt; error, Some(TraceError::BadLine { number }), "{text:?}");
    }
}

// The line of a group with these numbers in this phase.
fn group(pivot: u64, size: u32, removed: u32, rows: u32, phase: GroupPhase) -> Told {
    Told::Group {
        pivot,
        size,
        removed,
        rows,
        phase,
    }
}

#[test]
fn what_a_replay_tells_is_a_line(rt: HostRuntime) -> Result<(), Fail> {
    let rows: [(Told, &[u8]); 8] = [
        (Told::AgainFrozen, b"again frozen\n"),
        (Told::Held, b"held\n"),
        (Told::Freed, b"freed\n"),
        (Told::Probes(0), b"probes 0\n"),
        (group(0, 0, 0, 1, GroupPhase::Open), b"group 0 0 0 1 open\n"),
        (
            group(60, 5, 2, 7, GroupPhase::Frozen),
            b"group 60 5 2 7 frozen\n",
        ),
        (
            group(u64::MAX, 1024, 9, 3, GroupPhase::Opened),
            b"group 18446744073709551615 1024 9 3 opened\n",
        ),
        (
            Told::Free {
                rows: 99,
                groups: 3,
            },
            b"free 99 3\n",
        ),
    ];
    let mut text = Vec::new(rt.alloc());
    let mut want = Vec::new(rt.alloc());
    for (told, line) in rows {
        append_told(&mut text, told)?;
        want.extend_from_slice(line)?;
        assert_eq!(rt; &text[..], &want[..], "after {told:?}");
    }
    Ok(())
}
