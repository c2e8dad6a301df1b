//! The words of states, phases and headers, and what each is read as.
use word_layout::{
    HeaderWord, LAST_VERSION, Phase, State, link_word, locked_word, released_word, says_locked,
    says_removed, state_word, value_word, version_in,
};

#[test]
fn each_state_has_its_word_and_is_read_back(rt: HostRuntime) {
    let last = (1 << 60) - 1;
    let table = [
        (0, direct(0, false, false)),
        (4, direct(0, true, false)),
        (8, direct(0, false, true)),
        (12, direct(0, true, true)),
        (16, direct(1, false, false)),
        (u64::MAX - 15, direct(last, false, false)),
        (u64::MAX - 3, direct(last, true, true)),
        (17, State::Redirect { place: 1 }),
        (4294967281, State::Redirect { place: 268435455 }),
        (2, State::Moved),
    ];
    for (word, state) in table {
        assert_eq!(rt; State::read(word), Some(state), "at {word}");
        if let Some(read) = State::read(word) {
            assert_eq!(rt; read.word(), word);
        }
    }
}

#[test]
fn a_word_that_no_state_has_is_not_read(rt: HostRuntime) {
    for word in [
        1,
        3,
        5,
        6,
        7,
        9,
        10,
        11,
        13,
        14,
        15,
        18,
        4294967297,
        u64::MAX,
    ] {
        assert_eq!(rt; State::read(word), None, "at {word}");
    }
}

#[test]
fn the_word_of_a_record_says_what_it_is(rt: HostRuntime) {
    for (word, version, locked, removed) in [
        (0, 0, false, false),
        (4, 0, true, false),
        (120, 7, false, true),
        (u64::MAX - 3, LAST_VERSION, true, true),
    ] {
        assert_eq!(rt; says_locked(word), locked);
        assert_eq!(rt; says_removed(word), removed);
        assert_eq!(rt; version_in(word), version);
    }
}

#[test]
fn a_lock_is_taken_and_released_with_the_next_version(rt: HostRuntime) {
    assert_eq!(rt; (locked_word(0), locked_word(24)), (4, 28));
    assert_eq!(rt;
        (released_word(0, false), released_word(16, true)),
        (16, 40)
    );
    assert_eq!(rt; released_word(24, false), 32);
}

fn direct(version: u64, locked: bool, removed: bool) -> State {
    State::Direct {
        version,
        locked,
        removed,
    }
}

#[test]
fn each_phase_has_its_word_and_is_read_back(rt: HostRuntime) {
    let table = [
        (0, Phase::Open),
        (1, Phase::Frozen),
        (2, Phase::Opened { first: 0 }),
        (6, Phase::Opened { first: 1 }),
        (4194302, Phase::Opened { first: 1048575 }),
    ];
    for (word, phase) in table {
        assert_eq!(rt; Phase::read(word), Some(phase), "at {word}");
        if let Some(read) = Phase::read(word) {
            assert_eq!(rt; read.word(), word);
        }
    }
}

#[test]
fn a_word_that_no_phase_has_is_not_read(rt: HostRuntime) {
    for word in [3, 4, 5, 7, 8, 4194306, u64::MAX] {
        assert_eq!(rt; Phase::read(word), None, "at {word}");
    }
}

#[test]
fn the_words_of_a_place_are_behind_its_key(rt: HostRuntime) {
    assert_eq!(rt;
        (value_word(89), state_word(89), link_word(89)),
        (90, 91, 92)
    );
}

#[test]
fn the_words_of_a_header_count_from_its_pivot(rt: HostRuntime) {
    let pivot = HeaderWord::Pivot.number();
    let (size, error) = (HeaderWord::Size.number(), HeaderWord::LineError.number());
    let (lanes, phase) = (HeaderWord::Lanes.number(), HeaderWord::Phase.number());
    let next = HeaderWord::Next.number();
    assert_eq!(rt;
        [pivot, size, error, lanes, phase, next],
        [0, 1, 2, 3, 4, 5]
    );
    let (first, second) = (
        HeaderWord::FirstSpare.number(),
        HeaderWord::SecondSpare.number(),
    );
    assert_eq!(rt; (first, second), (6, 7));
    for lane in 0..8 {
        assert_eq!(rt; HeaderWord::Head { lane }.number(), 8 + lane);
        assert_eq!(rt; HeaderWord::Cut { lane }.number(), 16 + lane);
    }
}
