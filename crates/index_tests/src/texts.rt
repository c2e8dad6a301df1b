//! What is printed of an index that was not opened or not closed, and of a call that is to be tried again.
use crate::boards::SMALL;
use crate::indexes::opened_index;
use std::test::Fail;
use tried_calls::Why;
use xindex_core::{OpenError, Opened, Unclosed};

#[test]
fn an_error_of_opening_shows_its_cause(rt: HostRuntime) -> Result<(), Fail> {
    let texts = [
        (OpenError::BadLimit { number: 2 }, "bad limit 2"),
        (
            OpenError::Unsorted { at: 1 },
            "the key of row 1 is not above the one before it",
        ),
        (
            OpenError::TooMany { need: 3, have: 2 },
            "the rows need 3 groups and there are 2",
        ),
        (OpenError::Memory, "out of memory"),
    ];
    for (error, text) in texts {
        let shown = format!(in rt.alloc(); "{error}")?;
        assert_eq!(rt; shown.as_str(), text);
    }
    Ok(())
}

#[test]
fn an_index_that_was_not_closed_shows_its_cause(rt: HostRuntime) -> Result<(), Fail> {
    let Opened {
        index,
        passes,
        keeper,
    } = opened_index(&rt, rt.alloc(), SMALL);
    let unclosed = Unclosed {
        index,
        passes,
        keeper,
    };
    let shown = format!(in rt.alloc(); "{unclosed}")?;
    assert_eq!(rt; shown.as_str(), "out of memory");
    Ok(())
}

#[test]
fn a_call_to_be_tried_again_shows_why(rt: HostRuntime) -> Result<(), Fail> {
    let texts = [
        (
            Why::Locked { place: 89, word: 4 },
            "the record at 89 is locked: its state word is 4",
        ),
        (
            Why::Changed {
                place: 89,
                first: 0,
                second: 16,
            },
            "the record at 89 was changed: its state word was 0, then 16",
        ),
        (
            Why::Frozen { group: 1, word: 2 },
            "group 1 takes no new keys: its phase word is 2",
        ),
        (
            Why::Raced {
                place: 0,
                expected: 89,
                found: 93,
            },
            "the word at 0 was to be 89, and was 93",
        ),
    ];
    for (why, text) in texts {
        let shown = format!(in rt.alloc(); "{why}")?;
        assert_eq!(rt; shown.as_str(), text);
    }
    Ok(())
}
