//! How a program uses an index: two threads, each with a pass of its own, and what one tells the other.
ghost use Rattle.xindex_core.specs.Passes.{IsPassOf};

use std::thread;
use word_layout::Limits;
use xindex_core::{Index, Opened, Pass, Tried};

// How often a call is tried: another thread's step may interfere.
const TRIES: u32 = 1_000_000;

// Puts the key, and tries again while another thread's step interferes, at most so many times.
fn put(index: &Index, mut pass: Pass, key: u64, value: u64) -> (Pass, Tried<Option<u64>>)
    requires { IsPassOf index.now pass }
    ensures { IsPassOf index.now result.0 }
{
    let mut came = pass.try_put(index, key, value);
    for _ in 1..TRIES {
        let Tried::Again(_) = came else {
            break;
        };
        thread::yield_now();
        came = pass.try_put(index, key, value);
    }
    (pass, came)
}

#[test]
fn what_a_second_thread_put_is_known_once_it_was_told(rt: HostRuntime) {
    let limits = Limits {
        callers: 2,
        ..Limits::standard()
    };
    let Ok(Opened { index, passes, .. }) = Index::open(rt.alloc(), limits, &[]) else {
        panic!(&rt; "there is memory");
    };
    let mut passes = passes.into_iter();
    let (Some(first), Some(second)) = (passes.next(), passes.next()) else {
        panic!(&rt; "each caller has a pass");
    };
    let shared = &index;
    let ((mut first, put_first), (mut second, put_second)) = thread::join(
        &rt,
        move || -> (Pass, Tried<Option<u64>>)
            requires { IsPassOf shared.now first }
            ensures { IsPassOf shared.entry.now result.0 }
        { put(shared, first, 1, 10) },
        move || -> (Pass, Tried<Option<u64>>)
            requires { IsPassOf shared.now second }
            ensures { IsPassOf shared.entry.now result.0 }
        { put(shared, second, 2, 20) },
    );
    assert_eq!(&rt;
        (put_first, put_second),
        (Tried::Done(None), Tried::Done(None))
    );
    let note = second.tell(&index);
    first.heed(&index, note);
    assert_eq!(&rt; first.try_get(&index, 2), Tried::Done(Some(20)));
}
