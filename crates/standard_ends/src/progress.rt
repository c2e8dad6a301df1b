//! How far long work is, told on standard error.
ghost use Rattle.std.specs.Prelude.{◌≡◌, ◌≢◌, ◌↔◌, ◌%◌, IsTrue};

use line_session::Gate;
use std::io::{Eprint, IsTerminal};
use std::sync::Wait;

/// How many requests of a caller go by from one line to the next.
const EACH: u64 = 100_000;

/// A gate that holds no request, and tells how many of a caller's have come to it, where somebody looks on.
///
/// Nothing is told to a file or a pipe, which others read later.
#[derive(Drop)]
pub struct Progress<E: Eprint + Drop> {
    // None where nobody looks on.
    shown: Option<E>,
}

impl<E: Eprint + IsTerminal + Drop> Progress<E> {
    /// Tells on this stream, if it is a terminal.
    pub fn new(stream: E) -> Self {
        if stream.is_terminal() {
            Progress {
                shown: Some(stream),
            }
        } else {
            Progress { shown: None }
        }
    }
}

impl<E: Eprint + Drop> Gate for Progress<E> {
    fn before<R: Wait + Copy>(&self, _rt: &R, link: u64, reply: u64) {
        let Some(stream) = &self.shown else {
            return;
        };
        if is_due(reply) {
            // A line that is lost is no reply, so the work goes on.
            let _lost = eprintln!(stream; "caller {link}: {reply} requests");
        }
    }
}

// Whether a line is due after so many requests of a caller.
fn is_due(requests: u64) -> bool
    ensures { IsTrue result ↔ (requests ≢ 0) × (requests % 100000 ≡ 0) }
{
    requests > 0 && requests % EACH == 0
}
