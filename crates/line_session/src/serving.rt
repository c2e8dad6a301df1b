//! A whole session, piece by piece.
//!
//! Bytes come in pieces that have nothing to do with the lines. A feed keeps what has come of a line, so a session
//! is the same however its input is cut.
ghost use Rattle.std.specs.Prelude.{◌≡◌, ◌≢◌, ◌<◌, ◌≤◌, Some};
ghost use Rattle.line_session.specs.Ends.{CountsRead, CountsWrite, HandsOut, TakesAtMost, ends_of};
ghost use Rattle.line_session.specs.Served.{Serves, Continues, Finishes, AnswersOne};
ghost use Rattle.line_session.specs.Served.{EndsByReply, EndsWithInput, HandsOnAtEnd};

use crate::gates::{Arrivals, Gate};
use crate::replies::{reply_to, write_reply};
use crate::texts::{PIECE, read_at_most};
use crate::{Ended, Sink, SinkFailed, Source, Took};
use map_model::Answerer;
use std::sync::Wait;
use wire_commands::{Feed, Request};

/// Serves one session: reads requests, asks each and writes its reply before the next, until the input ends, a line
/// asks for the end, an end fails, or `most` bytes were taken. What the sink holds back of the replies is handed on
/// before each read, and before the session ends.
///
/// Each request waits at the gate before it is asked, under the number of the link and its own, from 0. A call takes
/// effect where its answerer says. What follows a `quit` in the same piece was taken and is dropped.
pub fn serve_one<R: Wait + Copy, A: Answerer, S: Source, K: Sink, G: Gate>(
    rt: &R,
    answerer: &mut A,
    source: &mut S,
    sink: &mut K,
    gate: &G,
    link: u64,
    most: u64,
) -> Ended
    requires { 1 ≤ most }
    ensures session { Serves A.answers answerer.old answerer.new
        (ends_of (S.state source.old) (K.state sink.old))
        (ends_of (S.state source.new) (K.state sink.new)) most result }

    // A fault ends the session, and is answered only where it was counted.
    ensures read_faults { CountsRead (result ≡ Ended.ReadFault)
        (S.state source.old) (S.state source.new) }
    ensures write_faults { CountsWrite (result ≡ Ended.WriteFault)
        (K.state sink.old) (K.state sink.new) }
{
    let mut feed = Feed::new();
    let mut arrivals = Arrivals::new(gate, link);
    let mut buffer = [0; PIECE];
    let mut left = most;
    for _ in rt.forever() {
        // Who waits for the replies so far, before asking on, has them now.
        if sink.flush().is_err() {
            return Ended::WriteFault;
        }
        if left == 0 {
            return Ended::Limit;
        }
        match read_piece(source, sink, &mut buffer, left) {
            Took::Bytes(count) => {
                left -= count as u64;
                let piece = &buffer[..count];
                if let Some(ended) = answer_piece(
                    rt,
                    answerer,
                    sink,
                    &mut arrivals,
                    &mut feed,
                    piece,
                ) {
                    return hand_on(sink, ended);
                }
            }
            Took::End => {
                let ended = answer_rest(rt, answerer, sink, &mut arrivals, &mut feed);
                return hand_on(sink, ended);
            }
            Took::Failed => return Ended::ReadFault,
        }
    }
    unreachable!()
}

// Hands on what the sink holds back at this end of the session. After a failed write nothing more is tried.
fn hand_on<K: Sink>(sink: &mut K, ended: Ended) -> Ended
    ensures end { HandsOnAtEnd ended result (K.state sink.new).held }
    ensures written { (K.state sink.new).written ≡ (K.state sink.old).written }
    ensures faults { CountsWrite ((result ≡ Ended.WriteFault) × (ended ≢ Ended.WriteFault))
        (K.state sink.old) (K.state sink.new) }
{
    match ended {
        Ended::WriteFault => ended,
        _ => match sink.flush() {
            Ok(()) => ended,
            Err(SinkFailed) => Ended::WriteFault,
        },
    }
}

// Reads a piece of at most so many bytes. The sink is named by the contract alone: while the session waits for
// bytes, all replies so far have gone out.
fn read_piece<S: Source, K: Sink>(
    source: &mut S,
    sink: &K,
    buffer: &mut [u8; PIECE],
    most: u64,
) -> Took
    requires some { 0 < most }
    requires handed_on { (K.state sink.now).held ≡ 0 }
    ensures bytes { HandsOut result buffer.new
        (S.state source.old).left (S.state source.new).left }
    ensures limit { TakesAtMost result most }
    ensures faults { CountsRead (result ≡ Took.Failed)
        (S.state source.old) (S.state source.new) }
{
    read_at_most(source, buffer, most)
}

// Answers each request that a piece completes, until one ends the session.
fn answer_piece<R: Wait + Copy, A: Answerer, K: Sink, G: Gate>(
    rt: &R,
    answerer: &mut A,
    sink: &mut K,
    arrivals: &mut Arrivals<'_, G>,
    feed: &mut Feed,
    piece: &[u8],
) -> Option<Ended>
    ensures part { Continues A.answers answerer.old answerer.new feed.old feed.new
        (K.state sink.old) (K.state sink.new) piece.now result }
    ensures ends { EndsByReply result }
    ensures faults { CountsWrite (result ≡ Some Ended.WriteFault)
        (K.state sink.old) (K.state sink.new) }
{
    let mut rest = piece;
    while let Some((request, more)) = feed.line(rest) {
        if let Some(ended) = answer(rt, answerer, sink, arrivals, request) {
            return Some(ended);
        }
        rest = more;
    }
    None
}

// Answers the line that the end of the input completes, if there is one.
fn answer_rest<R: Wait + Copy, A: Answerer, K: Sink, G: Gate>(
    rt: &R,
    answerer: &mut A,
    sink: &mut K,
    arrivals: &mut Arrivals<'_, G>,
    feed: &mut Feed,
) -> Ended
    ensures whole { Finishes A.answers answerer.old answerer.new feed.old
        (K.state sink.old) (K.state sink.new) result }
    ensures ends { EndsWithInput result }
    ensures faults { CountsWrite (result ≡ Ended.WriteFault)
        (K.state sink.old) (K.state sink.new) }
{
    match feed.end() {
        Some(request) => answer(rt, answerer, sink, arrivals, request).unwrap_or(Ended::End),
        None => Ended::End,
    }
}

// Answers one request, and tells whether the session ends with it.
fn answer<R: Wait + Copy, A: Answerer, K: Sink, G: Gate>(
    rt: &R,
    answerer: &mut A,
    sink: &mut K,
    arrivals: &mut Arrivals<'_, G>,
    request: Request,
) -> Option<Ended>
    ensures one { AnswersOne A.answers answerer.old answerer.new request
        (K.state sink.old) (K.state sink.new) result }
    ensures faults { CountsWrite (result ≡ Some Ended.WriteFault)
        (K.state sink.old) (K.state sink.new) }
{
    arrivals.pass_next(rt);
    let reply = reply_to(rt, answerer, request);
    if write_reply(sink, reply).is_err() {
        return Some(Ended::WriteFault);
    }
    match request {
        Request::Quit => Some(Ended::Quit),
        _ => None,
    }
}
