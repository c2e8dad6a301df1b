//! One request at a time: it is asked, and its reply is handed on whole.
ghost use Rattle.std.specs.Prelude.{◌≡◌, [], ◌∷◌, OnOk, OnErr, IsErr};
ghost use Rattle.std.specs.Io.KnownBytes.{append_known};
ghost use Rattle.line_session.specs.Ends.{CountsWrite, HandsAllOn, HandsNotAllOn, TakesFront};
ghost use Rattle.line_session.specs.Session.{Exchange};
ghost use Rattle.wire_commands.specs.Replies.{line_of};

use crate::{Gave, Sink, SinkFailed};
use map_model::{Answer, Answerer, Call};
use std::sync::Wait;
use wire_commands::{Reply, Request};

/// Asks what a request asks, and gives the reply that tells the answer. It takes effect where its answerer says.
pub fn reply_to<R: Wait + Copy, A: Answerer>(rt: &R, answerer: &mut A, request: Request) -> Reply
    ensures { Exchange A.answers answerer.old request (result ∷ []) answerer.new }
{
    match request {
        Request::Get { key } => match answerer.ask(rt, Call::Get { key }) {
            Answer::Value(None) => Reply::NoValue,
            Answer::Value(Some(value)) => Reply::Value(value),
            _ => unreachable!(),
        },
        Request::Put { key, value } => match answerer.ask(rt, Call::Put { key, value }) {
            Answer::Old(None) => Reply::New,
            Answer::Old(Some(old)) => Reply::Old(old),
            Answer::Full => Reply::Full,
            Answer::Worn => Reply::Worn,
            _ => unreachable!(),
        },
        Request::Remove { key } => match answerer.ask(rt, Call::Remove { key }) {
            Answer::Old(None) => Reply::NoValue,
            Answer::Old(Some(old)) => Reply::Old(old),
            Answer::Worn => Reply::Worn,
            _ => unreachable!(),
        },
        Request::Quit => Reply::Bye,
        Request::Bad(reason) => Reply::Bad(reason),
    }
}

/// Hands a piece on until the sink has taken all of it. After a failure a front of it was taken.
pub fn write_all<K: Sink>(sink: &mut K, piece: &[u8]) -> Result<(), SinkFailed>
    ensures ok { OnOk result
        ((K.state sink.new).written ≡ append_known (K.state sink.old).written piece.now) }
    ensures err { OnErr result
        (TakesFront piece.now (K.state sink.old).written (K.state sink.new).written) }
    ensures faults { CountsWrite (IsErr result) (K.state sink.old) (K.state sink.new) }
{
    let mut rest = piece;
    while !rest.is_empty() {
        match sink.take(rest) {
            Gave::Bytes(taken) => rest = &rest[taken..],
            Gave::Failed => return Err(SinkFailed),
        }
    }
    Ok(())
}

/// Writes a piece, and hands on all that the sink holds back.
pub fn write_out<K: Sink>(sink: &mut K, piece: &[u8]) -> Result<(), SinkFailed>
    ensures ok { OnOk result (HandsAllOn piece.now (K.state sink.old) (K.state sink.new)) }
    ensures err { OnErr result (HandsNotAllOn piece.now (K.state sink.old) (K.state sink.new)) }
    ensures faults { CountsWrite (IsErr result) (K.state sink.old) (K.state sink.new) }
{
    write_all(sink, piece)?;
    sink.flush()
}

/// Writes a reply's line to the sink.
pub(crate) fn write_reply<K: Sink>(sink: &mut K, reply: Reply) -> Result<(), SinkFailed>
    ensures ok { OnOk result
        ((K.state sink.new).written ≡ append_known (K.state sink.old).written (line_of reply)) }
    ensures err { OnErr result
        (TakesFront (line_of reply) (K.state sink.old).written (K.state sink.new).written) }
    ensures faults { CountsWrite (IsErr result) (K.state sink.old) (K.state sink.new) }
{
    let mut line = [0; 80];
    let len = reply.write(&mut line);
    write_all(sink, &line[..len])
}
