//! A text is written as a whole, and a status tells of it.
ghost use Rattle.std.specs.Prelude.{◌≡◌, ◌≢◌, ◌++◌, ◌≤◌, codes, decimal, length};
ghost use Rattle.line_session.specs.Ends.{CountsWrite};
ghost use Rattle.xindex.specs.Telling.{Tells};

use crate::Status;
use line_session::{Sink, write_out};
use wire_commands::write_number;

/// Writes a text and hands it on, for an end under this status. Where the sink fails, the fault is the status.
pub(crate) fn tell<K: Sink>(sink: &mut K, text: &[u8], own: Status) -> Status
    requires no_fault { own ≢ Status.WriteFault }
    requires not_for_memory { own ≢ Status.Memory }
    ensures tells { Tells text.now own (K.state sink.old) (K.state sink.new) result }
    ensures no_memory { result ≢ Status.Memory }
    ensures write_faults { CountsWrite (result ≡ Status.WriteFault)
        (K.state sink.old) (K.state sink.new) }
{
    match write_out(sink, text) {
        Ok(()) => own,
        Err(_) => Status::WriteFault,
    }
}

/// Tells a word and a number in one line.
pub(crate) fn tell_number<K: Sink>(sink: &mut K, word: &[u8], number: u64, own: Status) -> Status
    requires short { length word.now ≤ 39 }
    requires no_fault { own ≢ Status.WriteFault }
    requires not_for_memory { own ≢ Status.Memory }
    ensures tells { Tells (word.now ++ decimal number ++ codes "\n") own
        (K.state sink.old) (K.state sink.new) result }
    ensures no_memory { result ≢ Status.Memory }
    ensures write_faults { CountsWrite (result ≡ Status.WriteFault)
        (K.state sink.old) (K.state sink.new) }
{
    let mut line = [0; 80];
    let len = write_number(word, number, &mut line);
    tell(sink, &line[..len], own)
}
