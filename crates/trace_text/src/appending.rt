//! Lines that are written at the end of a text in memory.
//!
//! After a refusal what stands behind the old text is open: who asked lets go of it then.
ghost use Rattle.std.specs.Prelude.{◌≡◌, ◌++◌, OnOk, decimal};
ghost use Rattle.trace_text.specs.Text.{number_line, pair_line};
ghost use Rattle.wire_commands.specs.Replies.{line_of};

use std::alloc::AllocError;
use wire_commands::Reply;

/// Appends a line of a word and a number.
pub fn append_number(text: &mut Vec<u8>, word: &[u8], number: u64) -> Result<(), AllocError>
    ensures { OnOk result (text.new.items ≡ text.old.items ++ number_line word.now number) }
{
    append_part(text, word, number)?;
    text.extend_from_slice(b"\n")
}

/// Appends a line of a word and two numbers.
pub fn append_pair(
    text: &mut Vec<u8>,
    word: &[u8],
    first: u64,
    second: u64,
) -> Result<(), AllocError>
    ensures { OnOk result (text.new.items ≡ text.old.items ++ pair_line word.now first second) }
{
    append_part(text, word, first)?;
    append_number(text, b" ", second)
}

/// Appends a word and a number, which end no line.
pub(crate) fn append_part(text: &mut Vec<u8>, word: &[u8], number: u64) -> Result<(), AllocError>
    ensures { OnOk result (text.new.items ≡ text.old.items ++ (word.now ++ decimal number)) }
{
    let mut digits = itoa::Buffer::new();
    text.extend_from_slice(word)?;
    text.extend_from_slice(digits.format(number).as_bytes())
}

/// Appends the line of a reply.
pub fn append_reply(text: &mut Vec<u8>, reply: Reply) -> Result<(), AllocError>
    ensures { OnOk result (text.new.items ≡ text.old.items ++ line_of reply) }
{
    let mut line = [0; 80];
    let len = reply.write(&mut line);
    text.extend_from_slice(&line[..len])
}
