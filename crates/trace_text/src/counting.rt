//! How many replies of each form a transcript has, by the lines of its text.
ghost use Rattle.std.specs.Prelude.{◌≡◌, List};
ghost use Rattle.wire_commands.specs.declared.reply.Reply.{Reply};
ghost use Rattle.trace_text.specs.Counts.{all_replies, beginning_of, count_of, lines_with};
ghost use Rattle.trace_text.specs.Transcripts.{phases_text};

/// What a reply line tells, without its numbers.
#[derive(Clone, Copy, Debug, PartialEq, Eq)]
pub enum Form {
    /// The value of a key.
    Value,
    /// That a key has none.
    NoValue,
    /// That a key is new.
    New,
    /// The value that was replaced or taken out.
    Old,
    /// That there is no room for a key.
    Full,
    /// That a record is exhausted.
    Worn,
    /// The end of rows. No call has rows yet.
    End,
}

/// How many replies of the form stand in the text of all phases.
pub fn reply_count(text: &[u8], form: Form) -> u64
    ensures { (phases : List (List (List Reply))) → text.now ≡ phases_text phases
        → result ≡ count_of form (all_replies phases) }
{
    line_count(text, beginning_of(form))
}

/// What a reply line of the form begins with.
fn beginning_of(form: Form) -> &'static [u8]
    ensures { result.now ≡ beginning_of form }
{
    match form {
        Form::Value => b"value ",
        Form::NoValue => b"none\n",
        Form::New => b"new\n",
        Form::Old => b"old ",
        Form::Full => b"full\n",
        Form::Worn => b"worn\n",
        Form::End => b"end ",
    }
}

/// How many lines of a text begin so.
fn line_count(text: &[u8], beginning: &[u8]) -> u64
    ensures { result ≡ lines_with beginning.now text.now }
{
    let mut count: u64 = 0;
    if text.starts_with(beginning) {
        count = 1;
    }
    let mut rest = text;
    while let [byte, more @ ..] = rest {
        if *byte == b'\n' && more.starts_with(beginning) {
            count += 1;
        }
        rest = more;
    }
    count
}
