//! The forms of a request, told by the first word of a line.
//!
//! A new form is one more keyword here, and one more row in each table of the grammar.
ghost use Rattle.std.specs.Prelude.{◌≡◌, ◌≢◌, MatchOption};
ghost use Rattle.wire_commands.specs.Grammar.{keyword_of};

/// A way that a line can be written, with a keyword of its own.
#[derive(Clone, Copy)]
pub enum Form {
    /// `get`, and a key.
    Get,
    /// `put`, a key and a value.
    Put,
    /// `remove`, and a key.
    Remove,
    /// `quit` alone.
    Quit,
}

/// The form whose keyword this is.
pub fn form_of(word: &[u8]) -> Option<Form>
    ensures { MatchOption result ((form : Form) → word.now ≢ keyword_of form)
        (λ form. word.now ≡ keyword_of form) }
{
    match word {
        b"get" => Some(Form::Get),
        b"put" => Some(Form::Put),
        b"remove" => Some(Form::Remove),
        b"quit" => Some(Form::Quit),
        _ => None,
    }
}
