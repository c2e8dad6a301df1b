//! What the program did.
use crate::Status;
use xindex_core::Opened;

/// How the program ended, and the index that it asked, where it opened one.
#[derive(Drop)]
pub struct Outcome {
    pub status: Status,
    pub opened: Option<Opened>,
}

impl Outcome {
    ghost use Rattle.std.specs.Prelude.{◌≡◌};
    ghost use Rattle.xindex.specs.Outcome.{unopened};

    /// Nothing was opened.
    pub(crate) fn unopened(status: Status) -> Outcome
        ensures { result ≡ unopened status }
    {
        Outcome {
            status,
            opened: None,
        }
    }
}
