//! What one caller calls with.
ghost use Rattle.std.specs.Prelude.{◌≡◌};
ghost use Rattle.xindex_core.specs.Passes.{probes_of};

use index_rule::{Hand, PrivateRow};
use line_window::Probes;

/// The right of one caller to make calls on one index.
///
/// It may move to another thread. A pass that is dropped takes the row with it that a lost insertion left it.
pub struct Pass {
    pub(crate) hand: Hand,
    // A filled row that was not linked, for the next insertion.
    pub(crate) spare: Option<PrivateRow>,
    pub(crate) probes: Probes,
}

impl Drop for Pass {
    fn drop(self) {
        let Pass {
            hand: _,
            spare,
            probes: _,
        } = self;
        if let Some(row) = spare {
            row.forget();
        }
    }
}

impl Pass {
    /// How many keys the calls of this caller have compared as they halved the window of a line. The count stands at
    /// `u64::MAX`.
    #[inline]
    pub fn probes(&self) -> u64
        ensures { result ≡ probes_of self.now }
    {
        self.probes.count()
    }

    // The hand again, as the index is closed. A row that was not linked is given up with the table.
    pub(crate) fn into_hand(self) -> Hand
        ensures { result ≡ self.hand }
    {
        let Pass {
            hand,
            spare,
            probes: _,
        } = self;
        if let Some(row) = spare {
            row.forget();
        }
        hand
    }
}
