//! What one hand tells another.
ghost use Rattle.std.specs.Prelude.{◌≡◌, []};

use crate::rule::Place;

/// What a hand knew when it told it.
///
/// It may move to another thread, and makes no step. At run time it is nothing.
#[derive(Drop)]
pub struct Note {
    pub(crate) seat: Place,
    ghost none: { seat.me.0.numbers ≡ [] },
    ghost bare: { seat.me.1 ≡ [] },
}
