//! When a key belongs into a buffer, and when the keeper of its group's part can follow a buffer's links.
//! Each function is a law and does nothing.
ghost use Rattle.delta_buffer.specs.Following.{BuffersStayWalkableForKeepers, KeepersCanFollow};
ghost use Rattle.delta_buffer.specs.Inserting.{KeysWithoutAValueBelong};

/// A key that has no value elsewhere, as a caller found it in its read section, belongs into the
/// buffer until its row is linked there.
pub fn keys_without_a_value_belong()
    ensures { KeysWithoutAValueBelong }
{}

/// The keeper of its part can follow the links of a group that answers for a key or is to, and of one that
/// did before, until the groups of that rebuild are gone.
pub fn keepers_can_follow()
    ensures { KeepersCanFollow }
{}

/// A buffer stays walkable until the keeper of its group's part takes it apart.
pub fn buffers_stay_walkable_for_keepers()
    ensures { BuffersStayWalkableForKeepers }
{}
