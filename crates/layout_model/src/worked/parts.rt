//! Replays with two parts, worked out by hand. Each function is a law and does nothing.

ghost use Rattle.layout_model.specs.WorkedParts.{PartsAreRebuiltApart};

/// Each part is rebuilt by its own keeper, whatever the other has come to.
pub fn parts_are_rebuilt_apart()
    ensures { PartsAreRebuiltApart }
{}
