//! What holds of the moments of every call. The function is a law and does nothing.
ghost use Rattle.index_rule.specs.Moments.{MomentsLieWithin};

/// A moment of a call is not before what its hand knew, nor behind what it knows at the end.
pub fn moments_lie_within()
    ensures { MomentsLieWithin }
{}
