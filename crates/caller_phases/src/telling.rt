//! Between two phases each caller hears from all others what they know.
ghost use Rattle.std.specs.Prelude.{◌<◌, length};
ghost use Rattle.caller_phases.specs.Telling.{AllHear, AreEachOf, OneHears};

use xindex_core::{Index, Pass};

/// Each pass heeds a note of every other. Then all know the longest of what they knew.
pub(crate) fn tell_all(index: &Index, passes: &mut Vec<Pass>)
    requires some { 0 < length passes.old.items }
    requires of { AreEachOf index.now passes.old.items }
    ensures { AllHear index.now passes.old.items passes.new.items }
{
    for own in 0..passes.len() {
        tell_one(index, passes, own);
    }
}

// This pass heeds a note of every other.
fn tell_one(index: &Index, passes: &mut Vec<Pass>, own: usize)
    requires own { own < length passes.old.items }
    requires of { AreEachOf index.now passes.old.items }
    ensures { OneHears index.now passes.old.items own passes.new.items }
{
    for other in 0..passes.len() {
        if other != own {
            let note = passes[other].tell(index);
            passes[own].heed(index, note);
        }
    }
}
