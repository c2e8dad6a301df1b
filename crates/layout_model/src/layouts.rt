//! What holds of layouts between any two lines. Each function is a law and does nothing.
ghost use Rattle.layout_model.specs.OpeningLaws.{OpeningsAreSound, OpeningsHaveTheirPairs};
ghost use Rattle.layout_model.specs.Pairs.{GetsLook, PutsPut, RemovesRemove};
ghost use Rattle.layout_model.specs.ReplayLaws.{LinesKeepLayouts, ReplaysKeepLayouts};
ghost use Rattle.layout_model.specs.RowLaws.{FreesKeepLayouts, GetsKeepLayouts, HoldsKeepLayouts};
ghost use Rattle.layout_model.specs.RowLaws.{PutsKeepLayouts, RemovesKeepLayouts, ScansKeepLayouts};

/// An index is well-formed as it is opened, has all its rows, and has the pairs of the rows that it was given.
pub fn openings_have_their_rows()
    ensures sound { OpeningsAreSound }
    ensures pairs { OpeningsHaveTheirPairs }
{}

/// Each call keeps a layout well-formed and loses no row, and so do callers who are held and freed.
pub fn calls_keep_layouts()
    ensures gets { GetsKeepLayouts }
    ensures puts { PutsKeepLayouts }
    ensures removes { RemovesKeepLayouts }
    ensures scans { ScansKeepLayouts }
    ensures holds { HoldsKeepLayouts }
    ensures frees { FreesKeepLayouts }
{}

/// So does each line of a replay but a turn, and what the lines leave of an index as it was opened is well-formed.
pub fn lines_keep_layouts()
    ensures lines { LinesKeepLayouts }
    ensures replays { ReplaysKeepLayouts }
{}

/// Get, put and remove are look, put and remove of the layout's pairs.
pub fn calls_are_those_of_a_map()
    ensures gets { GetsLook }
    ensures puts { PutsPut }
    ensures removes { RemovesRemove }
{}
