//! What holds of calls. Each function is a law and does nothing.
ghost use Rattle.layout_model.specs.CallLaws.{GetsChangeOnlyProbes, PutsChangeOnePart, PutsTakeRows};
ghost use Rattle.layout_model.specs.CallLaws.{RemovesChangeOnePart, RemovesKeepRows, ScansChangeOnlyProbes};
ghost use Rattle.layout_model.specs.Refusals.{PutsAreFrozen, PutsAreFull, PutsAreWorn};
ghost use Rattle.layout_model.specs.Refusals.{RefusedPutsChangeOnlyProbes, RefusedRemovesChangeOnlyProbes};
ghost use Rattle.layout_model.specs.Refusals.{RemovesAreDoneOrWorn, RemovesAreWorn};

/// A get changes nothing but its caller's probes.
pub fn gets_change_only_probes()
    ensures { GetsChangeOnlyProbes }
{}

/// A scan changes nothing but its caller's probes.
pub fn scans_change_only_probes()
    ensures { ScansChangeOnlyProbes }
{}

/// A put changes no part but that of its key, and takes a row exactly where the key needs one.
pub fn puts_change_one_part()
    ensures part { PutsChangeOnePart }
    ensures rows { PutsTakeRows }
{}

/// A remove changes no part but that of its key, and no count of rows.
pub fn removes_change_one_part()
    ensures part { RemovesChangeOnePart }
    ensures rows { RemovesKeepRows }
{}

/// When a put is refused: for want of a row, since a record is worn, or since the group is frozen.
pub fn puts_are_refused_for_causes()
    ensures full { PutsAreFull }
    ensures worn { PutsAreWorn }
    ensures frozen { PutsAreFrozen }
    ensures unchanged { RefusedPutsChangeOnlyProbes }
{}

/// When a remove is refused: only since the record is worn.
pub fn removes_are_refused_for_causes()
    ensures worn { RemovesAreWorn }
    ensures only { RemovesAreDoneOrWorn }
    ensures unchanged { RefusedRemovesChangeOnlyProbes }
{}
