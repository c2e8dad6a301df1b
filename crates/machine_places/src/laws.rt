//! What holds after every valid execution. Each function is a law and does nothing.
ghost use Rattle.machine_places.specs.Agreement.{AtMostOneLivePlace, MapAgreesWithLivePlaces};
ghost use Rattle.machine_places.specs.Agreement.{HistoriesAreLegal};
ghost use Rattle.machine_places.specs.Agreement.{LivePlacesStandInTheirGroups};
ghost use Rattle.machine_places.specs.RowCounts.{LinkedRowsAreInserts};

/// A place of a key that has a value is the one live place of the key.
pub fn at_most_one_live_place()
    ensures { AtMostOneLivePlace }
{}

/// The map after the history has at each key the value at its live place, or none where it has
/// none.
pub fn map_agrees_with_live_places()
    ensures { MapAgreesWithLivePlaces }
{}

/// A live place is in the array of the key's group or behind its redirect there, in the group's
/// buffer, or, while the group is opened, in the buffer of the new group.
pub fn live_places_stand_in_their_groups()
    ensures { LivePlacesStandInTheirGroups }
{}

/// Each remove of the history finds its key, and each change is by a caller of the table.
pub fn histories_are_legal()
    ensures { HistoriesAreLegal }
{}

/// No more record rows are in buffers or retired than the history has inserting changes.
pub fn linked_rows_are_inserts()
    ensures { LinkedRowsAreInserts }
{}
