//! What holds of every execution in which nothing was rebuilt. Each function is a law and does nothing.
ghost use Rattle.resting_table.specs.NoRebuildLaws.{ArraysAreAsOpened, GroupsAreAsOpened};
ghost use Rattle.resting_table.specs.NoRebuildLaws.{KeysHaveOnePlaceEach, NoPlaceForwards};
ghost use Rattle.resting_table.specs.NoRebuildLaws.{RowsAreInTheirGroup};

/// No place forwards, and no record was copied away.
pub fn no_place_forwards()
    ensures { NoPlaceForwards }
{}

/// The arrays have the places of the opening.
pub fn arrays_are_as_opened()
    ensures { ArraysAreAsOpened }
{}

/// All groups are open, and no key has a new one.
pub fn groups_are_as_opened()
    ensures { GroupsAreAsOpened }
{}

/// A row stands in the buffer of its key's group.
pub fn rows_are_in_their_group()
    ensures { RowsAreInTheirGroup }
{}

/// A key has one place in the arrays and one row at most.
pub fn keys_have_one_place_each()
    ensures { KeysHaveOnePlaceEach }
{}
