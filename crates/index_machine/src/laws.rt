//! What holds after every valid execution. Each function is a law and does nothing.
ghost use Rattle.index_machine.specs.RowLaws.{EachRowIsInOnePlace, HeldRowsStay};
ghost use Rattle.index_machine.specs.RowLaws.{FreeStackIsLinked, LinksNameRows};
ghost use Rattle.index_machine.specs.SectionLaws.{EpochsCountCrossings, ReadSectionsAlternate, HoldersAreInside};
ghost use Rattle.index_machine.specs.HeadLaws.{ObservedHeadsHold, GracePeriodEndsObservedHeads};
ghost use Rattle.index_machine.specs.Represents.{AllStepsRepresent, WordsStandForTheState};

/// No two hands hold one row, and no row in a hand is free.
pub fn each_row_is_in_one_place()
    ensures { EachRowIsInOnePlace }
{}

/// A walk from the head along the links meets each free row once.
pub fn free_stack_is_linked()
    ensures { FreeStackIsLinked }
{}

/// The link of each record row is 0 or the place of a record row, so who follows it finds a row.
pub fn links_name_rows()
    ensures { LinksNameRows }
{}

/// What others do leaves a row in a hand, and its words, as they were.
pub fn held_rows_stay()
    ensures { HeldRowsStay }
{}

/// An epoch word is odd exactly while its caller is inside.
pub fn epochs_count_crossings()
    ensures { EpochsCountCrossings }
{}

/// No hand enters a read section inside of one, nor leaves one twice.
pub fn read_sections_alternate()
    ensures { ReadSectionsAlternate }
{}

/// A caller that leaves holds no version lock, so no place stays locked by one that is outside.
pub fn holders_are_inside()
    ensures { HoldersAreInside }
{}

/// A link that was loaded with its head is that row's link whenever the row is the head again.
///
/// So an exchange that finds the head as it was loaded stores the right next one, however often the
/// head changed in between.
pub fn observed_heads_hold()
    ensures { ObservedHeadsHold }
{}

/// A caller that has left its read section since observes no row that was in no stack by then.
///
/// The row was in no stack when the grace period began, and was not given back since. Once every
/// caller has left, no caller observes it.
pub fn grace_period_ends_observed_heads()
    ensures { GracePeriodEndsObservedHeads }
{}

/// Every action leaves words that stand for the state.
pub fn all_steps_represent()
    ensures { AllStepsRepresent }
{}

/// What the words hold is the state: epochs, free rows, keys, forms, slots, the roots, and phases but
/// those that nobody reads.
pub fn words_stand_for_the_state()
    ensures { WordsStandForTheState }
{}
