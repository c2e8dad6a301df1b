//! What holds after every valid execution. Each function is a law and does nothing.
ghost use Rattle.machine_arrays.specs.Arrays.{ArraysAreFilledInOrder, ArraysHaveTheirKeys};
ghost use Rattle.machine_arrays.specs.Arrays.{GapsOfListsHaveNoPlace, KeysOfArraysAreKeys};
ghost use Rattle.machine_arrays.specs.Arrays.{KeysOfArraysRise, KeysOfListsMayBeLoaded};
ghost use Rattle.machine_arrays.specs.Arrays.{ListsOfKeysAreWhole, ListsOfKeysFit, ListsOfKeysRise};
ghost use Rattle.machine_arrays.specs.Arrays.{OpenedArraysHaveTheirShares};
ghost use Rattle.machine_arrays.specs.Ranges.{ArraysHaveKeysOfTheirGroup};
ghost use Rattle.machine_arrays.specs.Ranges.{ArraysOfTheChainAreInRange, KeysOfArraysAreInRange};
ghost use Rattle.machine_arrays.specs.Sizes.{ArraysInUseAreSized, ArraysOfTheChainAreSized};
ghost use Rattle.machine_arrays.specs.Sizes.{ArraysStayUntilChanged, ArraysStayWhereCallersStand};
ghost use Rattle.machine_arrays.specs.Sizes.{ArraysWhereCallersStandAreSized, BegunArraysAreEmpty};
ghost use Rattle.machine_arrays.specs.Sizes.{KeepersAloneChangeArrays, LoadsMeetOneArray, NewKeysComeLast};
ghost use Rattle.machine_arrays.specs.Sizes.{SizesAreOfTheKeys};

/// An array is filled from index 0 on, each place behind smaller keys.
pub fn arrays_are_filled_in_order()
    ensures { ArraysAreFilledInOrder }
{}

/// The keys of an array rise with their indices.
pub fn keys_of_arrays_rise()
    ensures { KeysOfArraysRise }
{}

/// What stands in an array is a key of the group's part, in a group of the table.
pub fn keys_of_arrays_are_keys()
    ensures { KeysOfArraysAreKeys }
{}

/// The keys of an array are all that stands there, each at its index.
pub fn lists_of_keys_are_whole()
    ensures { ListsOfKeysAreWhole }
{}

/// They are the one list that the array has from index 0 on.
pub fn arrays_have_their_keys()
    ensures { ArraysHaveTheirKeys }
{}

/// They rise.
pub fn lists_of_keys_rise()
    ensures { ListsOfKeysRise }
{}

/// They are no more than an array has places.
pub fn lists_of_keys_fit()
    ensures { ListsOfKeysFit }
{}

/// Two neighbours in the list say that no key between them stands in the array.
pub fn gaps_of_lists_have_no_place()
    ensures { GapsOfListsHaveNoPlace }
{}

/// A hand that may walk the group may load the key at each index of the list, and finds that of the list.
pub fn keys_of_lists_may_be_loaded()
    ensures { KeysOfListsMayBeLoaded }
{}

/// As a table is opened, the array of each group in use has just the keys of its share, by the plan.
pub fn opened_arrays_have_their_shares()
    ensures { OpenedArraysHaveTheirShares }
{}

/// Each key of an array is one of its group's, unless the group is out of use.
pub fn arrays_have_keys_of_their_group()
    ensures { ArraysHaveKeysOfTheirGroup }
{}

/// A group of the chain answers for each key of its array.
pub fn arrays_of_the_chain_are_in_range()
    ensures { ArraysOfTheChainAreInRange }
{}

/// So does, or did, a group where a caller stands, if it does or did for one key.
pub fn keys_of_arrays_are_in_range()
    ensures { KeysOfArraysAreInRange }
{}

/// A group is sized where its words for the size and for the error of the line are those of the keys of its array.
pub fn sizes_are_of_the_keys()
    ensures { SizesAreOfTheKeys }
{}

/// Size and line error of a group that answers for a key, or did, are those of the keys of its array, until
/// all old groups of its rebuild are gone.
pub fn arrays_in_use_are_sized()
    ensures { ArraysInUseAreSized }
{}

/// So they are in a group of the chain.
pub fn arrays_of_the_chain_are_sized()
    ensures { ArraysOfTheChainAreSized }
{}

/// And in a group that answers for a key, or did, where a caller stands.
pub fn arrays_where_callers_stand_are_sized()
    ensures { ArraysWhereCallersStandAreSized }
{}

/// In such a group the array stays while a caller stands there.
pub fn arrays_stay_where_callers_stand()
    ensures { ArraysStayWhereCallersStand }
{}

/// So all that the caller loads in its read section is of one array.
pub fn loads_meet_one_array()
    ensures { LoadsMeetOneArray }
{}

/// An array stays until it is changed.
pub fn arrays_stay_until_changed()
    ensures { ArraysStayUntilChanged }
{}

/// The keeper of the group's part alone changes an array.
pub fn keepers_alone_change_arrays()
    ensures { KeepersAloneChangeArrays }
{}

/// The array of a group that was just begun is empty.
pub fn begun_arrays_are_empty()
    ensures { BegunArraysAreEmpty }
{}

/// A key that is put into an array comes behind all others.
pub fn new_keys_come_last()
    ensures { NewKeysComeLast }
{}
