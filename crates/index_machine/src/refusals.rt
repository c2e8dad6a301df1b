//! What the conditions refuse. Each function is a law and does nothing.
ghost use Rattle.index_machine.specs.RefusalLaws.{BeginningsWaitForInstalls};
ghost use Rattle.index_machine.specs.RefusalLaws.{ClosingWaitsForReaders};
ghost use Rattle.index_machine.specs.RefusalLaws.{CopiesHoldTheLock};
ghost use Rattle.index_machine.specs.RefusalLaws.{CopyingWaitsForReaders};
ghost use Rattle.index_machine.specs.RefusalLaws.{ForwardingPlacesHaveNoValue};
ghost use Rattle.index_machine.specs.RefusalLaws.{InstallsMergeLivePlaces};
ghost use Rattle.index_machine.specs.RefusalLaws.{LinksWhereNoneLives};
ghost use Rattle.index_machine.specs.RefusalLaws.{OpeningWaitsForInserters};
ghost use Rattle.index_machine.specs.RefusalLaws.{PushesWaitForReaders};
ghost use Rattle.index_machine.specs.RefusalLaws.{RetiringWaitsForReaders};
ghost use Rattle.index_machine.specs.RefusalLaws.{RevivesInBuffersAlone};
ghost use Rattle.index_machine.specs.RefusalLaws.{SlotsWaitForReaders};

/// A record is copied under the lock of its old place, so no update of it is lost.
pub fn copies_hold_the_lock()
    ensures { CopiesHoldTheLock }
{}

/// A group is opened to a rebuild only once nobody may insert into it.
pub fn opening_waits_for_inserters()
    ensures { OpeningWaitsForInserters }
{}

/// A group is begun anew only while no rebuild is under way in its part.
pub fn beginnings_wait_for_installs()
    ensures { BeginningsWaitForInstalls }
{}

/// A record is copied only once nobody walks an old group of the rebuild.
pub fn copying_waits_for_readers()
    ensures { CopyingWaitsForReaders }
{}

/// An old place is locked for its copy only once nobody walks an old group of the rebuild.
pub fn closing_waits_for_readers()
    ensures { ClosingWaitsForReaders }
{}

/// A row is taken back only once no caller relies on it.
pub fn retiring_waits_for_readers()
    ensures { RetiringWaitsForReaders }
{}

/// A slot of the side that the root does not name is stored only once no caller is on that side.
pub fn slots_wait_for_readers()
    ensures { SlotsWaitForReaders }
{}

/// A row is given back only once no caller observes it as the head of the free stack.
pub fn pushes_wait_for_readers()
    ensures { PushesWaitForReaders }
{}

/// A row is linked only where the key has no live place.
pub fn links_where_none_lives()
    ensures { LinksWhereNoneLives }
{}

/// A tombstone of an array is not revived.
pub fn revives_in_buffers_alone()
    ensures { RevivesInBuffersAlone }
{}

/// An install leaves no live place behind.
pub fn installs_merge_live_places()
    ensures { InstallsMergeLivePlaces }
{}

/// The value word of a place that forwards is no value of its key.
pub fn forwarding_places_have_no_value()
    ensures { ForwardingPlacesHaveNoValue }
{}
