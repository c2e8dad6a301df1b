//! What a seat at the table knows. No value of these types is made: contracts alone speak of them.
use index_machine::{Event, Opening};
use map_model::Entry;
use std::collections::LinkedList;

/// What one seat knows.
pub struct View {
    /// The numbers of the hands that the seat is: one for a hand, none for a note, all when the table is
    /// opened.
    pub numbers: LinkedList<u64>,
    /// `None` where the seat was joined into another.
    pub opening: Option<Opening>,
    /// The beginning of the execution that it knows, the newest event first. All events of its
    /// hands stand in it.
    pub known: LinkedList<Event>,
    /// What it was told by seats that were joined into it, since its last step.
    pub heard: LinkedList<Heard>,
    /// The entries of its hand's calls, the newest first.
    pub log: LinkedList<Entry>,
}

/// What a seat knew when it was joined into another, or when another was joined into it.
pub struct Heard {
    pub numbers: LinkedList<u64>,
    pub known: LinkedList<Event>,
    pub log: LinkedList<Entry>,
}
