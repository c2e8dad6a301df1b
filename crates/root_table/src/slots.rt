//! What a root word says: which slots of a part's root are in use.

/// The slots of a part's root that a root word names: so many, from slot 0 on, of one of the two sides.
#[derive(Clone, Copy, Debug, PartialEq, Eq)]
pub struct Slots {
    pub part: u32,
    pub side: u32,
    pub count: u32,
}
