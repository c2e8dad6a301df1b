//! The events of an execution. No value of these types is made: contracts alone speak of them.
//!
//! Every kind of step has a variant here.
use map_model::Change;
use word_layout::{HeaderWord, Part};

/// The word whose store takes new groups into the chain.
pub enum InstallWord {
    /// The next word of the left neighbour.
    NextOf { group: u64 },
    /// Where there is no left neighbour, the group word of the first slot in use of the part's root.
    FirstSlot { part: u64, side: u64 },
}

/// What one atomic step did, with the word that it loaded or stored.
///
/// A place is the number of a record place, which is never 0. A group is the number of a group row.
pub enum Action {
    /// The epoch word of a caller was loaded.
    LoadEpoch {
        caller: u64,
        found: u64,
    },
    /// The hand's own epoch word was stored, and the hand is inside a read section from now on.
    Enter {
        word: u64,
    },
    /// The hand's own epoch word was stored, and the hand is outside from now on.
    Leave {
        word: u64,
    },
    /// The head of the free stack was loaded.
    LoadFree {
        found: u64,
    },
    /// The link of a row that was loaded as the head was loaded.
    LoadFreeLink {
        place: u64,
        found: u64,
    },
    /// The head was exchanged: the row is the hand's, and the next one is the head.
    PopFree {
        place: u64,
        next: u64,
    },
    /// An exchange that was to pop the row that the hand observed found another head.
    FailPop {
        expected: u64,
        found: u64,
    },
    /// A word of a row in the hand was stored.
    StorePrivate {
        place: u64,
        which: Part,
        value: u64,
    },
    /// The head was exchanged: the row in the hand is the head, and the one before it is the next.
    PushFree {
        place: u64,
        head: u64,
    },
    /// An exchange that was to push the row in the hand found another head than the row links to.
    FailPush {
        place: u64,
        expected: u64,
        found: u64,
    },
    /// The state word of a place was loaded. A redirect that it names is reached by it.
    LoadState {
        place: u64,
        found: u64,
    },
    /// The value word of a place was loaded.
    LoadValue {
        place: u64,
        found: u64,
    },
    /// The key word of a place was loaded.
    LoadKey {
        place: u64,
        found: u64,
    },
    /// An unlocked state word was exchanged for its locked form: a caller holds the version lock.
    Lock {
        place: u64,
        expected: u64,
    },
    /// An exchange that was to lock a place, or to close one, found another state word.
    FailLock {
        place: u64,
        expected: u64,
        found: u64,
    },
    /// The value of a place that the caller holds locked was stored.
    StoreValue {
        place: u64,
        value: u64,
    },
    /// The unlocked state with the version raised was stored: the change takes effect.
    Unlock {
        place: u64,
        removed: bool,
        change: Change,
        word: u64,
    },
    /// The head of a lane of a group's buffer was loaded.
    LoadHead {
        group: u64,
        lane: u64,
        found: u64,
    },
    /// The link of a row in the buffer of a group was loaded.
    LoadLink {
        group: u64,
        place: u64,
        found: u64,
    },
    /// A link of a lane of the group's buffer, that of the row before or the head where there is none,
    /// was exchanged for the filled row: the change takes effect.
    LinkRow {
        group: u64,
        lane: u64,
        place: u64,
        change: Change,
        before: u64,
        next: u64,
    },
    /// An exchange that was to link a row found another link.
    FailLink {
        group: u64,
        lane: u64,
        before: u64,
        expected: u64,
        found: u64,
    },
    /// The link of a row of an old buffer was loaded, and the row is the keeper's own.
    Retire {
        place: u64,
        next: u64,
    },
    /// A word of a group's header was loaded: the pivot, the size, the error of the line, the number
    /// of lanes or the cut of one.
    LoadHeader {
        group: u64,
        which: HeaderWord,
        found: u64,
    },
    /// The next word of a group was loaded. The group that it names is reached by it.
    LoadNext {
        group: u64,
        found: u64,
    },
    /// The phase word of a group was loaded. The new group that it names is reached by it.
    LoadPhase {
        group: u64,
        found: u64,
    },
    /// A group of the chain was frozen: it is to be rebuilt.
    Freeze {
        group: u64,
    },
    /// A frozen group was opened again, since there were too few free group rows.
    Thaw {
        group: u64,
    },
    /// A header word of a group that is being filled was stored.
    StoreHeader {
        group: u64,
        which: HeaderWord,
        value: u64,
    },
    /// The last header word, the pivot, of a new group was stored: the group answers for the keys
    /// from `low` to `high` once it is installed. The rebuild is named by its first new group, which
    /// is begun before the others: what had this number before is forgotten.
    NewGroup {
        group: u64,
        low: u64,
        high: u64,
        first: u64,
    },
    /// A word of an unused array place of a group that is being filled was stored.
    StoreArray {
        group: u64,
        place: u64,
        which: Part,
        value: u64,
    },
    /// The state word of a new array place was stored: it forwards to the key's place in its old
    /// group.
    StoreRedirect {
        group: u64,
        place: u64,
        key: u64,
        to: u64,
    },
    /// The phase of an old group was stored: new keys go into the new groups' buffers.
    StoreOpened {
        group: u64,
        first: u64,
    },
    /// The word that takes the new groups into the chain, for all keys from `low` to `high`, was
    /// stored. It names the first of them.
    Install {
        at: InstallWord,
        first: u64,
        low: u64,
        high: u64,
    },
    /// The group word of a slot in use was stored.
    StoreSlot {
        part: u64,
        side: u64,
        slot: u64,
        group: u64,
    },
    /// The keeper locked an old place, to copy it.
    Close {
        place: u64,
        expected: u64,
    },
    /// The value of a new place was stored, while it still forwards.
    Copy {
        place: u64,
        value: u64,
    },
    /// The state of a new place was stored: the record stands there from now on.
    StoreDirect {
        place: u64,
        from: u64,
        key: u64,
        removed: bool,
        word: u64,
    },
    /// The state of an old place was stored: the record has gone.
    StoreMoved {
        place: u64,
    },
    /// The root word of a part was loaded. The side and the slots that it names are reached by it.
    LoadRoot {
        part: u64,
        found: u64,
    },
    /// The pivot of a slot of a part's root was loaded.
    LoadSlotPivot {
        part: u64,
        side: u64,
        slot: u64,
        found: u64,
    },
    /// The group word of a slot was loaded. The group that it names is reached by it.
    LoadSlotGroup {
        part: u64,
        side: u64,
        slot: u64,
        found: u64,
    },
    /// The pivot of a slot of the unused side was stored.
    StoreUnusedPivot {
        part: u64,
        side: u64,
        slot: u64,
        pivot: u64,
    },
    /// The group word of a slot of the unused side was stored.
    StoreUnusedGroup {
        part: u64,
        side: u64,
        slot: u64,
        group: u64,
    },
    /// The root word of a part was stored: it names the other side.
    StoreRoot {
        part: u64,
        word: u64,
    },
}

/// One atomic step of one hand.
pub struct Event {
    /// The number of the hand: callers come first, and behind them the keeper of each part.
    pub by: u64,
    pub action: Action,
}
