//! The state word of a record: its version lock, or where the record has gone.
//!
//! Every state has one word, and a word that is none of these is no state.
ghost use Rattle.std.specs.Prelude.{◌≡◌, ◌+◌, ℕ, Bool, false, IfSome};
ghost use Rattle.word_layout.specs.State.{word_of_state, IsWritableState};
ghost use Rattle.word_layout.specs.State.{IsLockable, IsUnlockedWord};
ghost use Rattle.word_layout.specs.declared.state.State.TheVariants.{Direct};

/// The greatest version. A record that has it cannot be changed until it is copied to a new group.
pub const LAST_VERSION: u64 = 1152921504606846975;

/// What the state word of a record says.
#[derive(Clone, Copy, Debug, PartialEq, Eq)]
pub enum State {
    /// The record stands here. Each write raises the version by one, and while it is `locked` its
    /// holder writes the value. A `removed` record is a tombstone: its key is not in the map.
    Direct {
        version: u64,
        locked: bool,
        removed: bool,
    },
    /// A forwarding pointer: until it is copied, the record is the one at this place of an old
    /// group.
    Redirect {
        place: u32,
    },
    /// The record was copied to a new group, and this old place is used up.
    Moved,
}

impl State {
    /// The word that is stored for this state.
    #[inline]
    pub fn word(&self) -> u64
        requires { IsWritableState self.now }
        ensures { result ≡ word_of_state self.now }
    {
        match *self {
            State::Direct {
                version,
                locked,
                removed,
            } => 16 * version + 8 * u64::from(removed) + 4 * u64::from(locked),
            State::Redirect { place } => 16 * u64::from(place) + 1,
            State::Moved => 2,
        }
    }

    /// The state that a word stands for. It is `None` exactly for a word that no state has.
    #[inline]
    pub fn read(word: u64) -> Option<State>
        ensures writable { IfSome result IsWritableState }
        ensures reads { IfSome result (λ state. word_of_state state ≡ word) }
        ensures reads_back { (state : State) → IsWritableState state → word_of_state state ≡ word →
            result ≡ Some state }
    {
        let upper = word / 16;
        match word % 16 {
            0 | 4 | 8 | 12 => Some(State::Direct {
                version: upper,
                locked: word / 4 % 2 == 1,
                removed: word / 8 % 2 == 1,
            }),
            1 if 0 < upper && upper < 1 << 28 => Some(State::Redirect {
                place: upper as u32,
            }),
            2 if upper == 0 => Some(State::Moved),
            _ => None,
        }
    }
}

/// Whether the word of a record says that its lock is held.
#[inline]
pub fn says_locked(word: u64) -> bool
    ensures { (version : ℕ) (locked removed : Bool) →
        word_of_state (Direct version locked removed) ≡ word → result ≡ locked }
{
    word / 4 % 2 == 1
}

/// Whether the word of a record says that it is a tombstone.
#[inline]
pub fn says_removed(word: u64) -> bool
    ensures { (version : ℕ) (locked removed : Bool) →
        word_of_state (Direct version locked removed) ≡ word → result ≡ removed }
{
    word / 8 % 2 == 1
}

/// The version in the word of a record.
#[inline]
pub fn version_in(word: u64) -> u64
    ensures { (version : ℕ) (locked removed : Bool) →
        word_of_state (Direct version locked removed) ≡ word → result ≡ version }
{
    word / 16
}

/// The word by which an unlocked one is exchanged to take its lock.
#[inline]
pub fn locked_word(unlocked: u64) -> u64
    requires { IsLockable unlocked }
    ensures { result ≡ unlocked + 4 }
{
    unlocked + 4
}

/// The word that releases the lock of a record that had the unlocked one: its version is raised.
#[inline]
pub fn released_word(unlocked: u64, removed: bool) -> u64
    requires { IsLockable unlocked }
    ensures { (version : ℕ) (was : Bool) → IsUnlockedWord version was unlocked →
        result ≡ word_of_state (Direct (version + 1) false removed) }
{
    unlocked / 16 * 16 + 16 + 8 * u64::from(removed)
}
