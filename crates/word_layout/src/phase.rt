//! The phase word of a group: how far a rebuild of the group has come.
//!
//! Every phase has one word, and a word that is none of these is no phase.
ghost use Rattle.std.specs.Prelude.{◌≡◌, IfSome};
ghost use Rattle.word_layout.specs.Phase.{word_of_phase, IsWritablePhase};

/// What the phase word of a group says.
#[derive(Clone, Copy, Debug, PartialEq, Eq)]
pub enum Phase {
    /// New keys go into the group's buffer.
    Open,
    /// The group is to be rebuilt, and takes no new keys.
    Frozen,
    /// New keys go into the buffers of new groups, of which `first` is the first.
    Opened { first: u32 },
}

impl Phase {
    /// The word that is stored for this phase.
    #[inline]
    pub fn word(&self) -> u64
        requires { IsWritablePhase self.now }
        ensures { result ≡ word_of_phase self.now }
    {
        match *self {
            Phase::Open => 0,
            Phase::Frozen => 1,
            Phase::Opened { first } => 4 * u64::from(first) + 2,
        }
    }

    /// The phase that a word stands for. It is `None` exactly for a word that no phase has.
    #[inline]
    pub fn read(word: u64) -> Option<Phase>
        ensures writable { IfSome result IsWritablePhase }
        ensures reads { IfSome result (λ phase. word_of_phase phase ≡ word) }
        ensures reads_back { (phase : Phase) → IsWritablePhase phase → word_of_phase phase ≡ word →
            result ≡ Some phase }
    {
        let upper = word / 4;
        match word % 4 {
            0 if upper == 0 => Some(Phase::Open),
            1 if upper == 0 => Some(Phase::Frozen),
            2 if upper < 1048576 => Some(Phase::Opened {
                first: upper as u32,
            }),
            _ => None,
        }
    }
}
