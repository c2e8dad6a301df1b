//! The six mixes, and the steps of a trace.
ghost use Rattle.std.specs.Prelude.{◌≡◌};

use std::alloc::AllocError;
use std::error::Error;
use std::fmt;

/// What the operations of a trace are.
#[derive(Clone, Copy, Debug, PartialEq, Eq)]
pub enum Mix {
    /// Half gets, half puts.
    A,
    /// 95 gets in 100, and puts.
    B,
    /// Gets alone.
    C,
    /// 95 gets of late keys in 100, and inserts.
    D,
    /// 95 scans in 100, and inserts.
    E,
    /// Half gets, and half gets with a put of the same key.
    F,
}

/// What one line of the trace says.
#[derive(Clone, Copy, Debug, PartialEq, Eq)]
pub enum Step {
    /// The next phase begins.
    Phase,
    /// The calls of this caller follow.
    Caller(u32),
    /// Look a key up.
    Get { key: u64 },
    /// Set the value at a key.
    Put { key: u64, value: u64 },
    /// Read so many pairs from a key on.
    Scan { from: u64, count: u32 },
}

/// Why a trace was not written whole.
#[derive(Clone, Copy, Debug, PartialEq, Eq)]
pub enum MixError {
    /// The sink failed, and counted it.
    WriteFault,
    /// There is not enough memory.
    Memory,
}

impl From<AllocError> for MixError {
    ghost use Rattle.ycsb_mix.specs.declared.mixes.MixError.TheVariants.{Memory};

    ghost from_gives = { λ _ e. e ≡ Memory };

    fn from(_: AllocError) -> Self {
        MixError::Memory
    }
}

impl fmt::Display for MixError {
    fn fmt<W: fmt::Write>(&self, f: &mut fmt::Formatter<W>) -> fmt::Result {
        f.write_str(match self {
            MixError::WriteFault => "the trace could not be written",
            MixError::Memory => "not enough memory for the trace",
        })
    }
}

impl Error for MixError {}
