//! How the program ends.
ghost use Rattle.std.specs.Prelude.{◌≡◌};

/// How the program ended.
#[derive(Clone, Copy, Debug, PartialEq, Eq)]
pub enum Status {
    /// The mode ran to its end.
    Done,

    /// The words ask for nothing.
    Usage,

    /// A read failed.
    ReadFault,

    /// A write failed.
    WriteFault,

    /// A line of the trace is bad.
    BadTrace,

    /// There was no memory.
    Memory,

    /// The limits that the words ask for break a rule.
    BadLimits,

    /// As many bytes were taken as the byte limit allows.
    Limit,
}

impl Status {
    ghost use Rattle.xindex.specs.Outcome.{number_of};

    /// The number with which the process ends.
    pub fn number(&self) -> u8
        ensures { result ≡ number_of self.now }
    {
        match self {
            Status::Done => 0,
            Status::Usage => 2,
            Status::ReadFault => 3,
            Status::WriteFault => 4,
            Status::BadTrace => 5,
            Status::Memory => 6,
            Status::BadLimits => 7,
            Status::Limit => 9,
        }
    }
}
