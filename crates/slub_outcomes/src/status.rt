//! How a run ended.

/// How a run ended.
#[derive(Clone, Copy, Debug, PartialEq, Eq)]
pub enum Status {
    /// The trace was replayed with each seed.
    Fine,
    /// The words ask for nothing that is done here.
    BadWords,
    /// The bytes are no trace, or too many.
    BadTrace,
    /// A read failed.
    ReadFault,
    /// A write failed.
    WriteFault,
    /// Memory ran out, for the run or for one of the replies.
    NoMemory,
    /// The trace was replayed with each seed, and some seed spent the turns of a round: all were made, and a worker of
    /// the round was unfinished.
    TurnsSpent,
}

impl Status {
    ghost use Rattle.std.specs.Prelude.{◌≡◌};
    ghost use Rattle.slub_outcomes.specs.Stop.{status_number};

    /// The number with which the program ends: 0, or 2 to 7.
    pub fn number(self) -> u8
        ensures { result ≡ status_number self }
    {
        match self {
            Status::Fine => 0,
            Status::BadWords => 2,
            Status::BadTrace => 3,
            Status::ReadFault => 4,
            Status::WriteFault => 5,
            Status::NoMemory => 6,
            Status::TurnsSpent => 7,
        }
    }
}
