//! How a run ended.

/// How a run ended.
#[derive(Clone, Copy, Debug, PartialEq, Eq)]
pub enum Status {
    /// What was asked for was done, and nothing was refused or found damaged.
    Fine,
    /// What was asked for was done, and a creation, a shrink, a destruction, a tune or a client's line was refused, a
    /// reply isn't Ok, or an object was found damaged.
    Refused,
    /// The words ask for nothing that is done here.
    BadWords,
    /// The bytes are no trace, or too many.
    BadTrace,
    /// A read failed.
    ReadFault,
    /// A write failed.
    WriteFault,
    /// Memory ran out, for the run or for one of its replies.
    NoMemory,
    /// All turns of a round were made, and a worker of it was unfinished.
    TurnsSpent,
    /// The picks don't fit the trace, or it has no such round.
    BadPicks,
}

impl Status {
    ghost use Rattle.std.specs.Prelude.{◌≡◌};
    ghost use Rattle.slub_picks.specs.Statuses.{number_of};

    /// The number with which the program ends, 0 to 8.
    pub fn number(self) -> u8
        ensures { result ≡ number_of self }
    {
        match self {
            Status::Fine => 0,
            Status::Refused => 1,
            Status::BadWords => 2,
            Status::BadTrace => 3,
            Status::ReadFault => 4,
            Status::WriteFault => 5,
            Status::NoMemory => 6,
            Status::TurnsSpent => 7,
            Status::BadPicks => 8,
        }
    }
}
