//! Where a line stands.

ghost use Rattle.std.specs.Prelude.{◌≡◌, ◌↔◌, IsTrue};
ghost use Rattle.slub_trace_reader.specs.Above.{workers_in};
ghost use Rattle.slub_trace_reader.specs.Grammar.{IsInRound, MayStand};

use crate::line::Line;

/// Which lines may come next.
#[derive(Clone, Copy, Debug, PartialEq, Eq)]
pub enum Place {
    /// The `slubtrace` line.
    First,
    /// The `machine` line.
    Second,
    /// What stands between rounds.
    Between,
    /// The events of a round, and its end.
    Within { workers: u32 },
    /// Nothing but lines that are passed over.
    After,
}

impl Place {
    /// The workers of the round that isn't ended, or 0.
    pub(crate) fn workers(&self) -> u32
        ensures { result ≡ workers_in self.now }
    {
        match self {
            Place::Within { workers } => *workers,
            _ => 0,
        }
    }

    /// Whether `end` stands above.
    pub(crate) fn is_after(&self) -> bool
        ensures { IsTrue result ↔ (self.now ≡ Place.After) }
    {
        matches!(self, Place::After)
    }

    /// Whether a round isn't ended.
    pub(crate) fn is_in_round(&self) -> bool
        ensures { IsTrue result ↔ IsInRound self.now }
    {
        matches!(self, Place::Within { .. })
    }

    /// Whether a line of this form may stand here, in a trace of this version.
    pub(crate) fn takes(&self, line: &Line, version: u32) -> bool
        ensures { IsTrue result ↔ MayStand line.now version self.now }
    {
        match line {
            Line::Passed => true,
            Line::Slubtrace { .. } => matches!(self, Place::First),
            Line::Machine { .. } => matches!(self, Place::Second),
            Line::Alloc { .. }
            | Line::Free { .. }
            | Line::Write { .. }
            | Line::Read { .. }
            | Line::Poke { .. }
            | Line::Done => self.is_in_round(),
            Line::Trim { .. } | Line::Flush { .. } => 4 <= version && self.is_in_round(),
            Line::Tune { .. } => 2 <= version && matches!(self, Place::Between),
            Line::Client(_) => 3 <= version && matches!(self, Place::Between),
            _ => matches!(self, Place::Between),
        }
    }
}
