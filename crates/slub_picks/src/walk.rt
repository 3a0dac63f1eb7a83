//! The way along a part: whose turn comes next.

ghost use Rattle.std.specs.Prelude.{◌≡◌, ◌≢◌, ◌≤◌, ◌<◌, ℕ, ◌+◌, Bool, true, false, List, [], ◌∷◌, ◌++◌, length, Some, IfErr, IfOk, MatchResult, slice_get};
ghost use Rattle.slub_picks.specs.declared.walk.Misfit.{Misfit};
ghost use Rattle.slub_picks.specs.declared.walk.Misfit.TheVariants.{PicksEnd};
ghost use Rattle.slub_picks.specs.Misfits.{IsMisfit, is_full, needs_more};
ghost use Rattle.slub_picks.specs.Turns.{Say, Turn, goes_on, is_among};
ghost use Rattle.slub_picks.specs.Walks.{IsAlong, IsNext, Looks};

use crate::list::{Entry, Part, Reach};

/// How a turn ended.
#[derive(Clone, Copy, Debug, PartialEq, Eq)]
pub struct Ended {
    /// The worker's call is at its end.
    pub is_event_over: bool,
    /// The turn was an exchange of a lock's word, and was lost.
    pub is_lost_at_lock: bool,
}

/// Where a part doesn't fit its round. Entries are numbered from 1.
#[derive(Clone, Copy, Debug, PartialEq, Eq)]
pub enum Misfit {
    /// An entry names a worker that the round hasn't.
    NoWorker { entry: usize, worker: usize },
    /// An entry is to make a turn, and its worker is finished.
    NoEvent { entry: usize, worker: usize },
    /// The part is at its end.
    PicksEnd,
}

/// How far a round has come along its part.
#[derive(Clone, Copy, Debug)]
pub struct Walk<'a> {
    entries: &'a [Entry],
    /// How many workers the round has.
    workers: usize,
    /// The entry that the walk is in.
    place: usize,
    /// How many turns of an entry that counts them are made.
    made: u32,
}

/// Whether a worker is among these.
fn is_among(worker: usize, workers: &[usize]) -> bool
    ensures { result ≡ is_among worker workers.now }
{
    workers.iter().any(|other| *other == worker)
}

/// Whether an entry needs no turn behind so many.
fn is_full(reach: Reach, made: u32) -> bool
    ensures { result ≡ is_full reach made }
{
    match reach {
        Reach::Turns(n) => n <= made,
        Reach::Event | Reach::End => false,
    }
}

/// Whether an entry isn't ended by a turn that ended so.
fn goes_on(reach: Reach, ended: Ended) -> bool
    ensures { result ≡ goes_on reach ended }
{
    match reach {
        Reach::Turns(_) => true,
        Reach::Event => !ended.is_event_over && !ended.is_lost_at_lock,
        Reach::End => !ended.is_lost_at_lock,
    }
}

/// One turn more, of an entry of `n` turns.
fn one_more(made: u32, n: u32) -> u32
    ensures { made < n → result ≡ made + 1 }
{
    if made < n { made + 1 } else { made }
}

impl<'a> Walk<'a> {
    /// The begin of a part, for a round of so many workers.
    pub fn open(part: &'a Part, workers: usize) -> Walk<'a>
        ensures part { result.entries.now ≡ part.now.entries }
        ensures workers { result.workers ≡ workers }
        ensures along { (left : List ℕ) → IsAlong result [] left }
    {
        Walk {
            entries: part.entries.as_slice(),
            workers,
            place: 0,
            made: 0,
        }
    }

    /// The worker of an entry at the walk's place, where the entry makes a turn; None where it makes no more.
    fn look(&self, entry: Entry, unfinished: &[usize]) -> Result<Option<usize>, Misfit>
        requires { slice_get self.now.entries.now self.now.place ≡ Some entry }
        ensures { Looks self.now entry unfinished.now result }
    {
        let worker = usize::from(entry.worker);
        if self.workers <= worker {
            return Err(Misfit::NoWorker {
                entry: self.place + 1,
                worker,
            });
        }
        if is_full(entry.reach, self.made) {
            return Ok(None);
        }
        if is_among(worker, unfinished) {
            return Ok(Some(worker));
        }
        match entry.reach {
            Reach::End => Ok(None),
            Reach::Turns(_) | Reach::Event => Err(Misfit::NoEvent {
                entry: self.place + 1,
                worker,
            }),
        }
    }

    /// Goes on to the next entry.
    fn pass(&mut self)
        requires { self.old.place < length self.old.entries.now }
        ensures { self.new ≡ record self.old { place = self.old.place + 1; made = 0 } }
    {
        self.place += 1;
        self.made = 0;
    }

    /// The worker that makes the next turn. `unfinished` are the workers that have an event left.
    ///
    /// An error says where the part doesn't fit: `PicksEnd` where all its turns are made.
    pub fn next(&mut self, unfinished: &[usize]) -> Result<usize, Misfit>
        ensures part { self.new.entries.now ≡ self.old.entries.now }
        ensures workers { self.new.workers ≡ self.old.workers }
        ensures among { IfOk result (λ worker. is_among worker unfinished.now ≡ true) }
        ensures next { IfOk result (λ worker. IsNext self.new worker) }
        ensures along { (turns : List Turn) → IsAlong self.old turns unfinished.now
            → MatchResult result (λ _. IsAlong self.new turns unfinished.now)
            (λ misfit. IsMisfit self.old.workers self.old.entries.now turns unfinished.now misfit) }
    {
        'entries: while let Some(entry) = self.entries.get(self.place) {
            if let Some(worker) = self.look(*entry, unfinished)? {
                return Ok(worker);
            }
            self.pass();
        }
        Err(Misfit::PicksEnd)
    }

    /// The turn that came next is made, and ended so.
    pub fn told(&mut self, ended: Ended)
        ensures part { self.new.entries.now ≡ self.old.entries.now }
        ensures workers { self.new.workers ≡ self.old.workers }
        ensures along { (worker : ℕ) (turns : List Turn) (unfinished left : List ℕ)
            → IsNext self.old worker → IsAlong self.old turns unfinished
            → IsAlong self.new
            (turns ++ record { worker = worker; ended = ended; unfinished = unfinished } ∷ [])
            left }
    {
        let Some(entry) = self.entries.get(self.place) else {
            return;
        };
        if !goes_on(entry.reach, ended) {
            self.pass();
        } else if let Reach::Turns(n) = entry.reach {
            self.made = one_more(self.made, n);
        }
    }

    /// The end of the round, where no worker has an event left: whether the part is at its end, too.
    pub fn end(&mut self) -> Result<(), Misfit>
        ensures short { IfErr result (λ misfit. misfit ≢ PicksEnd) }
        ensures ends { (turns : List Turn) → IsAlong self.old turns []
            → MatchResult result (λ _. Say self.old.workers self.old.entries.now turns [])
            (λ misfit. IsMisfit self.old.workers self.old.entries.now turns [] misfit) }
    {
        let Err(misfit) = self.next(&[]) else {
            return Ok(());
        };
        match misfit {
            Misfit::PicksEnd => Ok(()),
            Misfit::NoWorker { .. } | Misfit::NoEvent { .. } => Err(misfit),
        }
    }
}
