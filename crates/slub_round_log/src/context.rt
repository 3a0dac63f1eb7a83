//! What a line needs to know of the turns before it.

ghost use Rattle.std.specs.Prelude.{◌≡◌, ◌&&◌, IfOk, OnOk, slice_set};
ghost use Rattle.slub_core.specs.Values.{values_of};
ghost use Rattle.slub_round_log.specs.Told as told;
ghost use Rattle.slub_turn_text.specs.Hands.{hands_text};
ghost use Rattle.slub_turn_text.specs.Changes.{before_of};

use slub_common::no_memory::NoMemory;
use slub_core::guarded::Guarded;
use slub_core::local::FrameRun;
use slub_core::spot::Spot;
use slub_core::step::{Answer, Place, Step};
use slub_core::worker_local::Local;
use slub_turn_text::change::{Before, note_change};
use slub_turn_text::hands::hands_text as text_of_hands;
use slub_turn_text::says::seen_after;
use slub_words::slab::SlabWord;
use std::alloc::Global;
use std::marker::Model;

/// The word of no slab.
const NO_SLAB: SlabWord = SlabWord {
    head: 0,
    inuse: 0,
    objects: 0,
    frozen: false,
    listed: false,
    cache: 0,
};

/// No run of frames.
const NO_RUN: FrameRun = FrameRun {
    frame: 0,
    order: 0,
    objects: 0,
};

/// Nothing was noted yet.
const NOTHING_NOTED: Before = Before {
    spot: Spot::Between,
    event: 0,
    frame: 0,
    string: None,
    run: NO_RUN,
    reports: 0,
};

/// What is known of the turns so far. Contracts see it as a `Context`.
#[derive(Debug, Drop)]
pub struct Context {
    /// How many turns were made.
    turns: u64,
    /// How many exchanges were lost of words that are no lock's.
    lost: u64,
    /// And of locks.
    waits: u64,
    /// Of each worker the slab word that it saw or left last.
    seen: Vec<SlabWord>,
    /// What the worker had in hand when its turn began, in words.
    hands: Vec<u8>,
    /// What there was before the change that was done at once last.
    before: Before,
}

impl Model for Context {
    ghost use Rattle.slub_round_log.specs.Told as told;

    ghost Value = { told.Context };

    ghost view = { λ c. record { turns = c.turns; lost = c.lost; waits = c.waits; seen = c.seen.items; hands = c.hands.items; before = c.before } };
}

/// Whether a word is a lock's.
fn is_lock(place: Place) -> bool
    ensures { result ≡ told.is_lock place }
{
    matches!(place, Place::LockOf(_))
}

/// Whether an exchange was lost.
fn was_lost(answer: Answer) -> bool
    ensures { result ≡ told.was_lost answer }
{
    matches!(answer, Answer::Lost(_))
}

/// An exchange of a lock was lost.
pub fn is_wait(step: Step, answer: Answer) -> bool
    ensures { result ≡ (told.was_lost answer && told.is_lock step.place) }
{
    was_lost(answer) && is_lock(step.place)
}

/// One more, as far as 64 bits go.
fn one_more(n: u64) -> u64
    ensures { result ≡ told.one_more n }
{
    n.saturating_add(1)
}

impl Context {
    /// Before the first turn of a round.
    pub fn first(alloc: Global) -> Result<Context, NoMemory>
        ensures { IfOk result (λ c. c ≡ told.first_context) }
    {
        let seen = vec![in alloc; NO_SLAB; 16]?;
        Ok(Context {
            turns: 0,
            lost: 0,
            waits: 0,
            seen,
            hands: Vec::new(alloc),
            before: NOTHING_NOTED,
        })
    }

    /// How many turns were made.
    pub fn turns(&self) -> u64
        ensures { result ≡ self.now.turns }
    {
        self.turns
    }

    /// How many exchanges were lost of words that are no lock's.
    pub fn lost(&self) -> u64
        ensures { result ≡ self.now.lost }
    {
        self.lost
    }

    /// How many exchanges of locks were lost.
    pub fn waits(&self) -> u64
        ensures { result ≡ self.now.waits }
    {
        self.waits
    }

    /// The slab word that a worker saw or left last.
    pub fn seen_of(&self, worker: u8) -> SlabWord
        ensures { result ≡ told.seen_of self.now worker }
    {
        match self.seen.get(usize::from(worker)) {
            Some(word) => *word,
            None => NO_SLAB,
        }
    }

    /// The number of the turn that is made next, from 1.
    pub fn next_turn(&self) -> u64
        ensures { result ≡ told.one_more self.now.turns }
    {
        one_more(self.turns)
    }

    /// What the worker had in hand when its turn began, in words.
    pub fn hands(&self) -> &[u8]
        ensures { result.now ≡ self.now.hands }
    {
        self.hands.as_slice()
    }

    /// What there was before the change that was done at once last.
    pub fn before(&self) -> &Before
        ensures { result.now ≡ self.now.before }
    {
        &self.before
    }

    /// The turn of a worker begins.
    pub fn begins(&mut self, local: &Local) -> Result<(), NoMemory>
        ensures { OnOk result (self.new ≡ record self.old { hands = hands_text local.now }) }
    {
        self.hands = text_of_hands(*self.hands.allocator(), local)?;
        Ok(())
    }

    /// Counts an exchange, where it is lost.
    fn count(&mut self, step: Step, answer: Answer)
        ensures { self.new ≡ told.counted self.old step answer }
    {
        if was_lost(answer) {
            if is_lock(step.place) {
                self.waits = one_more(self.waits);
            } else {
                self.lost = one_more(self.lost);
            }
        }
    }

    /// Notes what a worker has seen or left.
    fn see(&mut self, worker: u8, word: SlabWord)
        ensures { self.new ≡ record self.old { seen = slice_set self.old.seen worker word } }
    {
        if let Some(seen) = self.seen.get_mut(usize::from(worker)) {
            *seen = word;
        }
    }

    /// A worker has made a step.
    pub fn stepped(&mut self, worker: u8, step: Step, answer: Answer)
        ensures { self.new ≡ told.stepped self.old worker step answer }
    {
        let word = seen_after(self.seen_of(worker), step, answer);
        self.count(step, answer);
        self.turns = one_more(self.turns);
        self.see(worker, word);
    }

    /// A worker changes something at once next.
    pub fn changing(&mut self, values: &[Guarded], local: &Local)
        ensures { self.new ≡ record self.old { before = before_of (values_of values.now) local.now } }
    {
        self.before = note_change(values, local);
    }
}
