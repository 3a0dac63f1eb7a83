//! What lines name: the caches of the machine, and the events of the round.

ghost use Rattle.std.specs.Prelude.{◌≡◌, ◌≤◌, ◌∷◌, ◌++◌, All, IfOk, OnOk, codes, slice_index_or, []};
ghost use Rattle.std.specs.Fmt.{decimal, signed_decimal};
ghost use Rattle.slub_slabinfo_text.specs.Texts.{IsNamed};
ghost use Rattle.slub_turn_text.specs.Labels as labels;

use crate::columns::{push_number, push_signed, push_words};
use crate::doing::has_no_reply;
use slub_common::no_memory::NoMemory;
use slub_common::sequence::Sequence;
use slub_core::worker_local::Local;
use slub_object_layout::name::Name;
use slub_trace::event::{Act, Event};
use std::alloc::Global;
use std::marker::Model;

/// No event.
const NO_EVENT: Event = Event {
    line: 0,
    worker: 0,
    cpu: 0,
    act: Act::Flush,
};

/// What the lines of a round's turns name. Each trim is of a name of the trace, and there are 16 workers at most.
#[derive(Debug, Drop)]
pub struct Labels {
    /// Those of the trace.
    names: Sequence<Name>,
    /// Of each live cache its title, by the cache's number.
    titles: Sequence<Option<Name>>,
    /// Of each worker its events, in the order of the text.
    events: Sequence<Sequence<Event>>,
}

impl Model for Labels {
    ghost use Rattle.std.specs.Prelude.{◌≤◌, length};
    ghost use Rattle.slub_turn_text.specs.Labels.{RoundLabels, AreNamed};

    ghost Value = { RoundLabels };

    ghost view = { λ l. record { names = l.names; titles = l.titles; events = l.events } };

    ghost invariant = { λ l. AreNamed (record { names = l.names; titles = l.titles; events = l.events }) × (length l.events ≤ 16) };
}

impl Labels {
    /// Those of a round of so many workers with these events.
    pub fn open(
        alloc: Global,
        names: &[Name],
        titles: Sequence<Option<Name>>,
        workers: u8,
        events: &[Event],
    ) -> Result<Labels, NoMemory>
        requires few { workers ≤ 16 }
        requires named { All (λ event. IsNamed names.now event.act) events.now }
        ensures { IfOk result (λ l. l ≡ record { names = names.now; titles = titles; events = labels.shares_of events.now workers }) }
    {
        Ok(Labels {
            names: copy_of(alloc, names)?,
            titles,
            events: shares_of(alloc, events, workers)?,
        })
    }

    /// How many workers there are.
    pub fn workers(&self) -> u8
        ensures workers { result ≡ labels.workers_in self.now }
        ensures few { result ≤ 16 }
    {
        self.events.len() as u8
    }

    /// The names of the trace.
    pub(crate) fn names(&self) -> &[Name]
        ensures { result.now ≡ self.now.names }
    {
        self.names.as_slice()
    }

    /// The title of a cache.
    #[tactic(auto, unfolding(crate::specs::Labels::title_of))]
    pub(crate) fn title_of(&self, cache: usize) -> &[u8]
        ensures { result.now ≡ labels.title_of self.now cache }
    {
        match self.titles.as_slice().get(cache) {
            Some(Some(title)) => title.as_bytes(),
            _ => &[],
        }
    }

    /// The events of a worker.
    #[tactic(auto, unfolding(crate::specs::Labels::events_of))]
    pub(crate) fn events_of(&self, worker: u8) -> &[Event]
        ensures events { result.now ≡ labels.events_of self.now worker }
        ensures named { All (λ event. IsNamed self.now.names event.act) result.now }
    {
        match self.events.as_slice().get(usize::from(worker)) {
            Some(events) => events.as_slice(),
            None => &[],
        }
    }

    /// A worker's event of this number, from 0 on.
    #[tactic(auto, unfolding(crate::specs::Labels::event_at))]
    pub(crate) fn event_at(&self, worker: u8, number: usize) -> Event
        ensures event { result ≡ labels.event_at self.now worker number }
        ensures named { IsNamed self.now.names result.act }
    {
        match self.events_of(worker).get(number) {
            Some(event) => *event,
            None => NO_EVENT,
        }
    }

    /// A name of the trace.
    fn name_at(&self, place: u32) -> &[u8]
        ensures { result.now ≡ slice_index_or self.now.names place [] }
    {
        match self.names.as_slice().get(place as usize) {
            Some(name) => name.as_bytes(),
            None => &[],
        }
    }
}

/// A copy of names.
fn copy_of(alloc: Global, names: &[Name]) -> Result<Sequence<Name>, NoMemory>
    ensures { IfOk result (λ copy. copy ≡ names.now) }
{
    let mut copy = Vec::new(alloc);
    for name in names {
        copy.push(*name)?;
    }
    Ok(Sequence::from_vec(copy))
}

/// The events of a worker.
#[tactic(auto, unfolding(crate::specs::Labels::share_of))]
fn share_of(alloc: Global, events: &[Event], worker: u8) -> Result<Sequence<Event>, NoMemory>
    ensures { IfOk result (λ share. share ≡ labels.share_of events.now worker) }
{
    let mut share = Vec::new(alloc);
    for event in events {
        if event.worker == worker {
            share.push(*event)?;
        }
    }
    Ok(Sequence::from_vec(share))
}

/// Those of each worker of a round.
#[tactic(auto, using(crate::proofs::Lanes::lanes))]
fn shares_of(
    alloc: Global,
    events: &[Event],
    workers: u8,
) -> Result<Sequence<Sequence<Event>>, NoMemory>
    ensures { IfOk result (λ shares. shares ≡ labels.shares_of events.now workers) }
{
    let mut shares = Sequence::new(alloc);
    for worker in 0..workers {
        let share = share_of(alloc, events, worker)?;
        shares.push(share)?;
    }
    Ok(shares)
}

/// Which of its events a worker is in: the first without a reply, or the last with one, whose call goes on.
#[tactic(auto, unfolding(crate::specs::Labels::event_number))]
pub(crate) fn event_number(local: &Local) -> usize
    ensures { result ≡ labels.event_number local.now }
{
    let answered = local.answers().len();
    if has_no_reply(local.spot()) {
        answered
    } else {
        answered.saturating_sub(1)
    }
}

impl Labels {
    /// An event, named.
    #[tactic(auto, unfolding(crate::specs::Labels::event_words))]
    fn push_event(&self, text: &mut Vec<u8>, event: &Event) -> Result<(), NoMemory>
        ensures { OnOk result (text.new.items ≡ text.old.items ++ labels.event_words self.now event.now) }
    {
        match &event.act {
            Act::Alloc { cache: _, object } => push_numbered(text, b"alloc ", *object),
            Act::Free { object } => push_numbered(text, b"free ", *object),
            Act::Write {
                word,
                object,
                value: _,
            } => push_word_of(text, b"write ", *object, *word),
            Act::Read { word, object } => push_word_of(text, b"read ", *object, *word),
            Act::Poke {
                object,
                offset,
                byte: _,
            } => push_poke(text, *object, *offset),
            Act::Trim { cache } => {
                push_words(text, b"trim ")?;
                push_words(text, self.name_at(*cache))
            }
            Act::Flush => push_numbered(text, b"flush ", u32::from(event.cpu)),
        }
    }

    /// The event of a worker's number, named.
    pub(crate) fn push_label(
        &self,
        text: &mut Vec<u8>,
        worker: u8,
        number: usize,
    ) -> Result<(), NoMemory>
        ensures { OnOk result (text.new.items ≡ text.old.items ++ labels.label_at self.now worker number) }
    {
        self.push_event(text, &self.event_at(worker, number))
    }
}

/// Words and a number.
fn push_numbered(text: &mut Vec<u8>, words: &[u8], n: u32) -> Result<(), NoMemory>
    ensures { OnOk result (text.new.items ≡ text.old.items ++ words.now ++ decimal n) }
{
    push_words(text, words)?;
    push_number(text, u64::from(n))
}

/// What a write or a read is named by.
fn push_word_of(text: &mut Vec<u8>, words: &[u8], object: u32, word: u16) -> Result<(), NoMemory>
    ensures { OnOk result (text.new.items ≡
        text.old.items ++ words.now ++ decimal object ++ 32 ∷ decimal word) }
{
    push_numbered(text, words, object)?;
    push_numbered(text, b" ", u32::from(word))
}

/// What a poke is named by.
fn push_poke(text: &mut Vec<u8>, object: u32, offset: i32) -> Result<(), NoMemory>
    ensures { OnOk result (text.new.items ≡
        text.old.items ++ codes "poke " ++ decimal object ++ 32 ∷ signed_decimal offset) }
{
    push_numbered(text, b"poke ", object)?;
    push_words(text, b" ")?;
    push_signed(text, offset)
}
