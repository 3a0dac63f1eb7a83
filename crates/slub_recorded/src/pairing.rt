//! Which object each event allocates or frees.

ghost use Rattle.std.specs.Prelude.{◌≡◌, ◌++◌, ◌==◌, length, option_to_list, IfOk, OnOk};
ghost use Rattle.slub_recorded.specs.Pairing.{after, birth, fate_of, freed_fate, frees, gives, held_at, left, said, seen};
ghost use Rattle.slub_recorded.specs.Paired.{view};
ghost use Rattle.slub_recorded.specs.Told.{fate_code};

use indexmap::IndexMap;
use slub_common::no_memory::NoMemory;
use slub_recording::event::{KmallocKind, KmemAct, KmemEvent};
use std::alloc::Global;

/// The greatest slot of a kmalloc cache, in bytes (`KMALLOC_MAX_CACHE_SIZE`). What is larger takes
/// whole pages.
const SLOT_MAX: u32 = 8192;

/// What lies at a pointer.
#[derive(Clone, Copy, Debug)]
pub enum Held {
    /// Nothing that the recording allocated.
    Nothing,
    /// The object of this number, from 0 on.
    Object(usize),
    /// Whole pages.
    Pages,
}

/// How an object was asked for.
#[derive(Clone, Copy, Debug)]
pub enum Origin {
    /// Of a cache: the size that was asked for, in bytes, and the place of the call site.
    Cache { asked: u32, site: u32 },
    Kmalloc(KmallocKind),
}

/// An object that the recording allocates. A slot is in bytes.
#[derive(Clone, Copy, Debug)]
pub struct Born {
    pub slot: u32,
    pub origin: Origin,
}

/// What is done with an object, by its number. A CPU is that of the event.
#[derive(Clone, Copy, Debug)]
pub enum Move {
    Alloc {
        cpu: u32,
        object: usize,
    },
    /// The name is the place of the cache's name that the free says.
    Free {
        cpu: u32,
        object: usize,
        name: Option<u32>,
    },
}

/// What became of an event.
#[derive(Clone, Copy, Debug)]
pub enum Fate {
    /// It allocates an object.
    Given,
    /// An allocation that failed: its pointer is 0.
    Failed,
    /// It allocates whole pages.
    PagesGiven,
    /// It frees an object.
    Freed,
    /// It frees nothing: its pointer is 0.
    OfNothing,
    /// It frees whole pages.
    PagesFreed,
    /// A `kmem_cache_free` of what the recording didn't allocate.
    CacheUnknown,
    /// A `kfree` of what the recording didn't allocate.
    Unknown,
}

impl Fate {
    /// Its place among the fates, from 0 on.
    pub(crate) fn code(&self) -> u8
        ensures { result ≡ fate_code self.now }
    {
        match self {
            Fate::Given => 0,
            Fate::Failed => 1,
            Fate::PagesGiven => 2,
            Fate::Freed => 3,
            Fate::OfNothing => 4,
            Fate::PagesFreed => 5,
            Fate::CacheUnknown => 6,
            Fate::Unknown => 7,
        }
    }
}

/// What the events so far did.
#[derive(Drop)]
pub struct Pairing {
    /// By pointer: what lies there.
    pub held: IndexMap<u64, Held>,
    /// The objects, in the order of their allocations.
    pub objects: Vec<Born>,
    pub moves: Vec<Move>,
    pub fates: Vec<Fate>,
}

/// Pairs the events of a recording: frees with the allocations of their pointers.
pub fn pair(alloc: Global, events: &[KmemEvent]) -> Result<Pairing, NoMemory>
    ensures { IfOk result (λ pairing. view pairing ≡ seen events.now) }
{
    let mut pairing = Pairing {
        held: IndexMap::new(alloc),
        objects: Vec::new(alloc),
        moves: Vec::new(alloc),
        fates: Vec::new(alloc),
    };
    for event in events {
        pairing.add(event)?;
    }
    Ok(pairing)
}

impl Pairing {
    /// What lies at a pointer.
    fn held_at(&self, pointer: u64) -> Held
        ensures { result ≡ held_at self.now.held.entries pointer }
    {
        self.held.get(&pointer).copied().unwrap_or(Held::Nothing)
    }

    /// One event more.
    #[tactic(auto, unfolding(crate::specs::Pairing::after, crate::specs::Paired::view))]
    fn add(&mut self, event: &KmemEvent) -> Result<(), NoMemory>
        ensures { OnOk result (view self.new ≡ after (view self.old) event.now) }
    {
        let held = self.held_at(event.pointer);
        self.fates
            .push(fate_of(&event.act, event.pointer == 0, &held))?;
        if event.pointer == 0 {
            return Ok(());
        }
        self.held
            .insert(event.pointer, left(event, self.objects.len()))?;
        push_free(&mut self.moves, event, &held)?;
        push_given(&mut self.objects, &mut self.moves, event)
    }
}

/// Frees the object that lies at the event's pointer, where one does.
fn push_free(moves: &mut Vec<Move>, event: &KmemEvent, held: &Held) -> Result<(), NoMemory>
    ensures { OnOk result (moves.new.items ≡ moves.old.items ++ frees event.now held.now) }
{
    if let Held::Object(object) = *held {
        moves.push(Move::Free {
            cpu: event.cpu,
            object,
            name: said(event),
        })?;
    }
    Ok(())
}

/// Allocates the event's object, where it is of one.
fn push_given(
    objects: &mut Vec<Born>,
    moves: &mut Vec<Move>,
    event: &KmemEvent,
) -> Result<(), NoMemory>
    ensures objects { OnOk result (objects.new.items ≡ objects.old.items ++ option_to_list (birth event.now.act)) }
    ensures moves { OnOk result (moves.new.items
        ≡ moves.old.items ++ gives event.now (length objects.old.items) (birth event.now.act)) }
{
    if let Some(born) = birth(event) {
        moves.push(Move::Alloc {
            cpu: event.cpu,
            object: objects.len(),
        })?;
        objects.push(born)?;
    }
    Ok(())
}

/// The object that an event allocates.
fn birth(event: &KmemEvent) -> Option<Born>
    ensures { result ≡ birth event.now.act }
{
    match event.act {
        KmemAct::CacheAlloc { asked, slot, site } => Some(Born {
            slot,
            origin: Origin::Cache { asked, site },
        }),
        KmemAct::Kmalloc { slot, kind } if slot <= SLOT_MAX => Some(Born {
            slot,
            origin: Origin::Kmalloc(kind),
        }),
        _ => None,
    }
}

/// What lies at an event's pointer once it was done, where so many objects were allocated before.
fn left(event: &KmemEvent, objects: usize) -> Held
    ensures { result ≡ left event.now.act objects }
{
    if birth(event).is_some() {
        return Held::Object(objects);
    }
    match event.act {
        KmemAct::Kmalloc { .. } => Held::Pages,
        _ => Held::Nothing,
    }
}

/// The name that an event says.
fn said(event: &KmemEvent) -> Option<u32>
    ensures { result ≡ said event.now.act }
{
    match event.act {
        KmemAct::CacheFree { name } => name,
        _ => None,
    }
}

/// What becomes of a free, by what lies at its pointer.
fn freed_fate(held: &Held, never: Fate) -> Fate
    ensures { result ≡ freed_fate held.now never }
{
    match held {
        Held::Nothing => never,
        Held::Object(_) => Fate::Freed,
        Held::Pages => Fate::PagesFreed,
    }
}

/// What becomes of an event, by whether its pointer is 0 and what lies there.
fn fate_of(act: &KmemAct, zero: bool, held: &Held) -> Fate
    ensures { result ≡ fate_of act.now zero held.now }
{
    match act {
        KmemAct::CacheAlloc { .. } | KmemAct::Kmalloc { .. } if zero => Fate::Failed,
        KmemAct::CacheAlloc { .. } => Fate::Given,
        KmemAct::Kmalloc { slot, .. } if *slot > SLOT_MAX => Fate::PagesGiven,
        KmemAct::Kmalloc { .. } => Fate::Given,
        KmemAct::CacheFree { .. } | KmemAct::Kfree if zero => Fate::OfNothing,
        KmemAct::CacheFree { .. } => freed_fate(held, Fate::CacheUnknown),
        KmemAct::Kfree => freed_fate(held, Fate::Unknown),
    }
}
