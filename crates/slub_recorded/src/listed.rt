//! What is told of single caches.

ghost use Rattle.std.specs.Prelude.{◌≡◌, ◌≤◌, ◌++◌, ◌∷◌, [], List, All, Contains, IfOk, OnOk};
ghost use Rattle.slub_recorded.specs.declared.groups.Cache.{Cache as CacheOf};
ghost use Rattle.slub_recorded.specs.declared.told.Note.TheVariants.{Of as ToldOf};
ghost use Rattle.slub_recorded.specs.Members.{IsLeftOut};
ghost use Rattle.slub_recorded.specs.Told.{IsOfLeft, left_note};

use crate::groups::{Cache, Chosen, is_left_out};
use crate::pairing::Fate;
use crate::rounds::{Step, Workers, is_by_holder};
use crate::text::Row;
use crate::told::{About, Note};
use crate::tunes::{Tune, is_for};
use slub_common::no_memory::NoMemory;
use slub_object_layout::name::Name;
use slub_recording::event::{KmemAct, KmemEvent};
use slub_recording::recording::Recording;
use std::alloc::Global;

/// Tells a number of a cache.
fn put(notes: &mut Vec<Note>, about: About, name: &Name, number: u64) -> Result<(), NoMemory>
    ensures { OnOk result (notes.new.items ≡ notes.old.items ++ ToldOf about name.now number ∷ []) }
{
    notes.push(Note::Of {
        about,
        name: *name,
        number,
    })?;
    Ok(())
}

/// The name that a free of what the recording didn't allocate says.
fn unknown_name(event: &KmemEvent, fate: &Fate) -> Option<usize> {
    match (event.act, fate) {
        (KmemAct::CacheFree { name: Some(name) }, Fate::CacheUnknown) => Some(name as usize),
        _ => None,
    }
}

/// Counts one more at a place.
fn count_up(counts: &mut Vec<u64>, place: usize) {
    if place < counts.len() {
        counts[place] = counts[place].saturating_add(1);
    }
}

/// By name of the recording: the frees that say it of what the recording didn't allocate.
fn unknown_frees(
    alloc: Global,
    names: usize,
    events: &[KmemEvent],
    fates: &[Fate],
) -> Result<Vec<u64>, NoMemory> {
    let mut counts = vec![in alloc; 0; names]?;
    for (place, event) in events.iter().enumerate() {
        if let Some(fate) = fates.get(place) {
            if let Some(name) = unknown_name(event, fate) {
                count_up(&mut counts, name);
            }
        }
    }
    Ok(counts)
}

/// Tells of a cache that there were such frees of it, where there were any.
#[tactic(auto, using(crate::proofs::Only::none_more))]
fn put_frees(notes: &mut Vec<Note>, name: &Name, count: u64) -> Result<(), NoMemory>
    ensures { All (IsOfLeft []) notes.old.items → OnOk result (All (IsOfLeft []) notes.new.items) }
{
    if count != 0 {
        put(notes, About::UnknownFrees, name, count)?;
    }
    Ok(())
}

/// Tells of each cache the frees of what the recording didn't allocate.
fn put_unknown(
    alloc: Global,
    notes: &mut Vec<Note>,
    recording: &Recording,
    fates: &[Fate],
) -> Result<(), NoMemory>
    ensures { All (IsOfLeft []) notes.old.items → OnOk result (All (IsOfLeft []) notes.new.items) }
{
    let names = recording.names.as_slice();
    let counts = unknown_frees(alloc, names.len(), recording.events.as_slice(), fates)?;
    for (place, count) in counts.as_slice().iter().enumerate() {
        if let Some(name) = names.get(place) {
            put_frees(notes, name, *count)?;
        }
    }
    Ok(())
}

/// Tells which caches have the letter R.
fn put_letters(notes: &mut Vec<Note>, rows: &[Row]) -> Result<(), NoMemory>
    ensures { All (IsOfLeft []) notes.old.items → OnOk result (All (IsOfLeft []) notes.new.items) }
{
    for row in rows {
        put_letter(notes, row)?;
    }
    Ok(())
}

/// Tells of a cache that it has the letter R, where it has it.
#[tactic(auto, using(crate::proofs::Only::none_more))]
fn put_letter(notes: &mut Vec<Note>, row: &Row) -> Result<(), NoMemory>
    ensures { All (IsOfLeft []) notes.old.items → OnOk result (All (IsOfLeft []) notes.new.items) }
{
    if row.reclaim {
        put(notes, About::Letter, &row.name, u64::from(row.slot))?;
    }
    Ok(())
}

/// Tells which caches are in no group.
fn put_left_out(
    notes: &mut Vec<Note>,
    caches: &[Cache],
    cpus: u32,
    beyond: &[Chosen],
) -> Result<(), NoMemory>
    requires some { 1 ≤ cpus }
    requires few { cpus ≤ 16 }
    ensures told { OnOk result (All
        (λ cache. IsLeftOut cpus cache beyond.now → Contains notes.new.items (left_note cache))
        caches.now) }
    ensures only { (left : List CacheOf)
        → All (λ cache. IsLeftOut cpus cache beyond.now → Contains left cache) caches.now
        → All (IsOfLeft []) notes.old.items → OnOk result (All (IsOfLeft left) notes.new.items) }
{
    for cache in caches {
        if is_left_out(cache, cpus, beyond) {
            put(notes, About::LeftOutCache, &cache.name, cache.objects)?;
        }
    }
    Ok(())
}

/// What is told of single caches.
pub(crate) fn list(
    alloc: Global,
    recording: &Recording,
    fates: &[Fate],
    rows: &[Row],
    caches: &[Cache],
    cpus: u32,
    beyond: &[Chosen],
) -> Result<Vec<Note>, NoMemory>
    requires some { 1 ≤ cpus }
    requires few { cpus ≤ 16 }
    ensures told { IfOk result (λ notes. All
        (λ cache. IsLeftOut cpus cache beyond.now → Contains notes.items (left_note cache))
        caches.now) }
    ensures only { (left : List CacheOf)
        → All (λ cache. IsLeftOut cpus cache beyond.now → Contains left cache) caches.now
        → IfOk result (λ notes. All (IsOfLeft left) notes.items) }
{
    let mut notes = Vec::new(alloc);
    put_unknown(alloc, &mut notes, recording, fates)?;
    put_letters(&mut notes, rows)?;
    put_left_out(&mut notes, caches, cpus, beyond)?;
    Ok(notes)
}

/// How many rounds there are.
pub(crate) fn count_rounds(steps: &[Step]) -> u64 {
    let cuts = steps
        .iter()
        .filter(|step| matches!(step, Step::Cut { .. }))
        .count() as u64;
    cuts.saturating_add(1)
}

/// How many frees another worker makes than that of their CPU.
pub(crate) fn count_by_holder(workers: &Workers, steps: &[Step]) -> u64 {
    steps
        .iter()
        .filter(|step| is_by_holder(workers, step))
        .count() as u64
}

/// Whether a setting is for one of these caches.
fn is_for_one(tune: &Tune, rows: &[Row]) -> bool {
    rows.iter().any(|row| is_for(tune, &row.name))
}

/// How many settings are for none of these caches.
pub(crate) fn count_no_cache(tunes: &[Tune], rows: &[Row]) -> u64 {
    tunes.iter().filter(|tune| !is_for_one(tune, rows)).count() as u64
}
