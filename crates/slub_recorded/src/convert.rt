//! A recording becomes a trace.

ghost use Rattle.std.specs.Prelude.{◌≡◌, ◌<◌, ◌≤◌, List, length, map, position, All, IfErr, IfOk, IfSome, OnOk};
ghost use Rattle.std.specs.Str.{bytes_eq};
ghost use Rattle.slub_recorded.specs.Converted.{IsConverted, IsFault, IsLaidOut, IsTraceText, IsTune, IsWritten, caches as all_caches, cpus_asked, place_of};
ghost use Rattle.slub_recorded.specs.Groups.{FitTrace, row_of};
ghost use Rattle.slub_recorded.specs.Lines.{IsRow};
ghost use Rattle.slub_recorded.specs.Members.{IsGrouped};
ghost use Rattle.slub_recorded.specs.Turns.{count_kept, turns_of};
ghost use Rattle.slub_recorded.specs.declared.convert.ConvertFault.TheVariants.{NoMemory as OutOfMemory};
ghost use Rattle.slub_recorded.specs.declared.convert.Options.{Options as OptionsOf};
ghost use Rattle.slub_recorded.specs.declared.text.Row.{Row as RowOf};
ghost use Rattle.slub_recorded.specs.declared.tunes.Tune.{Tune as TuneOf};
ghost use Rattle.slub_recording.specs.declared.recording.Recording.{Recording as RecordingOf};

use crate::groups::{Cache, Chosen, Groups, caches_of, group};
use crate::listed::{count_by_holder, count_no_cache, count_rounds, list};
use crate::naming::{Title, titles};
use crate::pairing::{Move, pair};
use crate::rounds::{Step, Workers, steps_of};
use crate::text::{Row, push_body, push_words};
use crate::told::{Counts, Note, push_notes, tell};
use crate::tunes::{Tune, head};
use crate::turns::{Turn, count_kept, turns_of};
use slub_common::limits::{CPUS_MAX, INPUT_MAX, OBJECTS_MAX};
use slub_common::no_memory::NoMemory;
use slub_object_layout::name::Name;
use slub_recording::recording::Recording;
use std::alloc::{AllocError, Global};

/// What is asked of a conversion.
#[derive(Clone, Copy, Debug)]
pub struct Options {
    /// The group of caches, from 1 on.
    pub group: u32,
    /// The CPUs of the trace, 1 to 16; None for those of the recording.
    pub cpus: Option<u32>,
    /// The workers of each round.
    pub workers: Workers,
    /// The parts that the trace is cut into, 1 to 256, each with slabinfo behind it.
    pub parts: u32,
}

/// Why there is no trace.
#[derive(Clone, Copy, Debug)]
pub enum ConvertFault {
    NoMemory,
    /// So many CPUs: a trace has 1 to 16.
    TooManyCpus { cpus: u32 },
    /// So many groups there are, and this isn't one of them.
    NoSuchGroup { group: u32, groups: u32 },
    /// So many objects of the group: a trace has at most 1048576.
    TooManyObjects { objects: usize },
    /// So many bytes: a trace has at most 16777216.
    TooLong { bytes: usize },
}

impl From<NoMemory> for ConvertFault {
    ghost from_gives = { λ _ fault. fault ≡ OutOfMemory };

    fn from(_e: NoMemory) -> ConvertFault {
        ConvertFault::NoMemory
    }
}

impl From<AllocError> for ConvertFault {
    ghost from_gives = { λ _ fault. fault ≡ OutOfMemory };

    fn from(_e: AllocError) -> ConvertFault {
        ConvertFault::NoMemory
    }
}

/// A trace.
#[derive(Drop)]
pub struct Converted {
    /// The bytes of the trace.
    pub text: Vec<u8>,
    /// What its comments tell.
    pub notes: Vec<Note>,
}

/// The CPUs of the trace.
fn cpus_of(recording: &Recording, options: &Options) -> Result<u32, ConvertFault>
    ensures asked { IfOk result (λ cpus. cpus ≡ cpus_asked recording.now options.now) }
    ensures some { IfOk result (λ cpus. 1 ≤ cpus) }
    ensures few { IfOk result (λ cpus. cpus ≤ 16) }
    ensures fault { (tunes : List TuneOf) → IfErr result (IsFault recording.now options.now tunes) }
{
    let told = recording.told_cpus.unwrap_or(1);
    let seen = recording.greatest_cpu.saturating_add(1);
    let cpus = options.cpus.unwrap_or(told.max(seen));
    if cpus == 0 || cpus > CPUS_MAX {
        return Err(ConvertFault::TooManyCpus { cpus });
    }
    Ok(cpus)
}

/// The caches of the group that is asked for.
#[tactic(auto, using(crate::proofs::Converts::no_group))]
fn group_of(
    alloc: Global,
    caches: &[Cache],
    cpus: u32,
    options: &Options,
) -> Result<Groups, ConvertFault>
    requires some { 1 ≤ cpus }
    requires few { cpus ≤ 16 }
    ensures fits { IfOk result (λ g. FitTrace g.chosen.items) }
    ensures grouped { IfOk result (IsGrouped cpus caches.now options.now.group) }
    ensures group { OnOk result (1 ≤ options.now.group) }
    ensures few { IfOk result (λ g. options.now.group ≤ g.groups) }
    ensures fault { (recording : RecordingOf) (tunes : List TuneOf) → caches.now ≡ all_caches recording
        → cpus ≡ cpus_asked recording options.now → IfErr result (IsFault recording options.now tunes) }
{
    let groups = group(alloc, caches, cpus, options.group)?;
    if options.group == 0 || groups.groups < options.group {
        return Err(ConvertFault::NoSuchGroup {
            group: options.group,
            groups: groups.groups,
        });
    }
    Ok(groups)
}

/// The line of a cache.
fn row(name: &Name, slot: u32, reclaim: bool) -> Row
    ensures fits { IsRow result }
    ensures is { result ≡ record { name = name.now; slot = slot; reclaim = reclaim } }
{
    let _text = name.as_bytes();
    Row {
        name: *name,
        slot,
        reclaim,
    }
}

/// The lines of the caches of a trace, in their order.
fn rows_of(alloc: Global, chosen: &[Chosen]) -> Result<Vec<Row>, NoMemory>
    ensures fit { IfOk result (λ rows. All IsRow rows.items) }
    ensures rows { IfOk result (λ rows. rows.items ≡ map row_of chosen.now) }
{
    let mut rows = Vec::with_capacity(alloc, chosen.len())?;
    for one in chosen {
        rows.push(row(&one.cache.name, one.cache.slot, one.second))?;
    }
    Ok(rows)
}

/// The place of the first cache of this name.
fn place_in(rows: &[Row], name: &Name) -> Option<usize>
    ensures first { result ≡ position (λ row. bytes_eq name.now row.name) rows.now }
    ensures inside { IfSome result (λ at. at < length rows.now) }
{
    rows.iter().position(|row| *name == row.name)
}

/// The place of the cache that has a title's name.
fn place_of(rows: &[Row], title: &Title) -> Option<u32>
    requires { length rows.now ≤ 32 }
    ensures { result ≡ place_of rows.now title.now }
{
    match place_in(rows, &title.name) {
        Some(place) => Some(place as u32),
        None => None,
    }
}

/// By object: the place of its cache in the trace.
fn places_of(alloc: Global, rows: &[Row], titles: &[Title]) -> Result<Vec<Option<u32>>, NoMemory>
    requires { length rows.now ≤ 32 }
    ensures { IfOk result (λ places. places.items ≡ map (place_of rows.now) titles.now) }
{
    let mut places = Vec::with_capacity(alloc, titles.len())?;
    for title in titles {
        places.push(place_of(rows, title))?;
    }
    Ok(places)
}

/// The text of the trace.
fn text_of(
    alloc: Global,
    notes: &[Note],
    cpus: u32,
    rows: &[Row],
    tunes: &[Tune],
    workers: u32,
    steps: &[Step],
) -> Result<Vec<u8>, NoMemory>
    ensures { IfOk result (λ text.
        IsTraceText notes.now cpus rows.now tunes.now workers steps.now text.items) }
{
    let mut text = Vec::new(alloc);
    push_words(&mut text, head(tunes))?;
    push_notes(&mut text, notes)?;
    push_body(&mut text, cpus, rows, tunes, workers, steps)?;
    Ok(text)
}

/// What the trace does, where its limits allow it.
#[tactic(auto, using(crate::proofs::Converts::crowded))]
fn kept_turns(
    alloc: Global,
    places: &[Option<u32>],
    cpus: u32,
    moves: &[Move],
) -> Result<Vec<Turn>, ConvertFault>
    requires { 1 ≤ cpus }
    ensures turns { IfOk result (λ turns. turns.items ≡ turns_of places.now cpus moves.now) }
    ensures few { OnOk result (count_kept places.now ≤ 1048576) }
    ensures fault { (recording : RecordingOf) (options : OptionsOf) (tunes : List TuneOf) (rows : List RowOf)
        → IsLaidOut recording options cpus rows places.now → IfErr result (IsFault recording options tunes) }
{
    let objects = count_kept(places);
    if objects > OBJECTS_MAX as usize {
        return Err(ConvertFault::TooManyObjects { objects });
    }
    let turns = turns_of(alloc, places, cpus, moves)?;
    Ok(turns)
}

/// The trace of a group of caches, however long.
fn written(
    alloc: Global,
    recording: &Recording,
    options: &Options,
    tunes: &[Tune],
) -> Result<Converted, ConvertFault>
    ensures trace { IfOk result (λ c.
        IsWritten recording.now options.now tunes.now c.notes.items c.text.items) }
    ensures fault { IfErr result (IsFault recording.now options.now tunes.now) }
{
    let cpus = cpus_of(recording, options)?;
    let pairing = pair(alloc, recording.events.as_slice())?;
    let objects = pairing.objects.as_slice();
    let moves = pairing.moves.as_slice();
    let fates = pairing.fates.as_slice();
    let titles = titles(alloc, recording.names.as_slice(), objects, moves)?;
    let named = titles.as_slice();
    let caches = caches_of(alloc, named, objects, moves)?;
    let groups = group_of(alloc, caches.caches.as_slice(), cpus, options)?;
    let shown = rows_of(alloc, groups.chosen.as_slice())?;
    let rows = shown.as_slice();
    let places = places_of(alloc, rows, named)?;
    let turns = kept_turns(alloc, places.as_slice(), cpus, moves)?;
    let cut = steps_of(alloc, options, turns.as_slice())?;
    let steps = cut.as_slice();
    let counts = Counts {
        objects: objects.len() as u64,
        moves: moves.len() as u64,
        kept: turns.len() as u64,
        rows: rows.len() as u64,
        caches: caches.caches.len() as u64,
        left_out: groups.left_out,
        group: options.group,
        groups: groups.groups,
        cpus,
        rounds: count_rounds(steps),
        by_holder: count_by_holder(&options.workers, steps),
        no_cache: count_no_cache(tunes, rows),
    };
    let listed = list(
        alloc,
        recording,
        fates,
        rows,
        caches.caches.as_slice(),
        cpus,
        groups.beyond.as_slice(),
    )?;
    let notes = tell(alloc, recording, fates, named, &counts, listed.as_slice())?;
    let told = notes.as_slice();
    let workers = options.workers.count(cpus);
    let text = text_of(alloc, told, cpus, rows, tunes, workers, steps)?;
    Ok(Converted { text, notes })
}

/// Converts a recording: the trace of a group of its caches, with settings of them.
#[tactic(auto, using(crate::proofs::Converts::converted, crate::proofs::Converts::too_long))]
pub fn convert(
    alloc: Global,
    recording: &Recording,
    options: &Options,
    tunes: &[Tune],
) -> Result<Converted, ConvertFault>
    requires { All IsTune tunes.now }
    ensures trace { IfOk result (λ c.
        IsConverted recording.now options.now tunes.now c.notes.items c.text.items) }
    ensures fault { IfErr result (IsFault recording.now options.now tunes.now) }
{
    let converted = written(alloc, recording, options, tunes)?;
    let bytes = converted.text.as_slice().len();
    if bytes > INPUT_MAX {
        return Err(ConvertFault::TooLong { bytes });
    }
    Ok(converted)
}
