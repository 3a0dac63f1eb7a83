//! Which caches stand in a trace.

ghost use Rattle.std.specs.Prelude.{◌≡◌, ◌+◌, ◌<◌, ◌≤◌, ◌↔◌, ◌++◌, [], ◌∷◌, List, ◌==◌, length, slice_get, count_by, IfOk, IfSome, MatchOption, OnOk, IsTrue, if◌then◌else◌};
ghost use Rattle.std.specs.Option.{option_map_or};
ghost use Rattle.std.specs.List.Sorted.{IsSortedByKey};
ghost use Rattle.slub_recorded.specs.Caches.{ArePlaces, caches_of, counted, is_alloc, names_of, object_of};
ghost use Rattle.slub_recorded.specs.Groups.{FitTrace, IsSplit};
ghost use Rattle.slub_recorded.specs.Members.{AreFramed, HasName, IsGrouped, IsLeftOut, IsNeed, IsTooLarge, Packs, PacksMore, cache_cmp};
ghost use Rattle.slub_recorded.specs.declared.groups.Chosen.{Chosen as ChosenCache};
ghost use Rattle.slub_recorded.specs.declared.naming.Title.{Title as TitleOf};
ghost use Rattle.slub_recorded.specs.declared.pairing.Born.{Born as BornOf};
ghost use Rattle.slub_recorded.specs.declared.pairing.Move.{Move as MoveOf};

use crate::naming::Title;
use crate::pairing::{Born, Move};
use indexmap::IndexSet;
use slub_common::limits::{CACHES_MAX, SLABS_MAX};
use slub_common::no_memory::NoMemory;
use slub_object_layout::layout::{Flags, Spec, layout_of};
use slub_object_layout::name::Name;
use std::alloc::Global;
use std::cmp::Ordering;

/// The flags of a cache without any.
const PLAIN: Flags = Flags {
    line: false,
    reclaim: false,
    checks: false,
    zones: false,
    poison: false,
    user: false,
    trace: false,
    fail: false,
};

/// A cache of a recording.
#[derive(Clone, Copy, Debug)]
pub struct Cache {
    pub name: Name,
    /// The slot of its first object, in bytes.
    pub slot: u32,
    /// How many objects it has.
    pub objects: u64,
    /// How many of them live.
    live: u64,
    /// The greatest number of them that live at a time.
    pub most: u64,
}

/// The caches of a recording.
#[derive(Drop)]
pub struct Caches {
    pub caches: Vec<Cache>,
    /// By object: the place of its cache.
    pub places: Vec<usize>,
}

/// A cache that a trace may have.
#[derive(Clone, Copy, Debug)]
pub struct Chosen {
    pub cache: Cache,
    /// The page frames that it needs at least.
    pub frames: u32,
    /// Whether another cache of its slot stands before it.
    pub second: bool,
}

/// The caches of objects.
pub fn caches_of(
    alloc: Global,
    titles: &[Title],
    objects: &[Born],
    moves: &[Move],
) -> Result<Caches, NoMemory>
    ensures { IfOk result (λ c. c.caches.items ≡ caches_of titles.now objects.now moves.now) }
{
    let Caches { mut caches, places } = named(alloc, titles, objects)?;
    for step in moves {
        count(&mut caches, places.as_slice(), step);
    }
    Ok(Caches { caches, places })
}

/// The caches of objects, of which none is allocated yet.
fn named(alloc: Global, titles: &[Title], objects: &[Born]) -> Result<Caches, NoMemory>
    ensures caches { IfOk result (λ c. c.caches.items ≡ caches_of titles.now objects.now []) }
    ensures places { IfOk result (λ c. ArePlaces titles.now (names_of titles.now) c.places.items) }
{
    let mut names = IndexSet::new(alloc);
    let mut caches = Vec::new(alloc);
    let mut places = Vec::with_capacity(alloc, titles.len())?;
    for (object, title) in titles.iter().enumerate() {
        let (place, is_new) = names.insert_full(title.name)?;
        if is_new {
            caches.push(Cache {
                name: title.name,
                slot: slot_at(objects, object),
                objects: 0,
                live: 0,
                most: 0,
            })?;
        }
        places.push(place)?;
    }
    Ok(Caches { caches, places })
}

/// The slot of an object, in bytes.
fn slot_at(objects: &[Born], object: usize) -> u32
    ensures { result ≡ option_map_or (λ born. born.slot) (slice_get objects.now object) 0 }
{
    match objects.get(object).copied() {
        Some(born) => born.slot,
        None => 0,
    }
}

/// Counts a move at its cache.
fn count(caches: &mut Vec<Cache>, places: &[usize], step: &Move)
    ensures { (titles : List TitleOf) (objects : List BornOf) (moves : List MoveOf)
        → length moves < 9223372036854775808
        → ArePlaces titles (names_of titles) places.now
        → caches.old.items ≡ caches_of titles objects moves
        → caches.new.items ≡ caches_of titles objects (moves ++ step.now ∷ []) }
{
    let Some(place) = place_at(places, object_of(step)) else {
        return;
    };
    if place < caches.len() {
        count_in(&mut caches[place], is_alloc(step));
    }
}

/// The place at which an object's cache is, where it has one.
fn place_at(places: &[usize], object: usize) -> Option<usize>
    ensures { result ≡ slice_get places.now object }
{
    places.get(object).copied()
}

/// The object of a move.
fn object_of(step: &Move) -> usize
    ensures { result ≡ object_of step.now }
{
    match *step {
        Move::Alloc { object, .. } | Move::Free { object, .. } => object,
    }
}

/// Whether a move allocates an object.
fn is_alloc(step: &Move) -> bool
    ensures { result ≡ is_alloc step.now }
{
    matches!(step, Move::Alloc { .. })
}

/// Counts an allocation or a free.
fn count_in(cache: &mut Cache, given: bool)
    ensures { cache.new ≡ counted given cache.old }
{
    if given {
        cache.objects = cache.objects.saturating_add(1);
        cache.live = cache.live.saturating_add(1);
    } else {
        cache.live = cache.live.saturating_sub(1);
    }
    cache.most = cache.most.max(cache.live);
}

/// The page frames that a cache needs at least: those of its greatest number of live objects, in whole
/// slabs. None where it can't be made, or where no machine has so many.
fn frames_of(cache: &Cache, cpus: u32) -> Option<u32>
    requires some { 1 ≤ cpus }
    requires few { cpus ≤ 16 }
    ensures few { IfSome result (λ frames. frames ≤ 4095) }
    ensures need { MatchOption result (IsTooLarge cpus cache.now) (IsNeed cpus cache.now) }
{
    let spec = Spec {
        size: cache.slot,
        align: 8,
        flags: PLAIN,
    };
    let Ok(layout) = layout_of(&spec, cpus) else {
        return None;
    };
    let slabs = cache.most.div_ceil(u64::from(layout.objects));
    if slabs > u64::from(SLABS_MAX) {
        return None;
    }
    let frames = slabs as u32 * (1 << layout.order);
    if frames > SLABS_MAX {
        None
    } else {
        Some(frames)
    }
}

/// Whether a cache is in no group, where these are beyond the last.
pub(crate) fn is_left_out(cache: &Cache, cpus: u32, beyond: &[Chosen]) -> bool
    requires some { 1 ≤ cpus }
    requires few { cpus ≤ 16 }
    ensures { IsTrue result ↔ IsLeftOut cpus cache.now beyond.now }
{
    frames_of(cache, cpus).is_none() || is_among(beyond, &cache.name)
}

/// Whether one of these has this name.
fn is_among(chosen: &[Chosen], name: &Name) -> bool
    ensures { IsTrue result ↔ HasName name.now chosen.now }
{
    chosen.iter().any(|one| one.cache.name == *name)
}

/// Which of two caches stands first: the one with more objects, else by their names.
fn order(x: &Cache, y: &Cache) -> Ordering
    ensures { result ≡ cache_cmp x.now y.now }
{
    match y.objects.cmp(&x.objects) {
        Ordering::Equal => x.name.as_bytes().cmp(y.name.as_bytes()),
        other => other,
    }
}

/// The groups of caches.
#[derive(Drop)]
pub struct Groups {
    /// The caches of the group that was asked for.
    pub chosen: Vec<Chosen>,
    /// How many groups there are.
    pub groups: u32,
    /// The caches that fit in no group: no machine has frames for them, or they are beyond the last.
    pub left_out: u64,
    /// Those of them that are beyond the last.
    pub beyond: Vec<Chosen>,
}

/// A group, and the caches that are left for others.
#[derive(Drop)]
struct Split {
    taken: Vec<Chosen>,
    /// The page frames that the taken ones need at least.
    frames: u32,
    others: Vec<Chosen>,
}

/// The most groups (*profile*).
pub const GROUPS_MAX: u32 = 256;

/// The caches that a machine has frames for.
fn framed(alloc: Global, caches: &[Cache], cpus: u32) -> Result<Vec<Chosen>, NoMemory>
    requires some { 1 ≤ cpus }
    requires few { cpus ≤ 16 }
    ensures { IfOk result (λ chosen. AreFramed cpus caches.now chosen.items) }
{
    let mut chosen = Vec::with_capacity(alloc, caches.len())?;
    for cache in caches {
        if let Some(frames) = frames_of(cache, cpus) {
            chosen.push(Chosen {
                cache: *cache,
                frames,
                second: false,
            })?;
        }
    }
    Ok(chosen)
}

/// These, in their order.
fn ordered(alloc: Global, caches: &[Cache], cpus: u32) -> Result<Vec<Chosen>, NoMemory>
    requires some { 1 ≤ cpus }
    requires few { cpus ≤ 16 }
    ensures held { IfOk result (λ chosen. AreFramed cpus caches.now chosen.items) }
    ensures sorted { IfOk result
        (λ chosen. IsSortedByKey (λ one. one.cache) cache_cmp chosen.items) }
{
    let mut chosen = framed(alloc, caches, cpus)?;
    chosen.sort_by(|x, y| order(&x.cache, &y.cache))?;
    Ok(chosen)
}

/// The caches of a group, from 1 on.
pub fn group(alloc: Global, caches: &[Cache], cpus: u32, group: u32) -> Result<Groups, NoMemory>
    requires some { 1 ≤ cpus }
    requires few { cpus ≤ 16 }
    ensures fits { IfOk result (λ g. FitTrace g.chosen.items) }
    ensures grouped { IfOk result (IsGrouped cpus caches.now group) }
{
    let mut rest = ordered(alloc, caches, cpus)?;
    let left_out = caches.len().saturating_sub(rest.len()) as u64;
    let mut chosen = Vec::new(alloc);
    let mut groups = 0;
    for number in 1..GROUPS_MAX + 1 {
        let Split { taken, others, .. } = split_off(alloc, rest.as_slice())?;
        groups = number;
        rest = others;
        if number == group {
            chosen = taken;
        }
        if rest.is_empty() {
            break;
        }
    }
    Ok(Groups {
        chosen,
        groups,
        left_out: left_out.saturating_add(rest.len() as u64),
        beyond: rest,
    })
}

/// The first group of these caches, and those that are left.
fn split_off(alloc: Global, caches: &[Chosen]) -> Result<Split, NoMemory>
    ensures split { IfOk result (λ split. IsSplit caches.now split) }
    ensures packs { IfOk result (λ split. Packs caches.now split) }
{
    let mut split = Split {
        taken: Vec::with_capacity(alloc, CACHES_MAX)?,
        frames: 0,
        others: Vec::new(alloc),
    };
    for cache in caches {
        place_in(&mut split, cache)?;
    }
    Ok(split)
}

/// Takes a cache to the others of its trace if it fits there, else leaves it for another group.
fn place_in(split: &mut Split, cache: &Chosen) -> Result<(), NoMemory>
    ensures split { (given : List ChosenCache) → IsSplit given split.old
        → OnOk result (IsSplit (given ++ cache.now ∷ []) split.new) }
    ensures packs { (given : List ChosenCache) → IsSplit given split.old
        → OnOk result (PacksMore split.old cache.now split.new) }
{
    let same = same_slot(split.taken.as_slice(), cache.cache.slot);
    let frames = split.frames.saturating_add(cache.frames);
    if split.taken.len() < CACHES_MAX && same < 2 && frames <= SLABS_MAX {
        split.frames = frames;
        split.taken.push(Chosen {
            second: same == 1,
            ..*cache
        })?;
    } else {
        split.others.push(*cache)?;
    }
    Ok(())
}

/// How many of these have this slot.
fn same_slot(taken: &[Chosen], slot: u32) -> usize
    ensures { result ≡ count_by (λ other. other.cache.slot == slot) taken.now }
{
    taken
        .iter()
        .filter(|other| other.cache.slot == slot)
        .count()
}
