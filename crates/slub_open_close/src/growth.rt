//! What an item that is no round changes of the transaction ids.

ghost use Rattle.std.specs.Prelude.{◌≡◌, ◌+◌, ◌/◌, ◌%◌, ◌^◌, ◌<◌, ◌≤◌, ◌==◌, ◌&&◌, ℕ, false, length, slice_index_or, if◌then◌else◌};
ghost use Rattle.slub_lists.specs.State.{State};
ghost use Rattle.slub_lists.specs.Coherent.{IsCoherent};
ghost use Rattle.slub_trace.specs.Ranges.{step_of};
ghost use Rattle.slub_trace.specs.Sound.{IsSound, IsSoundItem};
ghost use Rattle.slub_open_close.specs.Ids.{AreIds, first_id, id_at};
ghost use Rattle.slub_open_close.specs.Growth.{with_first};
ghost use Rattle.slub_open_close.specs.Due.{AreAfter, AreCurrent, IsDue, DetachHasRoom, came_about, detached_by, is_shrunk, is_tuned, made_by, new_in, with_steps};

use crate::ids::Ids;
use slub_list_machine::lists::Lists;
use slub_object_layout::layout::Setting;
use slub_slabinfo_text::journal::Done;
use slub_slabinfo_text::names::name_of;
use slub_trace::create::Created;
use slub_trace::trace::{Item, Trace};

/// What an item is going to change of the ids, looked up before it is done.
#[derive(Clone, Copy, Debug)]
pub struct Due {
    /// The cache that is detached where the item comes about.
    pub cache: Option<u8>,
    /// By CPU: it has a current slab of that cache.
    pub current: [bool; 16],
}

impl Due {
    /// What the item of this number is going to change of the ids, on these lists.
    pub fn of(lists: &Lists, trace: &Trace, number: usize) -> Due
        requires coherent { IsCoherent lists.now }
        requires sound { IsSound trace.now }
        requires within { number < length trace.now.items }
        ensures { IsDue lists.now trace.now number result }
    {
        let cache = detached_by(lists, trace, &trace.items.as_slice()[number]);
        let current = match cache {
            Some(cache) => current_of(lists, cache),
            None => [false; 16],
        };
        Due { cache, current }
    }
}

/// The ids after the item of this number was done. `due` was looked up before it.
pub fn settle(ids: &mut Ids, trace: &Trace, number: usize, due: &Due, done: &Done)
    requires sound { IsSound trace.now }
    requires within { number < length trace.now.items }
    requires fits { (s : State) × IsDue s trace.now number due.now × (s.cpus ≡ trace.now.cpus) × AreIds s ids.old }
    ensures { (s : State) → IsDue s trace.now number due.now → s.cpus ≡ trace.now.cpus → AreAfter trace.now s number done.now ids.old ids.new }
{
    let item = &trace.items.as_slice()[number];
    if let Some(cache) = made_by(item, done) {
        begin_cache(ids, trace, cache);
    } else if came_about(item, done) {
        if let Some(cache) = due.cache {
            detach(&mut ids.by_word, step_of(trace.cpus), cache, &due.current);
        }
    }
}

/// The words of a cache that is made begin at the first ids of the trace (`init_tid`).
pub fn begin_cache(ids: &mut Ids, trace: &Trace, cache: u8)
    requires sound { IsSound trace.now }
    requires words { length ids.old ≡ 512 }
    ensures { ids.new ≡ with_first trace.now.tid trace.now.cpus cache ids.old }
{
    begin(&mut ids.by_word, trace.tid, trace.cpus, cache);
}

/// The cache that an item detaches where it comes about: a shrink, and a tune of what the partial lists of CPUs hold
/// (`flush_all`).
fn detached_by(lists: &Lists, trace: &Trace, item: &Item) -> Option<u8>
    requires { IsSoundItem trace.now item.now }
    ensures { result ≡ detached_by trace.now lists.now item.now }
{
    match item {
        Item::Shrink { name } => lists.caches().find(name_of(trace, *name)),
        Item::Tune { name, setting } => match setting {
            Setting::CpuPartial(_) => lists.caches().find(name_of(trace, *name)),
            Setting::MinPartial(_) => None,
        },
        Item::Cache { name: _, spec: _ } => None,
        Item::Round(_) => None,
        Item::Destroy { name: _ } => None,
        Item::Slabinfo => None,
        Item::Client(_) => None,
    }
}

/// Which CPUs have a current slab of the cache.
fn current_of(lists: &Lists, cache: u8) -> [bool; 16]
    requires coherent { IsCoherent lists.now }
    requires within { cache < 32 }
    ensures { AreCurrent lists.now cache result }
{
    let mut current = [false; 16];
    let cpus = lists.cpus() as usize;
    let all = lists.cpu_lists();
    for cpu in 0..cpus {
        current[cpu] = all[cache as usize * cpus + cpu].current.is_some();
    }
    current
}

/// The cache that an item made.
fn made_by(item: &Item, done: &Done) -> Option<u8>
    ensures { result ≡ made_by item.now done.now }
{
    match item {
        Item::Cache { name: _, spec: _ } => new_in(done),
        Item::Round(_) => None,
        Item::Shrink { name: _ } => None,
        Item::Destroy { name: _ } => None,
        Item::Slabinfo => None,
        Item::Tune {
            name: _,
            setting: _,
        } => None,
        Item::Client(_) => None,
    }
}

/// The cache that a creation made.
fn new_in(done: &Done) -> Option<u8>
    ensures { result ≡ new_in done.now }
{
    match done {
        Done::Created(Ok(Created::New(cache))) => Some(*cache),
        Done::Created(Ok(Created::Merged { cache: _, title: _ })) => None,
        Done::Created(Err(_)) => None,
        Done::Round(_) => None,
        Done::Shrunk(_) => None,
        Done::Destroyed(_) => None,
        Done::Slabinfo(_) => None,
        Done::Tuned(_) => None,
        Done::Client(_) => None,
    }
}

/// Whether the item is one that may detach a cache, and came about.
fn came_about(item: &Item, done: &Done) -> bool
    ensures { result ≡ came_about item.now done.now }
{
    match item {
        Item::Cache { name: _, spec: _ } => false,
        Item::Round(_) => false,
        Item::Shrink { name: _ } => is_shrunk(done),
        Item::Destroy { name: _ } => false,
        Item::Slabinfo => false,
        Item::Tune {
            name: _,
            setting: _,
        } => is_tuned(done),
        Item::Client(_) => false,
    }
}

/// Whether a shrink came about.
fn is_shrunk(done: &Done) -> bool
    ensures { result ≡ is_shrunk done.now }
{
    match done {
        Done::Created(_) => false,
        Done::Round(_) => false,
        Done::Shrunk(Ok(_)) => true,
        Done::Shrunk(Err(_)) => false,
        Done::Destroyed(_) => false,
        Done::Slabinfo(_) => false,
        Done::Tuned(_) => false,
        Done::Client(_) => false,
    }
}

/// Whether a tune came about.
fn is_tuned(done: &Done) -> bool
    ensures { result ≡ is_tuned done.now }
{
    match done {
        Done::Created(_) => false,
        Done::Round(_) => false,
        Done::Shrunk(_) => false,
        Done::Destroyed(_) => false,
        Done::Slabinfo(_) => false,
        Done::Tuned(Ok(_)) => true,
        Done::Tuned(Err(_)) => false,
        Done::Client(_) => false,
    }
}

/// They begin at the first ids of their CPUs.
fn begin(words: &mut [u32], first: u32, cpus: u32, cache: u8)
    requires words { length words.old ≡ 512 }
    requires few { first + cpus ≤ 2 ^ 32 }
    ensures { words.new ≡ with_first first cpus cache words.old }
{
    for number in 0..512 {
        words[number] = begun(first, cpus, cache, number, words[number]);
    }
}

/// What becomes of the id of a word where a cache is made: a word of the cache begins anew (`init_tid`).
fn begun(first: u32, cpus: u32, cache: u8, number: usize, id: u32) -> u32
    requires { first + cpus ≤ 2 ^ 32 }
    ensures { result ≡ (if number / 16 == cache then first_id first cpus number else id) }
{
    if number / 16 != usize::from(cache) {
        return id;
    }
    let cpu = (number % 16) as u32;
    if cpu < cpus { first + cpu } else { 0 }
}

/// Each current slab of the cache is detached.
fn detach(words: &mut [u32], step: u32, cache: u8, current: &[bool; 16])
    requires words { length words.old ≡ 512 }
    requires room { (n : ℕ) → DetachHasRoom step cache current.now n (id_at words.old n) }
    ensures { words.new ≡ with_steps step cache current.now words.old }
{
    for number in 0..512 {
        words[number] = stepped(step, cache, current, number, words[number]);
    }
}

/// What becomes of the id of a word where a cache is detached: it grows by one step where the CPU has a current slab
/// of the cache (`flush_slab`).
fn stepped(step: u32, cache: u8, current: &[bool; 16], number: usize, id: u32) -> u32
    requires { DetachHasRoom step cache current.now number id }
    ensures { result ≡ (if (number / 16 == cache) && slice_index_or current.now (number % 16) false then id + step else id) }
{
    if number / 16 == usize::from(cache) && current[number % 16] {
        id + step
    } else {
        id
    }
}

/// What each change of a CPU word adds to its id (`TID_STEP`).
pub fn step_of(cpus: u32) -> u32
    requires { (1 ≤ cpus) × (cpus ≤ 16) }
    ensures { result ≡ step_of cpus }
{
    cpus.next_power_of_two()
}
