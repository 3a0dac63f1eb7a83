//! The setup of a round, of what the lists say of the caches.

ghost use Rattle.std.specs.Prelude.{◌≡◌, ◌≤◌, IfOk, is_some, map};
ghost use Rattle.slub_cache_create.specs.Table.{cache_of};
ghost use Rattle.std.specs.List.{range_with_len};
ghost use Rattle.slub_lists.specs.Alloc.{checked_of};
ghost use Rattle.slub_lists.specs.Coherent.{IsConsistent};
ghost use Rattle.slub_list_machine.specs.Parts.{state_of};
ghost use Rattle.slub_law_opening.specs.Opening.{plain_caches};
ghost use Rattle.slub_open_close.specs.Facts.{cache_facts, facts_of};

use slub_cache_create::caches::Caches;
use slub_common::limits::CACHES_MAX;
use slub_common::no_memory::NoMemory;
use slub_core::cache::CacheFacts;
use slub_core::setup::{NO_LAYOUT, Setup};
use slub_list_machine::parts::Parts;
use std::alloc::Global;

/// Where there is no cache.
const NO_CACHE: CacheFacts = CacheFacts {
    live: false,
    checks: false,
    layout: NO_LAYOUT,
};

/// Whether the cache of a number is live.
pub fn is_live(table: &Caches, cache: u8) -> bool
    ensures { result ≡ is_some (cache_of table.now cache) }
{
    table.in_order().contains(&cache)
}

/// What a round asks of the cache of a number.
fn facts_at(parts: &Parts, cache: u8) -> CacheFacts
    requires { IsConsistent (state_of parts.now) }
    ensures { result ≡ cache_facts (state_of parts.now) cache }
{
    if !is_live(&parts.table, cache) {
        return NO_CACHE;
    }
    CacheFacts {
        live: true,
        checks: is_checked(parts, cache),
        layout: *parts.table.layout(cache),
    }
}

/// Whether a cache is checked.
pub fn is_checked(parts: &Parts, cache: u8) -> bool
    ensures { result ≡ is_some (checked_of (state_of parts.now) cache) }
{
    match parts.checked.get(usize::from(cache)) {
        Some(slabs) => slabs.is_some(),
        None => false,
    }
}

/// The caches of all numbers.
fn caches_of(alloc: Global, parts: &Parts) -> Result<Vec<CacheFacts>, NoMemory>
    requires { IsConsistent (state_of parts.now) }
    ensures { IfOk result (λ caches. caches.items ≡ map (cache_facts (state_of parts.now)) (range_with_len 0 32)) }
{
    let mut caches = Vec::with_capacity(alloc, CACHES_MAX)?;
    for cache in 0..32 {
        caches.push(facts_at(parts, cache))?;
    }
    Ok(caches)
}

/// The live caches that aren't checked, oldest first.
fn plain_of(alloc: Global, parts: &Parts) -> Result<Vec<u8>, NoMemory>
    ensures { IfOk result (λ plain. plain.items ≡ plain_caches (state_of parts.now)) }
{
    let mut plain = Vec::with_capacity(alloc, CACHES_MAX)?;
    for cache in parts.table.in_order() {
        if !is_checked(parts, *cache) {
            plain.push(*cache)?;
        }
    }
    Ok(plain)
}

/// The setup of a round on this machine.
pub fn setup_of(alloc: Global, parts: &Parts, step: u32) -> Result<Setup, NoMemory>
    requires consistent { IsConsistent (state_of parts.now) }
    requires step { step ≤ 16 }
    ensures { IfOk result (λ setup. setup ≡ facts_of (state_of parts.now) step) }
{
    let plain = plain_of(alloc, parts)?;
    let caches = caches_of(alloc, parts)?;
    let objects = parts.board.len() as u32;
    Setup::open(
        alloc,
        parts.frames,
        parts.cpus,
        step,
        objects,
        plain,
        caches,
    )
}
