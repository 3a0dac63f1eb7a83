//! The titles of the live caches.

ghost use Rattle.std.specs.Prelude.{◌≡◌, IfOk, is_some, map};
ghost use Rattle.std.specs.List.{range_with_len};
ghost use Rattle.slub_cache_create.specs.Table.{cache_of};
ghost use Rattle.slub_steps.specs.Rounds as rounds;

use slub_cache_create::caches::Caches;
use slub_common::no_memory::NoMemory;
use slub_common::sequence::Sequence;
use slub_list_machine::lists::Lists;
use slub_object_layout::name::Name;
use std::alloc::Global;

/// Whether the cache of a number is live.
fn is_live(caches: &Caches, cache: u8) -> bool
    ensures { result ≡ is_some (cache_of caches.now cache) }
{
    caches.in_order().contains(&cache)
}

/// The title of the cache of a number, if it is live.
fn title_at(lists: &Lists, cache: u8) -> Option<Name>
    ensures { result ≡ rounds.title_at lists.now cache }
{
    let caches = lists.caches();
    if is_live(caches, cache) {
        Some(*caches.title(cache))
    } else {
        None
    }
}

/// The titles of the caches by number, of those that are live.
pub fn titles_of(alloc: Global, lists: &Lists) -> Result<Sequence<Option<Name>>, NoMemory>
    ensures { IfOk result (λ titles. titles ≡ map (rounds.title_at lists.now) (range_with_len 0 32)) }
{
    let mut titles = Vec::with_capacity(alloc, 32)?;
    for cache in 0..32u8 {
        titles.push(title_at(lists, cache))?;
    }
    Ok(Sequence::from_vec(titles))
}
