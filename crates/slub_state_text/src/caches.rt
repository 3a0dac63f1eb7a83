//! The live caches.

ghost use Rattle.std.specs.Prelude.{◌≡◌, ◌++◌, IsSome, OnOk};
ghost use Rattle.slub_lists.specs.Alloc.{cache_of, checked_of};
ghost use Rattle.slub_lists.specs.Coherent.{IsCoherent};
ghost use Rattle.slub_state_text.specs.Caches.{cache_fields, cache_row, cache_rows, caches_rows, live_rows, name_text, names_text, node_fields, node_row, setting_fields, slot_fields};

use crate::cpus::{push_cpus, push_lists};
use crate::put::{put, put_field, put_titled};
use crate::ranges::put_numbers;
use crate::slabs::{checked_at, push_slabs};
use slub_common::no_memory::NoMemory;
use slub_list_machine::lists::Lists;
use slub_object_layout::layout::Layout;
use slub_object_layout::name::Name;

/// The numbers of a layout on its slots.
fn put_slots(text: &mut Vec<u8>, layout: &Layout) -> Result<(), NoMemory>
    ensures { OnOk result (text.new.items ≡ text.old.items ++ slot_fields layout.now) }
{
    put_field(text, b"size", layout.size)?;
    put_field(text, b"left_pad", layout.left_pad)?;
    put_field(text, b"order", layout.order)?;
    put_field(text, b"objects", layout.objects)
}

/// Its numbers on short memory, and its settings.
fn put_settings(text: &mut Vec<u8>, layout: &Layout) -> Result<(), NoMemory>
    ensures { OnOk result (text.new.items ≡ text.old.items ++ setting_fields layout.now) }
{
    put_field(text, b"min_order", layout.min_order)?;
    put_field(text, b"min_partial", layout.min_partial)?;
    put_field(text, b"cpu_partial_slabs", layout.cpu_partial_slabs)
}

/// A live name, if it is one of the cache.
fn put_name(text: &mut Vec<u8>, cache: u8, named: &(Name, u8)) -> Result<(), NoMemory>
    ensures { OnOk result (text.new.items ≡ text.old.items ++ name_text cache named.now) }
{
    let (name, of) = named;
    if *of != cache {
        return Ok(());
    }
    put(text, b" ")?;
    put(text, name.as_bytes())
}

/// The names of a cache.
fn put_names(text: &mut Vec<u8>, cache: u8, live: &[(Name, u8)]) -> Result<(), NoMemory>
    ensures { OnOk result (text.new.items ≡ text.old.items ++ names_text cache live.now) }
{
    for named in live {
        put_name(text, cache, named)?;
    }
    Ok(())
}

/// The numbers of a cache's layout, and its names.
fn put_cache(
    text: &mut Vec<u8>,
    live: &[(Name, u8)],
    cache: u8,
    layout: &Layout,
) -> Result<(), NoMemory>
    ensures { OnOk result (text.new.items ≡
        text.old.items ++ cache_fields live.now cache layout.now) }
{
    put_slots(text, layout)?;
    put_settings(text, layout)?;
    put(text, b" names")?;
    put_names(text, cache, live)
}

/// The row of a live cache.
fn push_row(
    text: &mut Vec<u8>,
    live: &[(Name, u8)],
    cache: u8,
    title: &Name,
    layout: &Layout,
) -> Result<(), NoMemory>
    ensures { OnOk result (text.new.items ≡
        text.old.items ++ cache_row live.now cache title.now layout.now) }
{
    put_titled(text, b"cache", title)?;
    put_cache(text, live, cache, layout)?;
    put(text, b"\n")
}

/// The slabs on a cache's node list; of a checked cache its listed ones.
fn put_node(text: &mut Vec<u8>, lists: &Lists, cache: u8) -> Result<(), NoMemory>
    requires coherent { IsCoherent lists.now }
    requires live { IsSome (cache_of lists.now cache) }
    ensures { OnOk result (text.new.items ≡
        text.old.items ++ node_fields lists.now cache (checked_of lists.now cache)) }
{
    match checked_at(lists, cache) {
        Some(slabs) => {
            put(text, b" listed")?;
            put_numbers(text, slabs.listed())
        }
        None => {
            put(text, b" slabs")?;
            put_numbers(text, lists.nodes()[usize::from(cache)].frames())
        }
    }
}

/// The row of a cache's node.
fn push_node(text: &mut Vec<u8>, lists: &Lists, title: &Name, cache: u8) -> Result<(), NoMemory>
    requires coherent { IsCoherent lists.now }
    requires live { IsSome (cache_of lists.now cache) }
    ensures { OnOk result (text.new.items ≡ text.old.items ++ node_row lists.now title.now cache) }
{
    put_titled(text, b"node", title)?;
    put_node(text, lists, cache)?;
    put(text, b"\n")
}

/// The rows of a live cache, with its title and its layout.
fn push_live(
    text: &mut Vec<u8>,
    lists: &Lists,
    first: u32,
    ids: &[u32],
    live: &[(Name, u8)],
    cache: u8,
    title: &Name,
    layout: &Layout,
) -> Result<(), NoMemory>
    requires coherent { IsCoherent lists.now }
    requires live { IsSome (cache_of lists.now cache) }
    ensures { OnOk result (text.new.items ≡ text.old.items
        ++ live_rows lists.now first ids.now live.now cache title.now layout.now) }
{
    push_row(text, live, cache, title, layout)?;
    push_cpus(text, lists, first, ids, title, cache)?;
    push_lists(text, lists, title, cache)?;
    push_node(text, lists, title, cache)?;
    push_slabs(text, lists, cache)
}

/// The rows of a live cache.
fn push_cache(
    text: &mut Vec<u8>,
    lists: &Lists,
    first: u32,
    ids: &[u32],
    live: &[(Name, u8)],
    cache: u8,
) -> Result<(), NoMemory>
    requires coherent { IsCoherent lists.now }
    requires live { IsSome (cache_of lists.now cache) }
    ensures { OnOk result (text.new.items ≡
        text.old.items ++ cache_rows lists.now first ids.now live.now cache) }
{
    let caches = lists.caches();
    let title = caches.title(cache);
    push_live(
        text,
        lists,
        first,
        ids,
        live,
        cache,
        title,
        caches.layout(cache),
    )
}

/// The rows of all live caches, the oldest first.
pub(crate) fn push_caches(
    text: &mut Vec<u8>,
    lists: &Lists,
    first: u32,
    ids: &[u32],
    live: &[(Name, u8)],
) -> Result<(), NoMemory>
    requires coherent { IsCoherent lists.now }
    ensures { OnOk result (text.new.items ≡
        text.old.items ++ caches_rows lists.now first ids.now live.now) }
{
    for cache in lists.caches().in_order() {
        push_cache(text, lists, first, ids, live, *cache)?;
    }
    Ok(())
}
