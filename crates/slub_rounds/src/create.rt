//! Creating a cache on a heap.

ghost use Rattle.std.specs.Prelude.{◌≡◌, IfOk, length};
ghost use Rattle.slub_lists.specs.State.{State};
ghost use Rattle.slub_trace.specs.Sound.{IsSound};
ghost use Rattle.slub_rounds.specs.Asked.{IsOpenTo, StaysOpen};
ghost use Rattle.slub_rounds.specs.Kmalloc.{CreatesFor, cache_made, ids_made};

use crate::heap::Heap;
use slub_common::no_memory::NoMemory;
use slub_engine::item;
use slub_object_layout::layout::Spec;
use slub_object_layout::name::Name;
use slub_open_close::growth::begin_cache;
use slub_open_close::ids::Ids;
use slub_trace::create::{CreateRefusal, Created};
use slub_trace::trace::Trace;
use std::alloc::Global;

/// Creates a name as a `cache` line does (`kmem_cache_create`): where a new cache comes of it, its CPU words begin at
/// the first ids of the trace.
pub fn create(
    heap: Heap,
    trace: &Trace,
    name: &Name,
    spec: &Spec,
) -> Result<(Heap, Result<Created, CreateRefusal>), NoMemory>
    requires sound { IsSound trace.now }
    requires asks { IsOpenTo heap trace.now 0 }
    ensures creates { IfOk result (λ done. CreatesFor heap trace.now name.now spec.now done.1 done.0) }
    ensures stays { IfOk result (λ done. StaysOpen heap trace.now 0 done.0) }
    ensures board { IfOk result (λ done. done.0.lists.board ≡ heap.lists.board) }
{
    let Heap { mut lists, ids } = heap;
    let made = item::create(&mut lists, name, spec)?;
    let ids = match ids {
        Some(ids) => Some(ids_made(ids, trace, &made)),
        None => None,
    };
    Ok((Heap { lists, ids }, made))
}

/// The ids after a creation: the CPU words of a new cache begin at the first ids of the trace (`init_tid`).
fn ids_made(ids: Ids, trace: &Trace, made: &Result<Created, CreateRefusal>) -> Ids
    requires sound { IsSound trace.now }
    requires words { length ids ≡ 512 }
    ensures { (s : State) → s.cpus ≡ trace.now.cpus → result ≡ ids_made trace.now s made.now ids }
{
    match cache_made(made) {
        Some(cache) => {
            let mut begun = ids;
            begin_cache(&mut begun, trace, cache);
            begun
        }
        None => ids,
    }
}

/// The cache that a creation made.
fn cache_made(made: &Result<Created, CreateRefusal>) -> Option<u8>
    ensures { result ≡ cache_made made.now }
{
    match made {
        Ok(Created::New(cache)) => Some(*cache),
        Ok(Created::Merged { cache: _, title: _ }) => None,
        Err(_) => None,
    }
}
