//! How the transaction ids grow with the events of a round on the lists.

ghost use Rattle.std.specs.Prelude.{◌≡◌, ◌<◌, ◌==◌, ◌&&◌, IfSome, length, is_some};
ghost use Rattle.slub_trace.specs.Kinds.{is_given};
ghost use Rattle.slub_trace.specs.declared.event.Act.{Act as Acts};
ghost use Rattle.slub_lists.specs.Alloc.{checked_of, lists_of};
ghost use Rattle.slub_lists.specs.Coherent.{IsCoherent};
ghost use Rattle.slub_lists.specs.Free.{is_current, is_freeable};
ghost use Rattle.slub_core.specs.Setup.{cpu_number};
ghost use Rattle.slub_core.specs.World.{one_if};
ghost use Rattle.slub_calls.specs.Changes.{has_slab_of, has_slab_on, changes_of_held, grown_where};
ghost use Rattle.slub_engine.specs.Steps.{IsKnownAct};
ghost use Rattle.slub_rounds.specs.Raising.{WordHasRoom, HaveRoom, ids_beside, ids_raised, with_given, with_step, word_given};

use slub_list_machine::lists::Lists;
use slub_lists::lists::{CpuLists, Held};
use slub_trace::event::{Act, Event};
use slub_trace::reply::{Kind, Reply};

/// Raises the ids by what an event is going to change of the CPU words whatever its reply is. Gives the word that it
/// changes once more where it is given an object.
pub fn raise(words: &mut [u32], lists: &Lists, step: u32, event: &Event) -> Option<usize>
    requires coherent { IsCoherent lists.now }
    requires cpu { event.now.cpu < lists.now.cpus }
    requires known { IsKnownAct lists.now event.now.act }
    requires count { length words.old ≡ 512 }
    requires room { HaveRoom step words.old }
    ensures raised { words.new ≡ ids_raised lists.now step event.now.worker event.now.cpu event.now.act words.old }
    ensures given { result ≡ word_given lists.now event.now.cpu event.now.act }
{
    let cpu = u32::from(event.cpu);
    match event.act {
        Act::Alloc { cache, object: _ } => raise_alloc(words, lists, step, cpu, cache),
        Act::Free { object } => {
            raise_free(words, lists, step, cpu, event.worker, object);
            None
        }
        Act::Trim { cache } => {
            raise_trim(words, lists, step, cache);
            None
        }
        Act::Flush => {
            raise_flush(words, lists, step, cpu);
            None
        }
        Act::Write {
            word: _,
            object: _,
            value: _,
        } => None,
        Act::Read { word: _, object: _ } => None,
        Act::Poke {
            object: _,
            offset: _,
            byte: _,
        } => None,
    }
}

/// The word grows once more where an object was given.
pub fn raise_given(words: &mut [u32], step: u32, word: Option<usize>, reply: Reply)
    requires room { IfSome word (WordHasRoom step words.old) }
    ensures { words.new ≡ with_given step word reply words.old }
{
    if let Some(word) = word {
        raise_word(words, word, step, is_given(reply));
    }
}

/// An allocation changes the CPU's word of the cache where the CPU's freelist is empty and a slab is current, whose own
/// freelist it takes, or which goes (`___slab_alloc`). The words of a checked cache never change. Gives the word that
/// changes once more where an object is given.
fn raise_alloc(words: &mut [u32], lists: &Lists, step: u32, cpu: u32, place: u32) -> Option<usize>
    requires coherent { IsCoherent lists.now }
    requires cpu { cpu < lists.now.cpus }
    requires place { place < length lists.now.table.kept }
    requires count { length words.old ≡ 512 }
    requires room { HaveRoom step words.old }
    ensures raised { words.new ≡ ids_raised lists.now step 0 cpu (Acts.Alloc place 0) words.old }
    ensures given { result ≡ word_given lists.now cpu (Acts.Alloc place 0) }
{
    let Some(cache) = lists.caches().at(place) else {
        return None;
    };
    if is_checked(lists, cache) {
        return None;
    }
    let word = word_of(cache, cpu);
    raise_word(words, word, step, is_spent(lists_at(lists, cache, cpu)));
    Some(word)
}

/// A free changes the CPU's word of the object's cache where the worker may free the object, whose slab is current on
/// the CPU (`do_slab_free`), and whose cache isn't checked.
fn raise_free(words: &mut [u32], lists: &Lists, step: u32, cpu: u32, worker: u8, object: u32)
    requires coherent { IsCoherent lists.now }
    requires cpu { cpu < lists.now.cpus }
    requires object { object < length lists.now.board }
    requires count { length words.old ≡ 512 }
    requires room { HaveRoom step words.old }
    ensures { words.new ≡ ids_raised lists.now step worker cpu (Acts.Free object) words.old }
{
    if let Some(held) = lists.board()[object as usize] {
        let word = word_of(held.cache, cpu);
        raise_word(words, word, step, is_pushed(lists, cpu, worker, &held));
    }
}

/// Whether a free puts the object on the CPU's freelist.
fn is_pushed(lists: &Lists, cpu: u32, worker: u8, held: &Held) -> bool
    requires coherent { IsCoherent lists.now }
    requires cpu { cpu < lists.now.cpus }
    requires cache { held.now.cache < 32 }
    ensures { one_if result ≡ changes_of_held lists.now cpu worker held.now }
{
    if is_checked(lists, held.cache) {
        return false;
    }
    may_free(worker, held) && is_current(held.frame, lists_at(lists, held.cache, cpu))
}

/// A trim changes each word of its cache that has a current slab.
fn raise_trim(words: &mut [u32], lists: &Lists, step: u32, place: u32)
    requires coherent { IsCoherent lists.now }
    requires place { place < length lists.now.table.kept }
    requires count { length words.old ≡ 512 }
    requires room { HaveRoom step words.old }
    ensures { words.new ≡ ids_raised lists.now step 0 0 (Acts.Trim place) words.old }
{
    if let Some(cache) = lists.caches().at(place) {
        raise_of_cache(words, lists, step, cache);
    }
}

/// Each word of a cache that has a current slab grows.
fn raise_of_cache(words: &mut [u32], lists: &Lists, step: u32, cache: u8)
    requires coherent { IsCoherent lists.now }
    requires cache { cache < 32 }
    requires count { length words.old ≡ 512 }
    requires room { HaveRoom step words.old }
    ensures { words.new ≡ (grown_where (ids_beside step words.old) (has_slab_of lists.now cache)).tids }
{
    for cpu in 0..lists.cpus() {
        let current = lists_at(lists, cache, cpu).current.is_some();
        raise_word(words, word_of(cache, cpu), step, current);
    }
}

/// A flush changes each word of its CPU that has a current slab.
fn raise_flush(words: &mut [u32], lists: &Lists, step: u32, cpu: u32)
    requires coherent { IsCoherent lists.now }
    requires cpu { cpu < lists.now.cpus }
    requires count { length words.old ≡ 512 }
    requires room { HaveRoom step words.old }
    ensures { words.new ≡ (grown_where (ids_beside step words.old) (has_slab_on lists.now cpu)).tids }
{
    for cache in 0..32 {
        let changed = lists_at(lists, cache, cpu).current.is_some();
        raise_word(words, word_of(cache, cpu), step, changed);
    }
}

/// The id of a word grows by a step where the word changes.
fn raise_word(words: &mut [u32], word: usize, step: u32, changed: bool)
    requires { WordHasRoom step words.old word }
    ensures { words.new ≡ with_step step word changed words.old }
{
    if !changed {
        return;
    }
    words[word] += step;
}

/// The number of the word of a cache and a CPU.
fn word_of(cache: u8, cpu: u32) -> usize
    ensures { result ≡ cpu_number cache cpu }
{
    16 * usize::from(cache) + cpu as usize
}

/// What a CPU has of a cache.
fn lists_at(lists: &Lists, cache: u8, cpu: u32) -> &CpuLists
    requires coherent { IsCoherent lists.now }
    requires cache { cache < 32 }
    requires cpu { cpu < lists.now.cpus }
    ensures { result.now ≡ lists_of lists.now cache cpu }
{
    let cpus = lists.cpus() as usize;
    &lists.cpu_lists()[cache as usize * cpus + cpu as usize]
}

/// Whether a cache is checked.
fn is_checked(lists: &Lists, cache: u8) -> bool
    requires coherent { IsCoherent lists.now }
    requires cache { cache < 32 }
    ensures { result ≡ is_some (checked_of lists.now cache) }
{
    lists.checked()[cache as usize].is_some()
}

/// Whether the freelist is empty, though a slab is current.
fn is_spent(own: &CpuLists) -> bool
    ensures { result ≡ ((length own.now.free == 0) && is_some own.now.current) }
{
    own.free.is_empty() && own.current.is_some()
}

/// Whether the slab at this frame is current.
fn is_current(frame: u16, own: &CpuLists) -> bool
    ensures { result ≡ is_current frame own.now.current }
{
    match own.current {
        Some(current) => current == frame,
        None => false,
    }
}

/// Whether a worker may free the object: it holds it, or the object is on the board.
fn may_free(worker: u8, held: &Held) -> bool
    ensures { result ≡ is_freeable worker held.now.worker }
{
    match held.worker {
        Some(holder) => u32::from(holder) == u32::from(worker),
        None => true,
    }
}

/// Whether an object was given.
fn is_given(reply: Reply) -> bool
    ensures { result ≡ is_given reply }
{
    matches!(reply.kind(), Kind::Gives)
}
