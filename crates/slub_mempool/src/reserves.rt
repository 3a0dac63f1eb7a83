//! All reserves, and the lines of their clients.

ghost use Rattle.std.specs.Prelude.{◌≡◌, ◌+◌, ◌<◌, ◌≤◌, ◌++◌, ◌∷◌, [], length, All, Err, IfErr, IfOk, IfSome, IsSome, OnErr, vec_capacity};
ghost use Rattle.std.specs.List.{list_any, range_with_len};
ghost use Rattle.slub_trace.specs.declared.event.Act.TheVariants.{Alloc, Free};
ghost use Rattle.slub_lists.specs.Coherent.{IsCoherent, held_under};
ghost use Rattle.slub_trace.specs.declared.trace.Trace.{Trace as Read};
ghost use Rattle.slub_trace.specs.Sound.{asked_objects};
ghost use Rattle.slub_slabinfo_text.specs.Lawful.{IsUnheld};
ghost use Rattle.slub_engine.specs.Steps.{KeepsUnheld};
ghost use Rattle.slub_rounds.specs.Asked.{IsOpenTo, IsServable, SpendsAsked, StaysOpen};
ghost use Rattle.slub_rounds.specs.BulkLines.{SpendsTaking, address_under};
ghost use Rattle.slub_rounds.specs.ClientLaws.{IsNumber};
ghost use Rattle.slub_rounds.specs.Reserves.{AreReserves, AreSoundReserves, Fills, Gets, IsReserveLine, PutsBack, ServesKept, ServesMempool, ServesMget, ServesMput, ServesReserves, SpendsKept, SpendsMempool, SpendsMget, SpendsMput, SpendsReserves, TakesOne, fresh_reserve, has_number, is_of_cache, kept_in, numbers_of, place_of_reserve, reserve_at};
ghost use Rattle.slub_rounds.specs.ClientStopped.{IsStoppedWhere};
ghost use Rattle.slub_mempool.specs.Serving.{AreKnown, FreesHeld, IsUsable, TellsFreed};

use crate::reserve::Reserve;
use slub_bulk::all::take_all;
use slub_bulk::serve::numbers_from;
use slub_common::no_memory::NoMemory;
use slub_common::sequence::Sequence;
use slub_list_machine::lists::Lists;
use slub_object_layout::layout::address;
use slub_object_layout::name::Name;
use slub_rounds::client::{LineStopped, at_once, client_round, told};
use slub_rounds::heap::Heap;
use slub_rounds::text_laws::rounds_by_text_are_lawful;
use slub_slabinfo_text::client::{CacheRefusal, ClientAnswer, ClientDone, ClientRound};
use slub_trace::event::Act;
use slub_trace::reply::Reply;
use slub_trace::trace::{Client, Trace};
use std::alloc::Global;
use std::marker::Model;

/// How many reserves there may be.
const RESERVES_MAX: usize = 8;

/// How many numbers each may keep.
const NUMBERS_MAX: usize = 64;

/// The reserves, in the order in which they were made.
#[derive(Debug, Drop)]
pub struct Reserves {
    made: Vec<Reserve>,
    /// The room of those that aren't made yet.
    spare: Vec<Vec<u32>>,
}

impl Model for Reserves {
    ghost use Rattle.std.specs.Prelude.{◌≡◌, ◌+◌, ◌≤◌, [], List, All, length, vec_capacity};
    ghost use Rattle.slub_rounds.specs.Reserves.{Reserve as Seen};

    ghost Value = { List Seen };

    ghost view = { λ r. r.made.items };

    ghost invariant = { λ r. (8 ≤ vec_capacity r.made) × (length r.made.items + length r.spare.items ≡ 8) × All (λ room. (room.items ≡ []) × (64 ≤ vec_capacity room)) r.spare.items };
}

/// The room of one reserve.
fn room(alloc: Global) -> Result<Vec<u32>, NoMemory>
    ensures { IfOk result (λ room. (room.items ≡ []) × (64 ≤ vec_capacity room)) }
{
    Ok(Vec::with_capacity(alloc, NUMBERS_MAX)?)
}

/// The address of the object that a number names, in bytes.
fn address_under(lists: &Lists, object: u32) -> u32
    requires coherent { IsCoherent lists.now }
    requires number { object < length lists.now.board }
    ensures { result ≡ address_under lists.now object }
{
    match &lists.board()[object as usize] {
        None => 0,
        Some(held) => address(
            u32::from(held.frame),
            u32::from(held.index),
            lists.caches().layout(held.cache),
        ),
    }
}

/// Whether the name at a place names this cache now.
fn is_of_cache(lists: &Lists, reserve: &Reserve, cache: u8) -> bool
    requires { reserve.now.cache < length lists.now.table.kept }
    ensures { result ≡ is_of_cache lists.now reserve.now cache }
{
    match lists.caches().at(reserve.cache) {
        Some(number) => number == cache,
        None => false,
    }
}

/// One allocation from the cache that the name at a place names: the address, or why the cache gave none.
fn take_one(
    alloc: Global,
    heap: Heap,
    cpu: u32,
    place: u32,
    object: u32,
    rounds: &mut Vec<ClientRound>,
) -> Result<(Heap, Result<u32, CacheRefusal>), LineStopped>
    requires asks { (trace : Read) × IsOpenTo heap trace 1 }
    requires cpu { cpu < heap.lists.cpus }
    requires place { place < length heap.lists.table.kept }
    requires number { IsNumber heap object }
    requires unheld { IsUnheld heap.lists object }
    requires empty { rounds.old.items ≡ [] }
    ensures taken { IfOk result (λ done. TakesOne heap cpu place object rounds.new.items done.1 done.0) }
    ensures stays { IfOk result (λ done. (trace : Read) → StaysOpen heap trace 1 done.0) }
    ensures unheld { IfOk result (λ done. KeepsUnheld heap.lists (object ∷ []) done.0.lists) }
    ensures stopped { IfErr result (IsStoppedWhere (SpendsAsked heap cpu (Alloc place object ∷ []))) }
{
    let asked = Act::Alloc {
        cache: place,
        object,
    };
    let (after, round) = client_round(alloc, heap, cpu, &[asked])?;
    let told = told(&round)?;
    rounds.push(round)?;
    Ok((after, told))
}

/// Frees an object that no reserve has room for.
fn put_back(
    alloc: Global,
    heap: Heap,
    cpu: u32,
    object: u32,
) -> Result<(Heap, ClientDone), LineStopped>
    requires asks { (trace : Read) × IsOpenTo heap trace 0 }
    requires cpu { cpu < heap.lists.cpus }
    requires number { IsNumber heap object }
    requires held { IsSome (held_under heap.lists object) }
    ensures put { IfOk result (λ done. PutsBack heap cpu object done.1 done.0) }
    ensures stays { IfOk result (λ done. (trace : Read) → StaysOpen heap trace 0 done.0) }
    ensures unheld { IfOk result (λ done. KeepsUnheld heap.lists [] done.0.lists) }
    ensures stopped { IfErr result (IsStoppedWhere (SpendsAsked heap cpu (Free object ∷ []))) }
{
    let (after, round) = client_round(alloc, heap, cpu, &[Act::Free { object }])?;
    let answer = freed(&round);
    let mut rounds = Vec::new(alloc);
    rounds.push(round)?;
    let done = ClientDone {
        rounds: Sequence::from_vec(rounds),
        answer,
    };
    Ok((after, done))
}

/// What the reply to the one free of a round tells.
fn freed(round: &ClientRound) -> ClientAnswer
    requires { FreesHeld round.now.result.replies }
    ensures { TellsFreed round.now.result.replies result }
{
    match round.result.replies.as_slice() {
        [Reply::Freed(address), ..] => ClientAnswer::Freed(*address),
        [Reply::Corrupt(_), ..] => ClientAnswer::Corrupt,
        _ => unreachable!(),
    }
}

impl Reserves {
    /// No reserve yet, with room for 8 reserves of 64 numbers.
    pub fn open(alloc: Global) -> Result<Reserves, NoMemory>
        ensures { IfOk result (λ reserves. reserves ≡ []) }
    {
        let mut spare = Vec::with_capacity(alloc, RESERVES_MAX)?;
        for _ in 0..RESERVES_MAX {
            spare.push(room(alloc)?)?;
        }
        Ok(Reserves {
            made: Vec::with_capacity(alloc, RESERVES_MAX)?,
            spare,
        })
    }

    /// The numbers of the reserve of this name, none where there is no such reserve.
    pub fn numbers(&self, pool: &Name) -> &[u32]
        ensures { result.now ≡ numbers_of self.now pool.now }
    {
        match self.place_of(pool) {
            Some(at) => self.made[at].numbers(),
            None => &[],
        }
    }

    /// The place of the reserve of this name.
    fn place_of(&self, pool: &Name) -> Option<usize>
        ensures place { result ≡ place_of_reserve self.now pool.now }
        ensures inside { IfSome result (λ at. at < length self.now) }
    {
        self.made.iter().position(|reserve| *pool == reserve.name)
    }

    /// Numbers that are no longer on the board are dropped from every reserve.
    fn drop_freed(&mut self, lists: &Lists)
        ensures { self.new ≡ kept_in lists.now self.old }
    {
        for reserve in self.made.iter_mut() {
            reserve.drop_freed(lists);
        }
    }

    /// Whether a reserve has a number.
    fn has(&self, number: u32) -> bool
        ensures { result ≡ list_any (has_number number) self.now }
    {
        self.made.iter().any(|reserve| reserve.has(number))
    }

    /// One more reserve.
    fn make(&mut self, name: &Name, cache: u32, min_nr: u32, numbers: &[u32])
        requires room { length self.old < 8 }
        requires few { length numbers.now ≤ 64 }
        ensures { self.new ≡ self.old ++ (record {
          name = name.now;
          cache = cache;
          min_nr = min_nr;
          numbers = numbers.now;
        }) ∷ [] }
    {
        match self.spare.pop() {
            None => unreachable!(),
            Some(mut room) => {
                for number in numbers {
                    room.push_reserved(*number);
                }
                self.made
                    .push_reserved(Reserve::of(name, cache, min_nr, room));
            }
        }
    }

    /// Makes a reserve of so many numbers from the first on (`mempool_create`).
    fn mempool(
        &mut self,
        alloc: Global,
        heap: Heap,
        pool: &Name,
        place: u32,
        min_nr: u32,
        first: u32,
    ) -> Result<(Heap, ClientDone), LineStopped>
        requires asks { (trace : Read) × IsOpenTo heap trace (length (range_with_len first min_nr)) }
        requires place { place < length heap.lists.table.kept }
        requires first { 1 ≤ first }
        requires last { first + min_nr ≤ length heap.lists.board }
        requires few { min_nr ≤ 64 }
        requires unheld { All (IsUnheld heap.lists) (range_with_len first min_nr) }
        ensures served { IfOk result (λ done. ServesMempool heap self.old
            (fresh_reserve pool.now place min_nr first) done.1 done.0 self.new) }
        ensures err { OnErr result (self.new ≡ self.old) }
        ensures stays { IfOk result (λ done.
            (trace : Read) → StaysOpen heap trace (length (range_with_len first min_nr)) done.0) }
        ensures unheld { IfOk result (λ done. KeepsUnheld heap.lists (range_with_len first min_nr) done.0.lists) }
        ensures stopped { IfErr result (IsStoppedWhere (SpendsMempool heap self.old
            (fresh_reserve pool.now place min_nr first))) }
    {
        if self.place_of(pool).is_some() {
            return Ok((heap, at_once(alloc, ClientAnswer::Taken)));
        }
        if self.made.len() >= RESERVES_MAX {
            return Ok((heap, at_once(alloc, ClientAnswer::TooMany)));
        }
        self.fill(alloc, heap, pool, place, min_nr, first)
    }

    /// Allocates the numbers of a new reserve on CPU 0.
    fn fill(
        &mut self,
        alloc: Global,
        heap: Heap,
        pool: &Name,
        place: u32,
        min_nr: u32,
        first: u32,
    ) -> Result<(Heap, ClientDone), LineStopped>
        requires room { length self.old < 8 }
        requires asks { (trace : Read) × IsOpenTo heap trace (length (range_with_len first min_nr)) }
        requires place { place < length heap.lists.table.kept }
        requires first { 1 ≤ first }
        requires last { first + min_nr ≤ length heap.lists.board }
        requires few { min_nr ≤ 64 }
        requires unheld { All (IsUnheld heap.lists) (range_with_len first min_nr) }
        ensures filled { IfOk result (λ done. Fills heap self.old
            (fresh_reserve pool.now place min_nr first) done.1 done.0 self.new) }
        ensures err { OnErr result (self.new ≡ self.old) }
        ensures stays { IfOk result (λ done.
            (trace : Read) → StaysOpen heap trace (length (range_with_len first min_nr)) done.0) }
        ensures unheld { IfOk result (λ done. KeepsUnheld heap.lists (range_with_len first min_nr) done.0.lists) }
        ensures stopped { IfErr result (IsStoppedWhere (SpendsTaking heap 0 place (range_with_len first min_nr))) }
    {
        let numbers = numbers_from(alloc, first, min_nr)?;
        let mut rounds = Vec::new(alloc);
        let (after, refusal) = take_all(alloc, heap, 0, place, numbers.as_slice(), &mut rounds)?;
        let answer = match refusal {
            None => {
                self.make(pool, place, min_nr, numbers.as_slice());
                ClientAnswer::Made
            }
            Some(why) => ClientAnswer::Nothing(why),
        };
        let done = ClientDone {
            rounds: Sequence::from_vec(rounds),
            answer,
        };
        Ok((after, done))
    }

    /// Allocates an object of a reserve's cache, or lends one where the cache gives none (`mempool_alloc`).
    fn mget(
        &mut self,
        alloc: Global,
        heap: Heap,
        cpu: u32,
        pool: &Name,
        object: u32,
    ) -> Result<(Heap, ClientDone), LineStopped>
        requires asks { (trace : Read) × IsOpenTo heap trace 1 }
        requires cpu { cpu < heap.lists.cpus }
        requires number { IsNumber heap object }
        requires unheld { IsUnheld heap.lists object }
        requires known { AreKnown heap.lists self.old }
        requires usable { All (IsUsable heap.lists) self.old }
        ensures served { IfOk result (λ done. ServesMget heap self.old cpu pool.now object done.1 done.0 self.new) }
        ensures err { OnErr result (self.new ≡ self.old) }
        ensures stays { IfOk result (λ done. (trace : Read) → StaysOpen heap trace 1 done.0) }
        ensures unheld { IfOk result (λ done. KeepsUnheld heap.lists (object ∷ []) done.0.lists) }
        ensures stopped { IfErr result (IsStoppedWhere (SpendsMget heap self.old cpu pool.now object)) }
    {
        let Some(at) = self.place_of(pool) else {
            return Ok((heap, at_once(alloc, ClientAnswer::NoPool)));
        };
        let mut rounds = Vec::new(alloc);
        let (after, told) = take_one(alloc, heap, cpu, self.cache_at(at), object, &mut rounds)?;
        let answer = self.get(&after.lists, at, told);
        let done = ClientDone {
            rounds: Sequence::from_vec(rounds),
            answer,
        };
        Ok((after, done))
    }

    /// The place of the name of a reserve's cache.
    fn cache_at(&self, at: usize) -> u32
        requires { at < length self.now }
        ensures { result ≡ (reserve_at self.now at).cache }
    {
        self.made[at].cache
    }

    /// What the cache gave, or else the reserve at a place.
    fn get(&mut self, lists: &Lists, at: usize, told: Result<u32, CacheRefusal>) -> ClientAnswer
        requires coherent { IsCoherent lists.now }
        requires at { at < length self.old }
        requires known { AreKnown lists.now self.old }
        ensures { Gets lists.now self.old at told result self.new }
    {
        match told {
            Ok(address) => ClientAnswer::Given(address),
            Err(why) => self.lend(lists, at, why),
        }
    }

    /// Lends the last number of the reserve at a place, where the cache gave none for this cause.
    fn lend(&mut self, lists: &Lists, at: usize, why: CacheRefusal) -> ClientAnswer
        requires coherent { IsCoherent lists.now }
        requires at { at < length self.old }
        requires known { AreKnown lists.now self.old }
        ensures { Gets lists.now self.old at (Err why) result self.new }
    {
        match self.made[at].take_last() {
            Some(object) => ClientAnswer::Lent {
                object,
                address: address_under(lists, object),
            },
            None => ClientAnswer::Nothing(why),
        }
    }

    /// Puts an object into a reserve that has fewer numbers than it may keep, or frees it
    /// (`mempool_free`).
    fn mput(
        &mut self,
        alloc: Global,
        heap: Heap,
        cpu: u32,
        pool: &Name,
        object: u32,
    ) -> Result<(Heap, ClientDone), LineStopped>
        requires asks { (trace : Read) × IsOpenTo heap trace 0 }
        requires cpu { cpu < heap.lists.cpus }
        requires number { IsNumber heap object }
        requires usable { All (IsUsable heap.lists) self.old }
        ensures served { IfOk result (λ done. ServesMput heap self.old cpu pool.now object done.1 done.0 self.new) }
        ensures err { OnErr result (self.new ≡ self.old) }
        ensures stays { IfOk result (λ done. (trace : Read) → StaysOpen heap trace 0 done.0) }
        ensures unheld { IfOk result (λ done. KeepsUnheld heap.lists [] done.0.lists) }
        ensures stopped { IfErr result (IsStoppedWhere (SpendsMput heap self.old cpu pool.now object)) }
    {
        let Some(at) = self.place_of(pool) else {
            return Ok((heap, at_once(alloc, ClientAnswer::NoPool)));
        };
        let Some(held) = heap.lists.board()[object as usize] else {
            return Ok((heap, at_once(alloc, ClientAnswer::NotHeld)));
        };
        if !is_of_cache(&heap.lists, &self.made[at], held.cache) {
            return Ok((heap, at_once(alloc, ClientAnswer::WrongCache)));
        }
        if self.has(object) {
            return Ok((heap, at_once(alloc, ClientAnswer::InReserve)));
        }
        if self.made[at].has_room() {
            self.made[at].put(object);
            return Ok((heap, at_once(alloc, ClientAnswer::Kept)));
        }
        put_back(alloc, heap, cpu, object)
    }

    /// Serves the line with reserves of which each number is on the board.
    fn serve_kept(
        &mut self,
        alloc: Global,
        heap: Heap,
        trace: &Trace,
        client: &Client,
    ) -> Result<(Heap, ClientDone), LineStopped>
        requires servable { IsServable heap trace.now client.now }
        requires line { IsReserveLine client.now }
        requires reserves { AreReserves heap.lists trace.now self.old }
        ensures served { IfOk result (λ done. ServesKept heap self.old client.now done.1 done.0 self.new) }
        ensures err { OnErr result (self.new ≡ self.old) }
        ensures stays { IfOk result (λ done. StaysOpen heap trace.now (length (asked_objects client.now)) done.0) }
        ensures unheld { IfOk result (λ done. KeepsUnheld heap.lists (asked_objects client.now) done.0.lists) }
        ensures stopped { IfErr result (IsStoppedWhere (SpendsKept heap self.old client.now)) }
    {
        match client {
            Client::Mempool {
                pool,
                name,
                min,
                first,
            } => self.mempool(alloc, heap, pool, *name, *min, *first),
            Client::Mget { cpu, pool, object } => self.mget(alloc, heap, *cpu, pool, *object),
            Client::Mput { cpu, pool, object } => self.mput(alloc, heap, *cpu, pool, *object),
            Client::Kmalloc
            | Client::Kget { .. }
            | Client::Krealloc { .. }
            | Client::Bulk { .. }
            | Client::Bulkfree { .. } => unreachable!(),
        }
    }

    /// Does a `mempool`, an `mget` or an `mput`. Before it, numbers that are no longer on the board are
    /// dropped from every reserve. Where it stops, the heap is gone, and the reserves are as they were then.
    pub fn serve(
        &mut self,
        alloc: Global,
        heap: Heap,
        trace: &Trace,
        client: &Client,
    ) -> Result<(Heap, ClientDone), LineStopped>
        requires servable { IsServable heap trace.now client.now }
        requires line { IsReserveLine client.now }
        requires sound { AreSoundReserves trace.now self.old }
        ensures served { IfOk result (λ done. ServesReserves heap self.old client.now done.1 done.0 self.new) }
        ensures reserves { IfOk result (λ done. AreReserves done.0.lists trace.now self.new) }
        ensures err { OnErr result (self.new ≡ kept_in heap.lists self.old) }
        ensures stays { IfOk result (λ done. StaysOpen heap trace.now (length (asked_objects client.now)) done.0) }
        ensures unheld { IfOk result (λ done. KeepsUnheld heap.lists (asked_objects client.now) done.0.lists) }
        ensures stopped { IfErr result (IsStoppedWhere (SpendsReserves heap self.old client.now)) }
    {
        rounds_by_text_are_lawful();
        self.drop_freed(&heap.lists);
        self.serve_kept(alloc, heap, trace, client)
    }
}
