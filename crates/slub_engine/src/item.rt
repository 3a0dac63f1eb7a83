//! Doing an item.

ghost use Rattle.std.specs.Prelude.{◌≡◌, ◌+◌, ◌-◌, ◌^◌, ◌<◌, ◌≤◌, [], ◌∷◌, length, All, IfOk, IfSome, OnOk, OnErr, nat_eq};
ghost use Rattle.std.specs.List.{IsDistinct};
ghost use Rattle.slub_lists.specs.Coherent.{IsCoherent, KeepsMachine, KeepsOthers};
ghost use Rattle.slub_trace.specs.Sound.{IsSound, objects_of};
ghost use Rattle.slub_slabinfo_text.specs.Lawful.{Answers, CreatesName, DoesPlainAt, DoesRound, IsPlainAt, IsReady, IsTotal, IsUnheld, TakesMemoryAt, all_freed, all_given, least_order_of};
ghost use Rattle.slub_engine.specs.Steps.{IsBelow, IsBlank, IsKnown, IsKnownAct, KeepsSizes, KeepsUnheld, Notes, NotesOwn, object_of};

use crate::counts::info_rows;
use crate::running::Running;
use crate::sums::{self, CacheSums};
use slub_cache_create::caches;
use slub_common::no_memory::NoMemory;
use slub_common::sequence::Sequence;
use slub_list_machine::lists::Lists;
use slub_object_layout::layout::Spec;
use slub_object_layout::name::Name;
use slub_slabinfo_text::journal::{Done, RoundResult, Total};
use slub_slabinfo_text::names::name_of;
use slub_trace::create::{CreateRefusal, Created};
use slub_trace::event::{Act, Event, Round};
use slub_trace::ledger::Ledger;
use slub_trace::reply::{Kind, Reply};
use slub_trace::trace::{Item, Trace};
use std::alloc::Global;

/// Does the item of this number, which is neither a round nor a client's line. Only a creation and slabinfo take
/// memory; where none is found, the machine is as it was given.
pub fn item(
    alloc: Global,
    lists: &mut Lists,
    trace: &Trace,
    number: usize,
) -> Result<Done, NoMemory>
    requires sound { IsSound trace.now }
    requires within { number < length trace.now.items }
    requires plain { IsPlainAt trace.now number }
    requires ready { IsReady lists.old trace.now number }
    ensures done { IfOk result (λ done. DoesPlainAt lists.old trace.now number done lists.new) }
    ensures ready { OnOk result (IsReady lists.new trace.now (number + 1)) }
    ensures err { OnErr result (lists.new ≡ lists.old) }
    ensures memory { OnErr result (TakesMemoryAt trace.now number) }
{
    match &trace.items.as_slice()[number] {
        Item::Cache { name, spec } => {
            Ok(Done::Created(create(lists, name_of(trace, *name), spec)?))
        }
        Item::Shrink { name } => Ok(Done::Shrunk(lists.shrink(name_of(trace, *name)))),
        Item::Destroy { name } => Ok(Done::Destroyed(lists.destroy(name_of(trace, *name)))),
        Item::Slabinfo => Ok(Done::Slabinfo(Sequence::from_vec(info_rows(alloc, lists)?))),
        Item::Tune { name, setting } => {
            Ok(Done::Tuned(lists.tune(name_of(trace, *name), *setting)))
        }
        Item::Round(_) | Item::Client(_) => unreachable!(),
    }
}

/// Creates a cache, or gives a live one that it fits one more name (`kmem_cache_create`).
pub fn create(
    lists: &mut Lists,
    name: &Name,
    spec: &Spec,
) -> Result<Result<Created, CreateRefusal>, NoMemory>
    requires coherent { IsCoherent lists.old }
    ensures creates { IfOk result (λ answer.
        CreatesName lists.old name.now spec.now answer lists.new) }
    ensures coherent { IsCoherent lists.new }
    ensures kept { KeepsMachine lists.old lists.new }
    ensures board { lists.new.board ≡ lists.old.board }
    ensures err { OnErr result (lists.new ≡ lists.old) }
{
    match lists.create(name, spec) {
        Ok(caches::Created::New(cache)) => Ok(Ok(Created::New(cache))),
        Ok(caches::Created::Merged(cache)) => Ok(Ok(Created::Merged {
            cache,
            title: *lists.caches().title(cache),
        })),
        Err(caches::CreateRefusal::NameTaken) => Ok(Err(CreateRefusal::NameTaken)),
        Err(caches::CreateRefusal::TooMany) => Ok(Err(CreateRefusal::TooMany)),
        Err(caches::CreateRefusal::Layout(why)) => Ok(Err(CreateRefusal::Layout(why))),
        Err(caches::CreateRefusal::NoMemory) => Err(NoMemory),
    }
}

/// Does a round: each event to its end, in the order of the text.
///
/// All memory is taken before the first event.
pub fn serial(alloc: Global, lists: &mut Lists, round: &Round) -> Result<RoundResult, NoMemory>
    requires coherent { IsCoherent lists.old }
    requires known { All (IsKnown lists.old round.now.workers) round.now.events }
    requires unheld { All (IsUnheld lists.old) (objects_of round.now.events) }
    requires distinct { IsDistinct nat_eq (objects_of round.now.events) }
    ensures round { IfOk result (λ outcome. DoesRound lists.old round.now outcome lists.new) }
    ensures coherent { IsCoherent lists.new }
    ensures sizes { KeepsSizes lists.old lists.new }
    ensures unheld { KeepsUnheld lists.old (objects_of round.now.events) lists.new }
    ensures err { OnErr result (lists.new ≡ lists.old) }
{
    let events = round.events.as_slice();
    let mut running = Running::begin(alloc, lists, round.workers as usize, events.len())?;
    for event in events {
        running.event(lists, event);
    }
    Ok(running.end(lists))
}

/// So many ledgers with nothing counted.
pub fn blank_ledgers(alloc: Global, workers: usize) -> Result<Vec<Ledger>, NoMemory>
    ensures each { IfOk result (λ ledgers. length ledgers.items ≡ workers) }
    ensures blank { IfOk result (λ ledgers. All IsBlank ledgers.items) }
{
    let blank = Ledger {
        given: 0,
        freed: 0,
        no_frames: [0; 11],
    };
    Ok(vec![in alloc; blank; workers]?)
}

/// Answers an event.
pub(crate) fn answer(lists: &mut Lists, event: &Event) -> Reply
    requires coherent { IsCoherent lists.old }
    requires cpu { event.now.cpu < lists.old.cpus }
    requires known { IsKnownAct lists.old event.now.act }
    requires unheld { All (IsUnheld lists.old) (objects_of (event.now ∷ [])) }
    ensures answers { Answers lists.old event.now event.now.act result lists.new }
    ensures coherent { IsCoherent lists.new }
    ensures others { KeepsOthers lists.old (object_of event.now.act) lists.new }
    ensures unheld { KeepsUnheld lists.old (objects_of (event.now ∷ [])) lists.new }
{
    let (cpu, worker) = (u32::from(event.cpu), event.worker);
    match event.act {
        Act::Alloc { cache, object } => lists.alloc_named(cache, cpu, worker, object),
        Act::Free { object } => lists.free(cpu, worker, object),
        Act::Write {
            word,
            object,
            value,
        } => lists.write(worker, object, u32::from(word), value),
        Act::Read { word, object } => lists.read(worker, object, u32::from(word)),
        Act::Poke {
            object,
            offset,
            byte,
        } => lists.poke(worker, object, offset, byte),
        Act::Trim { cache } => lists.trim(cache),
        Act::Flush => lists.flush(cpu),
    }
}

/// Counts a reply in the ledger of the event's worker.
pub fn note_own(ledgers: &mut [Ledger], lists: &Lists, event: &Event, reply: Reply)
    requires coherent { IsCoherent lists.now }
    requires known { IsKnownAct lists.now event.now.act }
    requires worker { event.now.worker < length ledgers.old }
    requires room { All (IsBelow (2 ^ 64 - 1)) ledgers.old }
    ensures { NotesOwn lists.now event.now reply ledgers.old ledgers.new }
{
    note(&mut ledgers[usize::from(event.worker)], lists, event, reply);
}

/// Counts a reply.
fn note(ledger: &mut Ledger, lists: &Lists, event: &Event, reply: Reply)
    requires coherent { IsCoherent lists.now }
    requires known { IsKnownAct lists.now event.now.act }
    requires room { IsBelow (2 ^ 64 - 1) ledger.old }
    ensures { Notes lists.now event.now reply ledger.old ledger.new }
{
    match reply.kind() {
        Kind::Gives => ledger.given += 1,
        Kind::Frees => ledger.freed += 1,
        Kind::LacksFrames => {
            if let Some(order) = least_order(lists, &event.act) {
                ledger.no_frames[order as usize] += 1;
            }
        }
        Kind::Does | Kind::LacksMemory | Kind::Refuses => {}
    }
}

/// The least order of the cache that an act allocates from.
fn least_order(lists: &Lists, act: &Act) -> Option<u32>
    requires coherent { IsCoherent lists.now }
    requires known { IsKnownAct lists.now act.now }
    ensures order { result ≡ least_order_of lists.now act.now }
    ensures small { IfSome result (λ order. order ≤ 3) }
{
    let place = match act {
        Act::Alloc { cache, object: _ } => *cache,
        _ => return None,
    };
    let number = lists.caches().at(place)?;
    Some(lists.caches().layout(number).min_order)
}

/// The sums over all that was done, and over the machine that it left.
pub fn total(lists: &Lists, items: &[Done]) -> Total
    requires coherent { IsCoherent lists.now }
    requires given { all_given items.now < 2 ^ 64 }
    requires freed { all_freed items.now < 2 ^ 64 }
    ensures { IsTotal lists.now items.now result }
{
    let CacheSums {
        live,
        free,
        aside,
        frozen,
        slabs,
    } = CacheSums::of(lists);
    Total {
        given: sums::given(items),
        freed: sums::freed(items),
        live,
        free,
        aside,
        frozen,
        slabs,
        frames: u64::from(lists.free_frames()),
    }
}
