//! What the lines above say, kept so that a look takes one step.

ghost use Rattle.std.specs.Prelude.{◌≡◌, ◌+◌, ◌-◌, ◌<◌, ◌≤◌, ◌^◌, length, OnOk, IfOk, true, false, nat_eq};
ghost use Rattle.std.specs.List.{list_any};
ghost use Rattle.std.specs.Str.{bytes_eq};
ghost use Rattle.slub_trace.specs.declared.event.Act.TheVariants as act;
ghost use Rattle.slub_trace.specs.declared.trace.Item.TheVariants as item;
ghost use Rattle.slub_trace_reader.specs.Above.{start, after, with_event, with_item, with_name, place_of, workers_in, trace_of, offset_of, setting_of};
ghost use Rattle.slub_trace_reader.specs.Grammar.{InRange};
ghost use Rattle.slub_trace_reader.specs.State.{above, with_alloc, Keeps, IsModest, IsFit, IsHead, IsItem, IsEvent};

use crate::line::{Knob, Line};
use crate::names::place_among;
use crate::objects::Objects;
use crate::place::Place;
use crate::written::Written;
use indexmap::IndexSet;
use slub_common::sequence::Sequence;
use slub_object_layout::layout::{Flags, Setting, Spec};
use slub_object_layout::name::Name;
use slub_trace::event::{Act, Event, Round};
use slub_trace::trace::{Item, Trace};
use std::alloc::{AllocError, Global};
use std::mem;

/// What the lines above say. Names are looked up by their hashes, objects and the first write of
/// each by its number, other writes by their hashes.
#[derive(Drop)]
pub(crate) struct State {
    /// How many lines there are.
    pub(crate) count: u32,
    pub(crate) place: Place,
    pub(crate) version: u32,
    pub(crate) frames: u32,
    pub(crate) cpus: u32,
    pub(crate) tid: u32,
    pub(crate) names: IndexSet<Name>,
    /// The reserves' names.
    pub(crate) pools: IndexSet<Name>,
    /// Whether a `kmalloc` line is among them.
    pub(crate) kmalloc: bool,
    pub(crate) objects: Objects,
    /// The greatest of the objects, or 0.
    pub(crate) greatest: u32,
    /// The rounds, each client's line counted as two.
    pub(crate) rounds: u32,
    /// The writes of this round.
    pub(crate) written: Written,
    pub(crate) items: Sequence<Item>,
    /// The events of the round that isn't ended.
    pub(crate) events: Sequence<Event>,
}

impl State {
    /// No lines.
    pub(crate) fn new(alloc: Global) -> State
        ensures empty { above result ≡ start }
        ensures keeps { Keeps result }
    {
        State {
            count: 0,
            place: Place::First,
            version: 0,
            frames: 0,
            cpus: 0,
            tid: 0,
            names: IndexSet::new(alloc),
            pools: IndexSet::new(alloc),
            kmalloc: false,
            objects: Objects::new(alloc),
            greatest: 0,
            rounds: 0,
            written: Written::new(alloc),
            items: Sequence::new(alloc),
            events: Sequence::new(alloc),
        }
    }

    /// One event more, on the line that comes next.
    pub(crate) fn push_event(&mut self, worker: u8, cpu: u8, act: Act) -> Result<(), AllocError>
        requires room { self.old.count < 2 ^ 28 }
        requires keeps { Keeps self.old }
        ensures pushed { OnOk result (above self.new ≡ with_event (above self.old) worker cpu act) }
        ensures keeps { OnOk result (Keeps self.new) }
    {
        self.events.push(Event {
            line: self.count + 1,
            worker,
            cpu,
            act,
        })?;
        self.count += 1;
        Ok(())
    }

    /// One item more.
    pub(crate) fn push_item(&mut self, item: Item) -> Result<(), AllocError>
        requires room { self.old.count < 2 ^ 28 }
        requires keeps { Keeps self.old }
        ensures pushed { OnOk result (above self.new ≡ with_item (above self.old) item) }
        ensures keeps { OnOk result (Keeps self.new) }
    {
        self.items.push(item)?;
        self.count += 1;
        Ok(())
    }

    /// Where a name of a `cache` line stands among the names.
    pub(crate) fn find(&self, name: &Name) -> u32
        requires small { self.now.count < 2 ^ 28 }
        requires keeps { Keeps self.now }
        requires known { list_any (bytes_eq name.now) self.now.names.keys ≡ true }
        ensures { result ≡ place_of name.now self.now.names.keys }
    {
        place_among(&self.names, name)
    }

    /// The number of a worker of this round.
    pub(crate) fn worker(&self, worker: u128) -> u8
        requires modest { IsModest (above self.now) }
        requires within { worker < workers_in self.now.place }
        ensures { result ≡ worker }
    {
        worker as u8
    }

    /// The number of a CPU of the machine.
    pub(crate) fn cpu(&self, cpu: u128) -> u32
        requires { cpu < self.now.cpus }
        ensures { result ≡ cpu }
    {
        let _cpus = self.cpus;
        cpu as u32
    }

    /// Takes a `cache` line.
    fn take_cache(&mut self, name: Name, spec: Spec) -> Result<(), AllocError>
        requires room { self.old.count < 2 ^ 28 }
        requires keeps { Keeps self.old }
        ensures taken { OnOk result (above self.new ≡ after (above self.old) (Line.Cache name spec.size spec.align spec.flags)) }
        ensures keeps { OnOk result (Keeps self.new) }
    {
        let place = put_name(&mut self.names, name)?;
        self.items.push(Item::Cache { name: place, spec })?;
        self.count += 1;
        Ok(())
    }

    /// One allocation more, of a number that is new, from the cache whose name has this place.
    pub(crate) fn put_alloc(
        &mut self,
        worker: u8,
        cpu: u8,
        cache: u32,
        object: u32,
    ) -> Result<(), AllocError>
        requires room { self.old.count < 2 ^ 28 }
        requires keeps { Keeps self.old }
        requires fresh { list_any (nat_eq object) self.old.objects.keys ≡ false }
        ensures put { OnOk result (above self.new ≡ with_alloc (above self.old) worker cpu cache object) }
        ensures keeps { OnOk result (Keeps self.new) }
    {
        self.objects.add(object)?;
        self.greatest = self.greatest.max(object);
        self.push_event(worker, cpu, Act::Alloc { cache, object })
    }

    /// Takes an `alloc` line.
    fn take_alloc(
        &mut self,
        worker: u8,
        cpu: u8,
        name: &Name,
        object: u32,
    ) -> Result<(), AllocError>
        requires room { self.old.count < 2 ^ 28 }
        requires keeps { Keeps self.old }
        requires fit { IsFit (above self.old) (Line.Alloc worker cpu name.now object) }
        ensures taken { OnOk result (above self.new ≡ after (above self.old) (Line.Alloc worker cpu name.now object)) }
        ensures keeps { OnOk result (Keeps self.new) }
    {
        let cache = self.find(name);
        self.put_alloc(worker, cpu, cache, object)
    }

    /// Takes a `write` line.
    pub(crate) fn take_write(
        &mut self,
        worker: u8,
        object: u32,
        word: u16,
        value: u64,
    ) -> Result<(), AllocError>
        requires room { self.old.count < 2 ^ 28 }
        requires keeps { Keeps self.old }
        ensures taken { OnOk result (above self.new ≡ after (above self.old) (Line.Write worker object word value)) }
        ensures keeps { OnOk result (Keeps self.new) }
    {
        self.push_event(
            worker,
            0,
            Act::Write {
                word,
                object,
                value,
            },
        )?;
        self.written.put(worker, object, word)
    }

    /// Takes a `round` line.
    fn take_round(&mut self, alloc: Global, workers: u32)
        requires room { self.old.count < 2 ^ 28 }
        requires keeps { Keeps self.old }
        requires rounds { self.old.rounds < 256 }
        ensures taken { above self.new ≡ after (above self.old) (Line.Round workers) }
        ensures keeps { Keeps self.new }
    {
        self.place = Place::Within { workers };
        self.rounds += 1;
        self.written.begin(alloc);
        self.events = Sequence::new(alloc);
        self.count += 1;
    }

    /// Takes a `done` line.
    fn take_done(&mut self, alloc: Global) -> Result<(), AllocError>
        requires room { self.old.count < 2 ^ 28 }
        requires keeps { Keeps self.old }
        ensures taken { OnOk result (above self.new ≡ after (above self.old) Line.Done) }
        ensures keeps { OnOk result (Keeps self.new) }
    {
        let workers = self.place.workers();
        let events = mem::replace(&mut self.events, Sequence::new(alloc));
        self.push_item(Item::Round(Round { workers, events }))?;
        self.place = Place::Between;
        Ok(())
    }

    /// Takes the `slubtrace` line or the `machine` line.
    fn take_head(&mut self, line: &Line)
        requires room { self.old.count < 2 ^ 28 }
        requires keeps { Keeps self.old }
        requires head { IsHead line.now }
        requires fit { InRange (above self.old) line.now }
        ensures taken { above self.new ≡ after (above self.old) line.now }
        ensures keeps { Keeps self.new }
    {
        self.count += 1;
        match line {
            Line::Slubtrace { version } => {
                self.place = Place::Second;
                self.version = *version;
            }
            Line::Machine { frames, cpus, tid } => {
                self.place = Place::Between;
                self.frames = *frames as u32;
                self.cpus = *cpus as u32;
                self.tid = tid.unwrap_or(0) as u32;
            }
            _ => {}
        }
    }

    /// Takes a line that is passed over.
    fn pass(&mut self)
        requires room { self.old.count < 2 ^ 28 }
        requires keeps { Keeps self.old }
        ensures taken { above self.new ≡ after (above self.old) Line.Passed }
        ensures keeps { Keeps self.new }
    {
        self.count += 1;
    }

    /// Takes a line between rounds, but the `slubtrace` line and the `machine` line.
    fn take_item(&mut self, alloc: Global, line: &Line) -> Result<(), AllocError>
        requires room { self.old.count < 2 ^ 28 }
        requires keeps { Keeps self.old }
        requires item { IsItem line.now }
        requires fit { IsFit (above self.old) line.now }
        ensures taken { OnOk result (above self.new ≡ after (above self.old) line.now) }
        ensures keeps { OnOk result (Keeps self.new) }
    {
        match line {
            Line::Cache {
                name,
                size,
                align,
                flags,
            } => self.take_cache(*name, spec_of(*size as u32, *align as u32, *flags)),
            Line::Shrink { name } => {
                let name = self.find(name);
                self.push_item(Item::Shrink { name })
            }
            Line::Destroy { name } => {
                let name = self.find(name);
                self.push_item(Item::Destroy { name })
            }
            Line::Tune { name, knob, number } => {
                let name = self.find(name);
                let setting = setting_by(*knob, *number as u32);
                self.push_item(Item::Tune { name, setting })
            }
            Line::Slabinfo => self.push_item(Item::Slabinfo),
            Line::Client(line) => self.take_client(line),
            Line::Round { workers } => {
                self.take_round(alloc, *workers as u32);
                Ok(())
            }
            Line::Done => self.take_done(alloc),
            Line::End => {
                self.place = Place::After;
                self.count += 1;
                Ok(())
            }
            _ => {
                self.pass();
                Ok(())
            }
        }
    }

    /// Takes a line of a round.
    fn take_event(&mut self, line: &Line) -> Result<(), AllocError>
        requires room { self.old.count < 2 ^ 28 }
        requires keeps { Keeps self.old }
        requires modest { IsModest (above self.old) }
        requires event { IsEvent line.now }
        requires fit { IsFit (above self.old) line.now }
        ensures taken { OnOk result (above self.new ≡ after (above self.old) line.now) }
        ensures keeps { OnOk result (Keeps self.new) }
    {
        match line {
            Line::Alloc {
                worker,
                cpu,
                name,
                object,
            } => {
                let (worker, cpu) = (self.worker(*worker), self.cpu(*cpu) as u8);
                self.take_alloc(worker, cpu, name, *object as u32)
            }
            Line::Free {
                worker,
                cpu,
                object,
            } => {
                let (worker, cpu) = (self.worker(*worker), self.cpu(*cpu) as u8);
                let object = *object as u32;
                self.push_event(worker, cpu, Act::Free { object })
            }
            Line::Write {
                worker,
                object,
                word,
                value,
            } => {
                let worker = self.worker(*worker);
                self.take_write(worker, *object as u32, *word as u16, *value as u64)
            }
            Line::Read {
                worker,
                object,
                word,
            } => {
                let worker = self.worker(*worker);
                let (word, object) = (*word as u16, *object as u32);
                self.push_event(worker, 0, Act::Read { word, object })
            }
            Line::Poke {
                worker,
                object,
                negative,
                offset,
                byte,
            } => {
                let worker = self.worker(*worker);
                let offset = offset_by(*negative, *offset as u32);
                let (object, byte) = (*object as u32, *byte);
                self.push_event(
                    worker,
                    0,
                    Act::Poke {
                        object,
                        offset,
                        byte,
                    },
                )
            }
            Line::Trim { worker, name } => {
                let worker = self.worker(*worker);
                let cache = self.find(name);
                self.push_event(worker, 0, Act::Trim { cache })
            }
            Line::Flush { worker, cpu } => {
                let (worker, cpu) = (self.worker(*worker), self.cpu(*cpu) as u8);
                self.push_event(worker, cpu, Act::Flush)
            }
            _ => Ok(()),
        }
    }

    /// Takes a line.
    pub(crate) fn take(&mut self, alloc: Global, line: &Line) -> Result<(), AllocError>
        requires room { self.old.count < 2 ^ 28 }
        requires keeps { Keeps self.old }
        requires modest { IsModest (above self.old) }
        requires fit { IsFit (above self.old) line.now }
        ensures taken { OnOk result (above self.new ≡ after (above self.old) line.now) }
        ensures keeps { OnOk result (Keeps self.new) }
    {
        match line {
            Line::Slubtrace { .. } | Line::Machine { .. } => {
                self.take_head(line);
                Ok(())
            }
            Line::Alloc { .. }
            | Line::Free { .. }
            | Line::Write { .. }
            | Line::Read { .. }
            | Line::Poke { .. }
            | Line::Trim { .. }
            | Line::Flush { .. } => self.take_event(line),
            _ => self.take_item(alloc, line),
        }
    }

    /// The trace of all lines.
    pub(crate) fn into_trace(self, alloc: Global) -> Result<Trace, AllocError>
        requires keeps { Keeps self }
        ensures { IfOk result (λ trace. trace ≡ trace_of (above self)) }
    {
        let names = Sequence::from_vec(Vec::from_slice(alloc, self.names.as_slice())?);
        Ok(Trace {
            version: self.version,
            frames: self.frames,
            cpus: self.cpus,
            tid: self.tid,
            objects: self.greatest,
            names,
            items: self.items,
        })
    }
}

/// Puts a name behind the others where it is new, and answers its place.
fn put_name(names: &mut IndexSet<Name>, name: Name) -> Result<u32, AllocError>
    requires { length names.old.keys < 2 ^ 32 }
    ensures keys { OnOk result (names.new.keys ≡ with_name names.old.keys name) }
    ensures place { IfOk result (λ place. place ≡ place_of name names.old.keys) }
{
    let (place, _) = names.insert_full(name)?;
    Ok(place as u32)
}

fn spec_of(size: u32, align: u32, flags: Flags) -> Spec
    ensures size { result.size ≡ size }
    ensures align { result.align ≡ align }
    ensures flags { result.flags ≡ flags }
{
    Spec { size, align, flags }
}

/// An offset by its sign and its size.
fn offset_by(negative: bool, size: u32) -> i32
    requires { size ≤ 32768 }
    ensures { result ≡ offset_of negative size }
{
    if negative {
        -(size as i32)
    } else {
        size as i32
    }
}

/// What a `tune` line sets, and to which number.
fn setting_by(knob: Knob, number: u32) -> Setting
    ensures { result ≡ setting_of knob number }
{
    match knob {
        Knob::MinPartial => Setting::MinPartial(number),
        Knob::CpuPartial => Setting::CpuPartial(number),
    }
}
