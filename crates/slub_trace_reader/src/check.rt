//! Whether a line may come next.

ghost use Rattle.std.specs.Prelude.{◌≡◌, ◌<◌, ◌^◌, ◌↔◌, IsTrue, IfOk, IfErr};
ghost use Rattle.std.specs.List.{list_any};
ghost use Rattle.slub_trace_reader.specs.Above.{workers_in, is_spot};
ghost use Rattle.slub_trace_reader.specs.Faults.{IsFirstReason, Finished};
ghost use Rattle.slub_trace_reader.specs.Forms.{line_of};
ghost use Rattle.slub_trace_reader.specs.Grammar.{InRange, ClientInRange, HasRoom, HasCache, HasSource, IsFresh, IsKnown, IsWritten, IsLine, IsObject, AreObjects, IsOffset};
ghost use Rattle.slub_trace.specs.Ranges.{IsAskedSize, IsTid, step_of};
ghost use Rattle.slub_trace_reader.specs.Lines.{IsPassed};
ghost use Rattle.slub_trace_reader.specs.State.{above, IsMarked, IsModest, IsNoted, Lacks};

use crate::client::ClientLine;
use crate::line::{Line, is_skipped};
use crate::names::has_name;
use crate::numbers::{has_all, has_none};
use crate::place::Place;
use crate::reading::Why;
use crate::state::State;
use slub_common::limits::{CPUS_MAX, FRAMES_MAX, OBJECTS_MAX, ROUNDS_MAX, WORD_MAX, WORKERS_MAX};

/// The most numbers of a `bulk` or `bulkfree` line (*profile*: `kmem_cache_alloc_bulk` and
/// `kmem_cache_free_bulk` set no limit).
const COUNT_MAX: u128 = 1024;

/// The most objects that a reserve keeps (*profile*: `mempool_create_slab_pool` sets no limit).
const MIN_MAX: u128 = 64;

/// The greatest number of a `tune` line (*profile*: `min_partial_store` and `cpu_partial_store`
/// set no such limit).
const TUNE_MAX: u128 = 4096;

/// The least power of two that is not below 1 to 16 CPUs.
fn step(cpus: u128) -> u128
    ensures { result ≡ step_of cpus }
{
    if cpus <= 1 {
        return 1;
    }
    if cpus <= 2 {
        return 2;
    }
    if cpus <= 4 {
        return 4;
    }
    if cpus <= 8 { 8 } else { 16 }
}

/// Whether the CPUs can start at this transaction id.
fn is_tid(cpus: u128, tid: Option<u128>) -> bool
    ensures { IsTrue result ↔ IsTid cpus tid }
{
    match tid {
        None => true,
        Some(tid) => tid <= 4294967296 - step(cpus) && tid % step(cpus) == 0,
    }
}

fn is_object(object: u128) -> bool
    ensures { IsTrue result ↔ IsObject object }
{
    1 <= object && object <= u128::from(OBJECTS_MAX)
}

fn is_offset(negative: bool, size: u128) -> bool
    ensures { IsTrue result ↔ IsOffset negative size }
{
    if negative {
        size <= 32768
    } else {
        size <= 32767
    }
}

/// Whether so many numbers from the first on are object numbers, at most `most`.
fn are_objects(most: u128, first: u128, count: u128) -> bool
    requires { most < 2 ^ 32 }
    ensures { IsTrue result ↔ AreObjects most first count }
{
    is_object(first) && 1 <= count && count <= most && first + count - 1 <= u128::from(OBJECTS_MAX)
}

fn is_asked_size(size: u128) -> bool
    ensures { IsTrue result ↔ IsAskedSize size }
{
    1 <= size && size <= 4294967295
}

impl State {
    fn is_worker(&self, worker: u128) -> bool
        ensures { IsTrue result ↔ (worker < workers_in self.now.place) }
    {
        worker < u128::from(self.place.workers())
    }

    fn is_cpu(&self, cpu: u128) -> bool
        ensures { IsTrue result ↔ (cpu < self.now.cpus) }
    {
        cpu < u128::from(self.cpus)
    }

    /// Whether each number of a line is in its range.
    fn is_in_range(&self, line: &Line) -> bool
        ensures { IsTrue result ↔ InRange (above self.now) line.now }
    {
        match line {
            Line::Machine { frames, cpus, tid } => {
                2 <= *frames
                    && *frames <= u128::from(FRAMES_MAX)
                    && 1 <= *cpus
                    && *cpus <= u128::from(CPUS_MAX)
                    && is_tid(*cpus, *tid)
            }
            Line::Cache { size, align, .. } => *size <= 4294967295 && *align <= 4294967295,
            Line::Round { workers } => 1 <= *workers && *workers <= u128::from(WORKERS_MAX),
            Line::Alloc {
                worker,
                cpu,
                object,
                ..
            }
            | Line::Free {
                worker,
                cpu,
                object,
            } => self.is_worker(*worker) && self.is_cpu(*cpu) && is_object(*object),
            Line::Write {
                worker,
                object,
                word,
                value,
            } => {
                self.is_worker(*worker)
                    && is_object(*object)
                    && *word <= u128::from(WORD_MAX)
                    && *value <= 18446744073709551615
            }
            Line::Read {
                worker,
                object,
                word,
            } => self.is_worker(*worker) && is_object(*object) && *word <= u128::from(WORD_MAX),
            Line::Poke {
                worker,
                object,
                negative,
                offset,
                ..
            } => self.is_worker(*worker) && is_object(*object) && is_offset(*negative, *offset),
            Line::Tune { number, .. } => *number <= TUNE_MAX,
            Line::Client(line) => self.is_client_in_range(line),
            Line::Trim { worker, .. } => self.is_worker(*worker),
            Line::Flush { worker, cpu } => self.is_worker(*worker) && self.is_cpu(*cpu),
            _ => true,
        }
    }

    /// Whether each number of a client's line is in its range.
    fn is_client_in_range(&self, line: &ClientLine) -> bool
        ensures { IsTrue result ↔ ClientInRange (above self.now) line.now }
    {
        match line {
            ClientLine::Kmalloc => true,
            ClientLine::Kget { cpu, size, object } => {
                self.is_cpu(*cpu) && is_asked_size(*size) && is_object(*object)
            }
            ClientLine::Krealloc {
                cpu,
                object,
                size,
                fresh,
            } => {
                self.is_cpu(*cpu) && is_object(*object) && is_asked_size(*size) && is_object(*fresh)
            }
            ClientLine::Bulk {
                cpu,
                first,
                count,
                ..
            }
            | ClientLine::Bulkfree { cpu, first, count } => {
                self.is_cpu(*cpu) && are_objects(COUNT_MAX, *first, *count)
            }
            ClientLine::Mempool { min, first, .. } => are_objects(MIN_MAX, *first, *min),
            ClientLine::Mget { cpu, object, .. } | ClientLine::Mput { cpu, object, .. } => {
                self.is_cpu(*cpu) && is_object(*object)
            }
        }
    }

    fn has_room(&self, line: &Line) -> bool
        ensures { IsTrue result ↔ HasRoom (above self.now) line.now }
    {
        match line {
            Line::Round { .. } => self.rounds < ROUNDS_MAX,
            Line::Client(_) => self.rounds < ROUNDS_MAX - 1,
            _ => true,
        }
    }

    fn has_cache(&self, line: &Line) -> bool
        ensures { IsTrue result ↔ HasCache (above self.now) line.now }
    {
        match line {
            Line::Shrink { name }
            | Line::Destroy { name }
            | Line::Tune { name, .. }
            | Line::Alloc { name, .. }
            | Line::Trim { name, .. } => has_name(&self.names, name),
            Line::Client(line) => self.has_source(line),
            _ => true,
        }
    }

    /// Whether a client's line has what it takes from.
    fn has_source(&self, line: &ClientLine) -> bool
        ensures { IsTrue result ↔ HasSource (above self.now) line.now }
    {
        match line {
            ClientLine::Kmalloc | ClientLine::Bulkfree { .. } => true,
            ClientLine::Kget { .. } | ClientLine::Krealloc { .. } => self.kmalloc,
            ClientLine::Bulk { name, .. } | ClientLine::Mempool { name, .. } => {
                has_name(&self.names, name)
            }
            ClientLine::Mget { pool, .. } | ClientLine::Mput { pool, .. } => {
                has_name(&self.pools, pool)
            }
        }
    }

    fn is_fresh(&self, line: &Line) -> bool
        requires marked { IsMarked self.now.objects }
        requires range { InRange (above self.now) line.now }
        ensures { IsTrue result ↔ IsFresh (above self.now) line.now }
    {
        match line {
            Line::Alloc { object, .. } => has_none(&self.objects, *object as u32, 1),
            Line::Client(line) => self.is_client_fresh(line),
            _ => true,
        }
    }

    /// Whether no line above may allocate what a client's line may.
    fn is_client_fresh(&self, line: &ClientLine) -> bool
        requires marked { IsMarked self.now.objects }
        requires range { ClientInRange (above self.now) line.now }
        ensures { IsTrue result ↔ IsFresh (above self.now) (Line.Client line.now) }
    {
        match line {
            ClientLine::Kget { object, .. } | ClientLine::Mget { object, .. } => {
                has_none(&self.objects, *object as u32, 1)
            }
            ClientLine::Krealloc { fresh, .. } => has_none(&self.objects, *fresh as u32, 1),
            ClientLine::Bulk { first, count, .. } => {
                has_none(&self.objects, *first as u32, *count as u32)
            }
            ClientLine::Mempool { first, min, .. } => {
                has_none(&self.objects, *first as u32, *min as u32)
            }
            _ => true,
        }
    }

    fn is_known(&self, line: &Line) -> bool
        requires marked { IsMarked self.now.objects }
        requires range { InRange (above self.now) line.now }
        ensures { IsTrue result ↔ IsKnown (above self.now) line.now }
    {
        match line {
            Line::Free { object, .. }
            | Line::Write { object, .. }
            | Line::Read { object, .. }
            | Line::Poke { object, .. } => has_all(&self.objects, *object as u32, 1),
            Line::Client(line) => self.is_client_known(line),
            _ => true,
        }
    }

    /// Whether lines above may allocate what a client's line needs.
    fn is_client_known(&self, line: &ClientLine) -> bool
        requires marked { IsMarked self.now.objects }
        requires range { ClientInRange (above self.now) line.now }
        ensures { IsTrue result ↔ IsKnown (above self.now) (Line.Client line.now) }
    {
        match line {
            ClientLine::Krealloc { object, .. } | ClientLine::Mput { object, .. } => {
                has_all(&self.objects, *object as u32, 1)
            }
            ClientLine::Bulkfree { first, count, .. } => {
                has_all(&self.objects, *first as u32, *count as u32)
            }
            _ => true,
        }
    }

    pub(crate) fn was_written(&self, worker: u8, object: u32, word: u16) -> bool
        requires { IsNoted self.now.written }
        ensures { result ≡ list_any (is_spot (worker, object, word)) self.now.written.keys }
    {
        self.written.has(worker, object, word)
    }

    fn is_written(&self, line: &Line) -> bool
        requires noted { IsNoted self.now.written }
        requires modest { IsModest (above self.now) }
        requires range { InRange (above self.now) line.now }
        ensures { IsTrue result ↔ IsWritten (above self.now) line.now }
    {
        match line {
            Line::Read {
                worker,
                object,
                word,
            } => {
                let worker = self.worker(*worker);
                self.was_written(worker, *object as u32, *word as u16)
            }
            _ => true,
        }
    }

    /// The first reason that a line of some form is bad for.
    fn lacks(&self, line: &Line) -> Option<Why>
        requires marked { IsMarked self.now.objects }
        requires noted { IsNoted self.now.written }
        requires modest { IsModest (above self.now) }
        ensures { Lacks (above self.now) line.now result }
    {
        if !self.place.takes(line, self.version) {
            return Some(Why::Form);
        }
        if !self.is_in_range(line) {
            return Some(Why::Range);
        }
        if !self.has_room(line) {
            return Some(Why::TooManyRounds);
        }
        if !self.has_cache(line) {
            return Some(Why::UnknownCache);
        }
        if !self.is_fresh(line) {
            return Some(Why::ObjectTwice);
        }
        if !self.is_known(line) {
            return Some(Why::UnknownObject);
        }
        if !self.is_written(line) {
            return Some(Why::ReadBeforeWrite);
        }
        None
    }

    /// Whether a text stands after `end` and isn't passed over.
    fn is_after_end(&self, text: &[u8]) -> bool
        ensures { IsTrue result ↔ ((self.now.place ≡ Place.After) × ¬ IsPassed text.now) }
    {
        self.place.is_after() && !is_skipped(text)
    }

    /// The line that a text says, or the first reason that it is bad for.
    pub(crate) fn judge<'a>(&self, text: &[u8], said: &'a Option<Line>) -> Result<&'a Line, Why>
        requires marked { IsMarked self.now.objects }
        requires noted { IsNoted self.now.written }
        requires modest { IsModest (above self.now) }
        requires said { said.now ≡ line_of text.now }
        ensures good { IfOk result (λ line. IsLine (above self.now) text.now line.now) }
        ensures bad { IfErr result (IsFirstReason (above self.now) (Finished text.now)) }
    {
        if self.is_after_end(text) {
            return Err(Why::AfterEnd);
        }
        let Some(line) = said else {
            return Err(Why::Form);
        };
        match self.lacks(line) {
            None => Ok(line),
            Some(why) => Err(why),
        }
    }
}
