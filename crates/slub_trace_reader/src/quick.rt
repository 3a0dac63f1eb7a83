//! Lines `alloc`, `free`, `write` and `read`, told and taken in one go.
//!
//! They are nearly all of a long trace. One that may come next is taken here, up to its line feed:
//! its numbers are read in place, and its name is looked up once. Every other line is left as it
//! is, and what may be bad of it is said by `judge`.

ghost use Rattle.std.specs.Prelude.{◌≡◌, ◌↔◌, ◌∷◌, ◌++◌, codes, ◌<◌, ◌≤◌, ◌^◌, IsTrue, IfOk, IfNone, IfSome, OnOk, length};
ghost use Rattle.slub_trace_reader.specs.Above.{workers_in};
ghost use Rattle.slub_trace_reader.specs.Digits.{IsFront};
ghost use Rattle.slub_trace_reader.specs.Grammar.{IsObject};
ghost use Rattle.slub_trace_reader.specs.Parsing.{IsAllocFront, IsFreeFront, IsReadFront, IsWriteFront, TakesFront};
ghost use Rattle.slub_trace_reader.specs.State.{above, IsModest, Keeps};

use crate::digits::front;
use crate::names::name_before;
use crate::state::State;
use indexmap::IndexSet;
use slub_common::limits::{OBJECTS_MAX, WORD_MAX};
use slub_object_layout::name::Name;
use slub_trace::event::Act;
use std::alloc::AllocError;

/// The numbers of an `alloc` line, and the place of its name.
#[derive(Clone, Copy, Debug)]
struct AllocParts {
    worker: u64,
    cpu: u64,
    cache: u32,
    object: u64,
}

/// The numbers of a `free` line.
#[derive(Clone, Copy, Debug)]
struct FreeParts {
    worker: u64,
    cpu: u64,
    object: u64,
}

/// The numbers of a `write` line.
#[derive(Clone, Copy, Debug)]
struct WriteParts {
    worker: u64,
    object: u64,
    word: u64,
    value: u64,
}

/// The numbers of a `read` line.
#[derive(Clone, Copy, Debug)]
struct ReadParts {
    worker: u64,
    object: u64,
    word: u64,
}

/// The number in front, with this byte behind it, and what follows.
fn number_before(bytes: &[u8], end: u8) -> Option<(u64, &[u8])>
    ensures { IfSome result (λ x. IsFront bytes.now x.0 (end ∷ x.1.now)) }
{
    let (n, behind) = front(bytes)?;
    let (c, rest) = behind.split_first()?;
    if *c != end {
        return None;
    }
    Some((n, rest))
}

/// What follows the word of an `alloc` line.
fn past_alloc(bytes: &[u8]) -> Option<&[u8]>
    ensures { IfSome result (λ rest. bytes.now ≡ codes "alloc " ++ rest.now) }
{
    match bytes {
        [b'a', b'l', b'l', b'o', b'c', b' ', rest @ ..] => Some(rest),
        _ => None,
    }
}

/// What follows the word of a `free` line.
fn past_free(bytes: &[u8]) -> Option<&[u8]>
    ensures { IfSome result (λ rest. bytes.now ≡ codes "free " ++ rest.now) }
{
    match bytes {
        [b'f', b'r', b'e', b'e', b' ', rest @ ..] => Some(rest),
        _ => None,
    }
}

/// What follows the word of a `write` line.
fn past_write(bytes: &[u8]) -> Option<&[u8]>
    ensures { IfSome result (λ rest. bytes.now ≡ codes "write " ++ rest.now) }
{
    match bytes {
        [b'w', b'r', b'i', b't', b'e', b' ', rest @ ..] => Some(rest),
        _ => None,
    }
}

/// What follows the word of a `read` line.
fn past_read(bytes: &[u8]) -> Option<&[u8]>
    ensures { IfSome result (λ rest. bytes.now ≡ codes "read " ++ rest.now) }
{
    match bytes {
        [b'r', b'e', b'a', b'd', b' ', rest @ ..] => Some(rest),
        _ => None,
    }
}

/// What an `alloc` line in front says, and what follows its line feed.
fn alloc_front<'a>(names: &IndexSet<Name>, bytes: &'a [u8]) -> Option<(AllocParts, &'a [u8])>
    requires small { length names.now.keys < 2 ^ 32 }
    ensures { IfSome result (λ x. IsAllocFront names.now.keys bytes.now x.0.worker x.0.cpu x.0.cache x.0.object x.1.now) }
{
    let past = past_alloc(bytes)?;
    let (worker, past_worker) = number_before(past, b' ')?;
    let (cpu, past_cpu) = number_before(past_worker, b' ')?;
    let (cache, past_cache) = name_before(names, past_cpu)?;
    let (object, rest) = number_before(past_cache, b'\n')?;
    let parts = AllocParts {
        worker,
        cpu,
        cache,
        object,
    };
    Some((parts, rest))
}

/// What a `free` line in front says, and what follows its line feed.
fn free_front(bytes: &[u8]) -> Option<(FreeParts, &[u8])>
    ensures { IfSome result (λ x. IsFreeFront bytes.now x.0.worker x.0.cpu x.0.object x.1.now) }
{
    let past = past_free(bytes)?;
    let (worker, past_worker) = number_before(past, b' ')?;
    let (cpu, past_cpu) = number_before(past_worker, b' ')?;
    let (object, rest) = number_before(past_cpu, b'\n')?;
    let parts = FreeParts {
        worker,
        cpu,
        object,
    };
    Some((parts, rest))
}

/// What a `write` line in front says, and what follows its line feed.
fn write_front(bytes: &[u8]) -> Option<(WriteParts, &[u8])>
    ensures { IfSome result (λ x. IsWriteFront bytes.now x.0.worker x.0.object x.0.word x.0.value x.1.now) }
{
    let past = past_write(bytes)?;
    let (worker, past_worker) = number_before(past, b' ')?;
    let (object, past_object) = number_before(past_worker, b' ')?;
    let (word, past_word) = number_before(past_object, b' ')?;
    let (value, rest) = number_before(past_word, b'\n')?;
    let parts = WriteParts {
        worker,
        object,
        word,
        value,
    };
    Some((parts, rest))
}

/// What a `read` line in front says, and what follows its line feed.
fn read_front(bytes: &[u8]) -> Option<(ReadParts, &[u8])>
    ensures { IfSome result (λ x. IsReadFront bytes.now x.0.worker x.0.object x.0.word x.1.now) }
{
    let past = past_read(bytes)?;
    let (worker, past_worker) = number_before(past, b' ')?;
    let (object, past_object) = number_before(past_worker, b' ')?;
    let (word, rest) = number_before(past_object, b'\n')?;
    let parts = ReadParts {
        worker,
        object,
        word,
    };
    Some((parts, rest))
}

impl State {
    /// Whether an event may have these numbers.
    fn is_quick(&self, worker: u64, cpu: u64, object: u64) -> bool
        ensures { IsTrue result ↔ ((worker < workers_in self.now.place) × (cpu < self.now.cpus) × IsObject object) }
    {
        worker < u64::from(self.place.workers())
            && cpu < u64::from(self.cpus)
            && 1 <= object
            && object <= u64::from(OBJECTS_MAX)
    }

    /// Takes the `alloc` line in front, where it may come next.
    fn take_alloc_front<'a>(&mut self, bytes: &'a [u8]) -> Result<Option<&'a [u8]>, AllocError>
        requires room { self.old.count < 2 ^ 28 }
        requires keeps { Keeps self.old }
        requires modest { IsModest (above self.old) }
        ensures same { IfOk result (λ rest. IfNone rest (self.new ≡ self.old)) }
        ensures taken { IfOk result (λ rest. IfSome rest (λ rest. TakesFront (above self.old) bytes.now rest.now (above self.new))) }
        ensures keeps { OnOk result (Keeps self.new) }
    {
        let Some((parts, rest)) = alloc_front(&self.names, bytes) else {
            return Ok(None);
        };
        if !self.is_quick(parts.worker, parts.cpu, parts.object) {
            return Ok(None);
        }
        let object = parts.object as u32;
        if self.objects.has(object) {
            return Ok(None);
        }
        self.put_alloc(parts.worker as u8, parts.cpu as u8, parts.cache, object)?;
        Ok(Some(rest))
    }

    /// Takes the `free` line in front, where it may come next.
    fn take_free_front<'a>(&mut self, bytes: &'a [u8]) -> Result<Option<&'a [u8]>, AllocError>
        requires room { self.old.count < 2 ^ 28 }
        requires keeps { Keeps self.old }
        requires modest { IsModest (above self.old) }
        ensures same { IfOk result (λ rest. IfNone rest (self.new ≡ self.old)) }
        ensures taken { IfOk result (λ rest. IfSome rest (λ rest. TakesFront (above self.old) bytes.now rest.now (above self.new))) }
        ensures keeps { OnOk result (Keeps self.new) }
    {
        let Some((parts, rest)) = free_front(bytes) else {
            return Ok(None);
        };
        if !self.is_quick(parts.worker, parts.cpu, parts.object) {
            return Ok(None);
        }
        let object = parts.object as u32;
        if !self.objects.has(object) {
            return Ok(None);
        }
        self.push_event(parts.worker as u8, parts.cpu as u8, Act::Free { object })?;
        Ok(Some(rest))
    }

    /// Whether a write or a read may have these numbers.
    fn is_quick_word(&self, worker: u64, object: u64, word: u64) -> bool
        ensures { IsTrue result ↔ ((worker < workers_in self.now.place) × IsObject object × (word ≤ 4095)) }
    {
        worker < u64::from(self.place.workers())
            && 1 <= object
            && object <= u64::from(OBJECTS_MAX)
            && word <= u64::from(WORD_MAX)
    }

    /// Takes the `write` line in front, where it may come next.
    fn take_write_front<'a>(&mut self, bytes: &'a [u8]) -> Result<Option<&'a [u8]>, AllocError>
        requires room { self.old.count < 2 ^ 28 }
        requires keeps { Keeps self.old }
        requires modest { IsModest (above self.old) }
        ensures same { IfOk result (λ rest. IfNone rest (self.new ≡ self.old)) }
        ensures taken { IfOk result (λ rest. IfSome rest (λ rest. TakesFront (above self.old) bytes.now rest.now (above self.new))) }
        ensures keeps { OnOk result (Keeps self.new) }
    {
        let Some((parts, rest)) = write_front(bytes) else {
            return Ok(None);
        };
        if !self.is_quick_word(parts.worker, parts.object, parts.word) {
            return Ok(None);
        }
        let object = parts.object as u32;
        if !self.objects.has(object) {
            return Ok(None);
        }
        self.take_write(parts.worker as u8, object, parts.word as u16, parts.value)?;
        Ok(Some(rest))
    }

    /// Takes the `read` line in front, where it may come next.
    fn take_read_front<'a>(&mut self, bytes: &'a [u8]) -> Result<Option<&'a [u8]>, AllocError>
        requires room { self.old.count < 2 ^ 28 }
        requires keeps { Keeps self.old }
        requires modest { IsModest (above self.old) }
        ensures same { IfOk result (λ rest. IfNone rest (self.new ≡ self.old)) }
        ensures taken { IfOk result (λ rest. IfSome rest (λ rest. TakesFront (above self.old) bytes.now rest.now (above self.new))) }
        ensures keeps { OnOk result (Keeps self.new) }
    {
        let Some((parts, rest)) = read_front(bytes) else {
            return Ok(None);
        };
        if !self.is_quick_word(parts.worker, parts.object, parts.word) {
            return Ok(None);
        }
        let (object, word) = (parts.object as u32, parts.word as u16);
        if !self.objects.has(object) {
            return Ok(None);
        }
        if !self.was_written(parts.worker as u8, object, word) {
            return Ok(None);
        }
        self.push_event(parts.worker as u8, 0, Act::Read { word, object })?;
        Ok(Some(rest))
    }

    /// Takes the line in front and answers what follows it, where it is an `alloc`, a `free`, a
    /// `write` or a `read` line that may come next.
    pub(crate) fn take_front<'a>(&mut self, bytes: &'a [u8]) -> Result<Option<&'a [u8]>, AllocError>
        requires room { self.old.count < 2 ^ 28 }
        requires keeps { Keeps self.old }
        requires modest { IsModest (above self.old) }
        ensures same { IfOk result (λ rest. IfNone rest (self.new ≡ self.old)) }
        ensures taken { IfOk result (λ rest. IfSome rest (λ rest. TakesFront (above self.old) bytes.now rest.now (above self.new))) }
        ensures keeps { OnOk result (Keeps self.new) }
    {
        match bytes {
            [b'a', ..] => self.take_alloc_front(bytes),
            [b'f', ..] => self.take_free_front(bytes),
            [b'w', ..] => self.take_write_front(bytes),
            [b'r', ..] => self.take_read_front(bytes),
            _ => Ok(None),
        }
    }
}
