//! The words of the machine, on which steps are applied.

ghost use Rattle.std.specs.Prelude.{◌≡◌, ℕ, ◌+◌, ◌*◌, ◌<◌, ◌++◌, length, slice_set, slice_index_or, IfOk};
ghost use Rattle.slub_core.specs.Setup.{Setup};
ghost use Rattle.slub_core.specs.Words.{number_of, after_op, answer_of};
ghost use Rattle.slub_schedule.specs.Table.{WordTable, IsTableOf};

use slub_common::no_memory::NoMemory;
use slub_core::step::{Answer, Op, Place, Step};
use slub_words::memory::Memory;
use slub_words::words::{Words, put_words};
use std::alloc::Global;
use std::marker::Model;

/// The table of words of a machine. Contracts see it as a `WordTable`.
///
/// The words of the frames come from the lists of the machine and go back there, and are not copied.
#[derive(Debug, Drop)]
pub struct Table {
    /// Frame 0 counts.
    frames: u32,
    /// Object numbers are below this one; 0 is none.
    objects: u32,
    /// The words before those of the frames.
    front: Vec<u64>,
    /// Those of the frames.
    memory: Memory,
    /// Those behind them: the links.
    links: Vec<u64>,
}

impl Model for Table {
    ghost use Rattle.std.specs.Prelude.{◌≡◌, ◌+◌, ◌*◌, ◌++◌, length};
    ghost use Rattle.slub_schedule.specs.Table.{WordTable};

    ghost Value = { WordTable };

    ghost view = { λ t. record { frames = t.frames; objects = t.objects; words = (t.front.items ++ t.memory) ++ t.links.items } };

    ghost invariant = { λ t. (length t.front.items ≡ 1056 + t.frames + t.objects) × (length t.memory ≡ 512 * t.frames) × (length t.links.items ≡ t.frames) };
}

impl Table {
    /// The table of these words: those before the frames, those of the frames, and the links, as many as a machine of
    /// these sizes has.
    pub fn open(
        frames: u32,
        objects: u32,
        front: Vec<u64>,
        memory: Memory,
        links: Vec<u64>,
    ) -> Table
        requires front { length front.items ≡ 1056 + frames + objects }
        requires memory { length memory ≡ 512 * frames }
        requires links { length links.items ≡ frames }
        ensures { result ≡ record { frames = frames; objects = objects; words = (front.items ++ memory) ++ links.items } }
    {
        Table {
            frames,
            objects,
            front,
            memory,
            links,
        }
    }

    /// How many words there are.
    pub fn len(&self) -> usize
        ensures words { result ≡ length self.now.words }
        ensures count { length self.now.words ≡ 1056 + 514 * self.now.frames + self.now.objects }
    {
        link_base(self.frames, self.objects) + self.frames as usize
    }

    /// The word of this number; 0 outside of the table.
    #[inline(always)]
    pub fn word(&self, number: usize) -> u64
        ensures { result ≡ slice_index_or self.now.words number 0 }
    {
        let memory = memory_base(self.frames, self.objects);
        let links = link_base(self.frames, self.objects);
        if number < memory {
            self.front[number]
        } else if number < links {
            self.memory.read(number - memory)
        } else {
            self.links.get(number - links).copied().unwrap_or(0)
        }
    }

    /// Stores the word of this number. Outside of the table nothing is stored.
    #[inline(always)]
    fn store(&mut self, number: usize, word: u64)
        ensures { self.new ≡ record self.old { words = slice_set self.old.words number word } }
    {
        let memory = memory_base(self.frames, self.objects);
        let links = link_base(self.frames, self.objects);
        if number < memory {
            self.front[number] = word;
        } else if number < links {
            self.memory.write(number - memory, word);
        } else if number - links < self.frames as usize {
            self.links[number - links] = word;
        }
    }

    /// The words of the frames.
    pub fn memory(&self) -> &Memory
        ensures count { length result.now ≡ 512 * self.now.frames }
        ensures words { (at : ℕ) → at < 512 * self.now.frames → slice_index_or result.now at 0 ≡ slice_index_or self.now.words (1056 + self.now.frames + self.now.objects + at) 0 }
    {
        &self.memory
    }

    /// The words of the frames alone. It takes no memory, and copies nothing.
    pub fn into_memory(self) -> Memory
        ensures count { length result ≡ 512 * self.frames }
        ensures words { (at : ℕ) → at < 512 * self.frames → slice_index_or result at 0 ≡ slice_index_or self.words (1056 + self.frames + self.objects + at) 0 }
    {
        self.memory
    }

    /// Lends a row of all words, in the order of their numbers. It takes memory only where the row that came back last
    /// is too short.
    pub fn lend_row(&mut self, alloc: Global) -> Result<Vec<u64>, NoMemory>
        ensures table { self.new ≡ self.old }
        ensures row { IfOk result (λ row. row.items ≡ self.old.words) }
    {
        self.memory.lend_row(alloc, &self.front, &self.links)
    }

    /// Takes back a row that has the table's words, in the order of their numbers, to lend it the next time.
    pub fn keep_row(&mut self, row: Vec<u64>)
        requires { row.items ≡ self.old.words }
        ensures { self.new ≡ self.old }
    {
        self.memory.keep_row(row, &self.front, &self.links);
    }

    /// Stores all words, in the order of their numbers. It takes no memory.
    pub fn fill<W: Words>(&mut self, words: &W)
        requires { length (W.all words.now) ≡ length self.old.words }
        ensures { self.new ≡ record self.old { words = W.all words.now } }
    {
        let memory = memory_base(self.frames, self.objects);
        let links = link_base(self.frames, self.objects);
        let end = links + self.frames as usize;
        self.front.clear();
        put_words(&mut self.front, words, 0, memory);
        self.memory.fill(words, memory, links);
        self.links.clear();
        put_words(&mut self.links, words, links, end);
    }

    /// One step on its word; a load stores nothing. Outside of the table a word is 0, and stays so.
    #[inline(always)]
    pub fn apply(&mut self, step: Step) -> Answer
        ensures frames { self.new.frames ≡ self.old.frames }
        ensures objects { self.new.objects ≡ self.old.objects }
        ensures words { (m : Setup) → IsTableOf m self.old → self.new.words ≡ slice_set self.old.words (number_of m step.place) (after_op step.op (slice_index_or self.old.words (number_of m step.place) 0)) }
        ensures answer { (m : Setup) → IsTableOf m self.old → result ≡ answer_of step.op (slice_index_or self.old.words (number_of m step.place) 0) }
    {
        let number = number(self.frames, self.objects, step.place);
        let word = self.word(number);
        if !matches!(step.op, Op::Load) {
            self.store(number, after(step.op, word));
        }
        answer(step.op, word)
    }
}

/// The number of the first word of the frames.
#[inline(always)]
fn memory_base(frames: u32, objects: u32) -> usize
    ensures { result ≡ 1056 + frames + objects }
{
    1056 + frames as usize + objects as usize
}

/// The number of the first link.
#[inline(always)]
fn link_base(frames: u32, objects: u32) -> usize
    ensures { result ≡ 1056 + 513 * frames + objects }
{
    1056 + 513 * frames as usize + objects as usize
}

/// The number of a word in the table of a machine with so many frames and object numbers.
#[inline(always)]
pub fn number(frames: u32, objects: u32, place: Place) -> usize
    ensures { (m : Setup) → m.frames ≡ frames → m.objects ≡ objects → result ≡ number_of m place }
{
    match place {
        Place::LockOf(lock) => lock as usize,
        Place::ListOf(number) => 33 + number as usize,
        Place::CpuOf(number) => 545 + number as usize,
        Place::SlabOf(frame) => 1057 + frame as usize,
        Place::BoardOf(object) => 1056 + frames as usize + object as usize,
        Place::MemoryOf(word) => memory_base(frames, objects) + word as usize,
        Place::LinkOf(frame) => link_base(frames, objects) + frame as usize,
    }
}

/// What a step leaves in its word.
#[inline(always)]
fn after(op: Op, word: u64) -> u64
    ensures { result ≡ after_op op word }
{
    match op {
        Op::Load => word,
        Op::Store(value) => value,
        Op::Swap(value) => value,
        Op::Exchange { from, to } if word == from => to,
        Op::Exchange { .. } => word,
    }
}

/// What a step answers that finds this word.
#[inline(always)]
pub fn answer(op: Op, word: u64) -> Answer
    ensures { result ≡ answer_of op word }
{
    match op {
        Op::Load => Answer::Word(word),
        Op::Store(_) => Answer::Done,
        Op::Swap(_) => Answer::Word(word),
        Op::Exchange { from, .. } if word == from => Answer::Won,
        Op::Exchange { .. } => Answer::Lost(word),
    }
}
