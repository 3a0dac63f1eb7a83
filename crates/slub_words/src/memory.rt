//! The words of the page frames, as the holders of objects wrote them.

ghost use Rattle.std.specs.Prelude.{◌≡◌, ℕ, ◌+◌, ◌-◌, ◌<◌, ◌≤◌, ◌++◌, [], length, replicate, take, drop, slice_index_or, slice_set, vec_capacity, IfOk};
ghost use Rattle.std.specs.List.{slice_range};
ghost use Rattle.slub_words.specs.Stored.{AreStored};

use crate::words::{Words, put_words, reach_of};
use slub_common::no_memory::NoMemory;
use std::alloc::Global;
use std::marker::Model;
use std::mem::replace;

/// The words of the page frames. All are 0 at first.
///
/// The room for all is taken when it is made: no call that writes words takes memory. The words behind the last one
/// that was written are not stored yet, so a machine touches the room only as far as its slabs reach.
#[derive(Debug, Drop)]
pub struct Memory {
    /// The words up to the last one that was written.
    words: Vec<u64>,
    /// How many words there are.
    count: usize,
    /// The row that was lent last and came back, all 0 again; empty before that, and while it is lent.
    row: Vec<u64>,
}

impl Model for Memory {
    ghost use Rattle.std.specs.Prelude.{◌≡◌, ℕ, ◌-◌, ◌≤◌, ◌++◌, List, length, replicate, vec_capacity};

    ghost Value = { List ℕ };

    ghost view = { λ m. m.words.items ++ replicate (m.count - length m.words.items) 0 };

    ghost invariant = { λ m. (length m.words.items ≤ m.count) × (m.count ≤ vec_capacity m.words) × (m.row.items ≡ replicate (length m.row.items) 0) };
}

impl Memory {
    /// So many words that are 0.
    pub fn open(alloc: Global, count: usize) -> Result<Memory, NoMemory>
        ensures { IfOk result (λ memory. memory ≡ replicate count 0) }
    {
        Ok(Memory {
            words: Vec::with_capacity(alloc, count)?,
            count,
            row: Vec::new(alloc),
        })
    }

    /// Copies of the words up to the last one that was written. It takes memory for as many.
    pub fn stored(&self, alloc: Global) -> Result<Vec<u64>, NoMemory>
        ensures { IfOk result (λ stored. AreStored stored.items self.now) }
    {
        let mut stored = Vec::with_capacity(alloc, self.words.len())?;
        put_behind(&mut stored, &self.words);
        Ok(stored)
    }

    /// Writes these words, and 0 in all words behind them.
    pub fn restore(&mut self, stored: &[u64])
        requires { length stored.now ≤ length self.old }
        ensures stored { AreStored stored.now self.new }
        ensures count { length self.new ≡ length self.old }
    {
        self.words.clear();
        put_behind(&mut self.words, stored);
    }

    /// The word at a place; 0 behind the last one.
    #[inline(always)]
    pub fn read(&self, at: usize) -> u64
        ensures { result ≡ slice_index_or self.now at 0 }
    {
        self.words.get(at).copied().unwrap_or(0)
    }

    /// Writes the word at a place.
    #[inline(always)]
    pub fn write(&mut self, at: usize, value: u64)
        requires { at < length self.old }
        ensures { self.new ≡ slice_set self.old at value }
    {
        if at < self.words.len() {
            self.words[at] = value;
        } else {
            write_behind(&mut self.words, at, value);
        }
    }

    /// Writes all words: those that stand at these places. Those behind the last one that isn't 0 are not stored.
    pub fn fill<W: Words>(&mut self, words: &W, from: usize, end: usize)
        requires { (end ≡ from + length self.old) × (end ≤ length (W.all words.now)) }
        ensures { self.new ≡ slice_range (W.all words.now) from end }
    {
        let reach = reach_of(words, from, end);
        self.words.clear();
        put_words(&mut self.words, words, from, reach);
    }

    /// Lends a row of these words, with all its own behind them, and with others behind its own. It takes memory only
    /// where the row that came back last is too short, and else writes these words, its own up to the last one that was
    /// written, and the others, and nothing between.
    pub fn lend_row(
        &mut self,
        alloc: Global,
        before: &[u64],
        behind: &[u64],
    ) -> Result<Vec<u64>, NoMemory>
        ensures memory { self.new ≡ self.old }
        ensures row { IfOk result (λ row. row.items ≡ (before.now ++ self.old) ++ behind.now) }
    {
        let last = before.len() + self.count;
        let mut row = take_zeros(&mut self.row, alloc, last + behind.len())?;
        lay_between(row.as_mut_slice(), before, &self.words, last, behind);
        Ok(row)
    }

    /// Takes back a row that has these words, all its own behind them, and the others behind its own, to lend it the
    /// next time. What may not be 0 there becomes 0.
    pub fn keep_row(&mut self, mut row: Vec<u64>, before: &[u64], behind: &[u64])
        requires { row.items ≡ (before.now ++ self.old) ++ behind.now }
        ensures { self.new ≡ self.old }
    {
        let memory = before.len();
        clear_around(
            row.as_mut_slice(),
            memory + self.words.len(),
            memory + self.count,
        );
        self.row = row;
    }
}

/// Takes these 0s away, as many as are asked for. It takes memory only where there is no room for so many.
fn take_zeros(zeros: &mut Vec<u64>, alloc: Global, count: usize) -> Result<Vec<u64>, NoMemory>
    requires { zeros.old.items ≡ replicate (length zeros.old.items) 0 }
    ensures left { zeros.new.items ≡ [] }
    ensures taken { IfOk result (λ taken. taken.items ≡ replicate count 0) }
{
    let mut taken = replace(zeros, Vec::new(alloc));
    taken.resize(count, 0)?;
    Ok(taken)
}

/// Lays words on a row of 0s: these at its begin, those behind them, and others at its end, from the place `last` on.
fn lay_between(row: &mut [u64], before: &[u64], words: &[u64], last: usize, behind: &[u64])
    requires zeros { row.old ≡ replicate (length row.old) 0 }
    requires places { (length before.now + length words.now ≤ last) × (length row.old ≡ last + length behind.now) }
    ensures row { row.new ≡ ((before.now ++ words.now) ++ replicate (last - (length before.now + length words.now)) 0) ++ behind.now }
    ensures len { length row.new ≡ length row.old }
{
    lay(row, 0, before);
    lay(row, before.len(), words);
    lay(row, last, behind);
}

/// Writes 0 in a row up to a place, and from another one on. Those between them are 0.
fn clear_around(row: &mut [u64], stored: usize, last: usize)
    requires places { (stored ≤ last) × (last ≤ length row.old) }
    requires zeros { slice_range row.old stored last ≡ replicate (last - stored) 0 }
    ensures { row.new ≡ replicate (length row.old) 0 }
{
    let end = row.len();
    clear(row, 0, stored);
    clear(row, last, end);
}

/// Writes these words from a place on.
fn lay(row: &mut [u64], at: usize, words: &[u64])
    requires { at + length words.now ≤ length row.old }
    ensures row { row.new ≡ (take at row.old ++ words.now) ++ drop (at + length words.now) row.old }
    ensures len { length row.new ≡ length row.old }
{
    row[at..at + words.len()].copy_from_slice(words);
}

/// Writes 0 from a place up to another one.
fn clear(row: &mut [u64], from: usize, end: usize)
    requires { (from ≤ end) × (end ≤ length row.old) }
    ensures { row.new ≡ (take from row.old ++ replicate (end - from) 0) ++ drop end row.old }
{
    row[from..end].fill(0);
}

/// Writes a word that isn't stored yet, and stores those before it.
#[cold]
#[inline(never)]
fn write_behind(words: &mut Vec<u64>, at: usize, value: u64)
    requires { at < vec_capacity words.old }
    ensures words { words.new.items ≡ slice_set (words.old.items ++ replicate (at + 1 - length words.old.items) 0) at value }
    ensures capacity { vec_capacity words.new ≡ vec_capacity words.old }
{
    store_up_to(words, at + 1, 0);
    words[at] = value;
}

/// Puts these words behind others, for which there is room.
fn put_behind(words: &mut Vec<u64>, more: &[u64])
    requires room { length words.old.items + length more.now ≤ vec_capacity words.old }
    ensures words { words.new.items ≡ words.old.items ++ more.now }
    ensures capacity { vec_capacity words.new ≡ vec_capacity words.old }
{
    for word in more {
        words.push_reserved(*word);
    }
}

/// Stores copies of a value behind these items, until there are at least so many.
pub fn store_up_to<T: Copy + Drop>(items: &mut Vec<T>, count: usize, value: T)
    requires room { count ≤ vec_capacity items.old }
    ensures stored { items.new.items ≡ items.old.items ++ replicate (count - length items.old.items) value }
    ensures capacity { vec_capacity items.new ≡ vec_capacity items.old }
{
    let more = count.saturating_sub(items.len());
    for _ in 0..more {
        items.push_reserved(value);
    }
}
