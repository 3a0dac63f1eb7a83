//! Lists of picks, and reading one.

ghost use Rattle.std.specs.Prelude.{◌≡◌, ℕ, List, MatchOption, IfOk, IsErrOf};
ghost use Rattle.slub_picks.specs.declared.list.Entry.{Entry};
ghost use Rattle.slub_picks.specs.declared.list.Part.{Part};
ghost use Rattle.slub_picks.specs.declared.list.PickList.{PickList};
ghost use Rattle.slub_picks.specs.declared.list.Reach.{Reach};
ghost use Rattle.slub_picks.specs.List.{IsEntry, IsPart, IsPickList, IsReach, Say, texts_of};
ghost use Rattle.slub_picks.specs.Spelling.{IsNumber};

use crate::numbers::number_within;
use crate::splitting::split;
use crate::unread::Unread;
use slub_common::sequence::Sequence;
use std::alloc::Global;

/// How far an entry goes.
#[derive(Clone, Copy, Debug, PartialEq, Eq)]
pub enum Reach {
    /// So many turns, at least one.
    Turns(u32),
    /// Until the event that the worker is in is at its end, or an exchange of a lock is lost.
    Event,
    /// Until the worker has no event left, or an exchange of a lock is lost.
    End,
}

/// Turns of one worker.
#[derive(Clone, Copy, Debug, PartialEq, Eq)]
pub struct Entry {
    /// The worker, 0 to 15.
    pub worker: u8,
    pub reach: Reach,
}

/// The turns of a round.
#[derive(Debug, Drop)]
pub struct Part {
    pub entries: Sequence<Entry>,
}

/// A part for each round of two or more workers, in their order.
#[derive(Debug, Drop)]
pub struct PickList {
    /// The list as it was written.
    pub text: Sequence<u8>,
    pub parts: Sequence<Part>,
}

/// How far a text behind `:` says that an entry goes.
fn read_reach(text: &[u8]) -> Option<Reach>
    ensures { MatchOption result ((reach : Reach) → ¬ IsReach text.now reach) (IsReach text.now) }
{
    match text {
        b"event" => Some(Reach::Event),
        b"end" => Some(Reach::End),
        _ => match number_within(text, 1, 4294967295) {
            Some(n) => Some(Reach::Turns(n as u32)),
            None => None,
        },
    }
}

/// The worker that a text names.
fn read_worker(text: &[u8]) -> Option<u8>
    ensures { MatchOption result ((n : ℕ) → ¬ IsNumber 0 15 text.now n) (IsNumber 0 15 text.now) }
{
    match number_within(text, 0, 15) {
        Some(n) => Some(n as u8),
        None => None,
    }
}

/// The entry that a text says.
fn read_entry(text: &[u8]) -> Option<Entry>
    ensures { MatchOption result ((entry : Entry) → ¬ IsEntry text.now entry) (IsEntry text.now) }
{
    let Some((front, behind)) = split(text, b':') else {
        let worker = read_worker(text)?;
        return Some(Entry {
            worker,
            reach: Reach::Turns(1),
        });
    };
    let worker = read_worker(front)?;
    let reach = read_reach(behind)?;
    Some(Entry { worker, reach })
}

/// The entries that commas part.
fn read_entries(alloc: Global, text: &[u8]) -> Result<Vec<Entry>, Unread>
    ensures said { IfOk result (λ entries. Say IsEntry (texts_of 44 text.now) entries.items) }
    ensures none { IsErrOf result Unread.BadWords
        → (entries : List Entry) → ¬ Say IsEntry (texts_of 44 text.now) entries }
{
    let mut entries = Vec::new(alloc);
    let mut rest = text;
    'entries: while let Some((front, behind)) = split(rest, b',') {
        let Some(entry) = read_entry(front) else {
            return Err(Unread::BadWords);
        };
        entries.push(entry)?;
        rest = behind;
    }
    let Some(entry) = read_entry(rest) else {
        return Err(Unread::BadWords);
    };
    entries.push(entry)?;
    Ok(entries)
}

/// The part that a text says.
fn read_part(alloc: Global, text: &[u8]) -> Result<Part, Unread>
    ensures said { IfOk result (IsPart text.now) }
    ensures none { IsErrOf result Unread.BadWords → (part : Part) → ¬ IsPart text.now part }
{
    if text.is_empty() {
        return Ok(Part {
            entries: Sequence::new(alloc),
        });
    }
    let entries = read_entries(alloc, text)?;
    Ok(Part {
        entries: Sequence::from_vec(entries),
    })
}

/// The parts that slashes part.
fn read_parts(alloc: Global, text: &[u8]) -> Result<Vec<Part>, Unread>
    ensures said { IfOk result (λ parts. Say IsPart (texts_of 47 text.now) parts.items) }
    ensures none { IsErrOf result Unread.BadWords
        → (parts : List Part) → ¬ Say IsPart (texts_of 47 text.now) parts }
{
    let mut parts = Vec::new(alloc);
    let mut rest = text;
    'parts: while let Some((front, behind)) = split(rest, b'/') {
        let part = read_part(alloc, front)?;
        parts.push(part)?;
        rest = behind;
    }
    let part = read_part(alloc, rest)?;
    parts.push(part)?;
    Ok(parts)
}

/// The list that a text says.
///
/// `BadWords` comes exactly where the text says none. Memory may be refused.
pub fn read_list(alloc: Global, text: &[u8]) -> Result<PickList, Unread>
    ensures said { IfOk result (IsPickList text.now) }
    ensures none { IsErrOf result Unread.BadWords → (list : PickList) → ¬ IsPickList text.now list }
{
    if text.is_empty() {
        return Err(Unread::BadWords);
    }
    let parts = read_parts(alloc, text)?;
    let mut written = Vec::new(alloc);
    written.extend_from_slice(text)?;
    Ok(PickList {
        text: Sequence::from_vec(written),
        parts: Sequence::from_vec(parts),
    })
}
