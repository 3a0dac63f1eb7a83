//! A machine on plain lists opens into words and lock values.

ghost use Rattle.std.specs.Prelude.{◌≡◌, ◌+◌, ◌≤◌, [], length, replicate, vec_capacity, false, IfOk, IfErr};
ghost use Rattle.slub_lists.specs.Coherent.{IsCoherent, IsConsistent};
ghost use Rattle.slub_list_machine.specs.Parts.{state_of};
ghost use Rattle.slub_open_close.specs.Beside.{IsBesideOf};
ghost use Rattle.slub_open_close.specs.Classes.{front_words};
ghost use Rattle.slub_open_close.specs.Opened.{IsOpened, IsRoomFor};
ghost use Rattle.slub_open_close.specs.Rest.{IsUntouched};

use crate::beside::Beside;
use crate::opened::{KeptNode, Opened, Unopened};
use crate::{classes, facts, laying, values};
use slub_common::limits::CACHES_MAX;
use slub_common::no_memory::NoMemory;
use slub_core::guarded::Guarded;
use slub_core::setup::Setup;
use slub_list_machine::lists::Lists;
use slub_list_machine::parts::Parts;
use slub_schedule::table::Table;
use std::alloc::Global;

/// The memory that opening takes.
#[derive(Debug, Drop)]
struct Room {
    setup: Setup,
    /// For the words before the memory.
    words: Vec<u64>,
    /// For those behind it.
    links: Vec<u64>,
    /// A mark for each frame.
    marks: Vec<bool>,
    values: Vec<Guarded>,
    kept: Vec<KeptNode>,
}

/// Opens a machine between two rounds, which stands on plain lists, into the words and lock values on which a round
/// runs. Where no memory is found, the machine is given back as it was.
pub fn open(alloc: Global, lists: Lists, beside: Beside) -> Result<Opened, Unopened>
    requires coherent { IsCoherent lists }
    requires beside { IsBesideOf lists beside }
    ensures opened { IfOk result (IsOpened lists beside) }
    ensures still { IfOk result (λ o. IsUntouched lists o.rest) }
    ensures unopened { IfErr result (λ u. (u.lists ≡ lists) × (u.beside ≡ beside)) }
{
    let parts = lists.into_parts();
    match take_room(alloc, &parts, beside.step) {
        Ok(room) => Ok(opened(parts, beside, room)),
        Err(NoMemory) => Err(Unopened {
            lists: Lists::from_parts(parts),
            beside,
        }),
    }
}

/// Takes the memory, and notes what stays while the round runs.
fn take_room(alloc: Global, parts: &Parts, step: u32) -> Result<Room, NoMemory>
    requires consistent { IsConsistent (state_of parts.now) }
    requires step { step ≤ 16 }
    requires objects { length parts.now.board.items ≤ 1048577 }
    ensures { IfOk result (IsRoomFor (state_of parts.now) step) }
{
    let frames = parts.frames as usize;
    let setup = facts::setup_of(alloc, parts, step)?;
    let words = Vec::with_capacity(alloc, 1056 + frames + parts.board.len())?;
    let links = Vec::with_capacity(alloc, frames)?;
    let marks = vec![in alloc; false; frames]?;
    let values = Vec::with_capacity(alloc, CACHES_MAX + 1)?;
    let kept = Vec::with_capacity(alloc, CACHES_MAX)?;
    Ok(Room {
        setup,
        words,
        links,
        marks,
        values,
        kept,
    })
}

/// Opens the machine, for which there is room.
fn opened(mut parts: Parts, mut beside: Beside, room: Room) -> Opened
    requires consistent { IsConsistent (state_of parts) }
    requires beside { IsBesideOf (state_of parts) beside }
    requires room { IsRoomFor (state_of parts) beside.step room }
    ensures opened { IsOpened (state_of parts) beside result }
    ensures still { IsUntouched (state_of parts) result.rest }
{
    let Room {
        setup,
        mut words,
        mut links,
        marks,
        values,
        kept,
    } = room;
    push_front(&parts, &beside.tids, marks, &mut words);
    laying::lay_all(&setup, &mut parts, &mut beside.links);
    classes::push_links(&beside.links, &mut links);
    let (values, memory, rest) = values::moved(parts, beside, values, kept);
    let table = Table::open(rest.frames, rest.board.len() as u32, words, memory, links);
    Opened {
        setup,
        table,
        values,
        rest,
    }
}

/// The words that stand before the memory.
fn push_front(parts: &Parts, tids: &[u32], marks: Vec<bool>, words: &mut Vec<u64>)
    requires consistent { IsConsistent (state_of parts.now) }
    requires objects { 1 ≤ length parts.now.board.items }
    requires tids { length tids.now ≡ 512 }
    requires marks { marks.items ≡ replicate parts.now.frames false }
    requires empty { words.old.items ≡ [] }
    requires room { 1056 + parts.now.frames + length parts.now.board.items ≤ vec_capacity words.old }
    ensures words { words.new.items ≡ front_words (state_of parts.now) tids.now }
    ensures capacity { vec_capacity words.new ≡ vec_capacity words.old }
{
    classes::push_locks(words);
    classes::push_lists(parts, words);
    classes::push_cpus(parts, tids, words);
    classes::push_slabs(parts, marks, words);
    classes::push_board(parts, words);
}
