//! The words of a machine, class by class, in their order.

ghost use Rattle.std.specs.Prelude.{◌≡◌, ◌+◌, ◌-◌, ◌^◌, ◌<◌, ◌≤◌, ◌++◌, ◌||◌, [], ℕ, length, nat_lt, replicate, slice_index_or, sum_by, vec_capacity, false, IfSome};
ghost use Rattle.std.specs.Option.{option_map};
ghost use Rattle.slub_common.specs.Times.{times};
ghost use Rattle.slub_words.specs.Words.{slab_bits};
ghost use Rattle.slub_lists.specs.Coherent.{IsConsistent};
ghost use Rattle.slub_list_machine.specs.Parts.{state_of};
ghost use Rattle.slub_law_opening.specs.Opening.{cpu_at, head_of, front_of, board_word};
ghost use Rattle.slub_law_opening.specs.Table.{board_number};
ghost use Rattle.slub_open_close.specs.Classes.{lock_words, list_number, list_words, cpu_number, cpu_words, slab_number, slab_words, board_words};

use crate::facts::is_checked;
use crate::laying::{frame_of, lists_at};
use slub_core::words::list_bits;
use slub_list_machine::node::Node;
use slub_list_machine::own_lists::OwnLists;
use slub_list_machine::parts::Parts;
use slub_lists::lists::{FrameList, FreeList, Held, Slab};
use slub_words::board::BoardWord;
use slub_words::cpu::CpuWord;
use slub_words::slab::SlabWord;

/// The words of the locks, none of which is taken.
pub fn push_locks(words: &mut Vec<u64>)
    requires room { length words.old.items + 33 ≤ vec_capacity words.old }
    ensures words { words.new.items ≡ words.old.items ++ lock_words }
    ensures capacity { vec_capacity words.new ≡ vec_capacity words.old }
{
    for _ in 0..33usize {
        words.push_reserved(0);
    }
}

/// The words of the CPUs' partial lists.
pub fn push_lists(parts: &Parts, words: &mut Vec<u64>)
    requires cpus { parts.now.cpus ≤ 16 }
    requires room { length words.old.items + 512 ≤ vec_capacity words.old }
    ensures words { words.new.items ≡ words.old.items ++ list_words (state_of parts.now) }
    ensures capacity { vec_capacity words.new ≡ vec_capacity words.old }
{
    for number in 0..512 {
        words.push_reserved(list_number(parts, number));
    }
}

/// The word of a CPU's partial list.
fn list_number(parts: &Parts, number: usize) -> u64
    requires cpus { parts.now.cpus ≤ 16 }
    requires number { number < 512 }
    ensures { result ≡ list_number (state_of parts.now) number }
{
    match lists_at(parts.cpus, &parts.cpu_lists, number) {
        Some(lists) => list_bits(front_of(&lists.partial), lists.partial.len() as u32),
        None => 0,
    }
}

/// The first slab of a partial list; 0 for none.
fn front_of(frames: &FrameList) -> u16
    ensures { result ≡ front_of frames.now }
{
    match frames.get(0) {
        Some(frame) => frame,
        None => 0,
    }
}

/// The words of the CPUs.
pub fn push_cpus(parts: &Parts, tids: &[u32], words: &mut Vec<u64>)
    requires consistent { IsConsistent (state_of parts.now) }
    requires tids { length tids.now ≡ 512 }
    requires room { length words.old.items + 512 ≤ vec_capacity words.old }
    ensures words { words.new.items ≡ words.old.items ++ cpu_words (state_of parts.now) tids.now }
    ensures capacity { vec_capacity words.new ≡ vec_capacity words.old }
{
    for number in 0..512 {
        words.push_reserved(cpu_number(parts, number, tids[number]));
    }
}

/// The word of a CPU with this transaction id.
fn cpu_number(parts: &Parts, number: usize, tid: u32) -> u64
    requires consistent { IsConsistent (state_of parts.now) }
    requires number { number < 512 }
    ensures { result ≡ cpu_number tid (cpu_at (state_of parts.now) number) }
{
    match lists_at(parts.cpus, &parts.cpu_lists, number) {
        Some(lists) => {
            let word = CpuWord {
                tid,
                frame: frame_of(lists.current),
                head: head_of(&lists.free),
            };
            word.pack()
        }
        None => {
            let word = CpuWord {
                tid,
                frame: 0,
                head: 0,
            };
            word.pack()
        }
    }
}

/// The head of a freelist: the index plus one of its first object, 0 for none.
fn head_of(free: &FreeList) -> u16
    requires { head_of free.now < 2 ^ 16 }
    ensures { result ≡ head_of free.now }
{
    match free.get(0) {
        Some(index) => index + 1,
        None => 0,
    }
}

/// The head of a slab's own freelist.
fn own_head(frees: &OwnLists, frame: u16) -> u16
    requires { head_of (slice_index_or frees.now frame []) < 2 ^ 16 }
    ensures { result ≡ head_of (slice_index_or frees.now frame []) }
{
    match frees.get(frame, 0) {
        Some(index) => index + 1,
        None => 0,
    }
}

/// Marks the slabs that are on a node's list.
fn mark_nodes(nodes: &[Node], marks: &mut [bool])
    ensures { (frame : ℕ) → frame < length marks.old → slice_index_or marks.old frame false ≡ false → slice_index_or marks.new frame false ≡ nat_lt 0 (sum_by (times frame) nodes.now) }
{
    for node in nodes {
        mark_all(node.frames(), marks);
    }
}

/// Marks these slabs.
fn mark_all(frames: &[u16], marks: &mut [bool])
    ensures { (frame : ℕ) → frame < length marks.old → slice_index_or marks.new frame false ≡ slice_index_or marks.old frame false || nat_lt 0 (times frame frames.now) }
{
    for frame in frames {
        let at = usize::from(*frame);
        if at < marks.len() {
            marks[at] = true;
        }
    }
}

/// The words of the slabs. `marks` has room for a mark for each frame.
pub fn push_slabs(parts: &Parts, mut marks: Vec<bool>, words: &mut Vec<u64>)
    requires consistent { IsConsistent (state_of parts.now) }
    requires marks { marks.items ≡ replicate parts.now.frames false }
    requires room { length words.old.items + parts.now.frames ≤ vec_capacity words.old }
    ensures words { words.new.items ≡ words.old.items ++ slab_words (state_of parts.now) }
    ensures capacity { vec_capacity words.new ≡ vec_capacity words.old }
{
    mark_nodes(&parts.nodes, &mut marks);
    for frame in 0..parts.frames as usize {
        words.push_reserved(slab_number(parts, frame, marks[frame]));
    }
}

/// The word of the slab that begins at a frame: 0 where none does, or one of a checked cache.
fn slab_number(parts: &Parts, frame: usize, listed: bool) -> u64
    requires consistent { IsConsistent (state_of parts.now) }
    requires frame { frame < parts.now.frames }
    requires listed { listed ≡ nat_lt 0 (sum_by (times frame) parts.now.nodes.items) }
    ensures { result ≡ slab_number (state_of parts.now) frame }
{
    match parts.slabs[frame] {
        Some(slab) if !is_checked(parts, slab.cache) => {
            plain_number(&slab, &parts.frees, frame as u16, listed)
        }
        _ => 0,
    }
}

/// The word of an unchecked slab.
fn plain_number(slab: &Slab, frees: &OwnLists, frame: u16, listed: bool) -> u64
    requires head { head_of (slice_index_or frees.now frame []) < 2 ^ 16 }
    requires objects { slab.now.objects < 2 ^ 16 }
    ensures { result ≡ slab_bits (record { head = head_of (slice_index_or frees.now frame []); inuse = slab.now.objects - length (slice_index_or frees.now frame []); objects = slab.now.objects; frozen = slab.now.frozen; listed = listed; cache = slab.now.cache }) }
{
    let objects = slab.objects as u16;
    let word = SlabWord {
        head: own_head(frees, frame),
        inuse: objects.saturating_sub(frees.len_of(frame) as u16),
        objects,
        frozen: slab.frozen,
        listed,
        cache: slab.cache,
    };
    word.pack()
}

/// The words of the object numbers, from 1 on.
pub fn push_board(parts: &Parts, words: &mut Vec<u64>)
    requires consistent { IsConsistent (state_of parts.now) }
    requires objects { 1 ≤ length parts.now.board.items }
    requires room { length words.old.items + (length parts.now.board.items - 1) ≤ vec_capacity words.old }
    ensures words { words.new.items ≡ words.old.items ++ board_words (state_of parts.now) }
    ensures capacity { vec_capacity words.new ≡ vec_capacity words.old }
{
    for object in 1..parts.board.len() {
        words.push_reserved(object_number(&parts.board[object]));
    }
}

/// The word of an object number: 0 where it is not on the board.
fn object_number(held: &Option<Held>) -> u64
    requires { IfSome held.now (λ held. held.index < 65535) }
    ensures { result ≡ board_number (option_map board_word held.now) }
{
    match held {
        Some(held) => {
            let word = BoardWord {
                frame: held.frame,
                index: held.index,
                cache: held.cache,
            };
            word.pack()
        }
        None => 0,
    }
}

/// The words of the links.
pub fn push_links(links: &[u16], words: &mut Vec<u64>)
    requires room { length words.old.items + length links.now ≤ vec_capacity words.old }
    ensures words { words.new.items ≡ words.old.items ++ links.now }
    ensures capacity { vec_capacity words.new ≡ vec_capacity words.old }
{
    for link in links {
        words.push_reserved(u64::from(*link));
    }
}
