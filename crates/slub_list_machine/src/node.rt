//! `struct kmem_cache_node` (`n->partial`; `add_partial`, `remove_partial`): a node's partial list
//! as the plain list of its frames.

ghost use Rattle.std.specs.Prelude.{◌≡◌, ◌<◌, ◌≤◌, ◌++◌, ◌==◌, [], ◌∷◌, length, map, filter, not, nat_lt, slice_index_or, vec_capacity, IfOk, MatchOption};
ghost use Rattle.slub_common.specs.Times.{times};
ghost use Rattle.slub_node_partial.specs.Promotion.{IsPromoted};

use crate::own_lists::OwnLists;
use slub_common::limits::SLABS_MAX;
use slub_common::no_memory::NoMemory;
use slub_node_partial::NodeList;
use std::alloc::Global;
use std::marker::Model;

/// The node's partial list of a cache (`struct kmem_cache_node`): slabs by their first frames, head
/// first, with room for all slabs of a machine.
///
/// The room is taken when the list is made: no later call takes memory.
#[derive(Debug, Drop)]
pub struct Node {
    list: NodeList,
    /// Room for how many objects of each slab are free.
    counts: Vec<u16>,
}

impl Model for Node {
    ghost use Rattle.std.specs.Prelude.{ℕ, ◌≡◌, ◌≤◌, List, length, vec_capacity};

    ghost Value = { List ℕ };

    ghost view = { λ n. n.list.frames };

    ghost invariant = { λ n. (n.list.room ≡ 4095) × (length n.list.frames ≤ 4095) × (4095 ≤ vec_capacity n.counts) };
}

impl Node {
    /// An empty list.
    pub fn open(alloc: Global) -> Result<Node, NoMemory>
        ensures { IfOk result (λ list. list ≡ []) }
    {
        Ok(Node {
            list: NodeList::open(alloc, SLABS_MAX)?,
            counts: Vec::with_capacity(alloc, SLABS_MAX as usize)?,
        })
    }

    /// The list, and the room for its counts, apart.
    pub fn into_parts(self) -> (NodeList, Vec<u16>)
        ensures frames { result.0.frames ≡ self }
        ensures room { result.0.room ≡ 4095 }
        ensures within { length self ≤ 4095 }
        ensures counts { 4095 ≤ vec_capacity result.1 }
    {
        let Node { list, counts } = self;
        (list, counts)
    }

    /// A list with the room for its counts, put together again.
    pub fn from_parts(list: NodeList, counts: Vec<u16>) -> Node
        requires room { list.room ≡ 4095 }
        requires counts { 4095 ≤ vec_capacity counts }
        ensures { result ≡ list.frames }
    {
        prove!(list.len() <= SLABS_MAX);
        Node { list, counts }
    }

    /// How many slabs stand on it (`nr_partial`), at most 4095.
    pub fn len(&self) -> usize
        ensures value { result ≡ length self.now }
        ensures room { result ≤ 4095 }
    {
        self.list.len() as usize
    }

    /// The slabs, head first.
    pub fn frames(&self) -> &[u16]
        ensures value { result.now ≡ self.now }
        ensures room { length self.now ≤ 4095 }
    {
        self.list.frames()
    }

    /// Takes the head off, if there is one.
    pub fn pop(&mut self) -> Option<u16>
        ensures popped { MatchOption result ((self.old ≡ []) × (self.new ≡ [])) (λ frame. self.old ≡ frame ∷ self.new) }
        ensures room { length self.old ≤ 4095 }
    {
        self.list.pop()
    }

    /// Puts a slab at the head.
    pub fn push_head(&mut self, frame: u16)
        requires { length self.old < 4095 }
        ensures { self.new ≡ frame ∷ self.old }
    {
        self.list.push_head(frame);
    }

    /// Puts a slab at the tail.
    pub fn push_tail(&mut self, frame: u16)
        requires { length self.old < 4095 }
        ensures { self.new ≡ self.old ++ frame ∷ [] }
    {
        self.list.push_tail(frame);
    }

    /// Takes a slab out, wherever it stands. False where it doesn't stand there.
    pub fn remove(&mut self, frame: u16) -> bool
        requires once { times frame self.old ≤ 1 }
        ensures found { result ≡ nat_lt 0 (times frame self.old) }
        ensures removed { self.new ≡ filter (λ other. not (other == frame)) self.old }
    {
        self.list.remove(frame)
    }

    /// Puts the list into the order in which shrinking leaves it, by how many objects of each slab are
    /// free; `frees` has the slabs' own freelists, by frame (`__kmem_cache_do_shrink`).
    pub fn promote(&mut self, frees: &OwnLists)
        ensures promoted { IsPromoted self.old (map (λ frame. length (slice_index_or frees.now frame [])) self.old) self.new }
    {
        count_free(frees, self.list.frames(), &mut self.counts);
        self.list.promote(&self.counts);
    }
}

/// Counts the free objects of the slabs at these frames.
fn count_free(frees: &OwnLists, frames: &[u16], counts: &mut Vec<u16>)
    requires { length frames.now ≤ vec_capacity counts.old }
    ensures counts { counts.new.items ≡ map (λ frame. length (slice_index_or frees.now frame [])) frames.now }
    ensures capacity { vec_capacity counts.old ≤ vec_capacity counts.new }
{
    counts.clear();
    for frame in frames {
        counts.push_reserved(frees.len_of(*frame) as u16);
    }
}
