//! What a recording says.

use crate::event::KmemEvent;
use crate::site::Site;
use indexmap::IndexSet;
use slub_common::sequence::Sequence;
use slub_object_layout::name::Name;

/// A recording. What is at a place of `sites` or of `names` is found by `get_index`.
#[derive(Drop)]
pub struct Recording {
    /// The events of the four kinds, in the order of their lines.
    pub events: Sequence<KmemEvent>,
    /// The call sites of `kmem_cache_alloc`, each once, in the order of their first lines.
    pub sites: IndexSet<Site>,
    /// The names that `kmem_cache_free` prints, each once, in the order of their first lines. A
    /// byte that can't stand in a name is `_` there, or `x` in front, and names end after 31 bytes.
    pub names: IndexSet<Name>,
    /// The CPUs of the machine, as `#P:` or `cpus=` tells them last.
    pub told_cpus: Option<u32>,
    /// The greatest CPU of the events.
    pub greatest_cpu: u32,
    /// The events that were overwritten before the text begins, at most 2 ^ 64 - 1.
    pub overwritten: u64,
    /// The events that were lost within, at most 2 ^ 64 - 1: one for a line that tells no number.
    pub lost: u64,
    /// The lines of events whose time is before that of the event above.
    pub back: u64,
    /// The events of other kinds.
    pub others: u64,
}
