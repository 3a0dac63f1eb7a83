//! A machine that was opened, and what waits for the end of its round.

use crate::beside::Beside;
use slub_cache_create::caches::Caches;
use slub_core::guarded::Guarded;
use slub_core::setup::Setup;
use slub_list_machine::lists::Lists;
use slub_list_machine::node::Node;
use slub_list_machine::own_lists::OwnLists;
use slub_lists::lists::{CpuLists, Held, Slab};
use slub_red_zone::checked::CheckedSlabs;
use slub_schedule::table::Table;

/// What a round runs on, and what waits for its end.
#[derive(Debug, Drop)]
pub struct Opened {
    pub setup: Setup,
    pub table: Table,
    /// By lock: what it guards.
    pub values: Vec<Guarded>,
    pub rest: Rest,
}

/// No memory was found: the machine and what stands beside it are as they were.
#[derive(Debug, Drop)]
pub struct Unopened {
    pub lists: Lists,
    pub beside: Beside,
}

/// A node list while its round runs.
#[derive(Debug, Drop)]
pub enum KeptNode {
    /// The empty list of a cache that isn't live, or is checked.
    Whole(Node),
    /// The room for the counts of a list that stands behind its lock.
    Counts(Vec<u16>),
}

/// The vectors of the lists, into which the machine closes without taking memory, whatever stands in them.
/// The words of the frames wait in the table.
#[derive(Debug, Drop)]
pub struct Rest {
    /// Frame 0 counts.
    pub frames: u32,
    pub cpus: u32,
    /// The live names and caches, which a round leaves as they are.
    pub table: Caches,
    /// By frame: slabs, and their own freelists.
    pub slabs: Vec<Option<Slab>>,
    pub frees: OwnLists,
    /// By cache number and CPU.
    pub cpu_lists: Vec<CpuLists>,
    /// Empty, with room for 32.
    pub nodes: Vec<Node>,
    /// By cache number: what is left of its node list.
    pub kept: Vec<KeptNode>,
    /// By cache number: the checked slabs are out.
    pub checked: Vec<Option<CheckedSlabs>>,
    /// By object number.
    pub board: Vec<Option<Held>>,
    pub gone: Vec<Option<Held>>,
    /// By cache number.
    pub live: Vec<u64>,
    /// By 16 * cache + CPU, and by frame.
    pub tids: Vec<u32>,
    pub links: Vec<u16>,
}
