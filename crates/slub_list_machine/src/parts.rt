//! Profile, with no function of `mm/slub.c`: the machine taken apart, for a round of several
//! workers, and put together again.

ghost use Rattle.std.specs.Prelude.{◌≡◌};
ghost use Rattle.slub_list_machine.specs.Parts.{state_of};

use crate::lists::Lists;
use crate::node::Node;
use crate::own_lists::OwnLists;
use slub_cache_create::caches::Caches;
use slub_lists::lists::{CpuLists, Held, Slab};
use slub_page_pool::Pool;
use slub_red_zone::checked::CheckedSlabs;
use slub_words::memory::Memory;

/// What a machine on plain lists is made of. Contracts see the machine that has these parts by
/// `state_of`.
#[derive(Debug, Drop)]
pub struct Parts {
    /// Frame 0 counts.
    pub frames: u32,
    pub cpus: u32,
    pub pool: Pool,
    /// By frame: the live slab whose run begins there.
    pub slabs: Vec<Option<Slab>>,
    /// By frame: the own freelist of the slab whose run begins there.
    pub frees: OwnLists,
    /// The live names and caches.
    pub table: Caches,
    /// By cache number and CPU, the CPUs of one cache side by side.
    pub cpu_lists: Vec<CpuLists>,
    /// By cache number: the node's partial list.
    pub nodes: Vec<Node>,
    /// By cache number: the slabs of a live checked cache.
    pub checked: Vec<Option<CheckedSlabs>>,
    /// The words of the frames.
    pub memory: Memory,
    /// By object number: what was given and not freed.
    pub board: Vec<Option<Held>>,
    /// By object number: what was freed in this round.
    pub gone: Vec<Option<Held>>,
    /// By cache number: how many of its objects are given and not freed.
    pub live: Vec<u64>,
}

impl Lists {
    /// The machine taken apart; it takes no memory, and copies nothing.
    pub fn into_parts(self) -> Parts
        ensures { state_of result ≡ self }
    {
        let Lists {
            frames,
            cpus,
            pool,
            slabs,
            frees,
            table,
            cpu_lists,
            nodes,
            checked,
            memory,
            board,
            gone,
            live,
        } = self;
        Parts {
            frames,
            cpus,
            pool,
            slabs,
            frees,
            table,
            cpu_lists,
            nodes,
            checked,
            memory,
            board,
            gone,
            live,
        }
    }

    /// The machine that has these parts.
    pub fn from_parts(parts: Parts) -> Lists
        ensures { result ≡ state_of parts }
    {
        Lists {
            frames: parts.frames,
            cpus: parts.cpus,
            pool: parts.pool,
            slabs: parts.slabs,
            frees: parts.frees,
            table: parts.table,
            cpu_lists: parts.cpu_lists,
            nodes: parts.nodes,
            checked: parts.checked,
            memory: parts.memory,
            board: parts.board,
            gone: parts.gone,
            live: parts.live,
        }
    }
}
