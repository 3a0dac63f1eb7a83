//! Profile, with no function of `mm/slub.c`: the whole machine on plain lists, opened and read.

ghost use Rattle.std.specs.Prelude.{◌≡◌, ◌≤◌, [], length, replicate, IfOk, None};
ghost use Rattle.slub_page_pool.specs.FreeFrames as pool;
ghost use Rattle.slub_lists.specs.Alloc.{no_lists};
ghost use Rattle.slub_lists.specs.Coherent.{IsCoherent, all_on_board, opening};
ghost use Rattle.slub_lists.specs.Shrink.{is_slab_of};

use crate::node::Node;
use crate::own_lists::OwnLists;
use slub_cache_create::caches::Caches;
use slub_common::front_list::FrontList;
use slub_common::limits::{CACHES_MAX, FRAME_WORDS};
use slub_common::no_memory::NoMemory;
use slub_lists::lists::{CpuLists, Held, Slab};
use slub_object_layout::name::Name;
use slub_page_pool::Pool;
use slub_red_zone::checked::CheckedSlabs;
use slub_words::memory::Memory;
use std::alloc::Global;
use std::marker::Model;

/// Whether this is a live slab of the cache.
pub fn is_slab_of(slab: &Option<Slab>, cache: u8) -> bool
    ensures { result ≡ is_slab_of cache slab.now }
{
    match slab {
        Some(slab) => slab.cache == cache,
        None => false,
    }
}

/// The machine: the pool, the caches, the slabs, the lists that they stand on, and the board.
#[derive(Debug, Drop)]
pub struct Lists {
    pub(crate) frames: u32,
    pub(crate) cpus: u32,
    pub(crate) pool: Pool,
    pub(crate) slabs: Vec<Option<Slab>>,
    pub(crate) frees: OwnLists,
    pub(crate) table: Caches,
    pub(crate) cpu_lists: Vec<CpuLists>,
    pub(crate) nodes: Vec<Node>,
    pub(crate) checked: Vec<Option<CheckedSlabs>>,
    pub(crate) memory: Memory,
    pub(crate) board: Vec<Option<Held>>,
    pub(crate) gone: Vec<Option<Held>>,
    pub(crate) live: Vec<u64>,
}

impl Model for Lists {
    ghost use Rattle.slub_lists.specs.State.{State};

    ghost Value = { State };

    ghost view = { λ l. record {
      frames = l.frames;
      cpus = l.cpus;
      pool = l.pool;
      slabs = l.slabs.items;
      frees = l.frees;
      table = l.table;
      cpu_lists = l.cpu_lists.items;
      nodes = l.nodes.items;
      checked = l.checked.items;
      memory = l.memory;
      board = l.board.items;
      gone = l.gone.items;
      live = l.live.items;
    } };
}

impl Lists {
    /// A machine of 2 to 4096 frames and 1 to 16 CPUs, with object numbers up to `objects` and these
    /// names: all frames but frame 0 are free, there is no cache, and the board is empty.
    ///
    /// All memory that the machine will ever need is taken here, but for what a checked cache takes
    /// when it is created and when it gets a slab.
    pub fn open(
        alloc: Global,
        frames: u32,
        cpus: u32,
        objects: u32,
        names: &[Name],
    ) -> Result<Lists, NoMemory>
        requires frames { (2 ≤ frames) × (frames ≤ 4096) }
        requires cpus { (1 ≤ cpus) × (cpus ≤ 16) }
        requires objects { objects ≤ 1048576 }
        ensures opened { IfOk result (λ lists. lists ≡ opening frames cpus objects names.now) }
        ensures coherent { IsCoherent (opening frames cpus objects names.now) }
    {
        Lists::take_memory(alloc, frames, cpus, objects, names)
    }

    /// The machine before its first item, with its memory.
    fn take_memory(
        alloc: Global,
        frames: u32,
        cpus: u32,
        objects: u32,
        names: &[Name],
    ) -> Result<Lists, NoMemory>
        requires frames { (2 ≤ frames) × (frames ≤ 4096) }
        requires cpus { (1 ≤ cpus) × (cpus ≤ 16) }
        requires objects { objects ≤ 1048576 }
        ensures { IfOk result (λ lists. lists ≡ opening frames cpus objects names.now) }
    {
        Ok(Lists {
            frames,
            cpus,
            pool: Pool::open(alloc, frames)?,
            slabs: open_slabs(alloc, frames as usize)?,
            frees: OwnLists::open(alloc, frames as usize)?,
            table: Caches::open(alloc, names)?,
            cpu_lists: open_cpu_lists(alloc, CACHES_MAX * cpus as usize)?,
            nodes: open_nodes(alloc)?,
            checked: open_checked(alloc)?,
            memory: Memory::open(alloc, FRAME_WORDS * frames as usize)?,
            board: open_board(alloc, objects as usize + 1)?,
            gone: open_board(alloc, objects as usize + 1)?,
            live: zeros(alloc, CACHES_MAX)?,
        })
    }

    /// Puts every held object on the board, and forgets what was freed: the round is over.
    pub fn end_round(&mut self)
        requires coherent { IsCoherent self.old }
        ensures on_board { self.new ≡ all_on_board self.old }
        ensures coherent { IsCoherent self.new }
    {
        for held in self.board.iter_mut() {
            if let Some(held) = held {
                held.worker = None;
            }
        }
        self.gone.fill(None);
    }

    /// How many frames the machine has, frame 0 counted.
    pub fn frames(&self) -> u32
        ensures { result ≡ self.now.frames }
    {
        self.frames
    }

    pub fn cpus(&self) -> u32
        ensures { result ≡ self.now.cpus }
    {
        self.cpus
    }

    /// How many frames are free.
    pub fn free_frames(&self) -> u32
        ensures { result ≡ length self.now.pool.free }
    {
        self.pool.free_frames()
    }

    /// By frame: the live slab whose run begins there.
    pub fn slabs(&self) -> &[Option<Slab>]
        ensures { result.now ≡ self.now.slabs }
    {
        self.slabs.as_slice()
    }

    /// By frame: the own freelist of the slab whose run begins there.
    pub fn frees(&self) -> &OwnLists
        ensures { result.now ≡ self.now.frees }
    {
        &self.frees
    }

    /// The live names and caches.
    pub fn caches(&self) -> &Caches
        ensures { result.now ≡ self.now.table }
    {
        &self.table
    }

    /// By cache number: the slabs of a live checked cache.
    pub fn checked(&self) -> &[Option<CheckedSlabs>]
        ensures { result.now ≡ self.now.checked }
    {
        self.checked.as_slice()
    }

    /// By cache number and CPU, the CPUs of one cache side by side: what the CPU has of the cache.
    pub fn cpu_lists(&self) -> &[CpuLists]
        ensures { result.now ≡ self.now.cpu_lists }
    {
        self.cpu_lists.as_slice()
    }

    /// By cache number: the node's partial list, head first.
    pub fn nodes(&self) -> &[Node]
        ensures { result.now ≡ self.now.nodes }
    {
        self.nodes.as_slice()
    }

    /// By object number: what was given and not freed.
    pub fn board(&self) -> &[Option<Held>]
        ensures { result.now ≡ self.now.board }
    {
        self.board.as_slice()
    }

    /// By cache number: how many of its objects are given and not freed.
    pub fn live(&self) -> &[u64]
        ensures { result.now ≡ self.now.live }
    {
        self.live.as_slice()
    }
}

/// So many frames where no slab begins.
fn open_slabs(alloc: Global, count: usize) -> Result<Vec<Option<Slab>>, NoMemory>
    requires { count ≤ 4096 }
    ensures { IfOk result (λ slabs. slabs.items ≡ replicate count None) }
{
    Ok(vec![in alloc; None; count]?)
}

/// So many numbers that name nothing.
fn open_board(alloc: Global, count: usize) -> Result<Vec<Option<Held>>, NoMemory>
    requires { count ≤ 1048577 }
    ensures { IfOk result (λ board. board.items ≡ replicate count None) }
{
    Ok(vec![in alloc; None; count]?)
}

/// So many words that are 0.
fn zeros(alloc: Global, count: usize) -> Result<Vec<u64>, NoMemory>
    requires { count ≤ 32 }
    ensures { IfOk result (λ words. words.items ≡ replicate count 0) }
{
    Ok(vec![in alloc; 0; count]?)
}

/// Empty node lists, one for each cache number.
fn open_nodes(alloc: Global) -> Result<Vec<Node>, NoMemory>
    ensures { IfOk result (λ nodes. nodes.items ≡ replicate 32 []) }
{
    let mut nodes = Vec::with_capacity(alloc, CACHES_MAX)?;
    for _ in 0..CACHES_MAX {
        nodes.push(Node::open(alloc)?)?;
    }
    Ok(nodes)
}

/// No checked cache.
fn open_checked(alloc: Global) -> Result<Vec<Option<CheckedSlabs>>, NoMemory>
    ensures { IfOk result (λ checked. checked.items ≡ replicate 32 None) }
{
    let mut checked = Vec::with_capacity(alloc, CACHES_MAX)?;
    for _ in 0..CACHES_MAX {
        checked.push(None)?;
    }
    Ok(checked)
}

/// So many CPUs that have nothing of a cache.
fn open_cpu_lists(alloc: Global, count: usize) -> Result<Vec<CpuLists>, NoMemory>
    requires { count ≤ 512 }
    ensures { IfOk result (λ lists. lists.items ≡ replicate count no_lists) }
{
    let mut lists = Vec::with_capacity(alloc, count)?;
    for _ in 0..count {
        lists.push(CpuLists {
            current: None,
            free: FrontList::open(alloc)?,
            partial: FrontList::open(alloc)?,
        })?;
    }
    Ok(lists)
}
