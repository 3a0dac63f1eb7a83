//! One atomic step: a word of the machine, what is done to it, and what comes back.

/// Which word: its class, and its number in the class.
#[derive(Clone, Copy, Debug, PartialEq, Eq)]
pub enum Place {
    /// 0 is the pool's lock, 1 + k the node lock of cache k (`zone->lock`, `n->list_lock`).
    LockOf(u32),
    /// 16 * cache + CPU: the partial list (`c->partial`).
    ListOf(u32),
    /// 16 * cache + CPU: tid, current slab and freelist (`c->tid`, `c->slab`, `c->freelist`).
    CpuOf(u32),
    /// The first frame of a slab: its freelist, counts and marks (`slab->freelist`, `slab->counters`).
    SlabOf(u32),
    /// An object number: who may free it (profile).
    BoardOf(u32),
    /// A word of the frames' memory, by its address divided by 8.
    MemoryOf(u32),
    /// A frame: the slab behind it on a partial list (`slab->next`).
    LinkOf(u32),
}

/// What a step does to its word. All steps are in one order.
#[derive(Clone, Copy, Debug, PartialEq, Eq)]
pub enum Op {
    Load,
    Store(u64),
    Swap(u64),
    /// The word becomes `to` where it is `from` (`cmpxchg_double`).
    Exchange { from: u64, to: u64 },
}

/// One atomic step.
#[derive(Clone, Copy, Debug, PartialEq, Eq)]
pub struct Step {
    pub place: Place,
    pub op: Op,
}

/// What a step answers.
#[derive(Clone, Copy, Debug, PartialEq, Eq)]
pub enum Answer {
    /// A load or a swap: the word that stood there.
    Word(u64),
    /// A store.
    Done,
    /// An exchange that found the word that it compared with.
    Won,
    /// An exchange that found this word, which stays.
    Lost(u64),
}
