//! What CPUs have of caches, and their transaction ids.

ghost use Rattle.std.specs.Prelude.{◌≡◌, ℕ, ◌+◌, ◌*◌, ◌/◌, ◌%◌, ◌^◌, ◌<◌, ◌≤◌, length, slice_index_or};
ghost use Rattle.slub_lists.specs.Alloc.{no_lists};
ghost use Rattle.slub_open_close.specs.Reads.{lists_at, cpu_word_in};

use crate::walks::{walk_chain, walk_string};
use slub_core::setup::Setup;
use slub_core::words::{cpu_in, list_in};
use slub_lists::lists::CpuLists;
use slub_schedule::table::Table;
use slub_words::memory::Memory;

/// Writes what each CPU has of each cache, the CPUs of one cache side by side. The links begin at a
/// word of the table.
pub fn close_cpus(
    setup: &Setup,
    table: &Table,
    memory: &Memory,
    links: usize,
    cpus: usize,
    all: &mut [CpuLists],
)
    requires cpus { (1 ≤ cpus) × (cpus ≤ 16) }
    requires links { links < 2 ^ 32 }
    requires length { length all.old ≡ 32 * cpus }
    ensures { (place : ℕ) → place < length all.old → slice_index_or all.new place no_lists ≡ lists_at setup.now table.now.words memory.now links (place / cpus * 16 + place % cpus) }
{
    for (place, lists) in all.iter_mut().enumerate() {
        let number = place / cpus * 16 + place % cpus;
        close_cpu(setup, table, memory, links, number, lists);
    }
}

/// Writes what a CPU has of a cache, by its CPU word and its list word.
fn close_cpu(
    setup: &Setup,
    table: &Table,
    memory: &Memory,
    links: usize,
    number: usize,
    lists: &mut CpuLists,
)
    requires number { number < 512 }
    requires links { links < 2 ^ 32 }
    ensures { lists.new ≡ lists_at setup.now table.now.words memory.now links number }
{
    let cache = (number / 16) as u8;
    let cpu = cpu_in(table.word(545 + number));
    lists.current = if cpu.frame == 0 {
        None
    } else {
        Some(cpu.frame)
    };
    walk_chain(setup, memory, cache, cpu.frame, cpu.head, &mut lists.free);
    let front = list_in(table.word(33 + number)).front;
    walk_string(table, links, front, &mut lists.partial);
}

/// Writes the transaction ids, by 16 * cache + CPU.
pub fn close_tids(table: &Table, tids: &mut [u32])
    requires { length tids.old ≤ 512 }
    ensures { (number : ℕ) → number < length tids.old → slice_index_or tids.new number 0 ≡ (cpu_word_in table.now.words number).tid }
{
    for (number, tid) in tids.iter_mut().enumerate() {
        *tid = cpu_in(table.word(545 + number)).tid;
    }
}
