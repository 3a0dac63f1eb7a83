//! The transaction ids of the CPU words between two rounds.

ghost use Rattle.std.specs.Prelude.{◌≡◌, ◌+◌, ◌^◌, ◌≤◌, IfOk};
ghost use Rattle.slub_open_close.specs.Ids.{first_id, first_ids};

use slub_common::no_memory::NoMemory;
use std::alloc::Global;
use std::marker::Model;

/// The transaction ids of the CPU words between rounds. Contracts see them as a list.
#[derive(Debug, Drop)]
pub struct Ids {
    /// By 16 * cache + CPU; there are 512.
    pub by_word: Vec<u32>,
}

impl Model for Ids {
    ghost use Rattle.std.specs.Prelude.{ℕ, List};

    ghost Value = { List ℕ };

    ghost view = { λ ids. ids.by_word.items };
}

impl Ids {
    /// The ids of a new machine (`init_tid`): the words of CPU c begin at the machine's first id plus c.
    pub fn first(alloc: Global, first: u32, cpus: u32) -> Result<Ids, NoMemory>
        requires few { first + cpus ≤ 2 ^ 32 }
        ensures { IfOk result (λ ids. ids ≡ first_ids first cpus) }
    {
        let mut by_word = Vec::with_capacity(alloc, 512)?;
        for number in 0..512 {
            by_word.push_reserved(first_id(first, cpus, number));
        }
        Ok(Ids { by_word })
    }
}

/// The first id of a CPU word.
fn first_id(first: u32, cpus: u32, number: u32) -> u32
    requires { first + cpus ≤ 2 ^ 32 }
    ensures { result ≡ first_id first cpus number }
{
    let cpu = number % 16;
    if cpu < cpus { first + cpu } else { 0 }
}
