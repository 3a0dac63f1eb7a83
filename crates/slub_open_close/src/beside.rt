//! What stands beside the lists of a machine: transaction ids, and links of slabs that are on no list.

ghost use Rattle.std.specs.Prelude.{◌≡◌, ◌*◌, ◌<◌, ◌≤◌, length, IfOk};
ghost use Rattle.std.specs.Int.{IsPowerOfTwo};
ghost use Rattle.slub_lists.specs.State.{State};
ghost use Rattle.slub_lists.specs.Coherent.{IsCoherent};
ghost use Rattle.slub_open_close.specs.Beside.{IsBesideOf, first_links};
ghost use Rattle.slub_open_close.specs.Ids.{AreIds, IsStepOf};

use crate::ids::Ids;
use slub_common::no_memory::NoMemory;
use std::alloc::Global;

/// What a machine in words has that plain lists have not.
#[derive(Debug, Drop)]
pub struct Beside {
    /// By 16 * cache + CPU: the transaction ids.
    pub tids: Vec<u32>,
    /// By frame: what the links say of slabs that are on no CPU's partial list.
    pub links: Vec<u16>,
    /// What each change adds to a transaction id: a power of two, not below the number of CPUs (`TID_STEP`).
    pub step: u32,
}

impl Beside {
    /// What stands beside a machine between two rounds: the words go on from these ids, and the links say nothing.
    pub fn of(alloc: Global, ids: &Ids, frames: u32, cpus: u32) -> Result<Beside, NoMemory>
        requires frames { frames ≤ 4096 }
        requires cpus { (1 ≤ cpus) × (cpus ≤ 16) }
        ensures step { IfOk result (λ b. IsStepOf cpus b.step) }
        ensures tids { IfOk result (λ b. b.tids.items ≡ ids.now) }
        ensures links { IfOk result (λ b. b.links.items ≡ first_links frames) }
        ensures fits { IfOk result (λ b. (s : State) → IsCoherent s → s.frames ≡ frames → s.cpus ≡ cpus → 1 ≤ length s.board → length s.board ≤ 1048577 → AreIds s ids.now → IsBesideOf s b) }
    {
        let tids = Vec::from_slice(alloc, &ids.by_word)?;
        let links = vec![in alloc; 0; frames as usize]?;
        Ok(Beside {
            tids,
            links,
            step: step_of(cpus),
        })
    }
}

/// The least power of two that isn't below the number of CPUs (`TID_STEP`).
fn step_of(cpus: u32) -> u32
    requires { (1 ≤ cpus) × (cpus ≤ 16) }
    ensures power { IsPowerOfTwo result }
    ensures least { (cpus ≤ result) × (result < 2 * cpus) }
    ensures few { result ≤ 16 }
{
    cpus.next_power_of_two()
}
