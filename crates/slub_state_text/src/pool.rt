//! The free page frames.

ghost use Rattle.std.specs.Prelude.{◌≡◌, ◌<◌, ◌≤◌, ◌++◌, IfOk, IfSome, OnOk};
ghost use Rattle.slub_lists.specs.Coherent.{IsCoherent};
ghost use Rattle.slub_state_text.specs.Frames.{past};
ghost use Rattle.slub_state_text.specs.State.{pool_row};

use crate::put::{put, put_label};
use crate::ranges::put_ranges;
use slub_common::no_memory::NoMemory;
use slub_list_machine::lists::Lists;
use slub_lists::lists::Slab;
use std::alloc::Global;

/// The first frame behind the slab that begins at a frame and all before it.
fn past(before: usize, frame: usize, slab: &Option<Slab>) -> usize
    requires frame { frame < 4096 }
    requires order { IfSome slab.now (λ slab. slab.order ≤ 3) }
    ensures { result ≡ past before frame slab.now }
{
    match slab {
        Some(slab) => before.max(frame + (1 << slab.order)),
        None => before,
    }
}

/// The free frames of a machine, rising: those that no slab has.
fn free_frames(alloc: Global, lists: &Lists) -> Result<Vec<u16>, NoMemory>
    requires { IsCoherent lists.now }
    ensures { IfOk result (λ free. free.items ≡ lists.now.pool.free) }
{
    let mut free = Vec::new(alloc);
    let mut next = 1;
    for (frame, slab) in lists.slabs().iter().enumerate() {
        next = past(next, frame, slab);
        if next <= frame {
            free.push(frame as u16)?;
        }
    }
    Ok(free)
}

/// The row of the pool.
pub(crate) fn push_pool(text: &mut Vec<u8>, lists: &Lists) -> Result<(), NoMemory>
    requires { IsCoherent lists.now }
    ensures { OnOk result (text.new.items ≡ text.old.items ++ pool_row lists.now.pool) }
{
    let free = free_frames(*text.allocator(), lists)?;
    put_label(text, b"pool")?;
    put_ranges(text, free.as_slice())?;
    put(text, b"\n")
}
