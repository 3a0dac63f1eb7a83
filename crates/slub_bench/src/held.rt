//! Memory that stays with the process between two replays.

use std::alloc::{AllocError, Global};

/// The length of a block: nearly 32 MiB, so the longest whose release raises glibc's thresholds.
const LEARNT: usize = 33_000_000;

/// How many such blocks hold the memory of a replay.
const ROOMS: u32 = 8;

/// A block that nothing is written to.
fn block(alloc: Global) -> Result<Vec<u8>, AllocError> {
    Vec::with_capacity(alloc, LEARNT)
}

/// Gives a block back. From then on blocks of that length come from the heap.
fn learn(alloc: Global) -> Result<(), AllocError> {
    let _block = block(alloc)?;
    Ok(())
}

/// Blocks that stand one behind the other.
fn rooms(alloc: Global) -> Result<Vec<Vec<u8>>, AllocError> {
    let mut rooms = Vec::new(alloc);
    for _ in 0..ROOMS {
        rooms.push(block(alloc)?)?;
    }
    Ok(rooms)
}

/// A block to be held while replays are measured, so that each finds the pages that the one before it touched: it stands
/// behind others that are given back, and as long as it is held they stay with the process. Without it glibc gives all
/// memory of a long replay back to the system after it.
pub(crate) fn keep_memory(alloc: Global) -> Result<Vec<u8>, AllocError> {
    learn(alloc)?;
    let _rooms = rooms(alloc)?;
    block(alloc)
}
