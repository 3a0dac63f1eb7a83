//! The steps that spots call for: an operation on one word.

ghost use Rattle.std.specs.Prelude.{◌≡◌, ◌≤◌};
ghost use Rattle.slub_core.specs.Ops as made;
ghost use Rattle.slub_core.specs.WorkerSteps as placed;

use crate::setup::Setup;
use crate::step::{Op, Place, Step};
use crate::words::list_bits;
use crate::worker_local::Local;
use slub_words::cpu::CpuWord;
use slub_words::slab::SlabWord;

/// Of a spot that calls for no step.
#[inline(always)]
pub fn no_step() -> Step
    ensures { result ≡ made.no_step }
{
    Step {
        place: Place::LockOf(0),
        op: Op::Load,
    }
}

/// The number of the CPU word and the list word of the call's cache and CPU.
#[inline(always)]
fn own_cpu(local: &Local) -> u32
    ensures { result ≡ made.own_cpu local.now }
{
    16 * u32::from(local.cache()) + u32::from(local.cpu())
}

/// Loads the CPU word.
#[inline(always)]
pub fn load_cpu(local: &Local) -> Step
    ensures { result ≡ made.load_cpu local.now }
{
    Step {
        place: Place::CpuOf(own_cpu(local)),
        op: Op::Load,
    }
}

/// Changes the CPU word, from the noted one (`this_cpu_cmpxchg_double`).
#[inline(always)]
pub fn change_cpu(local: &Local, to: CpuWord) -> Step
    ensures { result ≡ made.change_cpu local.now to }
{
    Step {
        place: Place::CpuOf(own_cpu(local)),
        op: Op::Exchange {
            from: local.cpu_word().pack(),
            to: to.pack(),
        },
    }
}

/// Loads the word of a slab.
#[inline(always)]
pub fn load_slab(frame: u16) -> Step
    ensures { result ≡ made.load_slab frame }
{
    Step {
        place: Place::SlabOf(u32::from(frame)),
        op: Op::Load,
    }
}

/// Changes the word of a slab, from the noted one (`__cmpxchg_double_slab`).
#[inline(always)]
pub fn change_slab(local: &Local, frame: u16, to: SlabWord) -> Step
    ensures { result ≡ made.change_slab local.now frame to }
{
    Step {
        place: Place::SlabOf(u32::from(frame)),
        op: Op::Exchange {
            from: local.slab_word().pack(),
            to: to.pack(),
        },
    }
}

/// Stores the word of a slab.
pub fn store_slab(frame: u16, to: SlabWord) -> Step
    ensures { result ≡ made.store_slab frame to }
{
    Step {
        place: Place::SlabOf(u32::from(frame)),
        op: Op::Store(to.pack()),
    }
}

/// Loads the free pointer of an object (`get_freepointer`).
#[inline(always)]
pub fn load_pointer(setup: &Setup, cache: u8, frame: u16, index: u16) -> Step
    ensures { result ≡ placed.load_pointer setup.now cache frame index }
{
    Step {
        place: Place::MemoryOf(setup.pointer_at(cache, frame, index)),
        op: Op::Load,
    }
}

/// Stores the free pointer of an object, hardened (`set_freepointer`).
#[inline(always)]
pub fn store_pointer(setup: &Setup, cache: u8, frame: u16, index: u16, to: u16) -> Step
    ensures { result ≡ placed.store_pointer setup.now cache frame index to }
{
    let place = setup.pointer_at(cache, frame, index);
    Step {
        place: Place::MemoryOf(place),
        op: Op::Store(setup.hardened(cache, place, to)),
    }
}

/// Stores the free pointer of the object of the call.
#[inline(always)]
pub fn link_object(setup: &Setup, local: &Local, to: u16) -> Step
    ensures { result ≡ placed.link_object setup.now local.now to }
{
    let here = local.here();
    store_pointer(setup, here.cache, here.frame, here.index, to)
}

/// Stores one of the first 4096 words of the object of the call.
pub fn store_word(setup: &Setup, local: &Local, word: u32, value: u64) -> Step
    requires { word ≤ 4095 }
    ensures { result ≡ placed.store_word setup.now local.now word value }
{
    let here = local.here();
    Step {
        place: Place::MemoryOf(setup.word_at(here.cache, here.frame, here.index, word)),
        op: Op::Store(value),
    }
}

/// Loads one of the first 4096 words of the object of the call.
pub fn load_word(setup: &Setup, local: &Local, word: u32) -> Step
    requires { word ≤ 4095 }
    ensures { result ≡ placed.load_word setup.now local.now word }
{
    let here = local.here();
    Step {
        place: Place::MemoryOf(setup.word_at(here.cache, here.frame, here.index, word)),
        op: Op::Load,
    }
}

/// Loads the list word.
pub fn load_list(local: &Local) -> Step
    ensures { result ≡ made.load_list local.now }
{
    Step {
        place: Place::ListOf(own_cpu(local)),
        op: Op::Load,
    }
}

/// Takes the whole partial list.
pub fn take_list(local: &Local) -> Step
    ensures { result ≡ made.take_list local.now }
{
    Step {
        place: Place::ListOf(own_cpu(local)),
        op: Op::Swap(0),
    }
}

/// Changes the list word to this front and this count, from the noted one.
pub fn change_list(local: &Local, front: u16, count: u32) -> Step
    ensures { result ≡ made.change_list local.now (record { front = front; count = count }) }
{
    let noted = local.list_word();
    Step {
        place: Place::ListOf(own_cpu(local)),
        op: Op::Exchange {
            from: list_bits(noted.front, u32::from(noted.count)),
            to: list_bits(front, count),
        },
    }
}

/// Loads the link of a slab.
pub fn load_link(frame: u16) -> Step
    ensures { result ≡ made.load_link frame }
{
    Step {
        place: Place::LinkOf(u32::from(frame)),
        op: Op::Load,
    }
}

/// Stores the link of a slab.
pub fn store_link(frame: u16, to: u16) -> Step
    ensures { result ≡ made.store_link frame to }
{
    Step {
        place: Place::LinkOf(u32::from(frame)),
        op: Op::Store(u64::from(to)),
    }
}

/// Takes the object of the call from the board.
pub fn take_board(local: &Local) -> Step
    ensures { result ≡ made.take_board local.now }
{
    Step {
        place: Place::BoardOf(local.here().object),
        op: Op::Swap(0),
    }
}

/// Takes a lock, which is the worker's number plus one while it has it.
fn take_lock(local: &Local, lock: u32) -> Step
    ensures { result ≡ made.take_lock local.now lock }
{
    Step {
        place: Place::LockOf(lock),
        op: Op::Exchange {
            from: 0,
            to: u64::from(local.worker()) + 1,
        },
    }
}

/// Gives a lock back.
fn give_lock(lock: u32) -> Step
    ensures { result ≡ made.give_lock lock }
{
    Step {
        place: Place::LockOf(lock),
        op: Op::Store(0),
    }
}

/// Takes the node lock of the call's cache.
pub fn take_node(local: &Local) -> Step
    ensures { result ≡ made.take_node local.now }
{
    take_lock(local, u32::from(local.cache()) + 1)
}

/// Gives it back.
pub fn give_node(local: &Local) -> Step
    ensures { result ≡ made.give_node local.now }
{
    give_lock(u32::from(local.cache()) + 1)
}

/// Takes the pool's lock.
pub fn take_pool(local: &Local) -> Step
    ensures { result ≡ made.take_pool local.now }
{
    take_lock(local, 0)
}

/// Gives it back.
pub fn give_pool(local: &Local) -> Step
    ensures { result ≡ made.give_pool local.now }
{
    give_lock(0)
}
