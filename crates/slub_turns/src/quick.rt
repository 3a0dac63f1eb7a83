//! The spots of the two fast paths (`slab_alloc_node`, `do_slab_free`).
//!
//! A spot of a fast path is known where its turn is written, so that nothing is left to choose in it: the worker makes
//! one step, and is set where the answer leads. What locks guard decides nothing there, and nothing is done at once
//! after such a step.

ghost use Rattle.std.specs.Prelude.{◌≡◌, ◌<◌, ℕ, true, false, length, Some};
ghost use Rattle.slub_core.specs.Setup.{Means};
ghost use Rattle.slub_core.specs.World.{LockValue};
ghost use Rattle.slub_core.specs.Local.{at, noted};
ghost use Rattle.slub_core.specs.Steps as core;
ghost use Rattle.slub_core.specs.Facts.{setup_of};
ghost use Rattle.slub_turns.specs.Fits.{StepFits};
ghost use Rattle.slub_turns.specs.Quick.{spot_of, MayHear, quick_to};

use crate::begin::rest;
use slub_core::ops;
use slub_core::setup::Setup;
use slub_core::spot::{AllocSpot, FreeSpot, Spot};
use slub_core::step::{Answer, Step};
use slub_core::ways::{is_spent, raised_word};
use slub_core::words::cpu_in;
use slub_core::worker_local::Local;
use slub_trace::reply::Reply;

/// A spot of a fast path.
#[derive(Clone, Copy, Debug, PartialEq, Eq)]
pub enum Quick {
    /// Of an allocation: loads the CPU word.
    LoadCpu,
    /// Loads the free pointer of the CPU freelist's head.
    LoadNext,
    /// Takes the head off the CPU freelist.
    Pop,
    /// Of a free: loads the CPU word.
    LoadOwn,
    /// Stores the CPU freelist's head in the object.
    LinkOwn,
    /// Puts the object on the CPU freelist.
    Push,
}

/// Loads the free pointer of the CPU freelist's head (`get_freepointer_safe`).
#[inline(always)]
fn next_step(setup: &Setup, local: &Local) -> Step
    ensures { (means : Means) → (value : ℕ → LockValue) → result ≡ core.step_at (setup_of setup.now means) value local.now (spot_of Quick.LoadNext) }
{
    let word = local.cpu_word();
    ops::load_pointer(
        setup,
        local.cache(),
        word.frame,
        word.head.saturating_sub(1),
    )
}

/// The step that the spot calls for.
#[inline(always)]
pub fn quick_step(setup: &Setup, local: &Local, spot: Quick) -> Step
    requires { StepFits setup.now.step local.now (spot_of spot) }
    ensures { (means : Means) → (value : ℕ → LockValue) → result ≡ core.step_at (setup_of setup.now means) value local.now (spot_of spot) }
{
    match spot {
        Quick::LoadCpu => ops::load_cpu(local),
        Quick::LoadNext => next_step(setup, local),
        Quick::Pop => {
            ops::change_cpu(
                local,
                raised_word(setup, local, local.cpu_word().frame, local.next()),
            )
        }
        Quick::LoadOwn => ops::load_cpu(local),
        Quick::LinkOwn => ops::link_object(setup, local, local.cpu_word().head),
        Quick::Push => {
            let word = raised_word(setup, local, local.cpu_word().frame, local.here().index + 1);
            ops::change_cpu(local, word)
        }
    }
}

/// An answer of another kind leads nowhere.
#[cold]
#[inline(never)]
fn astray(setup: &Setup, local: &mut Local)
    ensures { (means : Means) → local.new ≡ core.rested (setup_of setup.now means) local.old }
{
    rest(setup, local);
}

/// The call is at its end, with this reply; then come the replies that take no step.
#[inline(always)]
fn replied(setup: &Setup, local: &mut Local, reply: Reply)
    requires { 0 < length local.old.todo }
    ensures { (means : Means) → local.new ≡ core.rested (setup_of setup.now means) (noted (at local.old Spot.Between) (Some reply)) }
{
    local.at(Spot::Between);
    local.answered(reply);
    rest(setup, local);
}

/// A try is at its end, with no reply.
#[inline(always)]
fn left(setup: &Setup, local: &mut Local)
    ensures { (means : Means) → local.new ≡ core.rested (setup_of setup.now means) (at local.old Spot.Between) }
{
    local.at(Spot::Between);
    rest(setup, local);
}

/// The CPU word was loaded, and its transaction id is spent: a call is told so.
#[cold]
#[inline(never)]
fn spent(setup: &Setup, local: &mut Local, tid: u32)
    requires { local.old.fast ≡ false → 0 < length local.old.todo }
    ensures yes { local.old.fast ≡ true → (means : Means) → local.new ≡ core.rested (setup_of setup.now means) (at local.old Spot.Between) }
    ensures no { local.old.fast ≡ false → (means : Means) → local.new ≡ core.rested (setup_of setup.now means) (noted (at local.old Spot.Between) (Some (Reply.IdsSpent tid))) }
{
    if local.is_fast() {
        left(setup, local);
    } else {
        replied(setup, local, Reply::IdsSpent(tid));
    }
}

/// The CPU word was loaded.
#[inline(always)]
fn cpu_loaded(setup: &Setup, local: &mut Local, answer: Answer)
    requires { (means : Means) × MayHear (setup_of setup.now means) local.old (spot_of Quick.LoadCpu) answer }
    ensures { (means : Means) → local.new ≡ quick_to (setup_of setup.now means) local.old (spot_of Quick.LoadCpu) answer }
{
    let Answer::Word(word) = answer else {
        astray(setup, local);
        return;
    };
    let word = cpu_in(word);
    local.set_cpu_word(word);
    if is_spent(setup, word) {
        spent(setup, local, word.tid);
    } else if word.head != 0 {
        local.at(Spot::InAlloc(AllocSpot::LoadNext));
    } else if local.is_fast() {
        left(setup, local);
    } else if word.frame != 0 {
        local.at(Spot::InAlloc(AllocSpot::Detach));
    } else {
        local.at(Spot::InAlloc(AllocSpot::TakeList));
    }
}

/// The free pointer of the head was loaded (`get_freepointer_safe`).
#[inline(always)]
fn next_loaded(setup: &Setup, local: &mut Local, answer: Answer)
    ensures { (means : Means) → local.new ≡ quick_to (setup_of setup.now means) local.old (spot_of Quick.LoadNext) answer }
{
    let Answer::Word(word) = answer else {
        astray(setup, local);
        return;
    };
    let noted = local.cpu_word();
    let index = noted.head.saturating_sub(1);
    local.set_next(setup.found_at(local.cache(), noted.frame, index, word));
    local.at(Spot::InAlloc(AllocSpot::Pop));
}

/// The head was taken off the CPU freelist (`this_cpu_cmpxchg_double`), or not.
#[inline(always)]
fn popped(setup: &Setup, local: &mut Local, answer: Answer)
    requires { (means : Means) × MayHear (setup_of setup.now means) local.old (spot_of Quick.Pop) answer }
    ensures { (means : Means) → local.new ≡ quick_to (setup_of setup.now means) local.old (spot_of Quick.Pop) answer }
{
    match answer {
        Answer::Won => {
            let noted = local.cpu_word();
            let cache = local.cache();
            let index = noted.head.saturating_sub(1);
            local.gets(cache, noted.frame, index);
            replied(
                setup,
                local,
                Reply::Given(setup.address(cache, noted.frame, index)),
            );
        }
        Answer::Lost(_) => {
            if local.is_fast() {
                left(setup, local);
            } else {
                local.at(Spot::InAlloc(AllocSpot::LoadCpu));
            }
        }
        _ => astray(setup, local),
    }
}

/// The CPU word leads to the CPU freelist, where the object's slab is current and the transaction id isn't spent
/// (`likely(slab == c->slab)`).
#[inline(always)]
fn own_loaded(setup: &Setup, local: &mut Local, answer: Answer)
    ensures { (means : Means) → local.new ≡ quick_to (setup_of setup.now means) local.old (spot_of Quick.LoadOwn) answer }
{
    let Answer::Word(word) = answer else {
        astray(setup, local);
        return;
    };
    let word = cpu_in(word);
    let frame = local.here().frame;
    local.set_cpu_word(word);
    if word.frame == frame && !is_spent(setup, word) {
        local.at(Spot::InFree(FreeSpot::LinkOwn));
    } else {
        local.at(Spot::InFree(FreeSpot::LoadSlab));
    }
}

/// The object leads to the CPU freelist's head.
#[inline(always)]
fn own_linked(setup: &Setup, local: &mut Local, answer: Answer)
    ensures { (means : Means) → local.new ≡ quick_to (setup_of setup.now means) local.old (spot_of Quick.LinkOwn) answer }
{
    match answer {
        Answer::Done => local.at(Spot::InFree(FreeSpot::Push)),
        _ => astray(setup, local),
    }
}

/// The object was put on the CPU freelist (`this_cpu_cmpxchg_double`), or not.
#[inline(always)]
fn pushed(setup: &Setup, local: &mut Local, answer: Answer)
    requires { (means : Means) × MayHear (setup_of setup.now means) local.old (spot_of Quick.Push) answer }
    ensures { (means : Means) → local.new ≡ quick_to (setup_of setup.now means) local.old (spot_of Quick.Push) answer }
{
    match answer {
        Answer::Won => {
            let here = local.here();
            local.loses();
            replied(
                setup,
                local,
                Reply::Freed(setup.address(here.cache, here.frame, here.index)),
            );
        }
        Answer::Lost(_) => local.at(Spot::InFree(FreeSpot::LoadOwn)),
        _ => astray(setup, local),
    }
}

/// Leads the worker to where the answer leads, with the reply that its call has by it and the replies that take no
/// step.
#[inline(always)]
pub fn lead(setup: &Setup, local: &mut Local, spot: Quick, answer: Answer)
    requires { (means : Means) × MayHear (setup_of setup.now means) local.old (spot_of spot) answer }
    ensures { (means : Means) → local.new ≡ quick_to (setup_of setup.now means) local.old (spot_of spot) answer }
{
    match spot {
        Quick::LoadCpu => cpu_loaded(setup, local, answer),
        Quick::LoadNext => next_loaded(setup, local, answer),
        Quick::Pop => popped(setup, local, answer),
        Quick::LoadOwn => own_loaded(setup, local, answer),
        Quick::LinkOwn => own_linked(setup, local, answer),
        Quick::Push => pushed(setup, local, answer),
    }
}
