//! `slab_alloc_node`, `___slab_alloc`: the step that a spot of an allocation calls for.

ghost use Rattle.std.specs.Prelude.{◌≡◌};
ghost use Rattle.slub_core.specs.Setup.{Means};
ghost use Rattle.slub_core.specs.Alloc.{alloc_step, made_word};
ghost use Rattle.slub_core.specs.Facts.{setup_of};
ghost use Rattle.slub_alloc_paths.specs.Fits.{AllocFits};

use crate::words::{emptied_word, frozen_word, second_of, thawed_word, unlisted_word};
use slub_core::ops;
use slub_core::setup::Setup;
use slub_core::spot::AllocSpot;
use slub_core::step::Step;
use slub_core::ways::raised_word;
use slub_core::worker_local::Local;
use slub_words::slab::SlabWord;

/// The step that a spot calls for (`slab_alloc_node`, `___slab_alloc`).
#[inline(always)]
pub fn alloc_step(setup: &Setup, local: &Local, spot: AllocSpot) -> Step
    requires { AllocFits setup.now.step local.now spot }
    ensures { (means : Means) → result ≡ alloc_step (setup_of setup.now means) local.now spot }
{
    let hand = local.hand();
    let slab = local.slab_word();
    match spot {
        AllocSpot::LoadCpu => ops::load_cpu(local),
        AllocSpot::LoadNext => {
            let word = local.cpu_word();
            ops::load_pointer(
                setup,
                local.cache(),
                word.frame,
                word.head.saturating_sub(1),
            )
        }
        AllocSpot::Pop => {
            ops::change_cpu(
                local,
                raised_word(setup, local, local.cpu_word().frame, local.next()),
            )
        }
        AllocSpot::Detach => ops::change_cpu(local, raised_word(setup, local, 0, 0)),
        AllocSpot::LoadTaken => ops::load_slab(hand.frame),
        AllocSpot::TakeAll => ops::change_slab(local, hand.frame, emptied_word(slab)),
        AllocSpot::MarkFull => ops::change_slab(local, hand.frame, thawed_word(slab)),
        AllocSpot::TakeList => ops::take_list(local),
        AllocSpot::FollowFront => ops::load_link(local.string_or_none().front),
        AllocSpot::LoadKept => ops::load_slab(hand.frame),
        AllocSpot::FreezeKept => ops::change_slab(local, hand.frame, frozen_word(slab)),
        AllocSpot::LockNode => ops::take_node(local),
        AllocSpot::PopNode => ops::no_step(),
        AllocSpot::LoadPopped => ops::load_slab(hand.frame),
        AllocSpot::FreezePopped => ops::change_slab(local, hand.frame, frozen_word(slab)),
        AllocSpot::Unlist => ops::change_slab(local, hand.frame, unlisted_word(slab)),
        AllocSpot::GiveNode => ops::give_node(local),
        AllocSpot::LockPool => ops::take_pool(local),
        AllocSpot::TakeRun => ops::no_step(),
        AllocSpot::GivePool => ops::give_pool(local),
        AllocSpot::GiveDry => ops::give_pool(local),
        AllocSpot::LinkNew(index) => link_new(setup, local, index),
        AllocSpot::Make => ops::store_slab(local.run_or_none().frame, made_word(local)),
        AllocSpot::LoadReady => {
            ops::load_pointer(
                setup,
                local.cache(),
                hand.frame,
                hand.head.saturating_sub(1),
            )
        }
        AllocSpot::LoadAgain => ops::load_cpu(local),
        AllocSpot::DetachOther => ops::change_cpu(local, raised_word(setup, local, 0, 0)),
        AllocSpot::Install => {
            ops::change_cpu(
                local,
                raised_word(setup, local, hand.frame, second_of(hand)),
            )
        }
    }
}

/// Links the object of this index of the new slab to the next one, and the last one to none.
fn link_new(setup: &Setup, local: &Local, index: u16) -> Step
    ensures { (means : Means) → result ≡ alloc_step (setup_of setup.now means) local.now (AllocSpot.LinkNew index) }
{
    let run = local.run_or_none();
    let next = if u32::from(index) + 1 < u32::from(run.objects) {
        index + 2
    } else {
        0
    };
    ops::store_pointer(setup, local.cache(), run.frame, index, next)
}

/// The word of a new slab: all of its objects are in use.
fn made_word(local: &Local) -> SlabWord
    ensures { result ≡ made_word local.now }
{
    let objects = local.run_or_none().objects;
    SlabWord {
        head: 0,
        inuse: objects,
        objects,
        frozen: true,
        listed: false,
        cache: local.cache(),
    }
}
