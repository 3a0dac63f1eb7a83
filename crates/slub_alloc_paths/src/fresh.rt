//! `new_slab`, `allocate_slab`: a new slab.

ghost use Rattle.std.specs.Prelude.{◌≡◌};
ghost use Rattle.slub_core.specs.Setup.{Setup};
ghost use Rattle.slub_core.specs.Alloc.{alloc_advance};
ghost use Rattle.slub_core.specs.Ways.{turned};
ghost use Rattle.slub_alloc_paths.specs.Fits.{HasHand};

use slub_core::spot::{AllocSpot, Spot};
use slub_core::step::Answer;
use slub_core::ways::hand_from;
use slub_core::worker_local::Local;
use slub_trace::reply::Reply;

/// The pool's lock was taken (`alloc_slab_page`), or another worker has it.
pub fn pool_locked(local: &mut Local, answer: Answer) -> Option<Reply>
    ensures { (m : Setup) → turned local.new result ≡ alloc_advance m local.old AllocSpot.LockPool answer }
{
    match answer {
        Answer::Won => {
            local.at(Spot::InAlloc(AllocSpot::TakeRun));
            None
        }
        _ => None,
    }
}

/// The pool's lock was given back, with a run in hand.
pub fn pool_given(local: &mut Local, answer: Answer) -> Option<Reply>
    ensures { (m : Setup) → turned local.new result ≡ alloc_advance m local.old AllocSpot.GivePool answer }
{
    match answer {
        Answer::Done => {
            local.at(Spot::InAlloc(AllocSpot::LinkNew(0)));
            None
        }
        _ => None,
    }
}

/// The pool's lock was given back, since no run was there.
pub fn dry_given(local: &mut Local, answer: Answer) -> Option<Reply>
    ensures { (m : Setup) → turned local.new result ≡ alloc_advance m local.old AllocSpot.GiveDry answer }
{
    match answer {
        Answer::Done => {
            local.at(Spot::Between);
            None
        }
        _ => None,
    }
}

/// The object of this index was linked (`allocate_slab`).
pub fn new_linked(local: &mut Local, index: u16, answer: Answer) -> Option<Reply>
    ensures { (m : Setup) → turned local.new result ≡ alloc_advance m local.old (AllocSpot.LinkNew index) answer }
{
    match answer {
        Answer::Done => {
            if u32::from(index) + 1 < u32::from(local.run_or_none().objects) {
                local.at(Spot::InAlloc(AllocSpot::LinkNew(index + 1)));
            } else {
                local.at(Spot::InAlloc(AllocSpot::Make));
            }
            None
        }
        _ => None,
    }
}

/// The run is a slab (`new_slab`).
pub fn made(local: &mut Local, answer: Answer) -> Option<Reply>
    requires { HasHand local.old }
    ensures { (m : Setup) → turned local.new result ≡ alloc_advance m local.old AllocSpot.Make answer }
{
    match answer {
        Answer::Done => {
            let frame = local.run_or_none().frame;
            local.with_hand(hand_from(frame, 1));
            local.set_run(None);
            local.at(Spot::InAlloc(AllocSpot::LoadReady));
            None
        }
        _ => None,
    }
}
