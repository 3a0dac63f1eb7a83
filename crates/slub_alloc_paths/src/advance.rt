//! `slab_alloc_node`, `___slab_alloc`: where the answer of an allocation's step leads.

ghost use Rattle.std.specs.Prelude.{◌≡◌};
ghost use Rattle.slub_core.specs.Setup.{Means};
ghost use Rattle.slub_core.specs.Alloc.{alloc_advance};
ghost use Rattle.slub_core.specs.Facts.{setup_of};
ghost use Rattle.slub_core.specs.Ways.{turned};
ghost use Rattle.slub_alloc_paths.specs.Fits.{AllocFits};

use crate::{fast, fresh, install, list, node, own};
use slub_core::setup::Setup;
use slub_core::spot::AllocSpot;
use slub_core::step::Answer;
use slub_core::worker_local::Local;
use slub_trace::reply::Reply;

/// Leads the worker to where the answer of its step leads, and tells the reply that its call has by it.
#[inline(always)]
pub fn alloc_advance(
    setup: &Setup,
    local: &mut Local,
    spot: AllocSpot,
    answer: Answer,
) -> Option<Reply>
    requires { AllocFits setup.now.step local.old spot }
    ensures { (means : Means) → turned local.new result ≡ alloc_advance (setup_of setup.now means) local.old spot answer }
{
    match spot {
        AllocSpot::LoadCpu => fast::cpu_loaded(setup, local, answer),
        AllocSpot::LoadNext => fast::next_loaded(setup, local, answer),
        AllocSpot::Pop => fast::popped(setup, local, answer),
        AllocSpot::Detach => own::detached(local, answer),
        AllocSpot::LoadTaken => own::taken_loaded(local, answer),
        AllocSpot::TakeAll => own::all_taken(local, answer),
        AllocSpot::MarkFull => own::full_marked(local, answer),
        AllocSpot::TakeList => list::list_taken(local, answer),
        AllocSpot::FollowFront => list::front_followed(local, answer),
        AllocSpot::LoadKept => list::kept_loaded(local, answer),
        AllocSpot::FreezeKept => list::kept_frozen(local, answer),
        AllocSpot::LockNode => node::node_locked(local, answer),
        AllocSpot::PopNode => None,
        AllocSpot::LoadPopped => node::popped_loaded(local, answer),
        AllocSpot::FreezePopped => node::popped_frozen(local, answer),
        AllocSpot::Unlist => node::unlisted(local, answer),
        AllocSpot::GiveNode => node::node_given(local, answer),
        AllocSpot::LockPool => fresh::pool_locked(local, answer),
        AllocSpot::TakeRun => None,
        AllocSpot::GivePool => fresh::pool_given(local, answer),
        AllocSpot::GiveDry => fresh::dry_given(local, answer),
        AllocSpot::LinkNew(index) => fresh::new_linked(local, index, answer),
        AllocSpot::Make => fresh::made(local, answer),
        AllocSpot::LoadReady => install::ready_loaded(setup, local, answer),
        AllocSpot::LoadAgain => install::again_loaded(setup, local, answer),
        AllocSpot::DetachOther => install::other_detached(setup, local, answer),
        AllocSpot::Install => install::installed(setup, local, answer),
    }
}
