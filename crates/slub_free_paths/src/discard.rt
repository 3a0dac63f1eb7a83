//! `discard_slab`, `__free_slab`: discarding an empty slab in hand, under the node lock.

ghost use Rattle.std.specs.Prelude.{◌≡◌, None};
ghost use Rattle.slub_core.specs.Setup.{Means};
ghost use Rattle.slub_object_layout.specs.Layout.{order_for};
ghost use Rattle.slub_core.specs.Discard as core;
ghost use Rattle.slub_core.specs.Offline.{if_trimming};
ghost use Rattle.slub_core.specs.Local.{goes};
ghost use Rattle.slub_core.specs.Facts.{setup_of, cache_of};
ghost use Rattle.slub_core.specs.Values.{values_of, rooms_of};
ghost use Rattle.slub_core.specs.Ways.{changed};
ghost use Rattle.slub_free_paths.specs.Fits.{DiscardFits, PutsRun};

use slub_core::guarded::Guarded;
use slub_core::local::FrameRun;
use slub_core::setup::Setup;
use slub_core::spot::{
    Away, Discard, DiscardSpot, FreeSpot, MoveSet, MoveSetSpot, PutAwaySpot, Spot, Sweep, TrimSpot,
};
use slub_core::step::{Answer, Step};
use slub_core::worker_local::Local;
use slub_core::{ops, values};
use slub_words::slab::SlabWord;

/// The word of a frame that is no first frame of an unchecked slab.
const NO_SLAB_WORD: SlabWord = SlabWord {
    head: 0,
    inuse: 0,
    objects: 0,
    frozen: false,
    listed: false,
    cache: 0,
};

/// The step that a spot of it calls for.
pub fn discard_step(local: &Local, spot: DiscardSpot) -> Step
    ensures { result ≡ core.discard_step local.now spot }
{
    match spot {
        DiscardSpot::Unmake => ops::store_slab(local.hand().frame, NO_SLAB_WORD),
        DiscardSpot::LockDiscard => ops::take_pool(local),
        DiscardSpot::PutRun => ops::no_step(),
        DiscardSpot::GiveDiscard => ops::give_pool(local),
    }
}

/// Where the answer to that step leads.
pub fn discard_advance(
    setup: &Setup,
    local: &mut Local,
    spot: DiscardSpot,
    discard: Discard,
    answer: Answer,
)
    requires { DiscardFits local.old spot discard }
    ensures { (means : Means) → goes local.new ≡ core.discard_advance (setup_of setup.now means) local.old spot discard answer }
{
    match (spot, answer) {
        (DiscardSpot::Unmake, Answer::Done) => unmade(setup, local, discard),
        (DiscardSpot::LockDiscard, Answer::Won) => {
            local.at(Spot::InDiscard(DiscardSpot::PutRun, discard));
        }
        (DiscardSpot::GiveDiscard, Answer::Done) => local.at(way_of_discarded(discard)),
        _ => {}
    }
}

/// The slab is a run of frames in hand.
fn unmade(setup: &Setup, local: &mut Local, discard: Discard)
    requires { DiscardFits local.old DiscardSpot.Unmake discard }
    ensures { (means : Means) → goes local.new ≡ core.discard_advance (setup_of setup.now means) local.old DiscardSpot.Unmake discard Answer.Done }
{
    let objects = local.slab_word().objects;
    let run = FrameRun {
        frame: local.hand().frame,
        order: order_for(setup, local.cache(), objects),
        objects,
    };
    local.less_hand();
    local.set_run(Some(run));
    local.set_count(local.count() + counts_for(discard));
    local.at(Spot::InDiscard(DiscardSpot::LockDiscard, discard));
}

/// The order of a slab of so many objects (`oo_order`).
fn order_for(setup: &Setup, cache: u8, objects: u16) -> u32
    ensures { result ≡ order_for (cache_of setup.now cache).layout objects }
{
    let layout = setup.layout(cache);
    if u32::from(objects) == layout.objects {
        layout.order
    } else {
        layout.min_order
    }
}

/// 1 where the slab is one that a trim tells of.
fn counts_for(discard: Discard) -> u32
    ensures { result ≡ core.counts_for discard }
{
    match discard {
        Discard::FromAway(Away::ForSweep(sweep)) => if_trimming(sweep),
        Discard::FromMove(MoveSet::ForOffline(sweep)) => if_trimming(sweep),
        Discard::FromTrim => 1,
        Discard::FromAway(Away::ForInstall) => 0,
        Discard::FromAway(Away::ForSpent) => 0,
        Discard::FromFree => 0,
        Discard::FromMove(MoveSet::ForFree) => 0,
    }
}

/// 1 in a trim.
fn if_trimming(sweep: Sweep) -> u32
    ensures { result ≡ if_trimming sweep 1 }
{
    match sweep {
        Sweep::Trimming => 1,
        Sweep::Flushing => 0,
    }
}

/// Where a discarded slab leads to.
fn way_of_discarded(discard: Discard) -> Spot
    ensures { result ≡ core.way_of_discarded discard }
{
    match discard {
        Discard::FromAway(away) => Spot::InPutAway(PutAwaySpot::GiveAway, away),
        Discard::FromFree => Spot::InFree(FreeSpot::GiveFree),
        Discard::FromMove(move_set) => Spot::InMoveSet(MoveSetSpot::ChooseFront, move_set),
        Discard::FromTrim => Spot::InTrim(TrimSpot::ScanNode),
    }
}

/// What is done at once: the frames of the run come back to the pool (`__free_pages`).
pub fn discard_at_once(
    values: &mut [Guarded],
    local: &mut Local,
    spot: DiscardSpot,
    discard: Discard,
)
    requires { PutsRun values.old local.old spot }
    ensures change { changed values.new local.new None ≡ core.discard_at_once (values_of values.old) local.old spot discard }
    ensures rooms { rooms_of values.new ≡ rooms_of values.old }
{
    if let DiscardSpot::PutRun = spot {
        values::put_run(values, local.run_or_none());
        local.set_run(None);
        local.at(Spot::InDiscard(DiscardSpot::GiveDiscard, discard));
    }
}
