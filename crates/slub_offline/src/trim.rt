//! `__kmem_cache_do_shrink`: the end of a trim, under the node lock.

ghost use Rattle.std.specs.Prelude.{◌≡◌, ◌<◌, length, None};
ghost use Rattle.slub_core.specs.Setup.{Means};
ghost use Rattle.slub_core.specs.Offline as core;
ghost use Rattle.slub_core.specs.Facts.{setup_of};
ghost use Rattle.slub_core.specs.Values.{values_of, rooms_of};
ghost use Rattle.slub_core.specs.Ways.{turned, changed};
ghost use Rattle.slub_offline.specs.Fits.{TrimFits, MayScan};

use crate::lists::promote;
use slub_core::guarded::Guarded;
use slub_core::setup::Setup;
use slub_core::spot::{Discard, DiscardSpot, Spot, TrimSpot};
use slub_core::step::{Answer, Step};
use slub_core::ways::bare_hand;
use slub_core::words::slab_in;
use slub_core::worker_local::Local;
use slub_core::{ops, values};
use slub_free_paths::lists::take_off;
use slub_trace::reply::Reply;
use slub_words::slab::SlabWord;

/// The step that a spot of it calls for.
pub fn trim_step(values: &[Guarded], local: &Local, spot: TrimSpot) -> Step
    ensures { result ≡ core.trim_step (values_of values.now) local.now spot }
{
    match spot {
        TrimSpot::LockTrim => ops::take_node(local),
        TrimSpot::ScanNode => ops::no_step(),
        TrimSpot::LoadScanned => ops::load_slab(scanned_slab(values, local)),
        TrimSpot::DropScanned => ops::no_step(),
        TrimSpot::GiveTrim => ops::give_node(local),
    }
}

/// The slab that the scan has come to.
fn scanned_slab(values: &[Guarded], local: &Local) -> u16
    ensures { result ≡ core.scanned_slab (values_of values.now) local.now }
{
    match values::node(values, local.cache()).get(local.scanned().len()) {
        Some(frame) => *frame,
        None => 0,
    }
}

/// Where the answer to that step leads, and the reply that the trim has by it.
pub fn trim_advance(local: &mut Local, spot: TrimSpot, answer: Answer) -> Option<Reply>
    requires { TrimFits local.old spot }
    ensures { turned local.new result ≡ core.trim_advance local.old spot answer }
{
    match (spot, answer) {
        (TrimSpot::LockTrim, Answer::Won) => {
            local.clear_scanned();
            local.at(Spot::InTrim(TrimSpot::ScanNode));
            None
        }
        (TrimSpot::LoadScanned, Answer::Word(x)) => {
            slab_scanned(local, slab_in(x));
            None
        }
        (TrimSpot::GiveTrim, Answer::Done) => {
            local.at(Spot::Between);
            Some(Reply::Trimmed(local.count()))
        }
        _ => None,
    }
}

/// An empty slab is to be dropped, of any other the free objects are noted.
fn slab_scanned(local: &mut Local, word: SlabWord)
    requires { length local.old.scanned < 4096 }
    ensures { local.new ≡ core.scanned_word local.old word }
{
    local.set_slab_word(word);
    if word.inuse == 0 {
        local.at(Spot::InTrim(TrimSpot::DropScanned));
    } else {
        local.push_scanned(word.objects.saturating_sub(word.inuse));
        local.at(Spot::InTrim(TrimSpot::ScanNode));
    }
}

/// What is done at once: the scan goes on, or puts the list in its new order; or an empty slab is taken off the list
/// and is in hand, to be discarded.
pub fn trim_at_once(setup: &Setup, values: &mut [Guarded], local: &mut Local, spot: TrimSpot)
    requires { MayScan (values_of values.old) local.old spot }
    ensures change { (means : Means) → changed values.new local.new None ≡ core.trim_at_once (setup_of setup.now means) (values_of values.old) local.old spot }
    ensures rooms { rooms_of values.new ≡ rooms_of values.old }
{
    match spot {
        TrimSpot::ScanNode => node_scanned(setup, values, local),
        TrimSpot::DropScanned => slab_dropped(setup, values, local),
        _ => {}
    }
}

/// The scan goes on where a slab is left; else those with few free objects come first.
fn node_scanned(setup: &Setup, values: &mut [Guarded], local: &mut Local)
    requires { MayScan (values_of values.old) local.old TrimSpot.ScanNode }
    ensures change { (means : Means) → changed values.new local.new None ≡ core.trim_at_once (setup_of setup.now means) (values_of values.old) local.old TrimSpot.ScanNode }
    ensures rooms { rooms_of values.new ≡ rooms_of values.old }
{
    if local.scanned().len() < values::node(values, local.cache()).len() {
        local.at(Spot::InTrim(TrimSpot::LoadScanned));
    } else {
        promote(values, local.cache(), local.scanned());
        local.at(Spot::InTrim(TrimSpot::GiveTrim));
    }
}

/// The empty slab is off the list and in hand.
fn slab_dropped(setup: &Setup, values: &mut [Guarded], local: &mut Local)
    requires { MayScan (values_of values.old) local.old TrimSpot.DropScanned }
    ensures change { (means : Means) → changed values.new local.new None ≡ core.trim_at_once (setup_of setup.now means) (values_of values.old) local.old TrimSpot.DropScanned }
    ensures rooms { rooms_of values.new ≡ rooms_of values.old }
{
    let frame = scanned_slab(values, local);
    take_off(values, local.cache(), frame);
    local.with_hand(bare_hand(frame));
    local.at(Spot::InDiscard(DiscardSpot::Unmake, Discard::FromTrim));
}
