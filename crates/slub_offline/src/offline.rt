//! `flush_slab`, `__flush_cpu_slab`: putting away what a CPU has of a cache.

ghost use Rattle.std.specs.Prelude.{◌≡◌, ◌+◌, ◌≤◌};
ghost use Rattle.slub_core.specs.Setup.{Means};
ghost use Rattle.slub_core.specs.Offline as core;
ghost use Rattle.slub_core.specs.Local.{with_hand, hand_from};
ghost use Rattle.slub_core.specs.Alloc as alloc;
ghost use Rattle.slub_core.specs.Facts.{setup_of};
ghost use Rattle.slub_core.specs.Ways.{turned};
ghost use Rattle.slub_offline.specs.Fits.{OfflineFits, OfflineRoom};

use slub_core::ops;
use slub_core::setup::Setup;
use slub_core::spot::{Away, MoveSet, MoveSetSpot, OfflineSpot, Spot, Sweep};
use slub_core::step::{Answer, Step};
use slub_core::ways::{hand_from, raised_word, taken_string, way_of_away};
use slub_core::words::{cpu_in, list_in};
use slub_core::worker_local::Local;
use slub_cpu_partial::words::ListWord;
use slub_free_paths::sweep::next_swept;
use slub_trace::reply::Reply;
use slub_words::cpu::CpuWord;

/// The step that a spot of it calls for.
pub fn offline_step(setup: &Setup, local: &Local, spot: OfflineSpot) -> Step
    requires { OfflineFits setup.now.step local.now spot }
    ensures { (means : Means) → result ≡ core.offline_step (setup_of setup.now means) local.now spot }
{
    match spot {
        OfflineSpot::LoadCurrent => ops::load_cpu(local),
        OfflineSpot::DetachCurrent => ops::change_cpu(local, raised_word(setup, local, 0, 0)),
        OfflineSpot::TakeCurrent => ops::take_list(local),
    }
}

/// Where the answer to that step leads, and the reply that a flush has by it.
pub fn offline_advance(
    setup: &Setup,
    local: &mut Local,
    spot: OfflineSpot,
    sweep: Sweep,
    answer: Answer,
) -> Option<Reply>
    requires { OfflineRoom local.old spot }
    ensures { (means : Means) → turned local.new result ≡ core.offline_advance (setup_of setup.now means) local.old spot sweep answer }
{
    match (spot, answer) {
        (OfflineSpot::LoadCurrent, Answer::Word(x)) => {
            current_loaded(local, sweep, cpu_in(x));
            None
        }
        (OfflineSpot::DetachCurrent, Answer::Won) => {
            current_detached(local, sweep);
            None
        }
        (OfflineSpot::DetachCurrent, Answer::Lost(_)) => {
            local.at(Spot::InOffline(OfflineSpot::LoadCurrent, sweep));
            None
        }
        (OfflineSpot::TakeCurrent, Answer::Word(x)) => {
            list_swept(setup, local, sweep, list_in(x))
        }
        _ => None,
    }
}

/// The CPU word leads to its current slab, where it has one.
fn current_loaded(local: &mut Local, sweep: Sweep, word: CpuWord)
    ensures { local.new ≡ record local.old { cpu_word = word; spot = core.way_of_current sweep word } }
{
    local.set_cpu_word(word);
    if word.frame == 0 {
        local.at(Spot::InOffline(OfflineSpot::TakeCurrent, sweep));
    } else {
        local.at(Spot::InOffline(OfflineSpot::DetachCurrent, sweep));
    }
}

/// The slab that was current is in hand with the CPU freelist, to be put away.
fn current_detached(local: &mut Local, sweep: Sweep)
    requires { OfflineRoom local.old OfflineSpot.DetachCurrent }
    ensures { local.new ≡ record (with_hand local.old (hand_from local.old.cpu_word.frame local.old.cpu_word.head)) { count = local.old.count + core.if_flushing sweep 1; spot = alloc.way_of_away (hand_from local.old.cpu_word.frame local.old.cpu_word.head) (Away.ForSweep sweep) } }
{
    let word = local.cpu_word();
    let hand = hand_from(word.frame, word.head);
    local.with_hand(hand);
    local.set_count(local.count() + if_flushing(sweep, 1));
    local.at(way_of_away(hand, Away::ForSweep(sweep)));
}

/// So many in a flush.
fn if_flushing(sweep: Sweep, count: u16) -> u32
    ensures value { result ≡ core.if_flushing sweep count }
    ensures small { result ≤ count }
{
    match sweep {
        Sweep::Trimming => 0,
        Sweep::Flushing => u32::from(count),
    }
}

/// The slabs of the CPU's partial list are moved, where it had some.
fn list_swept(setup: &Setup, local: &mut Local, sweep: Sweep, list: ListWord) -> Option<Reply>
    requires { OfflineRoom local.old OfflineSpot.TakeCurrent }
    ensures { (means : Means) → turned local.new result ≡ core.list_swept (setup_of setup.now means) local.old sweep list }
{
    if list.count == 0 {
        return next_swept(setup, local, sweep);
    }
    local.set_string(Some(taken_string(list.front, list.count)));
    local.set_count(local.count() + if_flushing(sweep, list.count));
    local.at(Spot::InMoveSet(MoveSetSpot::LockMove, MoveSet::ForOffline(sweep)));
    None
}
