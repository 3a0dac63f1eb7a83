//! `flush_all_cpus_locked`, `slub_cpu_dead`: the next CPU of a trim, and the next cache of a flush.

ghost use Rattle.std.specs.Prelude.{◌≡◌};
ghost use Rattle.slub_core.specs.Setup.{Means};
ghost use Rattle.slub_core.specs.Offline as core;
ghost use Rattle.slub_core.specs.Facts.{setup_of};
ghost use Rattle.slub_core.specs.Ways.{turned};

use slub_core::setup::Setup;
use slub_core::spot::{OfflineSpot, Spot, Sweep, TrimSpot};
use slub_core::worker_local::Local;
use slub_trace::reply::Reply;

/// A trim goes on to the next CPU, and from the last one to the node list; a flush goes on to the next unchecked cache,
/// and ends after the last one.
pub fn next_swept(setup: &Setup, local: &mut Local, sweep: Sweep) -> Option<Reply>
    ensures { (means : Means) → turned local.new result ≡ core.next_swept (setup_of setup.now means) local.old sweep }
{
    match sweep {
        Sweep::Trimming => {
            trimmed_cpu(setup, local);
            None
        }
        Sweep::Flushing => flushed_cache(setup, local),
    }
}

/// The next CPU of a trim.
fn trimmed_cpu(setup: &Setup, local: &mut Local)
    ensures { (means : Means) → turned local.new None ≡ core.trimmed_cpu (setup_of setup.now means) local.old }
{
    let cpu = local.cpu();
    if u32::from(cpu) + 1 < setup.cpus() {
        local.set_cpu(cpu + 1);
        local.at(Spot::InOffline(OfflineSpot::LoadCurrent, Sweep::Trimming));
    } else {
        local.at(Spot::InTrim(TrimSpot::LockTrim));
    }
}

/// The next cache of a flush, which tells how many slabs it took after the last one.
fn flushed_cache(setup: &Setup, local: &mut Local) -> Option<Reply>
    ensures { (means : Means) → turned local.new result ≡ core.flushed_cache (setup_of setup.now means) local.old }
{
    let turn = local.turn();
    let plain = setup.plain();
    if plain.len().saturating_sub(turn) <= 1 {
        local.at(Spot::Between);
        return Some(Reply::Flushed(local.count()));
    }
    local.set_turn(turn + 1);
    local.set_cache(plain[turn + 1]);
    local.at(Spot::InOffline(OfflineSpot::LoadCurrent, Sweep::Flushing));
    None
}
