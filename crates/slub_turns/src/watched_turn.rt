//! The turn of one worker, told to a watcher while it is made.

ghost use Rattle.std.specs.Prelude.{◌≡◌, false, [], ◌∷◌, length};
ghost use Rattle.std.specs.List.{FoldsTo};
ghost use Rattle.slub_core.specs.Setup.{Means};
ghost use Rattle.slub_core.specs.Local.{noted};
ghost use Rattle.slub_core.specs.Run.{turn};
ghost use Rattle.slub_core.specs.Steps as core;
ghost use Rattle.slub_core.specs.Facts.{setup_of};
ghost use Rattle.slub_core.specs.Values.{values_of, rooms_of};
ghost use Rattle.slub_core.specs.Ways.{changed};
ghost use Rattle.slub_checked_paths.specs.Slabs as slabs;
ghost use Rattle.slub_turns.specs.Fits.{AtOnceFits, HasRooms, PickFits};
ghost use Rattle.slub_turns.specs.Happenings.{Changing, Changed, Rests, settling_told, step_told, happenings_of};
ghost use Rattle.slub_turns.specs.SettledFits.{SettledFits};
ghost use Rattle.slub_turns.specs.System.{alone, picked_alone, IsTableFor, FitsAlone, LeadsAlone};

use crate::advance::advance_at;
use crate::at_once::{at_once, is_at_once, is_refused, was_refused};
use crate::begin::{begin, rest};
use crate::step::step_at;
use crate::watch::Watch;
use slub_core::guarded::Guarded;
use slub_core::setup::Setup;
use slub_core::worker_local::Local;
use slub_schedule::table::Table;
use slub_trace::reply::Reply;

/// What is done at once where the worker stands, told before and after it.
fn watched_change<W: Watch>(
    setup: &Setup,
    values: &mut [Guarded],
    local: &mut Local,
    watch: &mut W,
) -> Option<Reply>
    requires { AtOnceFits values.old local.old local.old.spot }
    ensures change { (means : Means) → changed values.new local.new result ≡ core.at_once (setup_of setup.now means) (slabs.is_refused result) (values_of values.old) local.old local.old.spot }
    ensures rooms { rooms_of values.new ≡ rooms_of values.old }
    ensures told { FoldsTo (W.hears setup.now) watch.old (Changing (values_of values.old) local.old ∷ Changed (values_of values.new) local.new result ∷ []) watch.new }
{
    watch.changing(setup, values, local);
    let spot = local.spot();
    let reply = at_once(setup, values, local, spot);
    watch.changed(setup, values, local, reply);
    reply
}

/// As `settle` of `at_once`: what is done at once after this reply is done, each change told before and after it.
fn watched_settle<W: Watch>(
    setup: &Setup,
    values: &mut [Guarded],
    local: &mut Local,
    reply: Option<Reply>,
    watch: &mut W,
) -> bool
    requires { (means : Means) × SettledFits (setup_of setup.now means) values.old (changed values.old local.old reply) }
    ensures change { (means : Means) → let c = core.settled (setup_of setup.now means) result (changed values.old local.old reply) in (values_of values.new ≡ c.value) × (local.new ≡ noted c.local c.reply) }
    ensures rooms { rooms_of values.new ≡ rooms_of values.old }
    ensures told { (means : Means) → FoldsTo (W.hears setup.now) watch.old (settling_told (setup_of setup.now means) result (changed values.old local.old reply)) watch.new }
{
    local.noted(reply);
    if !is_at_once(local.spot()) {
        return false;
    }
    let first = watched_change(setup, values, local, watch);
    local.noted(first);
    if !is_at_once(local.spot()) {
        return is_refused(first);
    }
    let second = watched_change(setup, values, local, watch);
    local.noted(second);
    was_refused(first, second)
}

/// As `rest` of `begin`: the end of the turn, which is told.
fn watched_rest<W: Watch>(setup: &Setup, values: &[Guarded], local: &mut Local, watch: &mut W)
    ensures rested { (means : Means) → local.new ≡ core.rested (setup_of setup.now means) local.old }
    ensures told { W.hears setup.now watch.old (Rests (values_of values.now) (length local.old.done) local.new) watch.new }
{
    let before = local.answers().len();
    rest(setup, local);
    watch.rested(setup, values, before, local);
}

/// The turn of a worker that has begun its call, told while it is made. Whether memory was refused in it.
fn watched_step<W: Watch>(
    setup: &Setup,
    table: &mut Table,
    values: &mut [Guarded],
    local: &mut Local,
    watch: &mut W,
) -> bool
    requires table { IsTableFor setup.now table.old }
    requires fits { FitsAlone setup.now table.old values.old local.old }
    ensures turned { LeadsAlone setup.now result table.old values.old local.old table.new values.new local.new }
    ensures table { IsTableFor setup.now table.new }
    ensures rooms { rooms_of values.new ≡ rooms_of values.old }
    ensures told { (means : Means) → FoldsTo (W.hears setup.now) watch.old (step_told (setup_of setup.now means) result (alone table.old values.old local.old) local.old) watch.new }
{
    let spot = local.spot();
    let step = step_at(setup, values, local, spot);
    let answer = table.apply(step);
    watch.stepped(setup, values, local, step, answer);
    let reply = advance_at(setup, values, local, spot, answer);
    watch.advanced(setup, local, reply);
    let refused = watched_settle(setup, values, local, reply, watch);
    watched_rest(setup, values, local, watch);
    refused
}

/// As `turn_of` of `turn`, where the call that begins with it is no try: the turn of a worker. The watcher is told what
/// comes about in it, while it is made. Whether memory was refused in it.
pub fn watched_turn<W: Watch>(
    setup: &Setup,
    table: &mut Table,
    values: &mut [Guarded],
    local: &mut Local,
    watch: &mut W,
) -> bool
    requires table { IsTableFor setup.now table.old }
    requires fits { (means : Means) × HasRooms (setup_of setup.now means) (rooms_of values.old) × PickFits (setup_of setup.now means) (alone table.old values.old local.old) (picked_alone false) }
    ensures turned { (means : Means) → alone table.new values.new local.new ≡ turn (setup_of setup.now means) (alone table.old values.old local.old) (record { worker = 0; refused = result; tries = false }) }
    ensures table { IsTableFor setup.now table.new }
    ensures rooms { rooms_of values.new ≡ rooms_of values.old }
    ensures told { (means : Means) → FoldsTo (W.hears setup.now) watch.old (happenings_of (setup_of setup.now means) result (alone table.old values.old local.old) 0) watch.new }
{
    begin(setup, local, false);
    watch.begins(setup, local);
    watched_step(setup, table, values, local, watch)
}
