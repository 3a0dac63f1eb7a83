//! `__unfreeze_partials`: moving a string of slabs to the node list, its empty slabs to the pool.

ghost use Rattle.std.specs.Prelude.{◌≡◌, ◌<◌, ◌^◌, ◌%◌, ◌-◌, ◌==◌, ◌&&◌, nat_le, length, if◌then◌else◌, Some, None};
ghost use Rattle.slub_core.specs.Setup.{Means};
ghost use Rattle.slub_core.specs.MoveSet as core;
ghost use Rattle.slub_core.specs.Alloc as alloc;
ghost use Rattle.slub_core.specs.Local.{at, goes, with_hand, bare_hand, string_of};
ghost use Rattle.slub_core.specs.Facts.{setup_of, cache_of};
ghost use Rattle.slub_core.specs.Values.{values_of, rooms_of};
ghost use Rattle.slub_core.specs.Ways.{turned, changed};
ghost use Rattle.slub_free_paths.specs.Fits.{MoveSetFits, PutsTail};

use crate::free::alone;
use crate::sweep::next_swept;
use slub_core::guarded::Guarded;
use slub_core::setup::Setup;
use slub_core::spot::{Discard, DiscardSpot, MoveSet, MoveSetSpot, Spot};
use slub_core::step::{Answer, Step};
use slub_core::ways::{bare_hand, has_enough, taken_string};
use slub_core::words::slab_in;
use slub_core::worker_local::Local;
use slub_core::{ops, values};
use slub_trace::reply::Reply;
use slub_words::slab::SlabWord;

/// The step that a spot of it calls for.
pub fn move_set_step(local: &Local, spot: MoveSetSpot) -> Step
    ensures { result ≡ core.move_set_step local.now spot }
{
    match spot {
        MoveSetSpot::LockMove => ops::take_node(local),
        MoveSetSpot::ChooseFront => ops::no_step(),
        MoveSetSpot::FollowSet => ops::load_link(local.string_or_none().front),
        MoveSetSpot::LoadMoved => ops::load_slab(local.hand().frame),
        MoveSetSpot::ListSlab => {
            ops::change_slab(local, local.hand().frame, listed_word(local.slab_word()))
        }
        MoveSetSpot::PutTail => ops::no_step(),
        MoveSetSpot::GiveMove => ops::give_node(local),
    }
}

/// The slab is marked as listed.
fn listed_word(word: SlabWord) -> SlabWord
    ensures { result ≡ core.listed_word word }
{
    SlabWord {
        listed: true,
        ..word
    }
}

/// Where the answer to that step leads, and the reply that a flush has by it.
pub fn move_set_advance(
    setup: &Setup,
    values: &[Guarded],
    local: &mut Local,
    spot: MoveSetSpot,
    set: MoveSet,
    answer: Answer,
) -> Option<Reply>
    requires { MoveSetFits local.old spot }
    ensures { (means : Means) → turned local.new result ≡ core.move_set_advance (setup_of setup.now means) (values_of values.now) local.old spot set answer }
{
    match (spot, answer) {
        (MoveSetSpot::LockMove, Answer::Won) => go(local, MoveSetSpot::ChooseFront, set),
        (MoveSetSpot::FollowSet, Answer::Word(x)) => front_followed(local, set, x),
        (MoveSetSpot::LoadMoved, Answer::Word(x)) => {
            slab_moved(setup, values, local, set, slab_in(x))
        }
        (MoveSetSpot::ListSlab, Answer::Won) => go(local, MoveSetSpot::PutTail, set),
        (MoveSetSpot::ListSlab, Answer::Lost(_)) => go(local, MoveSetSpot::LoadMoved, set),
        (MoveSetSpot::GiveMove, Answer::Done) => after_move(setup, local, set),
        _ => None,
    }
}

/// The worker goes to a spot of the move.
fn go(local: &mut Local, spot: MoveSetSpot, set: MoveSet) -> Option<Reply>
    ensures { turned local.new result ≡ goes (at local.old (Spot.InMoveSet spot set)) }
{
    local.at(Spot::InMoveSet(spot, set));
    None
}

/// The front slab is off the string, whose new front its link has told.
fn front_followed(local: &mut Local, set: MoveSet, x: u64) -> Option<Reply>
    requires { length local.old.hands < 2 }
    ensures { turned local.new result ≡ goes (record (with_hand local.old (bare_hand (string_of local.old).front)) { string = Some (alloc.taken_string (x % 2 ^ 16) ((string_of local.old).count - 1)); spot = Spot.InMoveSet MoveSetSpot.LoadMoved set }) }
{
    let string = local.string_or_none();
    local.with_hand(bare_hand(string.front));
    let front = (x % 65536) as u16;
    local.set_string(Some(taken_string(front, string.count.saturating_sub(1))));
    go(local, MoveSetSpot::LoadMoved, set)
}

/// An empty slab is discarded, where the list has enough without it.
fn slab_moved(
    setup: &Setup,
    values: &[Guarded],
    local: &mut Local,
    set: MoveSet,
    word: SlabWord,
) -> Option<Reply>
    ensures { turned local.new result ≡ goes (record local.old { slab_word = word; spot = (if (word.inuse == 0) && nat_le (cache_of setup.now local.old.cache).layout.min_partial (length (alloc.node_of (values_of values.now) local.old)) then Spot.InDiscard DiscardSpot.Unmake (Discard.FromMove set) else Spot.InMoveSet MoveSetSpot.ListSlab set) }) }
{
    let enough = has_enough(setup, values, local.cache());
    local.set_slab_word(word);
    if word.inuse == 0 && enough {
        local.at(Spot::InDiscard(DiscardSpot::Unmake, Discard::FromMove(set)));
        None
    } else {
        go(local, MoveSetSpot::ListSlab, set)
    }
}

/// A free goes on with the slab that it has in hand, a sweep with the next CPU or cache.
fn after_move(setup: &Setup, local: &mut Local, set: MoveSet) -> Option<Reply>
    ensures { (means : Means) → turned local.new result ≡ core.after_move (setup_of setup.now means) local.old set }
{
    match set {
        MoveSet::ForFree => {
            alone(local);
            None
        }
        MoveSet::ForOffline(sweep) => next_swept(setup, local, sweep),
    }
}

/// What is done at once: the front slab is taken off the string, or the slab in hand goes to the tail of the node list
/// (`add_partial`).
pub fn move_set_at_once(values: &mut [Guarded], local: &mut Local, spot: MoveSetSpot, set: MoveSet)
    requires fits { MoveSetFits local.old spot }
    requires room { PutsTail values.old local.old spot }
    ensures change { changed values.new local.new None ≡ core.move_set_at_once (values_of values.old) local.old spot set }
    ensures rooms { rooms_of values.new ≡ rooms_of values.old }
{
    match spot {
        MoveSetSpot::ChooseFront => front_taken(local, set),
        MoveSetSpot::PutTail => {
            values::push_tail(values, local.cache(), local.hand().frame);
            local.less_hand();
            local.at(Spot::InMoveSet(MoveSetSpot::ChooseFront, set));
        }
        _ => {}
    }
}

/// The last slab of the string is taken off at once, since nothing follows.
fn front_taken(local: &mut Local, set: MoveSet)
    requires { length local.old.hands < 2 }
    ensures { local.new ≡ core.front_taken local.old set local.old.string }
{
    match local.string() {
        None => local.at(Spot::InMoveSet(MoveSetSpot::GiveMove, set)),
        Some(string) => {
            if string.count == 1 {
                local.with_hand(bare_hand(string.front));
                local.set_string(None);
                local.at(Spot::InMoveSet(MoveSetSpot::LoadMoved, set));
            } else {
                local.at(Spot::InMoveSet(MoveSetSpot::FollowSet, set));
            }
        }
    }
}
