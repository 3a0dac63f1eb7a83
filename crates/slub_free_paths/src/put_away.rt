//! `deactivate_slab`: putting away a slab in hand with its chain.

ghost use Rattle.std.specs.Prelude.{◌≡◌, ℕ, ◌==◌, ◌&&◌, ◌||◌, not, if◌then◌else◌, false, None};
ghost use Rattle.slub_core.specs.Setup.{Means};
ghost use Rattle.slub_core.specs.PutAway as core;
ghost use Rattle.slub_core.specs.World.{LockValue};
ghost use Rattle.slub_core.specs.Local.{goes, hand_of};
ghost use Rattle.slub_core.specs.Facts.{setup_of};
ghost use Rattle.slub_core.specs.Values.{values_of, rooms_of};
ghost use Rattle.slub_core.specs.Ways.{changed};
ghost use Rattle.slub_free_paths.specs.Fits.{PutAwayFits, PutsAway};

use slub_core::guarded::Guarded;
use slub_core::local::Hand;
use slub_core::setup::Setup;
use slub_core::spot::{AllocSpot, Away, Discard, DiscardSpot, OfflineSpot, PutAwaySpot, Spot};
use slub_core::step::{Answer, Step};
use slub_core::ways::{bare_hand, has_enough, reached, walked_on, way_of_away};
use slub_core::words::slab_in;
use slub_core::worker_local::Local;
use slub_core::{ops, values};
use slub_words::slab::SlabWord;

/// The step that a spot of it calls for.
pub fn put_away_step(setup: &Setup, values: &[Guarded], local: &Local, spot: PutAwaySpot) -> Step
    ensures { (means : Means) → result ≡ core.put_away_step (setup_of setup.now means) (values_of values.now) local.now spot }
{
    let hand = local.hand();
    match spot {
        PutAwaySpot::WalkChain => {
            let index = reached(hand).saturating_sub(1);
            ops::load_pointer(setup, local.cache(), hand.frame, index)
        }
        PutAwaySpot::LockAway => ops::take_node(local),
        PutAwaySpot::LoadAway => ops::load_slab(hand.frame),
        PutAwaySpot::LinkLast => {
            let index = hand.last.saturating_sub(1);
            ops::store_pointer(
                setup,
                local.cache(),
                hand.frame,
                index,
                local.slab_word().head,
            )
        }
        PutAwaySpot::Unfreeze => {
            let enough = has_enough(setup, values, local.cache());
            ops::change_slab(local, hand.frame, unfrozen_word(local, enough))
        }
        PutAwaySpot::PutNode => ops::no_step(),
        PutAwaySpot::GiveAway => ops::give_node(local),
    }
}

/// The slab word with the chain in hand before the slab's own freelist, unfrozen; it is marked as listed where it has
/// a free object and isn't to be discarded.
fn unfrozen_word(local: &Local, enough: bool) -> SlabWord
    ensures { result ≡ record local.now.slab_word {
      head = core.head_away (hand_of local.now) local.now.slab_word;
      inuse = core.inuse_away (hand_of local.now) local.now.slab_word;
      frozen = false;
      listed = not ((core.head_away (hand_of local.now) local.now.slab_word == 0) || ((core.inuse_away (hand_of local.now) local.now.slab_word == 0) && enough));
    } }
{
    let head = head_away(local);
    let inuse = inuse_away(local);
    SlabWord {
        head,
        inuse,
        frozen: false,
        listed: !(head == 0 || (inuse == 0 && enough)),
        ..local.slab_word()
    }
}

/// The head of the slab that is put away: the chain in hand comes before the slab's own freelist.
fn head_away(local: &Local) -> u16
    ensures { result ≡ core.head_away (hand_of local.now) local.now.slab_word }
{
    let hand = local.hand();
    if hand.head == 0 {
        local.slab_word().head
    } else {
        hand.head
    }
}

/// How many of its objects are in use then.
fn inuse_away(local: &Local) -> u16
    ensures { result ≡ core.inuse_away (hand_of local.now) local.now.slab_word }
{
    local.slab_word().inuse.saturating_sub(local.hand().length)
}

/// Where the answer to that step leads.
pub fn put_away_advance(
    setup: &Setup,
    values: &[Guarded],
    local: &mut Local,
    spot: PutAwaySpot,
    away: Away,
    answer: Answer,
)
    requires { PutAwayFits local.old spot }
    ensures { (means : Means) → goes local.new ≡ core.put_away_advance (setup_of setup.now means) (values_of values.now) local.old spot away answer }
{
    match (spot, answer) {
        (PutAwaySpot::WalkChain, Answer::Word(x)) => chain_walked(setup, local, away, x),
        (PutAwaySpot::LockAway, Answer::Won) => {
            local.at(Spot::InPutAway(PutAwaySpot::LoadAway, away));
        }
        (PutAwaySpot::LoadAway, Answer::Word(x)) => {
            local.set_slab_word(slab_in(x));
            local.at(way_of_end(local.hand(), away));
        }
        (PutAwaySpot::LinkLast, Answer::Done) => {
            local.at(Spot::InPutAway(PutAwaySpot::Unfreeze, away));
        }
        (PutAwaySpot::Unfreeze, Answer::Won) => unfrozen(setup, values, local, away),
        (PutAwaySpot::Unfreeze, Answer::Lost(_)) => {
            local.at(Spot::InPutAway(PutAwaySpot::LoadAway, away));
        }
        (PutAwaySpot::GiveAway, Answer::Done) => local.at(way_of_put(away)),
        _ => {}
    }
}

/// The walk has found what an object leads to: nothing, or one object more.
fn chain_walked(setup: &Setup, local: &mut Local, away: Away, x: u64)
    requires { PutAwayFits local.old PutAwaySpot.WalkChain }
    ensures { (means : Means) → (value : ℕ → LockValue) → goes local.new ≡ core.put_away_advance (setup_of setup.now means) value local.old PutAwaySpot.WalkChain away (Answer.Word x) }
{
    let hand = local.hand();
    let index = reached(hand).saturating_sub(1);
    let hand = walked_on(hand, setup.found_at(local.cache(), hand.frame, index, x));
    local.set_hand(hand);
    local.at(way_of_away(hand, away));
}

/// The end of the chain in hand is stored, where there is one.
fn way_of_end(hand: Hand, away: Away) -> Spot
    ensures { result ≡ core.way_of_end hand away }
{
    if hand.head == 0 {
        Spot::InPutAway(PutAwaySpot::Unfreeze, away)
    } else {
        Spot::InPutAway(PutAwaySpot::LinkLast, away)
    }
}

/// A slab with no free object leaves the hand, an empty one that isn't needed is discarded, any other goes to the list.
fn unfrozen(setup: &Setup, values: &[Guarded], local: &mut Local, away: Away)
    ensures { (means : Means) → local.new ≡ core.unfrozen (setup_of setup.now means) (values_of values.now) local.old away }
{
    let is_to_discard = inuse_away(local) == 0 && has_enough(setup, values, local.cache());
    if head_away(local) == 0 {
        local.less_hand();
        local.at(Spot::InPutAway(PutAwaySpot::GiveAway, away));
    } else {
        local.set_hand(bare_hand(local.hand().frame));
        local.at(way_of_unfrozen(is_to_discard, away));
    }
}

/// To the pool, or to the node list.
fn way_of_unfrozen(is_to_discard: bool, away: Away) -> Spot
    ensures { result ≡ (if is_to_discard then Spot.InDiscard DiscardSpot.Unmake (Discard.FromAway away) else Spot.InPutAway PutAwaySpot.PutNode away) }
{
    if is_to_discard {
        Spot::InDiscard(DiscardSpot::Unmake, Discard::FromAway(away))
    } else {
        Spot::InPutAway(PutAwaySpot::PutNode, away)
    }
}

/// Where a slab that was put away leads to.
fn way_of_put(away: Away) -> Spot
    ensures { result ≡ core.way_of_put away }
{
    match away {
        Away::ForInstall => Spot::InAlloc(AllocSpot::LoadAgain),
        Away::ForSpent => Spot::Between,
        Away::ForSweep(sweep) => Spot::InOffline(OfflineSpot::TakeCurrent, sweep),
    }
}

/// What is done at once: the slab goes to the head of the node list, or to its tail where its own freelist wasn't
/// empty (`add_partial`).
pub fn put_away_at_once(values: &mut [Guarded], local: &mut Local, spot: PutAwaySpot, away: Away)
    requires { PutsAway values.old local.old spot }
    ensures change { changed values.new local.new None ≡ core.put_away_at_once (values_of values.old) local.old spot away }
    ensures rooms { rooms_of values.new ≡ rooms_of values.old }
{
    if let PutAwaySpot::PutNode = spot {
        let frame = local.hand().frame;
        if local.slab_word().head == 0 {
            values::push_head(values, local.cache(), frame);
        } else {
            values::push_tail(values, local.cache(), frame);
        }
        local.less_hand();
        local.at(Spot::InPutAway(PutAwaySpot::GiveAway, away));
    }
}
