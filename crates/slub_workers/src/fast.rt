//! A try of the fast path.

ghost use Rattle.std.specs.Prelude.{◌≡◌, ℕ, true, false, Some};
ghost use Rattle.slub_core.specs.declared.call.CallKind.TheVariants.{Alloc};
ghost use Rattle.slub_core.specs.Calls.{call_kind, call_cache};
ghost use Rattle.slub_core.specs.Facts.{cache_of};
ghost use Rattle.slub_workers.specs.Rule.{setup_in};
ghost use Rattle.slub_workers.specs.Tables.{begun_at, table_of};
ghost use Rattle.slub_workers.specs.Workers.{MayTurnAt, worker_in};

use crate::shared::Shared;
use crate::worker::Worker;
use slub_core::call::Call;
use slub_core::setup::Setup;
use slub_core::spot::Spot;
use slub_core::step::Answer;
use slub_core::ways::is_spent;
use slub_turns::quick::Quick;

/// What a try of the fast path answers.
#[derive(Clone, Copy, Debug, PartialEq, Eq)]
pub enum Fast {
    /// The object at this address, in bytes. It is the reply to the worker's call.
    Given(u32),
    /// The CPU word, which it loaded, has no free object.
    Empty(u64),
    /// The CPU word had become this one when the object was to be taken. Nothing has changed.
    Moved(u64),
    /// The CPU word has this transaction id, which is spent.
    IdsSpent(u32),
}

/// Whether the call allocates an object of a cache that isn't checked.
#[inline(always)]
fn is_plain_alloc(setup: &Setup, call: Call) -> bool
    ensures yes { result ≡ true → (cache : ℕ) × (call_kind call ≡ Alloc) × (call_cache call ≡ Some cache) × ((cache_of setup.now cache).checks ≡ false) }
    ensures no { result ≡ false → (cache : ℕ) → call_kind call ≡ Alloc → call_cache call ≡ Some cache → (cache_of setup.now cache).checks ≡ true }
{
    match call {
        Call::Alloc {
            cache: Some(cache),
            ..
        } => !setup.checks(cache),
        _ => false,
    }
}

impl Worker {
    ghost use Rattle.slub_workers.specs.Try.{MayTry, HasTried};

    /// Whether the worker's next call is one that it may try.
    #[inline(always)]
    pub fn may_try(&self, shared: &Shared) -> bool
        ensures yes { result ≡ true → MayTry (setup_in (begun_at shared.now)) self.now.1.local }
        ensures no { result ≡ false → ¬ MayTry (setup_in (begun_at shared.now)) self.now.1.local }
    {
        let local = &self.standing.local;
        if let Spot::Between = local.spot() {
            return local.has_call() && is_plain_alloc(&shared.setup, local.call());
        }
        false
    }

    /// Tries the worker's next call, an allocation, by the fast path alone (`slab_alloc_node`): one step where the CPU
    /// word has no object or a spent id, and three where it has one; no lock, no waiting, no memory. Without an object
    /// the call stays the worker's next one.
    pub fn try_alloc_fast(&mut self, shared: &Shared) -> Fast
        requires seat { MayTurnAt (begun_at shared.now) (table_of shared.now) self.old }
        requires alloc { MayTry (setup_in (begun_at shared.now)) self.old.1.local }
        ensures seat { MayTurnAt (begun_at shared.now) (table_of shared.now) self.new }
        ensures number { worker_in self.new ≡ worker_in self.old }
        ensures tried { (may : MayTry (setup_in (begun_at shared.now)) self.old.1.local) → HasTried (begun_at shared.now) may.cache self.old.1 result self.new.1 }
    {
        let (_, answer) = self.try_first(shared);
        let Answer::Word(loaded) = answer else {
            unreachable!()
        };
        let word = self.standing.local.cpu_word();
        let cache = self.standing.local.cache();
        if is_spent(&shared.setup, word) {
            return Fast::IdsSpent(word.tid);
        }
        if word.head == 0 {
            return Fast::Empty(loaded);
        }
        let _ = self.try_next(shared, Quick::LoadNext);
        let (_, answer) = self.try_next(shared, Quick::Pop);
        if let Answer::Lost(found) = answer {
            return Fast::Moved(found);
        }
        Fast::Given(shared.setup.address(cache, word.frame, word.head - 1))
    }
}
