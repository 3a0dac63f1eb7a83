//! Profile, with no function of `mm/slub.c`: writing and reading a word of an object of an
//! unchecked cache.

ghost use Rattle.std.specs.Prelude.{◌≡◌, ℕ};
ghost use Rattle.slub_core.specs.Setup.{Means};
ghost use Rattle.slub_core.specs.World.{LockValue};
ghost use Rattle.slub_core.specs.Steps as core;
ghost use Rattle.slub_core.specs.Facts.{setup_of};
ghost use Rattle.slub_core.specs.Ways.{turned};
ghost use Rattle.slub_free_paths.specs.Fits.{UseFits};

use slub_core::call::{Call, CallKind};
use slub_core::ops;
use slub_core::setup::Setup;
use slub_core::spot::Spot;
use slub_core::step::{Answer, Step};
use slub_core::worker_local::Local;
use slub_trace::reply::Reply;

/// The step of a write.
#[inline(always)]
pub fn write_step(setup: &Setup, local: &Local) -> Step
    requires { UseFits local.now CallKind.Write }
    ensures { (means : Means) → (value : ℕ → LockValue) → result ≡ core.step_at (setup_of setup.now means) value local.now Spot.WriteWord }
{
    match local.call() {
        Call::Write { word, value, .. } => ops::store_word(setup, local, word, value),
        _ => unreachable!(),
    }
}

/// The step of a read.
#[inline(always)]
pub fn read_step(setup: &Setup, local: &Local) -> Step
    requires { UseFits local.now CallKind.Read }
    ensures { (means : Means) → (value : ℕ → LockValue) → result ≡ core.step_at (setup_of setup.now means) value local.now Spot.ReadWord }
{
    match local.call() {
        Call::Read { word, .. } => ops::load_word(setup, local, word),
        _ => unreachable!(),
    }
}

/// Where the answer to a write's step leads, and the reply that the call has by it.
#[inline(always)]
pub fn write_advance(setup: &Setup, local: &mut Local, answer: Answer) -> Option<Reply>
    ensures { (means : Means) → (value : ℕ → LockValue) → turned local.new result ≡ core.advance_at (setup_of setup.now means) value local.old Spot.WriteWord answer }
{
    match answer {
        Answer::Done => {
            local.at(Spot::Between);
            Some(Reply::Wrote)
        }
        _ => None,
    }
}

/// Where the answer to a read's step leads, and the reply that the call has by it.
#[inline(always)]
pub fn read_advance(setup: &Setup, local: &mut Local, answer: Answer) -> Option<Reply>
    ensures { (means : Means) → (value : ℕ → LockValue) → turned local.new result ≡ core.advance_at (setup_of setup.now means) value local.old Spot.ReadWord answer }
{
    match answer {
        Answer::Word(x) => {
            local.at(Spot::Between);
            Some(Reply::Value(x))
        }
        _ => None,
    }
}
