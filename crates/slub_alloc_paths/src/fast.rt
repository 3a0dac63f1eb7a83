//! `slab_alloc_node`: the fast path.

ghost use Rattle.std.specs.Prelude.{◌≡◌};
ghost use Rattle.slub_core.specs.Setup.{Means};
ghost use Rattle.slub_core.specs.Alloc.{alloc_advance};
ghost use Rattle.slub_core.specs.Facts.{setup_of};
ghost use Rattle.slub_core.specs.Ways.{turned};

use crate::words::{told_of_word, way_of_word};
use slub_core::setup::Setup;
use slub_core::spot::{AllocSpot, Spot};
use slub_core::step::Answer;
use slub_core::words::cpu_in;
use slub_core::worker_local::Local;
use slub_trace::reply::Reply;

/// The CPU word was loaded.
pub fn cpu_loaded(setup: &Setup, local: &mut Local, answer: Answer) -> Option<Reply>
    ensures { (means : Means) → turned local.new result ≡ alloc_advance (setup_of setup.now means) local.old AllocSpot.LoadCpu answer }
{
    match answer {
        Answer::Word(word) => {
            let word = cpu_in(word);
            let fast = local.is_fast();
            local.set_cpu_word(word);
            local.at(way_of_word(setup, fast, word));
            told_of_word(setup, fast, word)
        }
        _ => None,
    }
}

/// The free pointer of the head was loaded (`get_freepointer_safe`).
pub fn next_loaded(setup: &Setup, local: &mut Local, answer: Answer) -> Option<Reply>
    ensures { (means : Means) → turned local.new result ≡ alloc_advance (setup_of setup.now means) local.old AllocSpot.LoadNext answer }
{
    match answer {
        Answer::Word(word) => {
            let noted = local.cpu_word();
            let index = noted.head.saturating_sub(1);
            local.set_next(setup.found_at(local.cache(), noted.frame, index, word));
            local.at(Spot::InAlloc(AllocSpot::Pop));
            None
        }
        _ => None,
    }
}

/// The head was taken off the CPU freelist (`this_cpu_cmpxchg_double`), or not.
pub fn popped(setup: &Setup, local: &mut Local, answer: Answer) -> Option<Reply>
    ensures { (means : Means) → turned local.new result ≡ alloc_advance (setup_of setup.now means) local.old AllocSpot.Pop answer }
{
    match answer {
        Answer::Won => {
            let noted = local.cpu_word();
            let cache = local.cache();
            let index = noted.head.saturating_sub(1);
            local.gets(cache, noted.frame, index);
            local.at(Spot::Between);
            Some(Reply::Given(setup.address(cache, noted.frame, index)))
        }
        Answer::Lost(_) => {
            if local.is_fast() {
                local.at(Spot::Between);
            } else {
                local.at(Spot::InAlloc(AllocSpot::LoadCpu));
            }
            None
        }
        _ => None,
    }
}
