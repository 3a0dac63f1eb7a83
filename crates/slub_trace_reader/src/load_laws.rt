//! What follows from the definitions. None of these does anything.

ghost use Rattle.std.specs.Prelude.{◌≡◌, ◌<◌, ◌++◌, ℕ, List, take};
ghost use Rattle.slub_trace.specs.Sound.{objects_of};
ghost use Rattle.slub_trace_reader.specs.Load.{events_of, freed_of, load_events};

/// In the end each worker has freed what it allocated: these objects and no others, each once, in
/// the order in which it allocated them.
pub fn each_worker_frees_what_it_allocated(seed: u64, events: u32, workers: u32)
    ensures { (worker : ℕ) → worker < workers →
        let own = events_of worker (load_events seed events workers) in
        freed_of own ≡ objects_of own }
{}

/// And at any time it has freed only what it allocated before, the longest held first.
pub fn no_worker_frees_what_it_does_not_hold(seed: u64, events: u32, workers: u32)
    ensures { (worker done : ℕ) →
        let own = events_of worker (take done (load_events seed events workers)) in
        (held : List ℕ) × (objects_of own ≡ freed_of own ++ held) }
{}
