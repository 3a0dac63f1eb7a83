//! What holds of every lawful journal of a sound trace, by any way where nothing else is said, and of every coherent
//! machine. None of these does anything.

ghost use Rattle.std.specs.Prelude.{◌≡◌, ℕ, ◌+◌, ◌≤◌, false, IfSome, IsSome};
ghost use Rattle.slub_lists.specs.Alloc.{cache_of};
ghost use Rattle.slub_lists.specs.Coherent.{IsCoherent};
ghost use Rattle.slub_lists.specs.Shrink.{ShrinksCache, has_slab};
ghost use Rattle.slub_lists.specs.State.{State};
ghost use Rattle.slub_trace.specs.declared.event.Round.{Round as Events};
ghost use Rattle.slub_slabinfo_text.specs.declared.journal.RoundResult.{RoundResult as Outcome};
ghost use Rattle.slub_slabinfo_text.specs.Counts.{counts_of};
ghost use Rattle.slub_trace.specs.Sound.{IsSound};
ghost use Rattle.slub_slabinfo_text.specs.Lawful.{opening_of};
ghost use Rattle.slub_law_replay.specs.Runs.{IsLawful, IsReadyMachine, machine_of};
ghost use Rattle.slub_law_replay.specs.Freed.{freed_times, given_times};
ghost use Rattle.slub_law_replay.specs.Trimmed.{EndsTrimmed};
ghost use Rattle.slub_law_replay.specs.Poked.{HasPokedDamages};
ghost use Rattle.slub_law_replay.specs.Rounds.{HasRounds};
ghost use Rattle.slub_law_replay.specs.Shrinking.{LeavesUsedSlabs};

use crate::way::Way;
use slub_slabinfo_text::journal::Journal;
use slub_trace::trace::Trace;

/// Over a whole run, by any way, no object number is freed twice, and none is given twice: a number is freed at most as
/// often as it was given, and given at most once. The events of clients' rounds count.
pub fn no_number_is_freed_twice(way: Way, trace: &Trace, journal: &Journal)
    requires sound { IsSound trace.now }
    requires lawful { IsLawful way trace.now journal.now }
    ensures once { (object : ℕ) → freed_times object trace.now journal.now ≤ 1 }
    ensures given_first { (object : ℕ) →
        freed_times object trace.now journal.now ≤ given_times object trace.now journal.now }
    ensures given_once { (object : ℕ) → given_times object trace.now journal.now ≤ 1 }
{}

/// By whichever machines a journal is lawful, each of its rounds leads along them, also one that a client's line makes:
/// it is a lawful round (`IsRound` of `slub_law_rounds`) for the machine before it, and a run of atomic steps of its
/// workers, with the machine coherent before each step and after the last (`IsOfSteps`: want of memory aside).
pub fn rounds_of_a_journal_are_of_steps(way: Way, trace: &Trace, journal: &Journal)
    requires sound { IsSound trace.now }
    ensures { HasRounds way trace.now journal.now }
{}

/// Each damage that a journal tells of, in a report or as a free's answer, is a byte that was poked there in the same
/// round or an earlier one, with the answer that it was: by any way, and of rounds of several workers too.
pub fn damages_of_a_journal_were_poked(way: Way, trace: &Trace, journal: &Journal)
    requires sound { IsSound trace.now }
    requires lawful { IsLawful way trace.now journal.now }
    ensures { HasPokedDamages trace.now journal.now }
{}

/// What was given less what was freed is live, by any way.
pub fn given_is_freed_or_live(way: Way, trace: &Trace, journal: &Journal)
    requires sound { IsSound trace.now }
    requires lawful { IsLawful way trace.now journal.now }
    ensures { IfSome journal.now.total (λ total. total.given ≡ total.freed + total.live) }
{}

/// The machine that is opened for a sound trace stands before its first item.
pub fn opening_is_ready(trace: &Trace)
    requires sound { IsSound trace.now }
    requires coherent { IsCoherent (opening_of trace.now) }
    ensures { IsReadyMachine (machine_of trace.now) trace.now 0 }
{}

/// Every object of a live cache's slabs is given, free or set aside: `num_objs` counts each of them
/// once. This holds between any two events, too.
pub fn objects_add_up()
    ensures { (s : State) (cache : ℕ) → IsCoherent s → IsSome (cache_of s cache) →
        IfSome (cache_of s cache) (λ live. let counts = counts_of s cache live.layout in
        counts.live + counts.free + counts.aside ≡ counts.num_objs) }
{}

/// Where a round ends with a trim of a cache that isn't checked, and no object of the cache is held or
/// on the board then, the cache has no slab.
pub fn trimmed_cache_is_empty()
    ensures { (s : State) (round : Events) (result : Outcome) (cache : ℕ) (after : State) →
        EndsTrimmed s round result cache after → has_slab after cache ≡ false }
{}

/// Shrinking a cache leaves exactly the slabs of its node list with an object in use (of a checked
/// cache: the listed slabs with an object that isn't free), in the order that promotion says.
pub fn shrinking_leaves_the_used_slabs()
    ensures { (s : State) (cache : ℕ) (after : State) → IsCoherent s → ShrinksCache s cache after →
        LeavesUsedSlabs s cache after }
{}
