//! What is done on the lists has one outcome. None of these does anything.
//!
//! The relations of `slub_lists` and `slub_slabinfo_text` say which replies and which machines may
//! follow; here it is said that one does. So a program that is proved to keep the relations has no
//! choice left, and two of them agree.
//!
//! One thing the lists leave open: whether memory is there for the bytes of a new slab of a checked
//! cache. Where it is wanting the reply is `NoMemory`, and the run goes back to the pool. So
//! allocations have one outcome where memory is wanting both times or neither time, and those of
//! caches that are not checked have one with no such word.

ghost use Rattle.slub_law_alone.specs.Events.{AllocationsHaveOneOutcome, AnswersHaveOneOutcome, FlushesHaveOneOutcome, FreesHaveOneOutcome, PokesHaveOneOutcome, ReadsHaveOneReply, TrimsHaveOneOutcome, UncheckedAllocationsHaveOneOutcome, WritesHaveOneOutcome};
ghost use Rattle.slub_law_alone.specs.Items.{CreationsHaveOneOutcome, DestructionsHaveOneOutcome, JournalsHaveOneOutcome, PlainItemsHaveOneOutcome, SettingsHaveOneOutcome, ShrinksHaveOneOutcome};
ghost use Rattle.slub_law_alone.specs.Parts.{GivesHaveOneOutcome, NotedTakesHaveOneOutcome, SearchesHaveOneOutcome, SlotPokesHaveOneOutcome, TakesHaveOneOutcome, TakingsBackHaveOneOutcome, TakingsOutHaveOneOutcome};
ghost use Rattle.slub_law_alone.specs.Rounds.{RoundsHaveOneOutcome, RunsHaveOneOutcome, RunsWithMemoryHaveOneOutcome, UncheckedRoundsHaveOneOutcome, UncheckedRunsHaveOneOutcome};

/// A take of an order from a page pool chooses one run, or none.
pub fn takes_have_one_outcome()
    ensures { TakesHaveOneOutcome }
{}

/// So does one that is counted where no block is there.
pub fn noted_takes_have_one_outcome()
    ensures { NotedTakesHaveOneOutcome }
{}

/// The search of a run of frames for a new slab finds one run, or none.
pub fn searches_have_one_outcome()
    ensures { SearchesHaveOneOutcome }
{}

/// A checked cache gives one object, or none, and finds the same damages before.
pub fn gives_have_one_outcome()
    ensures { GivesHaveOneOutcome }
{}

/// An object of a checked cache is taken back, or one damage of it is told.
pub fn takings_back_have_one_outcome()
    ensures { TakingsBackHaveOneOutcome }
{}

/// A slab of a checked cache is taken out, or it stays.
pub fn takings_out_have_one_outcome()
    ensures { TakingsOutHaveOneOutcome }
{}

/// A byte of a slot is written, or the offset lies outside.
pub fn slot_pokes_have_one_outcome()
    ensures { SlotPokesHaveOneOutcome }
{}

/// An allocation has one outcome where memory is wanting both times or neither time.
pub fn allocations_have_one_outcome()
    ensures { AllocationsHaveOneOutcome }
{}

/// An allocation from a cache that is not checked has one outcome.
pub fn unchecked_allocations_have_one_outcome()
    ensures { UncheckedAllocationsHaveOneOutcome }
{}

/// A free has one outcome.
pub fn frees_have_one_outcome()
    ensures { FreesHaveOneOutcome }
{}

/// A write has one outcome.
pub fn writes_have_one_outcome()
    ensures { WritesHaveOneOutcome }
{}

/// A read has one reply.
pub fn reads_have_one_reply()
    ensures { ReadsHaveOneReply }
{}

/// A poke has one outcome.
pub fn pokes_have_one_outcome()
    ensures { PokesHaveOneOutcome }
{}

/// A trim has one outcome.
pub fn trims_have_one_outcome()
    ensures { TrimsHaveOneOutcome }
{}

/// A flush has one outcome.
pub fn flushes_have_one_outcome()
    ensures { FlushesHaveOneOutcome }
{}

/// An event has one outcome where memory is wanting both times or neither time.
pub fn answers_have_one_outcome()
    ensures { AnswersHaveOneOutcome }
{}

/// Events that are made one after the other have one outcome where memory is wanting at the same of them.
pub fn runs_have_one_outcome()
    ensures { RunsHaveOneOutcome }
{}

/// So they have where memory is always there.
pub fn runs_with_memory_have_one_outcome()
    ensures { RunsWithMemoryHaveOneOutcome }
{}

/// So they have where all allocations are from caches that are not checked.
pub fn unchecked_runs_have_one_outcome()
    ensures { UncheckedRunsHaveOneOutcome }
{}

/// A round by the order of the text has one outcome, where memory is wanting at the same of its events.
pub fn rounds_have_one_outcome()
    ensures { RoundsHaveOneOutcome }
{}

/// So has a round whose allocations are from caches that are not checked.
pub fn unchecked_rounds_have_one_outcome()
    ensures { UncheckedRoundsHaveOneOutcome }
{}

/// The creation of a cache has one outcome.
pub fn creations_have_one_outcome()
    ensures { CreationsHaveOneOutcome }
{}

/// A shrink has one outcome.
pub fn shrinks_have_one_outcome()
    ensures { ShrinksHaveOneOutcome }
{}

/// The end of a name has one outcome.
pub fn destructions_have_one_outcome()
    ensures { DestructionsHaveOneOutcome }
{}

/// A setting has one outcome.
pub fn settings_have_one_outcome()
    ensures { SettingsHaveOneOutcome }
{}

/// What is asked between rounds has one outcome, `slabinfo` too.
pub fn plain_items_have_one_outcome()
    ensures { PlainItemsHaveOneOutcome }
{}

/// Items that are done one after the other, clients' lines left out, have one outcome where memory is always there.
pub fn journals_have_one_outcome()
    ensures { JournalsHaveOneOutcome }
{}
