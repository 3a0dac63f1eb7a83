//! What follows from the definitions. None of these does anything.

ghost use Rattle.slub_rounds.specs.Laws.{RoundsBySeedAreLawful, RoundsBySeedAreOne, RoundsByThreadsAreLawful, RoundsInOrderAreLawful, RoundsInOrderAreOne, RoundsLeadOn};

use slub_law_rounds::cause_laws::{drawn_rounds_are_lawful, rounds_are_lawful};

/// A round that a seed draws is lawful in the words of the text: each reply has its cause, and the board, the want of
/// frames, reports and objects set aside are as the text says.
pub fn rounds_by_seed_are_lawful()
    ensures { RoundsBySeedAreLawful }
{
    drawn_rounds_are_lawful();
}

/// So is a round by threads, in whatever order they made their steps.
pub fn rounds_by_threads_are_lawful()
    ensures { RoundsByThreadsAreLawful }
{
    rounds_are_lawful();
}

/// And so is one in the order of the text.
pub fn rounds_in_order_are_lawful()
    ensures { RoundsInOrderAreLawful }
{
    rounds_are_lawful();
}

/// Want of memory aside, the replies and damages of a round by a seed, what its ledgers count, the transaction ids and
/// the machine that it leaves are a function of the machine, the ids before, the round and the seed, and so is whether
/// it ends or its turns are spent.
pub fn rounds_by_seed_are_one()
    ensures { RoundsBySeedAreOne }
{}

/// And of a round by steps in the order of the text they are one of the machine, the ids before and the round.
pub fn rounds_in_order_are_one()
    ensures { RoundsInOrderAreOne }
{}

/// A lawful round leaves a machine that can do the next one of its trace: with the same sizes and names, none of the
/// numbers on the board that the next one allocates, and counts of wanted frames that rose by its events at most.
pub fn rounds_lead_on()
    ensures { RoundsLeadOn }
{}
