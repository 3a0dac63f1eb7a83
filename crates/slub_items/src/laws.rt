//! What clients' lines leave of the board. None of these does anything.

ghost use Rattle.slub_trace.specs.declared.trace.Client.{Client as Asked};
ghost use Rattle.slub_trace.specs.declared.trace.Trace.{Trace as Read};
ghost use Rattle.slub_trace.specs.Sound.{IsSound};
ghost use Rattle.slub_slabinfo_text.specs.declared.client.ClientDone.{ClientDone as Done};
ghost use Rattle.slub_rounds.specs.Heap.{HeapState};
ghost use Rattle.slub_rounds.specs.Asked.{IsServable};
ghost use Rattle.slub_rounds.specs.Kmalloc.{ServesClasses};
ghost use Rattle.slub_items.specs.Leaves.{LeavesClasses};
ghost use Rattle.slub_items.specs.Lines.{HasLines};

use slub_law_replay::way::Way;
use slub_rounds::client_laws::{allocations_may_be_done, frees_may_be_done};
use slub_rounds::text_laws::rounds_by_text_are_lawful;
use slub_slabinfo_text::journal::Journal;
use slub_trace::trace::Trace;

/// After a `kget` that was given an address its number is there besides, at that address. After a
/// `krealloc` that moved its fresh number is there at the address that is told, the other one is gone, and all others
/// are as they were. After every other answer, a refusal among them, the board is as it was. So it is of every heap,
/// whether transaction ids stand beside its lists or not.
pub fn kmalloc_lines_leave_the_board()
    ensures { (h : HeapState) (trace : Read) (client : Asked) (done : Done) (after : HeapState) →
        IsServable h trace client → ServesClasses h trace client done after →
        LeavesClasses h.lists client after.lists done.answer }
{
    rounds_by_text_are_lawful();
    allocations_may_be_done();
    frees_may_be_done();
}

/// By whichever machines a journal of a sound trace is lawful, each client's line leaves the board along them as its
/// answer says (`LeavesLine` of `specs/Lines.antt`): after all of a `bulk` or a `mempool` its numbers are there besides,
/// at different addresses; after none, or a refusal, the board is as it was; after a `bulkfree` exactly what was freed is
/// gone; a moved object is under its fresh number alone; and a number that is lent was on the board. After a round in the
/// order of the text that ends with a trim, an unused cache that isn't checked has no slab.
pub fn lines_of_a_journal_leave_what_they_say(way: Way, trace: &Trace, journal: &Journal)
    requires sound { IsSound trace.now }
    ensures { HasLines way trace.now journal.now }
{}
