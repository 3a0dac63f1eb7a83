//! What bulk lines leave of the board. None of these does anything.

ghost use Rattle.std.specs.Prelude.{◌≡◌, ◌+◌, ◌*◌, ◌<◌, ◌≤◌, ◌⊎◌, ℕ, List, length};
ghost use Rattle.std.specs.List.{range_with_len};
ghost use Rattle.slub_trace.specs.declared.trace.Trace.{Trace};
ghost use Rattle.slub_slabinfo_text.specs.declared.client.ClientAnswer.TheVariants.{All};
ghost use Rattle.slub_slabinfo_text.specs.declared.client.ClientDone.{ClientDone as Done};
ghost use Rattle.slub_law_rounds.specs.Round.{NamesChecked};
ghost use Rattle.slub_rounds.specs.Heap.{HeapState};
ghost use Rattle.slub_rounds.specs.Asked.{IsOpenTo};
ghost use Rattle.slub_rounds.specs.BulkLines.{AddsNumbers, LeavesBulk, LeavesBulkFree, ServesBulk, ServesBulkFree};
ghost use Rattle.slub_bulk.specs.Taking.{IdsLastFor, MayTake};

use slub_rounds::text_laws::rounds_by_text_are_lawful;

/// After a bulk that was given all, the board is the board before and the numbers, at different addresses:
/// of every heap, whether ids stand beside its lists or not.
pub fn bulks_of_all_add_their_numbers()
    ensures { (h : HeapState) (trace : Trace) (cpu place : ℕ) (numbers : List ℕ) (done : Done)
        (after : HeapState) → MayTake h trace cpu place numbers →
        ServesBulk h cpu place numbers done after → done.answer ≡ All →
        AddsNumbers h.lists numbers after.lists }
{
    rounds_by_text_are_lawful();
}

/// After a bulk that was given none, the board is the board before, too, and its rounds gave as many as
/// they freed: of every heap where the cache isn't checked, and where it is, of one without ids or whose ids
/// can't be spent by so many events.
pub fn bulks_leave_the_board()
    ensures { (h : HeapState) (trace : Trace) (cpu place : ℕ) (numbers : List ℕ) (done : Done)
        (after : HeapState) → MayTake h trace cpu place numbers →
        (¬ NamesChecked h.lists place) ⊎ IdsLastFor h (2 * length numbers) →
        ServesBulk h cpu place numbers done after → LeavesBulk h numbers done after done.answer }
{
    rounds_by_text_are_lawful();
}

/// After a bulk free the board lacks exactly the numbers that were freed, which are as many as it says; or
/// a number isn't on the board, the least such is named, and the heap is as it was: of every heap.
pub fn bulk_frees_drop_what_they_freed()
    ensures { (h : HeapState) (trace : Trace) (cpu first count : ℕ) (done : Done)
        (after : HeapState) → IsOpenTo h trace 0 → cpu < trace.cpus → 1 ≤ first →
        first + count ≤ length h.lists.board →
        ServesBulkFree h cpu (range_with_len first count) done after →
        LeavesBulkFree h (range_with_len first count) done after done.answer }
{
    rounds_by_text_are_lawful();
}
