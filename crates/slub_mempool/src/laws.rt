//! What lines of reserves leave. It does nothing.

ghost use Rattle.std.specs.Prelude.{List};
ghost use Rattle.slub_trace.specs.declared.trace.Client.{Client as Asked};
ghost use Rattle.slub_trace.specs.declared.trace.Trace.{Trace as Read};
ghost use Rattle.slub_slabinfo_text.specs.declared.client.ClientDone.{ClientDone as Done};
ghost use Rattle.slub_rounds.specs.Heap.{HeapState};
ghost use Rattle.slub_rounds.specs.Asked.{IsServable};
ghost use Rattle.slub_rounds.specs.Reserves.{AreReserves, AreSoundReserves, Reserve, ServesReserves};

use slub_rounds::text_laws::rounds_by_text_are_lawful;

/// After a `mempool`, an `mget` or an `mput` each reserve has at most as many numbers as it may keep, no
/// number stands twice in all of them, and each is on the board, whatever became of the numbers before: of
/// every heap, whether ids stand beside its lists or not.
pub fn lines_leave_sound_reserves()
    ensures { (h : HeapState) (trace : Read) (reserves left : List Reserve) (client : Asked) (done : Done)
        (after : HeapState) → IsServable h trace client → AreSoundReserves trace reserves →
        ServesReserves h reserves client done after left → AreReserves after.lists trace left }
{
    rounds_by_text_are_lawful();
}
