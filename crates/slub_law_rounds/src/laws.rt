//! What holds of every round and of every event of the sequential semantics. None of these does
//! anything.

ghost use Rattle.std.specs.Prelude.{◌≡◌, ℕ, ◌^◌, ◌<◌, List, Some, length};
ghost use Rattle.slub_trace.specs.declared.event.Event.{Event};
ghost use Rattle.slub_trace.specs.declared.event.Round.{Round};
ghost use Rattle.slub_trace.specs.declared.reply.Reply.{Reply};
ghost use Rattle.slub_trace.specs.declared.reply.Reply.TheVariants.{Given, NoFrames};
ghost use Rattle.slub_lists.specs.Coherent.{IsCoherent};
ghost use Rattle.slub_lists.specs.Named.{AllocatesNamed};
ghost use Rattle.slub_lists.specs.State.{State};
ghost use Rattle.slub_slabinfo_text.specs.declared.journal.RoundResult.{RoundResult};
ghost use Rattle.slub_slabinfo_text.specs.Lawful.{Answers, DoesRound, IsAtRest};
ghost use Rattle.slub_law_rounds.specs.Answered.{Answered, AreUnpoked, last_written};
ghost use Rattle.slub_law_rounds.specs.Event.{GivesFree, LacksFrames, SparesWords};
ghost use Rattle.slub_law_rounds.specs.Round.{RoundFits, IsOwnValue, IsRound};

/// A round that is done event by event, in the order of the text, is lawful.
pub fn rounds_are_lawful()
    ensures { (before : State) (round : Round) (result : RoundResult) (after : State) →
        IsCoherent before → IsAtRest before → RoundFits before round →
        DoesRound before round result after → IsRound before round result after }
{}

/// A value that a read may be answered is the word that its worker wrote there last, where no byte was
/// poked in the round, whether the object is checked or not.
pub fn unpoked_values_were_written()
    ensures { (before : State) (answers own : List Answered) (object word value written : ℕ) →
        IsOwnValue before answers own object word value → AreUnpoked answers → AreUnpoked own →
        last_written object word own ≡ Some written → written < 2 ^ 64 → value ≡ written }
{}

/// What an allocation gives was free in the cache that it names, and nobody had it.
pub fn given_objects_were_free()
    ensures { (s : State) (place cpu worker object address : ℕ) (after : State) → IsCoherent s →
        cpu < s.cpus → object < length s.board →
        AllocatesNamed s place cpu worker object (Given address) after →
        GivesFree s place cpu object address after }
{}

/// An allocation lacks frames only where neither its CPU nor the node has an object of the cache to
/// give, and no block of the cache's least order is free.
pub fn want_of_frames_has_its_cause()
    ensures { (s : State) (place cpu worker object : ℕ) (after : State) → IsCoherent s →
        cpu < s.cpus → AllocatesNamed s place cpu worker object NoFrames after →
        LacksFrames s place cpu }
{}

/// An event leaves the words of each object on the board but that of its own number; a poke, of each
/// but the one that stands where the poked one stood.
pub fn events_spare_other_objects()
    ensures { (s : State) (event : Event) (reply : Reply) (after : State) → IsCoherent s →
        Answers s event event.act reply after → SparesWords s event.worker event.act after }
{}
