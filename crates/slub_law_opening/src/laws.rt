//! What holds of machines that are opened and closed, for the crates that do it. None of these does anything.

ghost use Rattle.slub_law_opening.specs.Laws.{ClosedMachinesAreCoherent, CoherentListsStand, MachinesClose, OpenedMachinesClose, OpenedMachinesRest, RoundsKeepLists, WordsTellLists};

/// A coherent machine whose objects are all on the board opens into words and lock values that say what its
/// lists say, and with which a round may begin: all stands in them that the step machine keeps.
pub fn opened_machines_rest()
    ensures { OpenedMachinesRest }
{}

/// An opened machine closes into the lists that it was opened from.
pub fn opened_machines_close()
    ensures { OpenedMachinesClose }
{}

/// In whatever words a coherent machine rests, and whatever its workers hold, all stands that the step
/// machine keeps.
pub fn coherent_lists_stand()
    ensures { CoherentListsStand }
{}

/// The words of a machine tell the lists in which it rests: slabs, freelists, partial lists, free frames,
/// checked slabs, and what each object number names.
pub fn words_tell_lists()
    ensures { WordsTellLists }
{}

/// The lists that a machine closes into are coherent, and with its objects on the board it may be opened
/// again.
pub fn closed_machines_are_coherent()
    ensures { ClosedMachinesAreCoherent }
{}

/// There are such lists, where no worker is in a call and what the machine is to have left alone is as it was.
pub fn machines_close()
    ensures { MachinesClose }
{}

/// A round of several workers leads from coherent lists to coherent lists, in whatever order its workers make
/// their turns.
pub fn rounds_keep_lists()
    ensures { RoundsKeepLists }
{}
