//! What a free of an object on the board does first: the worker takes the object, and then holds it.

ghost use Rattle.slub_law_alone.specs.Boards.{BoardFreesAreFrees, BoardObjectsAreTaken, RestsAreReady};

/// A machine at rest is ready for whatever call a worker has to make next.
pub fn rests_are_ready()
    ensures { RestsAreReady }
{}

/// A free of an object that is on the board takes it from there in one turn, and is then the free of an object that
/// the worker holds.
pub fn board_objects_are_taken()
    ensures { BoardObjectsAreTaken }
{}

/// So what a free of a held object leaves, the free of the object on the board leaves, a turn later.
pub fn board_frees_are_frees()
    ensures { BoardFreesAreFrees }
{}
