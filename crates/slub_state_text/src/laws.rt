//! What follows from the definitions. None of these does anything.

ghost use Rattle.slub_state_text.specs.Laws.{CreationsAddNames, DestructionsTakeNames};

/// The creation of a cache, or of one more name of one, puts the name behind the live ones, with the
/// number of its cache.
pub fn creations_add_names()
    ensures { CreationsAddNames }
{}

/// The destruction of a name takes it out of the live ones; the others keep their order.
pub fn destructions_take_names()
    ensures { DestructionsTakeNames }
{}
