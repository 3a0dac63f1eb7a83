//! What follows of what stands beside a machine, for the crates above. None of these does anything.

ghost use Rattle.slub_open_close.specs.Laws.{BesidesFit, FitsAreBesides};

/// What fits a machine fits it as the definitions of opening ask for, whatever its takes, gifts and orders are.
pub fn besides_fit()
    ensures { BesidesFit }
{}

/// And what fits it by those definitions fits it.
pub fn fits_are_besides()
    ensures { FitsAreBesides }
{}
