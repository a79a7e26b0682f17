//! What holds of the names of designs.

ghost use Rattle.lx_namer.specs.Staying.{NamesStay};

/// A design that gains signals of generated hardware has the names that it had, or the fault that it had.
pub fn names_stay()
    ensures { NamesStay }
{}
