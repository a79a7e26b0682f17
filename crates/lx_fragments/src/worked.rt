//! Statements laid out, worked by hand.

ghost use Rattle.lx_fragments.specs.Worked.{AreLaidOut};

/// What comes of statements and modules, worked by hand.
pub fn fragments_are_worked()
    ensures { AreLaidOut }
{}
