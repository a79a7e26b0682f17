//! Names worked by hand.

ghost use Rattle.lx_namer.specs.Worked.{AreWorked};

/// Names of designs, worked by hand.
pub fn names_are_worked()
    ensures { AreWorked }
{}
