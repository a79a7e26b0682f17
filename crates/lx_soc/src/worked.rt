//! What systems wish for, worked by hand.

ghost use Rattle.lx_soc.specs.Worked.{AreWorked};

/// Names of RAMs, and the wishes of a system.
pub fn systems_are_worked()
    ensures { AreWorked }
{}
