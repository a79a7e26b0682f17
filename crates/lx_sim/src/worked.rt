//! Runs worked by hand.

ghost use Rattle.lx_sim.specs.Worked.{AreWorked};

/// Where a run stands after lines of a trace, and words past the end, worked by hand.
pub fn runs_are_worked()
    ensures { AreWorked }
{}
