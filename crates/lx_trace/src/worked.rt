//! Traces worked by hand, and what the lines of a trace are.

ghost use Rattle.lx_trace.specs.Laws.{LinesStand};
ghost use Rattle.lx_trace.specs.Worked.{AreWorked};

/// What traces say, and their faults, worked by hand.
pub fn traces_are_worked()
    ensures { AreWorked }
{}

/// The lines of a trace without a fault can be run: inputs get values that fit, and signals that are shown are there.
pub fn lines_law()
    ensures { LinesStand }
{}
