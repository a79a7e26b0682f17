//! Names and paths worked by hand.

ghost use Rattle.lx_paths.specs.Worked.{AreWorked};

/// Names and paths, worked by hand.
pub fn paths_are_worked()
    ensures { AreWorked }
{}
