//! Descriptions of machines, worked by hand.

ghost use Rattle.lx_describe.specs.Worked.{AreDescribed};

/// What machines describe, worked by hand.
pub fn descriptions_are_worked()
    ensures { AreDescribed }
{}
