//! Drivers and cycles worked by hand, and what the answers of the check mean together.

ghost use Rattle.lx_check.specs.Checked.{SoundHasNone};
ghost use Rattle.lx_check.specs.Worked.{FaultsAreWorked, ReadsAreWorked};

/// What signals read, and the faults of small designs, worked by hand.
pub fn checks_are_worked()
    ensures reads { ReadsAreWorked }
    ensures faults { FaultsAreWorked }
{}

/// A design that the check accepts has no fault by which it could refuse it.
pub fn sound_has_none()
    ensures { SoundHasNone }
{}
