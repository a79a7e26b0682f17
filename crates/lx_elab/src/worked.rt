//! Descriptions that are tested, worked by hand.

ghost use Rattle.lx_elab.specs.Worked.{AreTested};

/// A description whose design keeps what designs keep is answered as it is, another is not built.
pub fn tests_are_worked()
    ensures { AreTested }
{}
