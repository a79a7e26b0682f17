//! Circuits worked by hand.

ghost use Rattle.lx_translate.specs.Worked.{AreWorked};

/// What is told of circuits whose ports of memories are driven or shared.
pub fn circuits_are_worked()
    ensures { AreWorked }
{}
