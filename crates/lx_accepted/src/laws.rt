//! What the check says of designs with their ports lowered.

ghost use Rattle.lx_accepted.specs.Accepted.{AcceptedLaw, DriversLaw};
ghost use Rattle.lx_accepted.specs.Worked.{AreWorked, IsInstance};

/// In a design with its ports lowered no signal has two drivers, no output is driven by a statement of the description, and no
/// memory is written in two domains, where that is so in the design.
pub fn drivers_law()
    ensures { DriversLaw }
{}

/// Where the check accepts a design, it accepts that design with its ports lowered, and refuses it by no fault.
pub fn accepted_law()
    ensures { AcceptedLaw }
{}

/// A design with two ports, lowered by hand, is one that the laws speak of, and these are its faults and reads.
pub fn ports_are_worked()
    ensures rows { AreWorked }
    ensures instance { IsInstance }
{}
