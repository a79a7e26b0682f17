//! Steps worked by hand.

ghost use Rattle.lx_objects.specs.Worked.{AreWorked};
ghost use Rattle.lx_objects.specs.WorkedEvents.{AreBound};
ghost use Rattle.lx_objects.specs.WorkedMemories.{AreStored, HavePorts};
ghost use Rattle.lx_objects.specs.WorkedRegisters.{AreLaid, HaveWires};
ghost use Rattle.lx_objects.specs.WorkedSystems.{AreSystems};

/// What steps do, worked by hand.
pub fn steps_are_worked()
    ensures { AreWorked }
{}

/// What memories and their ports are, worked by hand.
pub fn memories_are_worked()
    ensures stored { AreStored }
    ensures ports { HavePorts }
{}

/// What registers and constants are, worked by hand.
pub fn registers_are_worked()
    ensures fields { AreLaid }
    ensures signals { HaveWires }
{}

/// What event managers and their sources are, worked by hand.
pub fn events_are_worked()
    ensures { AreBound }
{}

/// What systems are, worked by hand.
pub fn systems_are_worked()
    ensures { AreSystems }
{}
