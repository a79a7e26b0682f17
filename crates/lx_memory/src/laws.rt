//! The law of lowered ports, and circuits with ports worked by hand.

ghost use Rattle.lx_memory.specs.Lowers.{CanLowerDesigns, IsPortsLaw};
ghost use Rattle.lx_memory.specs.Worked.{AreWorked};
ghost use Rattle.lx_memory.specs.WorkedAlone.{TestIsWorked};

/// A circuit with its ports lowered has the same runs on the signals and words of the circuit, whatever the modes of its ports,
/// and its reads have an order where those of the circuit have one.
pub fn ports_law()
    ensures { IsPortsLaw }
{}

/// The circuit of a design is one that `ports_law` speaks of, where each `dat_r` is that of one port and nothing else drives it.
pub fn designs_law()
    ensures { CanLowerDesigns }
{}

/// Circuits with one port each are those worked by hand, and so are the same lowered.
pub fn ports_are_worked()
    ensures { AreWorked }
{}

/// Ports that show alone, and ports that don't, are those worked by hand.
pub fn test_is_worked()
    ensures { TestIsWorked }
{}
