//! Lowering of circuits: one list of flat statements for each signal, with the same runs.
#![tactic(auto)]

ghost use Rattle.lx_circuit.specs.Reads.{HasOrder};
ghost use Rattle.lx_lowering.specs.Instance.{instance};
ghost use Rattle.lx_lowering.specs.Lowering.{CanBeLowered, IsExtendingLaw, IsLoweringLaw};
ghost use Rattle.lx_lowering.specs.Worked.{AreWorked};

/// The lowered circuit has the same runs, differs in statements alone, and has the same drivers of each signal,
/// comb and each domain; its statements are plain, constants stand in place of those that read nothing, and its
/// reads have an order where there was one.
pub fn lowering_law()
    ensures { IsLoweringLaw }
{}

/// The lowered circuit extends the circuit by no signals: so lowering follows passes that add some, and they follow it.
pub fn extending_law()
    ensures { IsExtendingLaw }
{}

/// A circuit with a clock domain, a reset, a memory, and statements of every kind is one that `lowering_law` speaks of.
pub fn instance_law()
    ensures lowering { CanBeLowered instance }
    ensures order { HasOrder instance }
{}

/// Lowered expressions, flat statements, a signal's own statements and constants are those worked by hand.
pub fn lowerings_are_worked()
    ensures { AreWorked }
{}
