//! Laws of machines, and machines worked by hand.

ghost use Rattle.std.specs.Prelude.{codes};
ghost use Rattle.lx_description.specs.Keeping.{KeepsDescription};
ghost use Rattle.lx_description.specs.declared.description.Description.{Description};
ghost use Rattle.lx_fsm.specs.Flattened.{CanFlatten};
ghost use Rattle.lx_fsm.specs.Runs.{HasFsm, OngoingLaw, RunLaw, StateLaw};
ghost use Rattle.lx_fsm.specs.Standing.{StandLaw};
ghost use Rattle.lx_fsm.specs.WorkedFlat.{AreLaid};
ghost use Rattle.lx_fsm.specs.Worked.{AreWorked, to_and_fro, turning};

/// Over every list of steps the register of an FSM follows the machine of its states.
pub fn run_law()
    ensures { RunLaw }
{}

/// In each state the statements of this state alone are taken, and its `NextValue`s assign at the rise.
pub fn state_law()
    ensures { StateLaw }
{}

/// `ongoing` is 1 exactly in its state.
pub fn ongoing_law()
    ensures { OngoingLaw }
{}

/// A circuit in which two states follow one another is one that the laws speak of.
pub fn instance_law()
    ensures { HasFsm turning 0 (to_and_fro (codes "A")) }
{}

/// Machines of two states are those worked by hand.
pub fn machines_are_worked()
    ensures { AreWorked }
{}

/// The statements of a description with an FSM are those worked by hand.
pub fn descriptions_are_worked()
    ensures { AreLaid }
{}

/// A description that keeps what descriptions keep can do without its FSMs.
pub fn flattening_law()
    ensures { (d : Description) → KeepsDescription d → CanFlatten d }
{}

/// Each FSM of a description stands in the circuit of its flat design, so that the laws of machines speak of it.
pub fn stand_law()
    ensures { StandLaw }
{}
