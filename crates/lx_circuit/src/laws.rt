//! The laws of settling, of views, of locality and of extensions, over all circuits; and values worked by hand.

ghost use Rattle.lx_circuit.specs.Instances.{IsMemoryView, reading, registered};
ghost use Rattle.lx_circuit.specs.Locality.{IsLocal};
ghost use Rattle.lx_circuit.specs.Runs.{Extends, IsChainLaw, IsExtensionLaw, IsSimulationLaw};
ghost use Rattle.lx_circuit.specs.Settling.{IsFittingLaw, IsSettlingLaw, IsViewLaw};
ghost use Rattle.lx_circuit.specs.Worked.{AreWorked};
ghost use Rattle.lx_circuit.specs.WorkedMemories.{AreRemembered};
ghost use Rattle.lx_circuit.specs.WorkedReads.{AreRead};
ghost use Rattle.lx_circuit.specs.WorkedSteps.{AreStepped};

/// A circuit in which an order of reads exists has exactly one settled valuation, under each state and
/// all inputs.
pub fn settling_law()
    ensures { IsSettlingLaw }
{}

/// A circuit in which an order of reads exists has exactly one view after every list of steps.
pub fn view_law()
    ensures { IsViewLaw }
{}

/// The values of a view fit, where the inputs of its steps do: signals their shapes, and words, and what ports
/// show, the width of their memories.
pub fn fitting_law()
    ensures { IsFittingLaw }
{}

/// The shape, the fault and the value of an expression, and the assignments that a block takes, hang on the
/// places alone that it names.
pub fn locality_law()
    ensures { IsLocal }
{}

/// A circuit that simulates another step by step extends it: on the signals and words of the first its runs
/// are the same.
pub fn extension_law()
    ensures { IsExtensionLaw }
{}

/// Where both circuits settle in one way, it is enough that any two settled valuations agree and lead on.
pub fn simulation_law()
    ensures { IsSimulationLaw }
{}

/// Extensions follow one another.
pub fn chain_law()
    ensures { IsChainLaw }
{}

/// Values, shapes, faults and assignments are those worked by hand.
pub fn circuits_are_worked()
    ensures { AreWorked }
{}

/// Roles, settled values and steps of a circuit of two domains are those worked by hand.
pub fn steps_are_worked()
    ensures { AreStepped }
{}

/// What statements, words and ports read is what was worked by hand.
pub fn reads_are_worked()
    ensures { AreRead }
{}

/// A memory with two ports has the words, and shows what was worked by hand, in each mode.
pub fn memories_are_worked()
    ensures { AreRemembered }
{}

/// A circuit with a memory is one that the laws speak of, and each of its views is the one worked by hand.
pub fn instance_law()
    ensures { IsMemoryView }
{}

/// A port that keeps data does what a register beside a read of the word does: an extension by one signal.
pub fn extension_instance_law()
    ensures { Extends 4 reading registered }
{}
