//! The Verilog module of a lowered design, and the law that it gives what the design means.
#![tactic(auto)]

ghost use Rattle.std.specs.Prelude.{◌≡◌};
ghost use Rattle.lx_vtext.specs.Printed.{module_text};
ghost use Rattle.lx_emission.specs.Emission.{emitted};
ghost use Rattle.lx_emission.specs.Emits.{CanBeEmitted, IsEmissionLaw};
ghost use Rattle.lx_emission.specs.Instance.{toggle, toggle_names, toggle_text, swap, swap_names, swap_text, slices, slices_names, slices_text, mixed, mixed_names, mixed_text, branched, branched_names, branched_text, stored, stored_names, stored_text};

/// The module of a lowered design has a text and a cycle meaning, and gives each signal its number after
/// every list of steps.
pub fn emission_law()
    ensures { IsEmissionLaw }
{}

/// A design with a clock domain, its reset, and an assignment under a condition can be emitted.
pub fn toggle_law()
    ensures { CanBeEmitted toggle toggle_names }
{}

/// A design with two clock domains whose registers take each other's value can be emitted.
pub fn swap_law()
    ensures { CanBeEmitted swap swap_names }
{}

/// A design that assigns slices of a combinatorial signal can be emitted.
pub fn slices_law()
    ensures { CanBeEmitted slices slices_names }
{}

/// A design with operators, slices, signed signals and a signal that nothing drives can be emitted.
pub fn mixed_law()
    ensures { CanBeEmitted mixed mixed_names }
{}

/// A design with both branches of a condition, and a register that its reset leaves as it is, can be emitted.
pub fn branched_law()
    ensures { CanBeEmitted branched branched_names }
{}

/// A design with memories that are written in parts and whole, and read at a signal and at a constant, can be emitted.
pub fn stored_law()
    ensures { CanBeEmitted stored stored_names }
{}

/// The text of the module of `toggle_law`, byte for byte.
pub fn toggle_text_law()
    ensures { module_text (emitted toggle toggle_names) ≡ toggle_text }
{}

/// The text of the module of `swap_law`: a clock for each domain.
pub fn swap_text_law()
    ensures { module_text (emitted swap swap_names) ≡ swap_text }
{}

/// The text of the module of `slices_law`: the reset value first, then the slices in their order.
pub fn slices_text_law()
    ensures { module_text (emitted slices slices_names) ≡ slices_text }
{}

/// The text of the module of `mixed_law`: an operand is widened, and a slice that covers its signal is no select.
pub fn mixed_text_law()
    ensures { module_text (emitted mixed mixed_names) ≡ mixed_text }
{}

/// The text of the module of `branched_law`.
pub fn branched_text_law()
    ensures { module_text (emitted branched branched_names) ≡ branched_text }
{}

/// The text of the module of `stored_law`: no address past the end of three words is written to.
pub fn stored_text_law()
    ensures { module_text (emitted stored stored_names) ≡ stored_text }
{}
