//! The laws of settling and of views, over all modules that have a cycle meaning; and values worked by hand.

ghost use Rattle.lx_vmeaning.specs.Fitting.{IsVBitsLaw, IsVFittingLaw};
ghost use Rattle.lx_vmeaning.specs.Settling.{IsVSettlingLaw, IsVViewLaw};
ghost use Rattle.lx_vmeaning.specs.Worked.{AreWorked};
ghost use Rattle.lx_vmeaning.specs.WorkedFaults.{FaultsAreRefused};
ghost use Rattle.lx_vmeaning.specs.WorkedRuns.{RunsAreWorked};

/// A module that has a cycle meaning has exactly one settled valuation, under each state and all inputs.
pub fn settling_law()
    ensures { IsVSettlingLaw }
{}

/// A module that has a cycle meaning has exactly one view after every list of steps.
pub fn view_law()
    ensures { IsVViewLaw }
{}

/// Patterns fit: in every view each word is below 2 to its memory's bits, and each net below 2 to its own, an input
/// where what it is given is. The bits of an expression, where what it reads fits, are below 2 to each context that
/// is as wide as the expression.
pub fn fitting_law()
    ensures views { IsVFittingLaw }
    ensures bits { IsVBitsLaw }
{}

/// Bits of expressions in narrower and wider, signed and unsigned contexts are those worked by hand.
pub fn modules_are_worked()
    ensures { AreWorked }
{}

/// A module with a memory and a module with two clocks have a cycle meaning, and the nets and words of their views
/// are those worked by hand: first values, writes of words and of parts, edges of one clock and of both.
pub fn runs_are_worked()
    ensures { RunsAreWorked }
{}

/// Each fault of names, widths, drivers, blocks and loops by itself takes the cycle meaning from a module.
pub fn faults_are_refused()
    ensures { FaultsAreRefused }
{}
