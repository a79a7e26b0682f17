//! When a Verilog module gives what a circuit means: the same number for each signal after every run.
#![tactic(auto)]

ghost use Rattle.lx_agree.specs.Following.{IsAgreementLaw};
ghost use Rattle.lx_agree.specs.Rows.{AreDeclared};

/// A module that has a cycle meaning and follows a circuit, settled valuation by settled valuation,
/// agrees with it after every list of steps.
pub fn agreement_law()
    ensures { IsAgreementLaw }
{}

/// A net declares a signal where it has the signal's width and sign, and an undeclared name does not.
pub fn declared_law()
    ensures { AreDeclared }
{}
