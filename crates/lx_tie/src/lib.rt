//! How the Verilog text of each operator of FHDL stands for the operator's value.
#![tactic(auto)]

ghost use Rattle.lx_tie.specs.Rows.{AllRowsStand, IsBinaryLaw, IsChoiceLaw, IsUnaryLaw};
ghost use Rattle.lx_tie.specs.Words.{IsWordLaw};

/// The text of an operator with one operand gives a net the bits of the operator's value.
pub fn unary_law()
    ensures { IsUnaryLaw }
{}

/// The text of an operator with two operands, sized by its row of the table, gives a net the bits of the
/// operator's value, whatever the operands' signs and widths.
pub fn binary_law()
    ensures { IsBinaryLaw }
{}

/// The text of a choice between two operands does.
pub fn choice_law()
    ensures { IsChoiceLaw }
{}

/// Each row of the table of operators does so, also where parts are joined or copied.
pub fn rows_law()
    ensures { AllRowsStand }
{}

/// The text of a read of a memory stands for the word at its index, and for 0 past the end.
pub fn word_law()
    ensures { IsWordLaw }
{}
