//! The texts of all operators.

ghost use Rattle.lx_rows.specs.Operators.{AreRead};

/// Each operator beside each mix of its operands' signs has the text that the standard asks for.
pub fn operators_are_read()
    ensures { AreRead }
{}
