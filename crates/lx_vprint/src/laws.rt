//! Texts that are worked out.

ghost use Rattle.lx_vprint.specs.Worked.{FormsAreWorked};

/// A module with each form of the text has the text that a person would write, and so has one without parts.
pub fn forms_are_worked()
    ensures { FormsAreWorked }
{}
