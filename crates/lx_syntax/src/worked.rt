//! What trees say, for each form that a description has.

ghost use Rattle.lx_syntax.specs.Worked.{ExpressionsAreWorked, StatementsAreWorked, TrailersAreWorked};

/// What the trees of expressions say, worked by hand.
pub fn expressions_are_worked()
    ensures { ExpressionsAreWorked }
{}

/// What the trees of powers, attributes, calls and subscripts say, worked by hand.
pub fn trailers_are_worked()
    ensures { TrailersAreWorked }
{}

/// What the trees of statements and of a file with a class say, worked by hand.
pub fn statements_are_worked()
    ensures { StatementsAreWorked }
{}
