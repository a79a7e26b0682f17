//! Small descriptions worked by hand.

ghost use Rattle.lx_run.specs.Worked.{ClassesAreRun, ExpressionsAreRun, FsmsAreRun, StatementsAreRun};

/// What running gives, worked by hand.
pub fn runs_are_worked()
    ensures expressions { ExpressionsAreRun }
    ensures statements { StatementsAreRun }
    ensures classes { ClassesAreRun }
    ensures fsms { FsmsAreRun }
{}
