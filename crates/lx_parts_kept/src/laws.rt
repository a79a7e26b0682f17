//! What the test says, and descriptions that are tested, worked by hand.

ghost use Rattle.lx_parts_kept.specs.Laws.{PartsKeep};
ghost use Rattle.lx_parts_kept.specs.Rows.{AreTested};

/// A description whose design, whose FSMs and whose other parts pass their tests keeps what descriptions keep.
pub fn parts_law()
    ensures { PartsKeep }
{}

/// Descriptions that pass the test of parts, and such as don't.
pub fn parts_are_tested()
    ensures { AreTested }
{}
