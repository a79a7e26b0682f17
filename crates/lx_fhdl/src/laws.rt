//! Laws over all arenas and all designs.

ghost use Rattle.lx_fhdl.specs.Extremes.{AreWorked};
ghost use Rattle.lx_fhdl.specs.Rows.{AreRefused, AreSpelled, NodesAreWorked};
ghost use Rattle.lx_fhdl.specs.Rows as rows;
ghost use Rattle.lx_fhdl.specs.Instance.{instance};
ghost use Rattle.lx_fhdl.specs.Keeping.{Keeps};
ghost use Rattle.lx_fhdl.specs.Laws.{DesignsFit, ResetsDiffer, StmtsStand, TargetsStand, TestHolds, TreesStand, ValuesStand};

/// The tree at a place is made of the trees of its node's children.
pub fn tree_law()
    ensures { TreesStand }
{}

/// The shape and the value that stand for a node are those of its tree.
pub fn value_law()
    ensures { ValuesStand }
{}

/// The target at a place is made of the targets of its node's parts.
pub fn target_tree_law()
    ensures { TargetsStand }
{}

/// The statement at a place is made of the statements inside its node.
pub fn stmt_tree_law()
    ensures { StmtsStand }
{}

/// In every view of a design, after all steps and under all inputs that fit, the signals and the expressions have
/// values of their shapes, and each expression has 1 to 127 bits.
pub fn design_law()
    ensures { DesignsFit }
{}

/// A design that passes the test keeps what designs keep.
pub fn kept_law()
    ensures { TestHolds }
{}

/// The resets of two domains are two signals.
pub fn resets_law()
    ensures { ResetsDiffer }
{}

/// A design with a clock domain, a reset, statements of every kind, a memory that is read by a Fetch, and ports of
/// every mode keeps what `design_law` asks.
pub fn some_design_law()
    ensures { Keeps instance }
{}

/// The values of operators at extreme operands, worked by hand.
pub fn extremes_are_worked()
    ensures { AreWorked }
{}

/// What a design means, single nodes, names, and designs that don't keep what designs keep, worked by hand.
pub fn designs_are_worked()
    ensures meaning { rows.AreWorked }
    ensures nodes { NodesAreWorked }
    ensures names { AreSpelled }
    ensures refused { AreRefused }
{}
