//! Statements that are each for one signal, put into a draft.

ghost use Rattle.std.specs.Prelude.{◌≡◌, ◌<◌, length, OnOk};
ghost use Rattle.lx_circuit.specs.Statements as tree;
ghost use Rattle.lx_fhdl.specs.Designs.{term};
ghost use Rattle.lx_fhdl.specs.Drafts.{CanAddStmt};
ghost use Rattle.lx_lowering.specs.Flat.{one};
ghost use Rattle.lx_plain.specs.Lines.{target_lines};
ghost use Rattle.lx_plain.specs.Owned.{AreOwned, CanAssign, Put, PutOne, node_lines_of, target_of, tree_of};

use crate::plain::PlainDraft;
use lx_fhdl::{ExprId, SigId, Stmt, StmtId, Target};
use lx_text::{List, NoMemory};

/// A statement for a signal.
#[derive(Clone, Copy)]
pub struct Own {
    pub signal: SigId,
    pub stmt: StmtId,
}

/// Adds a statement for a signal at the end of a list.
pub(crate) fn put_own(
    draft: &mut PlainDraft,
    signal: SigId,
    node: Stmt,
    out: &mut List<Own>,
) -> Result<(), NoMemory>
    requires out { AreOwned draft.old out.old }
    requires signal { signal.0 < length draft.old.signals }
    requires node { CanAddStmt draft.old node }
    ensures { OnOk result (PutOne draft.old draft.new out.old out.new signal.0 (tree_of draft.old node) (node_lines_of draft.old signal.0 node)) }
{
    let stmt = draft.push_stmt(node)?;
    out.push(Own { signal, stmt })?;
    Ok(())
}

/// Adds an assignment to a signal or some of its bits, from a line.
pub fn put_assignment(
    draft: &mut PlainDraft,
    signal: SigId,
    target: Target,
    value: ExprId,
    line: u32,
    out: &mut List<Own>,
) -> Result<(), NoMemory>
    requires out { AreOwned draft.old out.old }
    requires target { CanAssign draft.old signal.0 target }
    requires value { value.place < length draft.old.exprs }
    ensures { OnOk result (Put draft.old draft.new out.old out.new (one (tree.Assign (target_of draft.old target) (term draft.old value.place))) (target_lines (target_of draft.old target) line)) }
{
    let target = draft.push_target(target)?;
    let node = Stmt::Assign {
        target,
        value,
        line,
    };
    put_own(draft, signal, node, out)?;
    Ok(())
}
