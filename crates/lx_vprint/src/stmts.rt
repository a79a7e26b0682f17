//! Statements.

ghost use Rattle.std.specs.Prelude.{◌≡◌, ◌++◌, ◌+◌, ◌^◌, ◌<◌, ◌≤◌, length, codes, IsTrue, OnOk};
ghost use Rattle.lx_vtext.specs.Printed.{indent, expr_text, target_text, stmt_text, else_text, block_text, sets_text};
ghost use Rattle.lx_vtext.specs.Tree as t;
ghost use Rattle.lx_vtree.specs.NodeLists.{expr_tree, stmt_tree};
ghost use Rattle.lx_vtree.specs.Stmts.{plant_target, plant_block, plant_else, are_stmts_below, is_else_below, is_target_placed};

use crate::exprs::put_expr;
use crate::leaves::{margin, range};
use lx_text::{List, NoMemory, Text};
use lx_vtree::{ExprId, Nodes, StmtId, VStmt, VTarget};

/// The text of what an assignment writes.
pub(crate) fn put_target(out: &mut Text, nodes: &Nodes, target: &VTarget) -> Result<(), NoMemory>
    requires { IsTrue (is_target_placed (length nodes.now.exprs) target.now) }
    ensures { OnOk result (out.new ≡ out.old ++ target_text (plant_target (expr_tree nodes.now) target.now)) }
{
    match target {
        VTarget::Whole(name) => {
            out.word(name.as_bytes())?;
        }
        VTarget::Part { name, hi, lo } => {
            out.word(name.as_bytes())?;
            range(out, *hi, *lo)?;
        }
        VTarget::WholeWord { name, index } => {
            out.word(name.as_bytes())?;
            out.word(b"[")?;
            put_expr(out, nodes, *index)?;
            out.word(b"]")?;
        }
        VTarget::PartWord {
            name,
            index,
            hi,
            lo,
        } => {
            out.word(name.as_bytes())?;
            out.word(b"[")?;
            put_expr(out, nodes, *index)?;
            out.word(b"]")?;
            range(out, *hi, *lo)?;
        }
    }
    Ok(())
}

fn sign(blocking: bool) -> &'static [u8]
    ensures { result.now ≡ sets_text blocking }
{
    if blocking { b" = " } else { b" <= " }
}

// `target = value;`, or `target <= value;`
fn put_assignment(
    out: &mut Text,
    nodes: &Nodes,
    levels: u128,
    target: &VTarget,
    blocking: bool,
    value: ExprId,
) -> Result<(), NoMemory>
    requires target { IsTrue (is_target_placed (length nodes.now.exprs) target.now) }
    requires value { value.place < length nodes.now.exprs }
    ensures { let at = expr_tree nodes.now in OnOk result (out.new ≡ out.old ++ stmt_text levels (t.Assign (plant_target at target.now) blocking (at value.place))) }
{
    margin(out, levels)?;
    put_target(out, nodes, target)?;
    out.word(sign(blocking))?;
    put_expr(out, nodes, value)?;
    out.word(b";\n")?;
    Ok(())
}

// `if (cond) begin`
fn put_if(out: &mut Text, nodes: &Nodes, levels: u128, cond: ExprId) -> Result<(), NoMemory>
    requires { cond.place < length nodes.now.exprs }
    ensures { OnOk result (out.new ≡ out.old ++ (indent levels ++ codes "if (" ++ expr_text (expr_tree nodes.now cond.place) ++ codes ") begin\n")) }
{
    margin(out, levels)?;
    out.word(b"if (")?;
    put_expr(out, nodes, cond)?;
    out.word(b") begin\n")?;
    Ok(())
}

/// The text of the statement at a place, with so many levels of indentation.
#[cycle(put)]
pub(crate) fn put_stmt(
    out: &mut Text,
    nodes: &Nodes,
    levels: u128,
    id: StmtId,
) -> Result<(), NoMemory>
    requires place { id.place < length nodes.now.stmts }
    requires deep { levels + id.place + 1 < 2 ^ 128 }
    ensures { OnOk result (out.new ≡ out.old ++ stmt_text levels (stmt_tree nodes.now id.place)) }
{
    match nodes.stmt(id) {
        VStmt::Assign {
            target,
            blocking,
            value,
        } => {
            put_assignment(out, nodes, levels, target, *blocking, *value)?;
        }
        VStmt::When { cond, so, other } => {
            put_if(out, nodes, levels, *cond)?;
            put_block(out, nodes, levels + 1, so.as_slice(), id.place)?;
            put_else(out, nodes, levels, other, id.place)?;
            margin(out, levels)?;
            out.word(b"end\n")?;
        }
    }
    Ok(())
}

// `end else begin` and the statements, or nothing where there is no `else`.
#[cycle(put)]
fn put_else(
    out: &mut Text,
    nodes: &Nodes,
    levels: u128,
    other: &Option<List<StmtId>>,
    bound: usize,
) -> Result<(), NoMemory>
    requires below { IsTrue (is_else_below other.now bound) }
    requires within { bound ≤ length nodes.now.stmts }
    requires deep { levels + bound + 1 < 2 ^ 128 }
    ensures { OnOk result (out.new ≡ out.old ++ else_text levels (plant_else (stmt_tree nodes.now) other.now)) }
{
    match other {
        None => Ok(()),
        Some(ids) => {
            margin(out, levels)?;
            out.word(b"end else begin\n")?;
            put_block(out, nodes, levels + 1, ids.as_slice(), bound)?;
            Ok(())
        }
    }
}

/// The texts of the statements at these places, each lower than `bound`.
#[cycle(put)]
pub(crate) fn put_block(
    out: &mut Text,
    nodes: &Nodes,
    levels: u128,
    ids: &[StmtId],
    bound: usize,
) -> Result<(), NoMemory>
    requires below { IsTrue (are_stmts_below ids.now bound) }
    requires within { bound ≤ length nodes.now.stmts }
    requires deep { levels + bound < 2 ^ 128 }
    ensures { OnOk result (out.new ≡ out.old ++ block_text levels (plant_block (stmt_tree nodes.now) ids.now)) }
{
    for id in ids {
        put_stmt(out, nodes, levels, *id)?;
    }
    Ok(())
}
