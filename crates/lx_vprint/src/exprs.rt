//! Expressions.

ghost use Rattle.std.specs.Prelude.{◌≡◌, ◌++◌, ◌<◌, ◌≤◌, length, IsTrue, OnOk};
ghost use Rattle.lx_vtext.specs.Printed.{expr_text, more_text};
ghost use Rattle.lx_vtree.specs.Below.{are_below};
ghost use Rattle.lx_vtree.specs.NodeLists.{expr_tree};
ghost use Rattle.lx_vtree.specs.Trees.{plants};

use crate::leaves::{binary_sign, literal, number, range, unary_sign};
use lx_text::{NoMemory, Text};
use lx_vtree::{ExprId, Nodes, VExpr};

/// The text of the expression at a place.
#[cycle(put)]
pub(crate) fn put_expr(out: &mut Text, nodes: &Nodes, id: ExprId) -> Result<(), NoMemory>
    requires { id.place < length nodes.now.exprs }
    ensures { OnOk result (out.new ≡ out.old ++ expr_text (expr_tree nodes.now id.place)) }
{
    match nodes.expr(id) {
        VExpr::Net(name) => {
            out.word(name.as_bytes())?;
        }
        VExpr::Literal(value) => {
            literal(out, value)?;
        }
        VExpr::PartSelect { name, hi, lo } => {
            out.word(name.as_bytes())?;
            range(out, *hi, *lo)?;
        }
        VExpr::Word { name, index } => {
            out.word(name.as_bytes())?;
            out.word(b"[")?;
            put_expr(out, nodes, *index)?;
            out.word(b"]")?;
        }
        VExpr::Unary { op, of } => {
            out.word(b"(")?;
            out.word(unary_sign(*op))?;
            put_expr(out, nodes, *of)?;
            out.word(b")")?;
        }
        VExpr::Binary { left, op, right } => {
            out.word(b"(")?;
            put_expr(out, nodes, *left)?;
            out.word(b" ")?;
            out.word(binary_sign(*op))?;
            out.word(b" ")?;
            put_expr(out, nodes, *right)?;
            out.word(b")")?;
        }
        VExpr::Conditional { cond, so, other } => {
            out.word(b"(")?;
            put_expr(out, nodes, *cond)?;
            out.word(b" ? ")?;
            put_expr(out, nodes, *so)?;
            out.word(b" : ")?;
            put_expr(out, nodes, *other)?;
            out.word(b")")?;
        }
        VExpr::Concatenation { first, more } => {
            out.word(b"{")?;
            put_expr(out, nodes, *first)?;
            put_more(out, nodes, more.as_slice(), id.place)?;
            out.word(b"}")?;
        }
        VExpr::Replication { count, of } => {
            out.word(b"{")?;
            number(out, *count as u128)?;
            out.word(b"{")?;
            put_expr(out, nodes, *of)?;
            out.word(b"}}")?;
        }
        VExpr::ToSigned(of) => {
            out.word(b"$signed(")?;
            put_expr(out, nodes, *of)?;
            out.word(b")")?;
        }
        VExpr::ToUnsigned(of) => {
            out.word(b"$unsigned(")?;
            put_expr(out, nodes, *of)?;
            out.word(b")")?;
        }
    }
    Ok(())
}

// The further parts of `{}`, each behind a comma.
#[cycle(put)]
fn put_more(out: &mut Text, nodes: &Nodes, ids: &[ExprId], bound: usize) -> Result<(), NoMemory>
    requires below { IsTrue (are_below ids.now bound) }
    requires within { bound ≤ length nodes.now.exprs }
    ensures { OnOk result (out.new ≡ out.old ++ more_text (plants (expr_tree nodes.now) ids.now)) }
{
    for id in ids {
        out.word(b", ")?;
        put_expr(out, nodes, *id)?;
    }
    Ok(())
}
