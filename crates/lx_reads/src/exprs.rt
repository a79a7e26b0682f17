//! The rows of expressions.

ghost use Rattle.std.specs.Prelude.{◌≡◌, ◌++◌, ◌+◌, ◌^◌, ◌<◌, length, map, IfOk, OnOk, IsTrue};
ghost use Rattle.lx_fhdl.specs.Below.{all_below, expr_below};
ghost use Rattle.lx_fhdl.specs.Keeping.{Keeps};
ghost use Rattle.lx_reads.specs.Net.{AreExprRows, expr_row, inner};

use lx_fhdl::{Design, Expr, ExprId};
use lx_text::{List, NoMemory};
use std::alloc::Global;

// Adds the numbers of the rows of expressions, where so many signals come first.
fn push_places(
    signals: usize,
    bound: usize,
    places: &[ExprId],
    row: &mut List<usize>,
) -> Result<(), NoMemory>
    requires fits { signals + bound < 2 ^ 64 }
    requires below { IsTrue (all_below bound places.now) }
    ensures { OnOk result (row.new ≡ row.old ++ map (inner signals) places.now) }
{
    for id in places {
        row.push(signals + id.place)?;
    }
    Ok(())
}

// The row of an expression whose children are lower than the bound, where so many signals come first.
fn expr_row(
    alloc: Global,
    signals: usize,
    bound: usize,
    expr: &Expr,
) -> Result<List<usize>, NoMemory>
    requires fits { signals + bound < 2 ^ 64 }
    requires below { IsTrue (expr_below expr.now bound) }
    ensures { IfOk result (λ row. row ≡ expr_row signals expr.now) }
{
    let mut row = List::new(alloc);
    match expr {
        Expr::Const { .. } => {}
        Expr::Sig(x) => row.push(x.0)?,
        Expr::Unary { of, .. } | Expr::Replicate { of, .. } | Expr::Slice { of, .. } => {
            row.push(signals + of.place)?;
        }
        Expr::Binary { left, right, .. } => {
            row.push(signals + left.place)?;
            row.push(signals + right.place)?;
        }
        Expr::Mux { cond, yes, no } => {
            row.push(signals + cond.place)?;
            row.push(signals + yes.place)?;
            row.push(signals + no.place)?;
        }
        Expr::Cat(parts) => push_places(signals, bound, parts.as_slice(), &mut row)?,
        Expr::Pick { items, index } => {
            push_places(signals, bound, items.as_slice(), &mut row)?;
            row.push(signals + index.place)?;
        }
        Expr::Fetch { at, .. } => row.push(signals + at.place)?,
    }
    Ok(row)
}

/// The rows of all expressions of a design.
pub fn expr_rows(alloc: Global, design: &Design) -> Result<List<List<usize>>, NoMemory>
    requires keeps { Keeps design.now }
    requires fits { length design.now.signals + length design.now.exprs < 2 ^ 64 }
    ensures { IfOk result (λ rows. AreExprRows design.now (length design.now.exprs) rows) }
{
    let signals = design.signals.len();
    let exprs = design.exprs.as_slice();
    let mut rows = List::new(alloc);
    for k in 0..exprs.len() {
        rows.push(expr_row(alloc, signals, k, &exprs[k])?)?;
    }
    Ok(rows)
}
