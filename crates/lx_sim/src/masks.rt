//! The expressions of a design without those that read words.

ghost use Rattle.std.specs.Prelude.{◌≡◌, length, IfOk};
ghost use Rattle.lx_sim.specs.Words.{AreWithoutWords, without_words};

use lx_arena::Id;
use lx_fhdl::{Expr, ExprId, Exprs};
use lx_text::{List, NoMemory};
use std::alloc::Global;
use std::marker::PhantomData;

// The same places.
fn copied(alloc: Global, ids: &[ExprId]) -> Result<List<ExprId>, NoMemory>
    ensures { IfOk result (λ list. list ≡ ids.now) }
{
    let mut list = List::new(alloc);
    for id in ids {
        list.push(*id)?;
    }
    Ok(list)
}

// An expression, or 0 of its shape where it reads a word.
fn without_words(alloc: Global, node: &Expr) -> Result<Expr, NoMemory>
    ensures { IfOk result (λ x. x ≡ without_words node.now) }
{
    Ok(match node {
        Expr::Const {
            value,
            bits,
            signed,
        } => Expr::Const {
            value: *value,
            bits: *bits,
            signed: *signed,
        },
        Expr::Sig(x) => Expr::Sig(*x),
        Expr::Unary { op, of } => Expr::Unary { op: *op, of: *of },
        Expr::Binary { op, left, right } => Expr::Binary {
            op: *op,
            left: *left,
            right: *right,
        },
        Expr::Mux { cond, yes, no } => Expr::Mux {
            cond: *cond,
            yes: *yes,
            no: *no,
        },
        Expr::Cat(parts) => Expr::Cat(copied(alloc, parts.as_slice())?),
        Expr::Pick { items, index } => Expr::Pick {
            items: copied(alloc, items.as_slice())?,
            index: *index,
        },
        Expr::Replicate { of, count } => Expr::Replicate {
            of: *of,
            count: *count,
        },
        Expr::Slice { of, low, high } => Expr::Slice {
            of: *of,
            low: *low,
            high: *high,
        },
        Expr::Fetch { width, .. } => Expr::Const {
            value: 0,
            bits: *width as u32,
            signed: false,
        },
    })
}

/// The expressions at their places, with 0 in place of those that read words.
pub(crate) fn exprs_without_words(alloc: Global, exprs: &Exprs) -> Result<Exprs, NoMemory>
    ensures { IfOk result (λ list. AreWithoutWords exprs.now (length exprs.now) list) }
{
    let mut list = Exprs::new(alloc);
    for place in 0..exprs.len() {
        let id = Id {
            place,
            of: PhantomData,
        };
        let node = without_words(alloc, exprs.get(id))?;
        list.push(node)?;
    }
    Ok(list)
}
