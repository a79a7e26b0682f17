//! Expressions that name neither a signal nor a word of a memory, and their values.

ghost use Rattle.std.specs.Prelude.{◌≡◌, ◌<◌, [], pos, length, replicate, IfOk};
ghost use Rattle.lx_fhdl.specs.Drafts.{DraftKeeps};
ghost use Rattle.lx_fhdl.specs.Nodes.{IsShaped};
ghost use Rattle.lx_lower.specs.Fixed.{AreFree, AreValued, IsFixed, IsMask, all_free, free_at, mask_node, node_free};

use lx_arena::Id;
use lx_fhdl::{Design, Expr, ExprId, Exprs, Steps, eval_into};
use lx_num::Shape;
use lx_text::{List, NoMemory};
use lx_width::expr_shapes;
use std::alloc::Global;
use std::marker::{Brand, PhantomData};
use std::sync::ledger::{Blank, Ledger};

/// What is known of each expression.
#[derive(Drop)]
pub struct Fixed {
    /// Whether it names neither a signal nor a word of a memory.
    pub free: List<bool>,
    /// Its value where it is free.
    pub values: List<i128>,
}

/// Whether the expression at a place is free, as the list says. Nothing is said of places past its end: false.
fn free_at(free: &[bool], id: ExprId) -> bool
    ensures { result ≡ free_at free.now id.place }
{
    free.get(id.place).copied().unwrap_or(false)
}

/// Whether all of some expressions are free.
fn all_free(free: &[bool], ids: &[ExprId]) -> bool
    ensures { result ≡ all_free free.now ids.now }
{
    for id in ids {
        if !free_at(free, *id) {
            return false;
        }
    }
    true
}

/// Whether a node names neither a signal nor a word of a memory, from its children.
fn node_free(free: &[bool], node: &Expr) -> bool
    ensures { result ≡ node_free free.now node.now }
{
    match node {
        Expr::Const { .. } => true,
        Expr::Sig(_) => false,
        Expr::Unary { of, .. } | Expr::Replicate { of, .. } | Expr::Slice { of, .. } => {
            free_at(free, *of)
        }
        Expr::Binary { left, right, .. } => free_at(free, *left) && free_at(free, *right),
        Expr::Mux { cond, yes, no } => {
            free_at(free, *cond) && free_at(free, *yes) && free_at(free, *no)
        }
        Expr::Cat(parts) => all_free(free, parts.as_slice()),
        Expr::Pick { items, index } => all_free(free, items.as_slice()) && free_at(free, *index),
        Expr::Fetch { .. } => false,
    }
}

/// For each expression, whether it names neither a signal nor a word of a memory.
fn free_exprs(alloc: Global, exprs: &Exprs) -> Result<List<bool>, NoMemory>
    ensures { IfOk result (λ free. AreFree exprs.now (length exprs.now) free) }
{
    exprs.lower();
    let mut free = List::new(alloc);
    for place in 0..exprs.len() {
        let id = Id {
            place,
            of: PhantomData,
        };
        let own = node_free(free.as_slice(), exprs.get(id));
        free.push(own)?;
    }
    Ok(free)
}

/// Copies of places.
fn copied_places(alloc: Global, ids: &[ExprId]) -> Result<List<ExprId>, NoMemory>
    ensures { IfOk result (λ list. list ≡ ids.now) }
{
    let mut list = List::new(alloc);
    for id in ids {
        list.push(*id)?;
    }
    Ok(list)
}

/// A copy of an expression.
fn copied_expr(alloc: Global, node: &Expr) -> Result<Expr, NoMemory>
    ensures { IfOk result (λ copy. copy ≡ node.now) }
{
    Ok(match node {
        Expr::Const {
            value,
            bits,
            signed,
        } => Expr::Const {
            value: *value,
            bits: *bits,
            signed: *signed,
        },
        Expr::Sig(x) => Expr::Sig(*x),
        Expr::Unary { op, of } => Expr::Unary { op: *op, of: *of },
        Expr::Binary { op, left, right } => Expr::Binary {
            op: *op,
            left: *left,
            right: *right,
        },
        Expr::Mux { cond, yes, no } => Expr::Mux {
            cond: *cond,
            yes: *yes,
            no: *no,
        },
        Expr::Cat(parts) => Expr::Cat(copied_places(alloc, parts.as_slice())?),
        Expr::Pick { items, index } => Expr::Pick {
            items: copied_places(alloc, items.as_slice())?,
            index: *index,
        },
        Expr::Replicate { of, count } => Expr::Replicate {
            of: *of,
            count: *count,
        },
        Expr::Slice { of, low, high } => Expr::Slice {
            of: *of,
            low: *low,
            high: *high,
        },
        Expr::Fetch { memory, width, at } => Expr::Fetch {
            memory: *memory,
            width: *width,
            at: *at,
        },
    })
}

/// An expression, or 0 of its shape in its place.
fn masked_node(alloc: Global, node: &Expr, free: bool, shape: Shape) -> Result<Expr, NoMemory>
    ensures { IfOk result (λ x. x ≡ mask_node free shape node.now) }
{
    if free {
        copied_expr(alloc, node)
    } else {
        Ok(Expr::Const {
            value: 0,
            bits: shape.bits as u32,
            signed: shape.signed,
        })
    }
}

/// The expressions at their places, with 0 in place of each that isn't free.
fn masked(alloc: Global, exprs: &Exprs, free: &[bool], shapes: &[Shape]) -> Result<Exprs, NoMemory>
    requires { length shapes.now ≡ length exprs.now }
    ensures ok { IfOk result (λ mask. IsMask exprs.now free.now shapes.now (length exprs.now) mask) }
{
    let mut mask = Exprs::new(alloc);
    for place in 0..exprs.len() {
        let id = Id {
            place,
            of: PhantomData,
        };
        let own = free_at(free, id);
        let node = masked_node(alloc, exprs.get(id), own, shapes[place])?;
        mask.push(node)?;
    }
    Ok(mask)
}

/// The value of each expression, under a counter of its own.
fn count_values<L: Ledger>(
    alloc: Global,
    exprs: &Exprs,
    shapes: &[Shape],
    blank: Blank,
) -> Result<List<i128>, NoMemory>
    requires name { blank.name ≡ L.name }
    requires parts { blank.parts ≡ L.parts }
    requires some { 0 < blank.parts }
    requires shaped { IsShaped exprs.now shapes.now [] }
    ensures { IfOk result (λ known. AreValued exprs.now shapes.now known) }
{
    let mut known = vec![in alloc; 0; exprs.len()]?;
    let mut steps = Steps::<L>::new(blank);
    eval_into(exprs, shapes, &[], known.as_mut_slice(), &mut steps);
    Ok(List::from_vec(known))
}

/// The value of each expression. None of them names anything.
fn values(alloc: Global, exprs: &Exprs, shapes: &[Shape]) -> Result<List<i128>, NoMemory>
    requires { IsShaped exprs.now shapes.now [] }
    ensures { IfOk result (λ known. AreValued exprs.now shapes.now known) }
{
    count_values::<Brand>(alloc, exprs, shapes, Blank::new(1))
}

/// What is known of each expression of a draft.
pub(crate) fn fixed_exprs(alloc: Global, design: &Design) -> Result<Fixed, NoMemory>
    requires { DraftKeeps design.now }
    ensures { IfOk result (λ fixed. IsFixed design.now fixed) }
{
    let shapes = expr_shapes(alloc, design)?;
    let free = free_exprs(alloc, &design.exprs)?;
    let mask = masked(alloc, &design.exprs, free.as_slice(), shapes.as_slice())?;
    mask.lower();
    let values = values(alloc, &mask, shapes.as_slice())?;
    Ok(Fixed { free, values })
}
