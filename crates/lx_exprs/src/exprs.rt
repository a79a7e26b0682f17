//! The expressions of a design, lowered: each choice by an index becomes a chain of choices by a condition, and
//! no expression is shifted right by more than its bits.

ghost use Rattle.std.specs.Prelude.{◌≡◌, ◌<◌, pos, length, map, IfOk, IsTrue, MatchOption};
ghost use Rattle.lx_circuit.specs.Terms as tree;
ghost use Rattle.lx_circuit.specs.Values.{count_of};
ghost use Rattle.lx_fhdl.specs.Below.{all_below, expr_below};
ghost use Rattle.lx_fhdl.specs.Designs.{shapes, term};
ghost use Rattle.lx_fhdl.specs.Keeping.{Keeps};
ghost use Rattle.lx_fhdl.specs.Nodes.{IsSmall};
ghost use Rattle.lx_fhdl.specs.Trees.{node_term, terms_at};
ghost use Rattle.lx_fhdl.specs.declared.exprs.Expr.TheVariants.{Binary, Pick};
ghost use Rattle.lx_lowering.specs.Terms.{cut_amount, is_item, lower_term, pick_from};
ghost use Rattle.lx_exprs.specs.Exprs.{AreLowered};
ghost use Rattle.lx_plain.specs.Operands.{HasShape};
ghost use Rattle.lx_plain.specs.Plain.{TermPut};
ghost use Rattle.lx_plain.specs.Sources.{CanChoose, CanPick, IsAmount, IsLowered, IsNext, moved_node, moved_to};

use crate::copies::{copied_memories, copied_signals};
use lx_fhdl::{Design, Expr, ExprId};
use lx_num::{Shape, wrap};
use lx_plain::conds::{push_binary, push_constant, push_test};
use lx_plain::operands::{Operand, Test};
use lx_plain::plain::PlainDraft;
use lx_plain::source::Source;
use lx_tables::Op;
use lx_text::{List, NoMemory};
use lx_width::expr_shapes;
use std::alloc::Global;

/// The lowered expressions of a design.
#[derive(Drop)]
pub struct LoweredExprs {
    pub draft: PlainDraft,
    /// The place of each expression of the design in the draft.
    pub places: List<ExprId>,
    /// The shape of each expression of the design.
    pub shapes: List<Shape>,
}

/// The new place of an expression.
fn moved(places: &[ExprId], id: ExprId) -> ExprId
    requires { id.place < length places.now }
    ensures { result ≡ moved_to places.now id }
{
    places[id.place]
}

/// Expressions that have their new places.
#[derive(Clone, Copy)]
struct Placed<'a> {
    places: &'a [ExprId],
    ids: &'a [ExprId],
    ghost below: { IsTrue (all_below (length places.now) ids.now) },
}

/// A node whose children have their new places.
#[derive(Clone, Copy)]
struct PlacedNode<'a> {
    places: &'a [ExprId],
    node: &'a Expr,
    ghost below: { IsTrue (expr_below node.now (length places.now)) },
}

/// The new places of some expressions.
fn moved_all(alloc: Global, parts: Placed) -> Result<List<ExprId>, NoMemory>
    ensures { IfOk result (λ list. list ≡ map (moved_to parts.entry.places.now) parts.entry.ids.now) }
{
    let places = parts.places;
    let mut list = List::new(alloc);
    for id in parts.ids {
        list.push(moved(places, *id))?;
    }
    Ok(list)
}

/// The node with its children at their new places.
fn moved_node(alloc: Global, of: PlacedNode) -> Result<Expr, NoMemory>
    ensures { IfOk result (λ x. x ≡ moved_node of.entry.places.now of.entry.node.now) }
{
    let places = of.places;
    Ok(match of.node {
        Expr::Const {
            value,
            bits,
            signed,
        } => Expr::Const {
            value: *value,
            bits: *bits,
            signed: *signed,
        },
        Expr::Sig(x) => Expr::Sig(*x),
        Expr::Unary { op, of } => Expr::Unary {
            op: *op,
            of: moved(places, *of),
        },
        Expr::Binary { op, left, right } => Expr::Binary {
            op: *op,
            left: moved(places, *left),
            right: moved(places, *right),
        },
        Expr::Mux { cond, yes, no } => Expr::Mux {
            cond: moved(places, *cond),
            yes: moved(places, *yes),
            no: moved(places, *no),
        },
        Expr::Cat(parts) => {
            let ids = parts.as_slice();
            Expr::Cat(moved_all(alloc, Placed { places, ids })?)
        }
        Expr::Pick { items, index } => {
            let ids = items.as_slice();
            Expr::Pick {
                items: moved_all(alloc, Placed { places, ids })?,
                index: moved(places, *index),
            }
        }
        Expr::Replicate { of, count } => Expr::Replicate {
            of: moved(places, *of),
            count: *count,
        },
        Expr::Slice { of, low, high } => Expr::Slice {
            of: moved(places, *of),
            low: *low,
            high: *high,
        },
        Expr::Fetch { memory, width, at } => Expr::Fetch {
            memory: *memory,
            width: *width,
            at: moved(places, *at),
        },
    })
}

/// A number as an amount, which is never negative.
fn count(number: i128) -> u128
    ensures { result ≡ count_of number }
{
    if number < 0 { 0 } else { number as u128 }
}

/// The shape of an amount that is cut: a constant of so many bits or more.
fn cut_shape(draft: &PlainDraft, amount: ExprId, bits: u8) -> Option<Shape>
    requires { amount.place < length draft.now.exprs }
    ensures { MatchOption result (cut_amount bits (term draft.now amount.place) ≡ term draft.now amount.place) (λ shape. IsSmall shape × (cut_amount bits (term draft.now amount.place) ≡ tree.Constant (pos bits) shape)) }
{
    let arena = draft.draft();
    match arena.expr(amount) {
        Expr::Const {
            value,
            bits: own,
            signed,
        } => {
            let shape = Shape {
                bits: *own as u8,
                signed: *signed,
            };
            if count(wrap(*value, shape)) < bits as u128 {
                None
            } else {
                Some(shape)
            }
        }
        _ => None,
    }
}

/// Adds an amount that is cut to the bits of its operand, where it is a constant of as many or more.
fn push_cut(draft: &mut PlainDraft, amount: ExprId, bits: u8) -> Result<ExprId, NoMemory>
    requires { amount.place < length draft.old.exprs }
    ensures { IfOk result (λ id. TermPut draft.old draft.new id.place (cut_amount bits (term draft.old amount.place))) }
{
    match cut_shape(draft, amount, bits) {
        Some(shape) => push_constant(draft, bits as i128, shape),
        None => Ok(amount),
    }
}

/// Adds an expression that is shifted right, by at most its bits where the amount is a constant.
fn push_shift(draft: &mut PlainDraft, of: Operand, amount: ExprId) -> Result<ExprId, NoMemory>
    requires of { HasShape draft.old of }
    requires amount { IsAmount draft.old amount.place }
    ensures { IfOk result (λ id. TermPut draft.old draft.new id.place (tree.Binary Op.Shr (term draft.old of.id.place) (cut_amount of.shape.bits (term draft.old amount.place)))) }
{
    let cut = push_cut(draft, amount, of.shape.bits)?;
    let id = push_binary(draft, Op::Shr, of.id, cut)?;
    Ok(id)
}

/// Adds the choice of an item where the index is its number, and of another expression where it isn't.
fn push_choice(
    draft: &mut PlainDraft,
    index: Operand,
    item: usize,
    yes: ExprId,
    no: ExprId,
) -> Result<ExprId, NoMemory>
    requires index { HasShape draft.old index }
    requires both { CanChoose draft.old yes no }
    ensures { IfOk result (λ id. TermPut draft.old draft.new id.place (tree.Mux (is_item (shapes draft.old) (term draft.old index.id.place) item) (term draft.old yes.place) (term draft.old no.place))) }
{
    let cond = push_test(draft, index, Test::Item(item))?;
    draft.keeps();
    let id = draft.push_expr(Expr::Mux { cond, yes, no })?;
    Ok(id)
}

/// Adds the choice of the item at the index, the last item where the index is at or past the number of items.
fn push_choices(
    draft: &mut PlainDraft,
    items: &[ExprId],
    index: Operand,
) -> Result<ExprId, NoMemory>
    requires items { CanPick draft.old items.now index.shape }
    requires index { HasShape draft.old index }
    ensures { IfOk result (λ id. TermPut draft.old draft.new id.place (pick_from (shapes draft.old) 0 (terms_at (term draft.old) items.now) (term draft.old index.id.place))) }
{
    draft.keeps();
    let mut item = items.len() - 1;
    let mut chosen = items[item];
    while item > 0 {
        item -= 1;
        chosen = push_choice(draft, index, item, items[item], chosen)?;
    }
    Ok(chosen)
}

/// An operator of two expressions of the design that have their new places.
#[derive(Clone, Copy)]
struct BinaryIn<'a> {
    source: &'a Source<'a>,
    op: Op,
    left: ExprId,
    right: ExprId,
    ghost next: { IsNext source.now (Binary op left right) },
}

/// A choice of one of some items of the design that have their new places.
#[derive(Clone, Copy)]
struct PickIn<'a> {
    source: &'a Source<'a>,
    items: &'a [ExprId],
    index: ExprId,
    ghost next: { IsNext source.now (Pick items.now index) },
}

/// Adds an operator of two expressions of the design, lowered.
fn lower_binary(draft: &mut PlainDraft, node: BinaryIn) -> Result<ExprId, NoMemory>
    requires { IsLowered node.source.now draft.old }
    ensures { IfOk result (λ id. TermPut draft.old draft.new id.place (lower_term (shapes node.entry.source.now.design) (tree.Binary node.entry.op (term node.entry.source.now.design node.entry.left.place) (term node.entry.source.now.design node.entry.right.place)))) }
{
    let source = node.source;
    let of = source.lowered(draft, node.left);
    let amount = source.lowered(draft, node.right).id;
    let _design = source.design();
    draft.keeps();
    match node.op {
        Op::Shr => push_shift(draft, of, amount),
        _ => push_binary(draft, node.op, of.id, amount),
    }
}

/// Adds the choice of one of the items, which are expressions of the design, lowered.
fn lower_pick(alloc: Global, draft: &mut PlainDraft, node: PickIn) -> Result<ExprId, NoMemory>
    requires { IsLowered node.source.now draft.old }
    ensures { IfOk result (λ id. TermPut draft.old draft.new id.place (lower_term (shapes node.entry.source.now.design) (tree.Pick (terms_at (term node.entry.source.now.design) node.entry.items.now) (term node.entry.source.now.design node.entry.index.place)))) }
{
    let source = node.source;
    let index = source.lowered(draft, node.index);
    let _design = source.design();
    let parts = Placed {
        places: source.places(),
        ids: node.items,
    };
    let items = moved_all(alloc, parts)?;
    push_choices(draft, items.as_slice(), index)
}

/// Adds a node of the design, lowered, and gives its new place. The nodes below it have their new places.
fn lower_expr(
    alloc: Global,
    source: &Source,
    draft: &mut PlainDraft,
    node: &Expr,
) -> Result<ExprId, NoMemory>
    requires lowered { IsLowered source.now draft.old }
    requires node { IsNext source.now node.now }
    ensures { IfOk result (λ id. TermPut draft.old draft.new id.place (lower_term (shapes source.now.design) (node_term (term source.now.design) node.now))) }
{
    match node {
        Expr::Binary { op, left, right } => {
            let node = BinaryIn {
                source: &*source,
                op: *op,
                left: *left,
                right: *right,
            };
            lower_binary(draft, node)
        }
        Expr::Pick { items, index } => {
            let node = PickIn {
                source: &*source,
                items: items.as_slice(),
                index: *index,
            };
            lower_pick(alloc, draft, node)
        }
        _ => {
            let places = source.places();
            let copy = moved_node(alloc, PlacedNode { places, node })?;
            let _design = source.design();
            draft.keeps();
            let id = draft.push_expr(copy)?;
            Ok(id)
        }
    }
}

/// The expressions of a design, lowered, in their order. A node that is as it was is added once, and nothing else.
pub fn lower_exprs(alloc: Global, design: &Design) -> Result<LoweredExprs, NoMemory>
    requires { Keeps design.now }
    ensures { IfOk result (λ lowered. AreLowered design.now lowered) }
{
    let shapes = expr_shapes(alloc, design)?;
    let signals = copied_signals(alloc, design.signals.as_slice())?;
    let memories = copied_memories(alloc, design.memories.as_slice())?;
    let mut draft = PlainDraft::start(alloc, signals, memories)?;
    let mut places = List::new(alloc);
    let sizes = shapes.as_slice();
    for node in design.exprs.as_slice() {
        let source = Source::new(design, sizes, places.as_slice());
        let place = lower_expr(alloc, &source, &mut draft, node)?;
        places.push(place)?;
    }
    Ok(LoweredExprs {
        draft,
        places,
        shapes,
    })
}
