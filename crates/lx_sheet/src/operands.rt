//! Operands: expressions where they are read (IEEE 1364-2005, "Expressions").

ghost use Rattle.std.specs.Prelude.{◌≡◌, ◌<◌, ◌^◌, length, IfOk};
ghost use Rattle.lx_num.specs.Ints.{modulo};
ghost use Rattle.lx_vtext.specs.Tree as tree;
ghost use Rattle.lx_vtree.specs.Growth.{PutExpr};
ghost use Rattle.lx_sheet.specs.Operands.{IsReading, tree_of};
ghost use Rattle.lx_sheet.specs.Plans.{operand_in};

use crate::names::node_name;
use crate::nodes::NodeOf;
use crate::signals::SignalOf;
use crate::tables::Sheet;
use lx_fhdl::{Expr, ExprId};
use lx_num::{Shape, field};
use lx_text::{NoMemory, Word};
use lx_vtree::{ExprId as VExprId, Literal, Nodes, VExpr};
use std::alloc::Global;

/// An expression where it is read: a constant is a literal, and all others are the names of nets.
#[derive(Drop)]
pub enum Operand {
    Literal(Literal),
    Net(Word),
}

/// An operand with its shape.
#[derive(Drop)]
pub struct Reading {
    pub operand: Operand,
    pub shape: Shape,
}

/// The literal of a constant.
pub(crate) fn constant(value: i128, bits: u32, signed: bool) -> Literal
    requires some { 0 < bits }
    requires most { bits < 128 }
    ensures { tree.Literal result.bits result.signed result.value ≡ tree.Literal bits signed (modulo value (2 ^ bits)) }
{
    let bits = bits as u8;
    Literal {
        bits,
        signed,
        value: field(value, 0, bits) as u128,
    }
}

/// An expression where it is read.
pub fn operand_of(alloc: Global, node: NodeOf) -> Result<Operand, NoMemory>
    ensures { IfOk result (λ o. tree_of o ≡ operand_in node.entry.sheet.now node.entry.id.place) }
{
    let sheet = node.sheet;
    match sheet.design.exprs.get(node.id) {
        Expr::Const {
            value,
            bits,
            signed,
        } => Ok(Operand::Literal(constant(*value, *bits, *signed))),
        Expr::Sig(x) => {
            let signal = SignalOf::new(&*sheet, *x);
            Ok(Operand::Net(signal.name(alloc)?))
        }
        _ => Ok(Operand::Net(node_name(alloc, node.number())?)),
    }
}

/// An expression where it is read, with its shape.
pub fn read(alloc: Global, sheet: &Sheet, id: ExprId) -> Result<Reading, NoMemory>
    requires { id.place < length sheet.now.design.exprs }
    ensures { IfOk result (λ r. IsReading sheet.now id.place r) }
{
    let node = NodeOf::new(&*sheet, id);
    let operand = operand_of(alloc, node)?;
    let shape = node.shape();
    Ok(Reading { operand, shape })
}

/// Adds the name of a net.
pub fn put_net(nodes: &mut Nodes, name: Word) -> Result<VExprId, NoMemory>
    ensures { IfOk result (λ i. PutExpr nodes.old nodes.new i.place (tree.Net name)) }
{
    nodes.add_expr(VExpr::Net(name))
}

/// Adds a literal.
pub fn put_literal(nodes: &mut Nodes, literal: Literal) -> Result<VExprId, NoMemory>
    ensures { IfOk result (λ i. PutExpr nodes.old nodes.new i.place (tree.Literal literal.bits literal.signed literal.value)) }
{
    nodes.add_expr(VExpr::Literal(literal))
}

/// Adds the text of an operand.
pub fn put_text(nodes: &mut Nodes, operand: Operand) -> Result<VExprId, NoMemory>
    ensures { IfOk result (λ i. PutExpr nodes.old nodes.new i.place (tree_of operand)) }
{
    match operand {
        Operand::Literal(literal) => put_literal(nodes, literal),
        Operand::Net(name) => put_net(nodes, name),
    }
}

/// Adds the text of an expression where it is read.
pub fn put_operand(
    alloc: Global,
    nodes: &mut Nodes,
    sheet: &Sheet,
    id: ExprId,
) -> Result<VExprId, NoMemory>
    requires { id.place < length sheet.now.design.exprs }
    ensures { IfOk result (λ i. PutExpr nodes.old nodes.new i.place (operand_in sheet.now id.place)) }
{
    let operand = operand_of(alloc, NodeOf::new(&*sheet, id))?;
    put_text(nodes, operand)
}
