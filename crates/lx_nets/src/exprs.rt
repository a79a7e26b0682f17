//! Expressions: what drives the nets of operators and slices (IEEE 1364-2005, "Expressions").

ghost use Rattle.std.specs.Prelude.{◌≡◌, ◌<◌, ◌^◌, ◌/◌, ◌%◌, ◌-◌, true, false, length, slice_get, IfOk, IsTrue};
ghost use Rattle.lx_tables.specs.Operators.{mix_of, row_of};
ghost use Rattle.lx_tie.specs.Rows.{unary_op, binary_op};
ghost use Rattle.lx_vtext.specs.Tree as tree;
ghost use Rattle.lx_vtree.specs.Growth.{PutExpr};
ghost use Rattle.lx_vtree.specs.NodeLists.{expr_tree};
ghost use Rattle.lx_fhdl.specs.Below.{all_below};
ghost use Rattle.lx_emission.specs.Emission.{is_net_node};
ghost use Rattle.lx_emission.specs.Nodes.{wide_if, parts_onto, cat_text, slice_text};
ghost use Rattle.lx_sheet.specs.Operands.{tree_of};
ghost use Rattle.lx_sheet.specs.Plans.{operand_in};
ghost use Rattle.lx_nets.specs.Plans.{node_in};
ghost use Rattle.lx_nets.specs.Texts.{PutParts, binary_in, choice_in, unary_in};

use lx_fhdl::{Expr, ExprId};
use lx_num::Shape;
use lx_sheet::operands::{Operand, Reading, put_literal, put_net, put_operand, put_text, read};
use lx_sheet::{MemoryOf, NodeOf, Sheet};
use lx_tables::{Mix, Op, OpRow, OpText, op_row};
use lx_text::{List, NoMemory, Word};
use lx_vtext::{BinOp, UnOp};
use lx_vtree::{ExprId as VExprId, Literal, Nodes, VExpr};
use std::alloc::Global;

// `$signed({1'd0, e})` for an unsigned operand beside a signed one, else the operand as it stands.
fn put_wide(alloc: Global, nodes: &mut Nodes, widen: bool, of: VExprId) -> Result<VExprId, NoMemory>
    requires { of.place < length nodes.old.exprs }
    ensures { IfOk result (λ i. PutExpr nodes.old nodes.new i.place (wide_if widen (expr_tree nodes.old of.place))) }
{
    if widen {
        let zero = put_zero(nodes)?;
        let more = List::of_one(alloc, of)?;
        let both = nodes.add_expr(VExpr::Concatenation { first: zero, more })?;
        nodes.add_expr(VExpr::ToSigned(both))
    } else {
        Ok(of)
    }
}

// An operand, widened where it is to be.
fn put_side(alloc: Global, nodes: &mut Nodes, widen: bool, of: Operand) -> Result<VExprId, NoMemory>
    ensures { IfOk result (λ i. PutExpr nodes.old nodes.new i.place (wide_if widen (tree_of of))) }
{
    let of = put_text(nodes, of)?;
    put_wide(alloc, nodes, widen, of)
}

// The zero bit above an operand.
fn put_zero(nodes: &mut Nodes) -> Result<VExprId, NoMemory>
    ensures { IfOk result (λ i. PutExpr nodes.old nodes.new i.place (tree.Literal 1 false 0)) }
{
    let zero = Literal {
        bits: 1,
        signed: false,
        value: 0,
    };
    put_literal(nodes, zero)
}

// The Verilog operator of a form with one operand.
fn unary_op(text: OpText) -> UnOp
    ensures { result ≡ unary_op text }
{
    match text {
        OpText::Inverted => UnOp::Invert,
        _ => UnOp::Negate,
    }
}

// The Verilog operator of a form with two operands.
fn binary_op(text: OpText) -> BinOp
    ensures { result ≡ binary_op text }
{
    match text {
        OpText::Minus => BinOp::Sub,
        OpText::Times => BinOp::Mul,
        OpText::ShiftLeft => BinOp::ShiftLeft,
        OpText::ShiftRight => BinOp::ShiftRight,
        OpText::ShiftRightSigned => BinOp::ArithmeticRight,
        OpText::BitAnd => BinOp::And,
        OpText::BitOr => BinOp::Or,
        OpText::BitXor => BinOp::Xor,
        OpText::Equal => BinOp::Equal,
        OpText::NotEqual => BinOp::NotEqual,
        OpText::Less => BinOp::Less,
        OpText::LessOrEqual => BinOp::LessEqual,
        OpText::Greater => BinOp::Greater,
        OpText::GreaterOrEqual => BinOp::GreaterEqual,
        _ => BinOp::Add,
    }
}

// The signs of two operands.
fn mix(left: bool, right: bool) -> Mix
    ensures { result ≡ mix_of left right }
{
    match (left, right) {
        (false, false) => Mix::UU,
        (false, true) => Mix::US,
        (true, false) => Mix::SU,
        (true, true) => Mix::SS,
    }
}

// How an operator of operands with these shapes is written.
fn row_for(op: Op, left: Shape, right: Shape) -> OpRow
    ensures { result ≡ row_of op (mix_of left.signed right.signed) }
{
    op_row(op, mix(left.signed, right.signed))
}

// An operator of one operand, sized by its row.
fn put_unary(alloc: Global, nodes: &mut Nodes, op: Op, of: Reading) -> Result<VExprId, NoMemory>
    ensures { IfOk result (λ i. PutExpr nodes.old nodes.new i.place (unary_in op of)) }
{
    let row = row_for(op, of.shape, of.shape);
    let of = put_side(alloc, nodes, row.widen_left, of.operand)?;
    let op = unary_op(row.text);
    nodes.add_expr(VExpr::Unary { op, of })
}

// An operator of two operands, sized by its row.
fn put_binary(
    alloc: Global,
    nodes: &mut Nodes,
    op: Op,
    left: Reading,
    right: Reading,
) -> Result<VExprId, NoMemory>
    ensures { IfOk result (λ i. PutExpr nodes.old nodes.new i.place (binary_in op left right)) }
{
    let row = row_for(op, left.shape, right.shape);
    let left = put_side(alloc, nodes, row.widen_left, left.operand)?;
    let right = put_side(alloc, nodes, row.widen_right, right.operand)?;
    let op = binary_op(row.text);
    nodes.add_expr(VExpr::Binary { left, op, right })
}

// A choice between two operands, sized by its row.
fn put_choice(
    alloc: Global,
    nodes: &mut Nodes,
    cond: Operand,
    yes: Reading,
    no: Reading,
) -> Result<VExprId, NoMemory>
    ensures { IfOk result (λ i. PutExpr nodes.old nodes.new i.place (choice_in cond yes no)) }
{
    let row = row_for(Op::Mux, yes.shape, no.shape);
    let cond = put_text(nodes, cond)?;
    let so = put_side(alloc, nodes, row.widen_left, yes.operand)?;
    let other = put_side(alloc, nodes, row.widen_right, no.operand)?;
    nodes.add_expr(VExpr::Conditional { cond, so, other })
}

// Copies of an operand side by side.
fn put_copies(nodes: &mut Nodes, of: Operand, count: u32) -> Result<VExprId, NoMemory>
    ensures { IfOk result (λ i. PutExpr nodes.old nodes.new i.place (tree.Replication count (tree_of of))) }
{
    let count = count as u64;
    let of = put_text(nodes, of)?;
    nodes.add_expr(VExpr::Replication { count, of })
}

// A word of a memory.
fn put_word(nodes: &mut Nodes, name: Word, at: Operand) -> Result<VExprId, NoMemory>
    ensures { IfOk result (λ i. PutExpr nodes.old nodes.new i.place (tree.Word name (tree_of at))) }
{
    let index = put_text(nodes, at)?;
    nodes.add_expr(VExpr::Word { name, index })
}

// Adds the texts of parts, the last one first.
fn put_parts(
    alloc: Global,
    nodes: &mut Nodes,
    sheet: &Sheet,
    parts: &[ExprId],
) -> Result<List<VExprId>, NoMemory>
    requires { IsTrue (all_below (length sheet.now.design.exprs) parts.now) }
    ensures { IfOk result (λ ids. PutParts nodes.old nodes.new ids (parts_onto (operand_in sheet.now) parts.now tree.NoMore)) }
{
    let mut texts = List::new(alloc);
    for place in (0..parts.len()).rev() {
        let text = put_operand(alloc, nodes, sheet, parts[place])?;
        texts.push(text)?;
    }
    Ok(texts)
}

// Parts side by side: the first stands last, in the lowest bits.
fn put_cat(
    alloc: Global,
    nodes: &mut Nodes,
    sheet: &Sheet,
    parts: &[ExprId],
) -> Result<VExprId, NoMemory>
    requires places { IsTrue (all_below (length sheet.now.design.exprs) parts.now) }
    requires some { 0 < length parts.now }
    ensures { IfOk result (λ i. PutExpr nodes.old nodes.new i.place (cat_text (operand_in sheet.now) parts.now)) }
{
    let last = parts.len() - 1;
    let first = put_operand(alloc, nodes, sheet, parts[last])?;
    let more = put_parts(alloc, nodes, sheet, &parts[..last])?;
    nodes.add_expr(VExpr::Concatenation { first, more })
}

// Bits `low` to `high - 1` of a net of so many bits; a select never covers its name.
fn put_select(
    nodes: &mut Nodes,
    name: Word,
    bits: u8,
    low: u32,
    high: u32,
) -> Result<VExprId, NoMemory>
    requires { low < high }
    ensures { IfOk result (λ i. PutExpr nodes.old nodes.new i.place (slice_text (tree.Net name) bits low high)) }
{
    if low == 0 && high == bits as u32 {
        let net = put_net(nodes, name)?;
        return nodes.add_expr(VExpr::ToUnsigned(net));
    }
    let node = VExpr::PartSelect {
        name,
        hi: (high - 1) as u64,
        lo: low as u64,
    };
    nodes.add_expr(node)
}

// Bits `low` to `high - 1` of a literal.
fn field_of(literal: Literal, low: u32, high: u32) -> Literal
    requires some { low < high }
    requires most { high < 128 }
    ensures { tree.Literal result.bits result.signed result.value ≡ tree.Literal (high - low) false (literal.value / 2 ^ low % 2 ^ (high - low)) }
{
    let bits = high - low;
    Literal {
        bits: bits as u8,
        signed: false,
        value: (literal.value >> low) % (1 << bits),
    }
}

// Bits `low` to `high - 1` of an operand.
fn put_slice(nodes: &mut Nodes, of: Reading, low: u32, high: u32) -> Result<VExprId, NoMemory>
    requires some { low < high }
    requires most { high < 128 }
    ensures { IfOk result (λ i. PutExpr nodes.old nodes.new i.place (slice_text (tree_of of.operand) of.shape.bits low high)) }
{
    let bits = of.shape.bits;
    let operand = of.operand;
    match operand {
        Operand::Literal(literal) => put_literal(nodes, field_of(literal, low, high)),
        Operand::Net(name) => put_select(nodes, name, bits, low, high),
    }
}

/// Adds the text of a node with a net, which drives that net: its operands sized by the operator's row.
pub fn put_node(alloc: Global, nodes: &mut Nodes, node: NodeOf) -> Result<VExprId, NoMemory>
    requires operator { is_net_node (slice_get node.sheet.now.design.exprs node.id.place) ≡ true }
    ensures { IfOk result (λ i. PutExpr nodes.old nodes.new i.place (node_in node.entry.sheet.now node.entry.id.place)) }
{
    let sheet = node.sheet;
    match sheet.design.exprs.get(node.id) {
        Expr::Unary { op, of } => {
            let of = read(alloc, sheet, *of)?;
            put_unary(alloc, nodes, *op, of)
        }
        Expr::Binary { op, left, right } => {
            let left = read(alloc, sheet, *left)?;
            let right = read(alloc, sheet, *right)?;
            put_binary(alloc, nodes, *op, left, right)
        }
        Expr::Mux { cond, yes, no } => {
            let cond = read(alloc, sheet, *cond)?;
            let yes = read(alloc, sheet, *yes)?;
            let no = read(alloc, sheet, *no)?;
            put_choice(alloc, nodes, cond.operand, yes, no)
        }
        Expr::Cat(parts) => put_cat(alloc, nodes, sheet, parts.as_slice()),
        Expr::Replicate { of, count } => {
            let of = read(alloc, sheet, *of)?;
            put_copies(nodes, of.operand, *count)
        }
        Expr::Slice { of, low, high } => {
            let of = read(alloc, sheet, *of)?;
            put_slice(nodes, of, *low, *high)
        }
        Expr::Fetch { memory, at, .. } => {
            let memory = MemoryOf::new(&*sheet, *memory);
            let name = memory.name(alloc)?;
            let at = read(alloc, sheet, *at)?;
            put_word(nodes, name, at.operand)
        }
        Expr::Const { .. } | Expr::Sig(_) | Expr::Pick { .. } => unreachable!(),
    }
}
