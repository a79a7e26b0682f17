//! The nodes of expressions and of targets.

use crate::pieces::{put, put_expr, put_exprs, put_signal, put_targets};
use lx_fhdl::{Expr, ExprId, Target};
use lx_tables::Op;
use lx_text::{NoMemory, Text};

fn op_name(op: Op) -> &'static [u8] {
    match op {
        Op::Neg => b" neg",
        Op::Not => b" ~",
        Op::Add => b" +",
        Op::Sub => b" -",
        Op::Mul => b" *",
        Op::Shl => b" <<",
        Op::Shr => b" >>",
        Op::And => b" &",
        Op::Or => b" |",
        Op::Xor => b" ^",
        Op::Eq => b" ==",
        Op::Ne => b" !=",
        Op::Lt => b" <",
        Op::Le => b" <=",
        Op::Gt => b" >",
        Op::Ge => b" >=",
        Op::Mux => b" mux",
        Op::Cat => b" cat",
        Op::Replicate => b" replicate",
    }
}

fn put_constant(value: i128, bits: u32, signed: bool, out: &mut Text) -> Result<(), NoMemory> {
    out.word(b" constant ")?;
    out.dec(value)?;
    put(b" bits ", bits as usize, out)?;
    out.word(if signed {
        b" signed".as_slice()
    } else {
        b"".as_slice()
    })
}

fn put_binary(op: Op, left: ExprId, right: ExprId, out: &mut Text) -> Result<(), NoMemory> {
    out.word(op_name(op))?;
    put_expr(left, out)?;
    put_expr(right, out)
}

fn put_mux(cond: ExprId, yes: ExprId, no: ExprId, out: &mut Text) -> Result<(), NoMemory> {
    out.word(b" mux")?;
    put_expr(cond, out)?;
    put_expr(yes, out)?;
    put_expr(no, out)
}

fn put_slice(of: ExprId, low: u32, high: u32, out: &mut Text) -> Result<(), NoMemory> {
    put_expr(of, out)?;
    put(b" from ", low as usize, out)?;
    put(b" to ", high as usize, out)
}

fn put_node(node: &Expr, out: &mut Text) -> Result<(), NoMemory> {
    match node {
        Expr::Const {
            value,
            bits,
            signed,
        } => put_constant(*value, *bits, *signed, out),
        Expr::Sig(id) => put_signal(*id, out),
        Expr::Unary { op, of } => {
            out.word(op_name(*op))?;
            put_expr(*of, out)
        }
        Expr::Binary { op, left, right } => put_binary(*op, *left, *right, out),
        Expr::Mux { cond, yes, no } => put_mux(*cond, *yes, *no, out),
        Expr::Cat(parts) => {
            out.word(b" cat")?;
            put_exprs(parts.as_slice(), out)
        }
        Expr::Pick { items, index } => {
            out.word(b" item")?;
            put_expr(*index, out)?;
            out.word(b" of")?;
            put_exprs(items.as_slice(), out)
        }
        Expr::Replicate { of, count } => {
            put_expr(*of, out)?;
            put(b" times ", *count as usize, out)
        }
        Expr::Slice { of, low, high } => put_slice(*of, *low, *high, out),
        Expr::Fetch { memory, at, .. } => {
            put(b" word of ", *memory, out)?;
            put_expr(*at, out)
        }
    }
}

pub(crate) fn put_nodes(nodes: &[Expr], out: &mut Text) -> Result<(), NoMemory> {
    for (place, node) in nodes.iter().enumerate() {
        put(b"  #", place, out)?;
        out.word(b":")?;
        put_node(node, out)?;
        out.word(b"\n")?;
    }
    Ok(())
}

fn put_target(target: &Target, out: &mut Text) -> Result<(), NoMemory> {
    match target {
        Target::Whole(id) => put_signal(*id, out),
        Target::Part { signal, low, len } => {
            put_signal(*signal, out)?;
            put(b" from ", *low as usize, out)?;
            put(b" bits ", *len as usize, out)
        }
        Target::Cat(parts) => {
            out.word(b" cat")?;
            put_targets(parts.as_slice(), out)
        }
        Target::Pick { items, index } => {
            out.word(b" item")?;
            put_expr(*index, out)?;
            out.word(b" of")?;
            put_targets(items.as_slice(), out)
        }
    }
}

pub(crate) fn put_all_targets(targets: &[Target], out: &mut Text) -> Result<(), NoMemory> {
    for (place, target) in targets.iter().enumerate() {
        put(b"  @", place, out)?;
        out.word(b":")?;
        put_target(target, out)?;
        out.word(b"\n")?;
    }
    Ok(())
}
