//! An arena of one expression, evaluated, and a statement inside another.

ghost use Rattle.std.specs.Prelude.{◌≡◌, ◌<◌};

use lx_arena::{Arena, Node};
use lx_fhdl::{Branch, Expr, SigId, Steps, Stmt, Target, eval_into, eval_node};
use lx_num::Shape;
use lx_tables::Op;
use lx_text::{List, NoMemory, Text};
use std::alloc::Global;
use std::marker::Brand;
use std::sync::ledger::{Blank, Ledger};

/// The value of a signed constant of four bits, evaluated with its arena and by itself.
pub(crate) fn show_constant(alloc: Global, out: &mut Text) -> Result<(), NoMemory> {
    let (first, again) = evaluated(alloc)?;
    out.word(b"15 in four signed bits: ")?;
    out.dec(first)?;
    out.word(b" ")?;
    out.dec(again)?;
    out.word(b"\n")
}

fn evaluated(alloc: Global) -> Result<(i128, i128), NoMemory> {
    one_constant::<Brand>(alloc, Blank::new(1))
}

fn one_constant<L: Ledger>(alloc: Global, blank: Blank) -> Result<(i128, i128), NoMemory>
    requires name { blank.name ≡ L.name }
    requires parts { blank.parts ≡ L.parts }
    requires some { 0 < blank.parts }
{
    let mut steps = Steps::<L>::new(blank);
    let mut exprs = Arena::new(alloc);
    let id = exprs.push(Expr::Const {
        value: 15,
        bits: 4,
        signed: true,
    })?;
    let shapes = [Shape {
        bits: 4,
        signed: true,
    }];
    let mut into = [0];
    eval_into(&exprs, &shapes, &[], &mut into, &mut steps);
    let again = eval_node(&exprs, &shapes, id, &[], &into, &mut steps);
    Ok((into[0], again))
}

/// The place of `If(c, q.eq(~q))`, the number of statements, and whether it is one before and after its statement.
pub(crate) fn show_condition(alloc: Global, out: &mut Text) -> Result<(), NoMemory> {
    let (place, count, early, late) = one_condition(alloc)?;
    out.word(b"a statement inside another: ")?;
    out.count(place as u128)?;
    out.word(b" ")?;
    out.count(count as u128)?;
    show_truth(early, out)?;
    show_truth(late, out)?;
    out.word(b"\n")
}

fn show_truth(holds: bool, out: &mut Text) -> Result<(), NoMemory> {
    out.word(if holds {
        b" yes".as_slice()
    } else {
        b" no".as_slice()
    })
}

fn one_condition(alloc: Global) -> Result<(usize, usize, bool, bool), NoMemory> {
    let mut exprs = Arena::new(alloc);
    let cond = exprs.push(Expr::Sig(SigId(0)))?;
    let of = exprs.push(Expr::Sig(SigId(1)))?;
    let value = exprs.push(Expr::Unary { op: Op::Not, of })?;
    let mut targets = Arena::new(alloc);
    let target = targets.push(Target::Whole(SigId(1)))?;
    let mut stmts = Arena::new(alloc);
    let inner = stmts.push(Stmt::Assign {
        target,
        value,
        line: 2,
    })?;
    let body = List::of_one(alloc, inner)?;
    let outer = Stmt::If {
        branches: List::of_one(alloc, Branch { cond, body })?,
        rest: List::new(alloc),
        line: 1,
    };
    let early = outer.below(0);
    let late = outer.below(1);
    let id = stmts.push(outer)?;
    Ok((id.place, stmts.len(), early, late))
}
