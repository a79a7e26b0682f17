//! The arenas of the design.

ghost use Rattle.std.specs.Prelude.{◌≡◌, ◌++◌, ◌∷◌, [], IfOk, OnOk};
ghost use Rattle.lx_fhdl.specs.Instance as instance;
ghost use Rattle.lx_rows.specs.Forms as form;

use crate::nodes::{
    Key, Line, Number, arms, branch, put_lines, put_numbers, put_signals, put_targets, the_expr,
    the_exprs, the_stmts, the_targets,
};
use lx_arena::Arena;
use lx_fhdl::{Branch, Expr, Exprs, SigId, Stmt, Stmts, Target, Targets};
use lx_tables::Op;
use lx_text::{List, NoMemory};
use std::alloc::Global;

// a, b, 1, 2
#[tactic(auto, unfolding(crate::specs::Forms::first_exprs))]
fn first_exprs(alloc: Global) -> Result<Exprs, NoMemory>
    ensures { IfOk result (λ exprs. exprs ≡ form.first_exprs) }
{
    let mut exprs = Arena::new(alloc);
    put_signals(&mut exprs, &[0, 1])?;
    let one = Number { value: 1, bits: 1 };
    let two = Number { value: 2, bits: 2 };
    put_numbers(&mut exprs, &[one, two])?;
    Ok(exprs)
}

// a == 2, b[0:1], p, q
#[tactic(auto, unfolding(crate::specs::Forms::first_exprs, crate::specs::Forms::more_exprs))]
fn more_exprs(alloc: Global) -> Result<Exprs, NoMemory>
    ensures { IfOk result (λ exprs. exprs ≡ form.more_exprs) }
{
    let mut exprs = first_exprs(alloc)?;
    exprs.push(Expr::Binary {
        op: Op::Eq,
        left: the_expr(0),
        right: the_expr(3),
    })?;
    exprs.push(Expr::Slice {
        of: the_expr(1),
        low: 0,
        high: 1,
    })?;
    put_signals(&mut exprs, &[2, 3])?;
    Ok(exprs)
}

/// a, b, 1, 2, a == 2, b[0:1], p, q, Array([b, p, q])[a], 5
#[tactic(auto, unfolding(crate::specs::Forms::first_exprs, crate::specs::Forms::more_exprs, crate::specs::Forms::forms_exprs))]
pub fn forms_exprs(alloc: Global) -> Result<Exprs, NoMemory>
    ensures { IfOk result (λ exprs. exprs ≡ form.forms_exprs) }
{
    let items = the_exprs(alloc, &[1, 6, 7])?;
    let mut exprs = more_exprs(alloc)?;
    exprs.push(Expr::Pick {
        items,
        index: the_expr(0),
    })?;
    put_numbers(&mut exprs, &[Number { value: 5, bits: 3 }])?;
    Ok(exprs)
}

// p, q, r, s, Cat(r, s), u, v
#[tactic(auto, unfolding(crate::specs::Forms::first_targets))]
fn first_targets(alloc: Global) -> Result<Targets, NoMemory>
    ensures { IfOk result (λ targets. targets ≡ form.first_targets) }
{
    let parts = the_targets(alloc, &[2, 3])?;
    let mut targets = Arena::new(alloc);
    put_targets(&mut targets, &[2, 3, 4, 5])?;
    targets.push(Target::Cat(parts))?;
    put_targets(&mut targets, &[6, 7])?;
    Ok(targets)
}

/// p, q, r, s, Cat(r, s), u, v, Array([u, v])[a], w, y, y[0:2]
#[tactic(auto, unfolding(crate::specs::Forms::first_targets, crate::specs::Forms::forms_targets))]
pub fn forms_targets(alloc: Global) -> Result<Targets, NoMemory>
    ensures { IfOk result (λ targets. targets ≡ form.forms_targets) }
{
    let items = the_targets(alloc, &[5, 6])?;
    let mut targets = first_targets(alloc)?;
    targets.push(Target::Pick {
        items,
        index: the_expr(0),
    })?;
    put_targets(&mut targets, &[8, 9])?;
    targets.push(Target::Part {
        signal: SigId(9),
        low: 0,
        len: 2,
    })?;
    Ok(targets)
}

fn line(target: usize, value: usize, line: u32) -> Line
    ensures { result ≡ record { target = target; value = value; line = line } }
{
    Line {
        target,
        value,
        line,
    }
}

fn key(key: u8, stmt: usize) -> Key
    ensures { result ≡ record { key = key; stmt = stmt } }
{
    Key { key, stmt }
}

fn branches(alloc: Global) -> Result<List<Branch>, NoMemory>
    ensures { IfOk result (λ branches. branches ≡ form.forms_branches) }
{
    let first = branch(alloc, 4, &[0])?;
    let second = branch(alloc, 5, &[1, 2])?;
    let mut branches = List::of_one(alloc, first)?;
    branches.push(second)?;
    Ok(branches)
}

// If(a == 2, p.eq(b)).Elif(b[0:1], p.eq(1), q.eq(2)).Else(p.eq(q))
#[tactic(auto, unfolding(crate::specs::Forms::if_stmts))]
fn if_stmts(alloc: Global) -> Result<Stmts, NoMemory>
    ensures { IfOk result (λ stmts. stmts ≡ form.if_stmts) }
{
    let branches = branches(alloc)?;
    let rest = the_stmts(alloc, &[3])?;
    let mut stmts = Arena::new(alloc);
    put_lines(
        &mut stmts,
        &[
            line(0, 1, 11),
            line(0, 2, 13),
            line(1, 3, 14),
            line(0, 7, 16),
        ],
    )?;
    stmts.push(Stmt::If {
        branches,
        rest,
        line: 10,
    })?;
    Ok(stmts)
}

// Case(a, {1: q.eq(b), 5: q.eq(2), 1: q.eq(1), 3: q.eq(p), "default": q.eq(b[0:1])})
#[tactic(auto, unfolding(crate::specs::Forms::if_stmts, crate::specs::Forms::case_stmts))]
fn case_stmts(alloc: Global) -> Result<Stmts, NoMemory>
    ensures { IfOk result (λ stmts. stmts ≡ form.case_stmts) }
{
    let arms = arms(alloc, &[key(1, 5), key(5, 6), key(1, 7), key(3, 8)])?;
    let rest = the_stmts(alloc, &[9])?;
    let mut stmts = if_stmts(alloc)?;
    put_lines(
        &mut stmts,
        &[
            line(1, 1, 21),
            line(1, 3, 22),
            line(1, 2, 23),
            line(1, 6, 24),
            line(1, 5, 25),
        ],
    )?;
    stmts.push(Stmt::Case {
        on: the_expr(0),
        arms,
        rest,
        line: 20,
    })?;
    Ok(stmts)
}

/// An `If` with an `Elif`, a `Case`, and assignments to a `Cat`, an `Array`, from an `Array`, and of constants.
#[tactic(auto, unfolding(crate::specs::Forms::if_stmts, crate::specs::Forms::case_stmts, crate::specs::Forms::forms_stmts))]
pub fn forms_stmts(alloc: Global) -> Result<Stmts, NoMemory>
    ensures { IfOk result (λ stmts. stmts ≡ form.forms_stmts) }
{
    let mut stmts = case_stmts(alloc)?;
    put_lines(
        &mut stmts,
        &[
            line(4, 1, 30),
            line(7, 1, 31),
            line(8, 8, 32),
            line(9, 9, 40),
            line(10, 3, 41),
        ],
    )?;
    Ok(stmts)
}
