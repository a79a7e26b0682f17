//! Nodes of the design, by their places, from rows of numbers.

ghost use Rattle.std.specs.Prelude.{◌≡◌, ◌++◌, ◌∷◌, [], map, IfOk, OnOk};
ghost use Rattle.lx_fhdl.specs.Instance as instance;
ghost use Rattle.lx_fhdl.specs.declared.exprs.Expr.TheVariants as expr;
ghost use Rattle.lx_fhdl.specs.declared.stmts.Target.TheVariants as target;
ghost use Rattle.lx_rows.specs.Forms.{arm_of, branch_of, line_of, number_of};

use lx_arena::Id;
use lx_fhdl::{
    Arm, Branch, Expr, ExprId, Exprs, SigId, Stmt, StmtId, Stmts, Target, TargetId, Targets,
};
use lx_text::{List, NoMemory};
use std::alloc::Global;
use std::marker::PhantomData;

/// A number, and how many bits it takes.
#[derive(Clone, Copy)]
pub struct Number {
    pub value: u8,
    pub bits: u8,
}

/// An assignment.
#[derive(Clone, Copy)]
pub struct Line {
    pub target: usize,
    pub value: usize,
    pub line: u32,
}

/// A key of a `Case`, and its statement.
#[derive(Clone, Copy)]
pub struct Key {
    pub key: u8,
    pub stmt: usize,
}

/// The expression at a place.
pub fn the_expr(place: usize) -> ExprId
    ensures { result ≡ instance.the_expr place }
{
    Id {
        place,
        of: PhantomData,
    }
}

/// The target at a place.
pub fn the_target(place: usize) -> TargetId
    ensures { result ≡ instance.the_target place }
{
    Id {
        place,
        of: PhantomData,
    }
}

/// The statement at a place.
pub fn the_stmt(place: usize) -> StmtId
    ensures { result ≡ instance.the_stmt place }
{
    Id {
        place,
        of: PhantomData,
    }
}

/// The expressions at places.
pub fn the_exprs(alloc: Global, places: &[usize]) -> Result<List<ExprId>, NoMemory>
    ensures { IfOk result (λ ids. ids ≡ map instance.the_expr places.now) }
{
    let mut ids = List::new(alloc);
    for place in places {
        ids.push(the_expr(*place))?;
    }
    Ok(ids)
}

/// The targets at places.
pub fn the_targets(alloc: Global, places: &[usize]) -> Result<List<TargetId>, NoMemory>
    ensures { IfOk result (λ ids. ids ≡ map instance.the_target places.now) }
{
    let mut ids = List::new(alloc);
    for place in places {
        ids.push(the_target(*place))?;
    }
    Ok(ids)
}

/// The statements at places.
pub fn the_stmts(alloc: Global, places: &[usize]) -> Result<List<StmtId>, NoMemory>
    ensures { IfOk result (λ ids. ids ≡ map instance.the_stmt places.now) }
{
    let mut ids = List::new(alloc);
    for place in places {
        ids.push(the_stmt(*place))?;
    }
    Ok(ids)
}

/// Adds the values of signals.
pub fn put_signals(exprs: &mut Exprs, signals: &[usize]) -> Result<(), NoMemory>
    ensures { OnOk result (exprs.new ≡ exprs.old ++ map (λ x. expr.Sig (instance.the_signal x)) signals.now) }
{
    for signal in signals {
        exprs.push(Expr::Sig(SigId(*signal)))?;
    }
    Ok(())
}

/// Adds unsigned numbers.
pub fn put_numbers(exprs: &mut Exprs, numbers: &[Number]) -> Result<(), NoMemory>
    ensures { OnOk result (exprs.new ≡ exprs.old ++ map (λ row. number_of row.value row.bits) numbers.now) }
{
    for row in numbers {
        exprs.push(Expr::Const {
            value: row.value as i128,
            bits: row.bits as u32,
            signed: false,
        })?;
    }
    Ok(())
}

/// Adds signals as targets.
pub fn put_targets(targets: &mut Targets, signals: &[usize]) -> Result<(), NoMemory>
    ensures { OnOk result (targets.new ≡ targets.old ++ map (λ x. target.Whole (instance.the_signal x)) signals.now) }
{
    for signal in signals {
        targets.push(Target::Whole(SigId(*signal)))?;
    }
    Ok(())
}

/// Adds assignments.
pub fn put_lines(stmts: &mut Stmts, lines: &[Line]) -> Result<(), NoMemory>
    ensures { OnOk result (stmts.new ≡ stmts.old ++ map (λ row. line_of row.target row.value row.line) lines.now) }
{
    for row in lines {
        stmts.push(Stmt::Assign {
            target: the_target(row.target),
            value: the_expr(row.value),
            line: row.line,
        })?;
    }
    Ok(())
}

/// A branch of an `If`.
pub fn branch(alloc: Global, cond: usize, body: &[usize]) -> Result<Branch, NoMemory>
    ensures { IfOk result (λ branch. branch ≡ branch_of cond (map instance.the_stmt body.now)) }
{
    let body = the_stmts(alloc, body)?;
    let cond = the_expr(cond);
    Ok(Branch { cond, body })
}

fn arm(alloc: Global, row: Key) -> Result<Arm, NoMemory>
    ensures { IfOk result (λ arm. arm ≡ arm_of row.key row.stmt) }
{
    let body = List::of_one(alloc, the_stmt(row.stmt))?;
    let key = row.key as i128;
    Ok(Arm { key, body })
}

/// The arms of a `Case`.
pub fn arms(alloc: Global, rows: &[Key]) -> Result<List<Arm>, NoMemory>
    ensures { IfOk result (λ arms. arms ≡ map (λ row. arm_of row.key row.stmt) rows.now) }
{
    let mut arms = List::new(alloc);
    for row in rows {
        let arm = arm(alloc, *row)?;
        arms.push(arm)?;
    }
    Ok(arms)
}
