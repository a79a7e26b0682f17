//! A walk over the statements of a design, which adds what they drive and what they read to its net.

ghost use Rattle.std.specs.Prelude.{◌≡◌, ◌<◌, ◌≤◌, ◌++◌, length, IfOk, OnOk, IsTrue};
ghost use Rattle.std.specs.Option.{option_to_list};
ghost use Rattle.lx_fhdl.specs.Below.{all_arms_below, all_branches_below, all_stmts_below};
ghost use Rattle.lx_fhdl.specs.Keeping.{BranchesStand, Keeps};
ghost use Rattle.lx_reads.specs.Net.{Adds, IsNet, IsNumber, above, row_below, signals_of};
ghost use Rattle.lx_reads.specs.Walks.{AddsCond, AddsRow, IsReady, IsStart, are_signals, arms_todo, assign_todo, block_todo, chain_todo, driven_todo, stmt_todo};

use crate::exprs::expr_rows;
use crate::net::{Driven, Net};
use crate::targets::{Parts, add_target};
use lx_fhdl::{Arm, Branch, Design, ExprId, Stmt, StmtId, TargetId};
use lx_text::{List, NoMemory};
use std::alloc::Global;

/// Where statements stand: their driver, and the number of the condition around them, where there is one.
#[derive(Clone, Copy)]
pub(crate) struct Under {
    pub(crate) driver: usize,
    pub(crate) around: Option<usize>,
}

impl Under {
    // Inside a further condition.
    fn within(self, node: usize) -> Under
        ensures { result ≡ record { driver = self.driver; around = Some node } }
    {
        Under {
            driver: self.driver,
            around: Some(node),
        }
    }
}

// Adds a row, and gives its number.
fn put_row(design: &Design, net: &mut Net, row: List<usize>) -> Result<usize, NoMemory>
    requires net { IsNet design.now net.old }
    requires below { IsTrue (row_below (signals_of design.now) row (length net.old.rows)) }
    ensures { IfOk result (λ node. AddsRow design.now net.old net.new row node) }
{
    let count = design.signals.len();
    let place = net.rows.len();
    let room = usize::MAX - count;
    if place > room {
        return Err(NoMemory);
    }
    net.rows.push(row)?;
    Ok(count + place)
}

// Adds the number of the condition around, where there is one.
fn push_around(row: &mut List<usize>, around: Option<usize>) -> Result<(), NoMemory>
    ensures { OnOk result (row.new ≡ row.old ++ option_to_list around) }
{
    if let Some(node) = around {
        row.push(node)?;
    }
    Ok(())
}

// Adds a condition, and gives the place inside it.
fn put_cond(
    alloc: Global,
    design: &Design,
    net: &mut Net,
    id: ExprId,
    under: Under,
) -> Result<Under, NoMemory>
    requires ready { IsReady design.now net.old under.around }
    requires place { id.place < length design.now.exprs }
    ensures { IfOk result (λ inside. AddsCond design.now net.old net.new id under inside) }
{
    let mut row = List::new(alloc);
    row.push(design.signals.len() + id.place)?;
    push_around(&mut row, under.around)?;
    let node = put_row(design, net, row)?;
    Ok(under.within(node))
}

// Adds that an assignment drives these signals.
fn put_driven(
    design: &Design,
    net: &mut Net,
    signals: &[usize],
    driver: usize,
    line: u32,
    node: usize,
) -> Result<(), NoMemory>
    requires net { IsNet design.now net.old }
    requires there { IsTrue (are_signals design.now signals.now) }
    requires node { IsNumber design.now net.old node }
    ensures { OnOk result (Adds design.now net.old net.new (driven_todo design.now net.old driver line node signals.now)) }
{
    let _design = design;
    for signal in signals {
        net.driven.push(Driven {
            signal: *signal,
            driver,
            line,
            node,
        })?;
    }
    Ok(())
}

// Adds an assignment.
fn put_assign(
    alloc: Global,
    design: &Design,
    net: &mut Net,
    target: TargetId,
    value: ExprId,
    line: u32,
    under: Under,
) -> Result<(), NoMemory>
    requires ready { IsReady design.now net.old under.around }
    requires target { target.place < length design.now.targets }
    requires value { value.place < length design.now.exprs }
    ensures { OnOk result (Adds design.now net.old net.new (assign_todo design.now under.driver (above design.now net.old under.around) target value line)) }
{
    let mut parts = Parts {
        signals: List::new(alloc),
        reads: List::new(alloc),
    };
    add_target(design, net, target, &mut parts)?;
    parts.reads.push(design.signals.len() + value.place)?;
    push_around(&mut parts.reads, under.around)?;
    let node = put_row(design, net, parts.reads)?;
    put_driven(
        design,
        net,
        parts.signals.as_slice(),
        under.driver,
        line,
        node,
    )
}

// Adds a statement.
#[cycle(walk)]
fn put_stmt(
    alloc: Global,
    design: &Design,
    net: &mut Net,
    under: Under,
    id: StmtId,
) -> Result<(), NoMemory>
    requires ready { IsReady design.now net.old under.around }
    requires place { id.place < length design.now.stmts }
    ensures { OnOk result (Adds design.now net.old net.new (stmt_todo design.now under.driver (above design.now net.old under.around) id.place)) }
{
    match design.stmts.get(id) {
        Stmt::Assign {
            target,
            value,
            line,
        } => put_assign(alloc, design, net, *target, *value, *line, under),
        Stmt::If { branches, rest, .. } => {
            let branches = branches.as_slice();
            let rest = rest.as_slice();
            put_if(alloc, design, net, under, branches, rest, id.place)
        }
        Stmt::Case { on, arms, rest, .. } => {
            let inside = put_cond(alloc, design, net, *on, under)?;
            let arms = arms.as_slice();
            let rest = rest.as_slice();
            put_arms(alloc, design, net, inside, arms, rest, id.place)
        }
    }
}

// Adds the statements of a list, all below the bound.
#[cycle(walk)]
fn put_block(
    alloc: Global,
    design: &Design,
    net: &mut Net,
    under: Under,
    ids: &[StmtId],
    bound: usize,
) -> Result<(), NoMemory>
    requires ready { IsReady design.now net.old under.around }
    requires below { IsTrue (all_stmts_below bound ids.now) }
    requires bound { bound ≤ length design.now.stmts }
    ensures { OnOk result (Adds design.now net.old net.new (block_todo design.now under.driver (above design.now net.old under.around) ids.now)) }
{
    for id in ids {
        put_stmt(alloc, design, net, under, *id)?;
    }
    Ok(())
}

// Adds the branches of an `If`, each inside its condition and those before it, and the rest inside all of them.
#[cycle(walk)]
fn put_if(
    alloc: Global,
    design: &Design,
    net: &mut Net,
    under: Under,
    branches: &[Branch],
    rest: &[StmtId],
    bound: usize,
) -> Result<(), NoMemory>
    requires ready { IsReady design.now net.old under.around }
    requires conds { BranchesStand (length design.now.exprs) branches.now }
    requires below { IsTrue (all_branches_below bound branches.now) }
    requires rest { IsTrue (all_stmts_below bound rest.now) }
    requires bound { bound ≤ length design.now.stmts }
    ensures { OnOk result (Adds design.now net.old net.new (chain_todo design.now under.driver (above design.now net.old under.around) branches.now rest.now)) }
{
    let mut inside = under;
    for branch in branches {
        inside = put_cond(alloc, design, net, branch.cond, inside)?;
        put_block(alloc, design, net, inside, branch.body.as_slice(), bound)?;
    }
    put_block(alloc, design, net, inside, rest, bound)
}

// Adds the arms of a `Case`, and its rest.
#[cycle(walk)]
fn put_arms(
    alloc: Global,
    design: &Design,
    net: &mut Net,
    under: Under,
    arms: &[Arm],
    rest: &[StmtId],
    bound: usize,
) -> Result<(), NoMemory>
    requires ready { IsReady design.now net.old under.around }
    requires below { IsTrue (all_arms_below bound arms.now) }
    requires rest { IsTrue (all_stmts_below bound rest.now) }
    requires bound { bound ≤ length design.now.stmts }
    ensures { OnOk result (Adds design.now net.old net.new (arms_todo design.now under.driver (above design.now net.old under.around) arms.now rest.now)) }
{
    for arm in arms {
        put_block(alloc, design, net, under, arm.body.as_slice(), bound)?;
    }
    put_block(alloc, design, net, under, rest, bound)
}

/// The net of a design's expressions, before any statement.
pub fn start(alloc: Global, design: &Design) -> Result<Net, NoMemory>
    requires { Keeps design.now }
    ensures { IfOk result (λ net. IsStart design.now net) }
{
    let exprs = design.exprs.len();
    let room = usize::MAX - design.signals.len();
    if exprs > room {
        return Err(NoMemory);
    }
    let rows = expr_rows(alloc, design)?;
    Ok(Net {
        rows,
        driven: List::new(alloc),
    })
}

/// Adds statements of a design to its net: those of comb as driver 0, those of the domain of number k as driver k + 1.
pub fn walk(
    alloc: Global,
    design: &Design,
    net: &mut Net,
    driver: usize,
    ids: &[StmtId],
) -> Result<(), NoMemory>
    requires net { IsNet design.now net.old }
    requires there { IsTrue (all_stmts_below (length design.now.stmts) ids.now) }
    ensures { OnOk result (Adds design.now net.old net.new (block_todo design.now driver (above design.now net.old None) ids.now)) }
{
    let under = Under {
        driver,
        around: None,
    };
    put_block(alloc, design, net, under, ids, design.stmts.len())
}
