//! Flat statements: each assigns a signal or some of its bits, and each branch stands under its own condition.

ghost use Rattle.std.specs.Prelude.{◌≡◌, ◌<◌, [], length, IfOk, OnOk};
ghost use Rattle.lx_circuit.specs.Terms.{Binary};
ghost use Rattle.lx_fhdl.specs.Designs.{shapes, term};
ghost use Rattle.lx_plain.specs.Operands.{HasShape};
ghost use Rattle.lx_plain.specs.Plain.{IsBit, TermPut};
ghost use Rattle.lx_plain.specs.Tests.{asked};
ghost use Rattle.lx_flat.specs.Puts.{PutArms, PutCase, PutChain, PutIf, PutLone, PutOtherwise, PutStmt, PutStmts, PutWhen};
ghost use Rattle.lx_flat.specs.Ready.{IsReady};

use crate::assigns::put_assigns;
use crate::keys::{Keyed, fresh_keys, push_key, push_no_keys};
use crate::sites::{ArmsIn, BranchesIn, CaseIn, LoneIn, StmtIn, StmtsIn, TargetIn};
use lx_fhdl::{ExprId, Stmt};
use lx_plain::conds::{push_binary, push_test};
use lx_plain::groups::put_under;
use lx_plain::operands::{Operand, Test};
use lx_plain::owned::Own;
use lx_plain::plain::PlainDraft;
use lx_tables::Op;
use lx_text::{List, NoMemory};
use std::alloc::Global;

/// Adds the condition that a condition of one bit holds and another one holds, or fails.
fn push_and_test(
    draft: &mut PlainDraft,
    none: ExprId,
    cond: Operand,
    test: Test,
) -> Result<ExprId, NoMemory>
    requires none { IsBit draft.old none.place }
    requires cond { HasShape draft.old cond }
    ensures { IfOk result (λ id. TermPut draft.old draft.new id.place (Binary Op.And (term draft.old none.place) (asked (shapes draft.old) (term draft.old cond.id.place) test))) }
{
    let asked = push_test(draft, cond, test)?;
    let id = push_binary(draft, Op::And, none, asked)?;
    Ok(id)
}

/// Adds the flat statements of some statements of the design, and gives them.
pub fn flatten(alloc: Global, draft: &mut PlainDraft, stmts: StmtsIn) -> Result<List<Own>, NoMemory>
    requires { IsReady stmts.source.now draft.old [] }
    ensures { IfOk result (λ list. PutStmts stmts.entry.source.now draft.old draft.new [] list stmts.entry.ids.now) }
{
    let mut out = List::new(alloc);
    put_flat_block(alloc, draft, stmts, &mut out)?;
    Ok(out)
}

/// Adds the flat statements of a statement.
#[cycle(flat)]
fn put_flat(
    alloc: Global,
    draft: &mut PlainDraft,
    stmt: StmtIn,
    out: &mut List<Own>,
) -> Result<(), NoMemory>
    requires { IsReady stmt.source.now draft.old out.old }
    ensures { OnOk result (PutStmt stmt.entry.source.now draft.old draft.new out.old out.new stmt.entry.id.place) }
{
    let source = stmt.source;
    let bound = stmt.id.place;
    match source.stmt(stmt.id) {
        Stmt::Assign {
            target,
            value,
            line,
        } => {
            let value = source.lowered(draft, *value);
            let target = TargetIn {
                source,
                id: *target,
            };
            put_assigns(alloc, draft, target, value, *line, out)
        }
        Stmt::If {
            branches,
            rest,
            line,
        } => {
            let branches = branches.as_slice();
            let rest = rest.as_slice();
            let choice = BranchesIn {
                source,
                branches,
                rest,
                bound,
                line: *line,
            };
            put_if(alloc, draft, choice, out)
        }
        Stmt::Case {
            on,
            arms,
            rest,
            line,
        } => {
            let arms = arms.as_slice();
            let rest = rest.as_slice();
            let case = CaseIn {
                source,
                on: *on,
                arms,
                rest,
                bound,
                line: *line,
            };
            put_case(alloc, draft, case, out)
        }
    }
}

/// Adds the flat statements of a block.
#[cycle(flat)]
fn put_flat_block(
    alloc: Global,
    draft: &mut PlainDraft,
    stmts: StmtsIn,
    out: &mut List<Own>,
) -> Result<(), NoMemory>
    requires { IsReady stmts.source.now draft.old out.old }
    ensures { OnOk result (PutStmts stmts.entry.source.now draft.old draft.new out.old out.new stmts.entry.ids.now) }
{
    let source = stmts.source;
    for id in stmts.ids {
        put_flat(alloc, draft, StmtIn { source, id: *id }, out)?;
    }
    Ok(())
}

/// Adds the flat statements of a block under a condition.
#[cycle(flat)]
fn put_block_when(
    alloc: Global,
    draft: &mut PlainDraft,
    cond: ExprId,
    stmts: StmtsIn,
    line: u32,
    out: &mut List<Own>,
) -> Result<(), NoMemory>
    requires ready { IsReady stmts.source.now draft.old out.old }
    requires cond { cond.place < length draft.old.exprs }
    ensures { OnOk result (PutWhen stmts.entry.source.now draft.old draft.new out.old out.new cond.place line stmts.entry.ids.now) }
{
    let mut own = List::new(alloc);
    put_flat_block(alloc, draft, stmts, &mut own)?;
    put_under(alloc, draft, cond, own.as_slice(), &[], line, out)
}

/// Adds the flat statements of branches and the rest.
#[cycle(flat)]
fn put_if(
    alloc: Global,
    draft: &mut PlainDraft,
    node: BranchesIn,
    out: &mut List<Own>,
) -> Result<(), NoMemory>
    requires { IsReady node.source.now draft.old out.old }
    ensures { OnOk result (PutIf node.entry.source.now draft.old draft.new out.old out.new node.entry.line node.entry.branches.now node.entry.rest.now) }
{
    let source = node.source;
    let bound = node.bound;
    let branches = node.branches;
    if branches.is_empty() {
        let rest = StmtsIn {
            source,
            ids: node.rest,
            bound,
        };
        return put_flat_block(alloc, draft, rest, out);
    }
    let first = &branches[0];
    if branches.len() == 1 {
        let lone = LoneIn {
            source,
            branch: first,
            rest: node.rest,
            bound,
            line: node.line,
        };
        return put_lone(alloc, draft, lone, out);
    }
    let cond = source.lowered(draft, first.cond);
    let ids = first.body.as_slice();
    let body = StmtsIn { source, ids, bound };
    put_block_when(alloc, draft, cond.id, body, node.line, out)?;
    let none = push_test(draft, cond, Test::Fails)?;
    let branches = &branches[1..];
    let more = BranchesIn {
        source,
        branches,
        rest: node.rest,
        bound,
        line: node.line,
    };
    put_chain(alloc, draft, none, more, out)
}

/// Adds the flat statements of a lone branch, which keeps its rest beside it, where one of them has statements.
#[cycle(flat)]
fn put_lone(
    alloc: Global,
    draft: &mut PlainDraft,
    node: LoneIn,
    out: &mut List<Own>,
) -> Result<(), NoMemory>
    requires { IsReady node.source.now draft.old out.old }
    ensures { OnOk result (PutLone node.entry.source.now draft.old draft.new out.old out.new node.entry.line node.entry.branch.now node.entry.rest.now) }
{
    let source = node.source;
    let bound = node.bound;
    let branch = node.branch;
    let ids = branch.body.as_slice();
    let body = StmtsIn { source, ids, bound };
    let rest = StmtsIn {
        source,
        ids: node.rest,
        bound,
    };
    let mut then_ = List::new(alloc);
    let mut else_ = List::new(alloc);
    put_flat_block(alloc, draft, body, &mut then_)?;
    put_flat_block(alloc, draft, rest, &mut else_)?;
    let cond = source.lowered(draft, branch.cond);
    put_under(
        alloc,
        draft,
        cond.id,
        then_.as_slice(),
        else_.as_slice(),
        node.line,
        out,
    )
}

/// Adds the flat statements of further branches, each where none before it was taken, and of the rest.
#[cycle(flat)]
fn put_chain(
    alloc: Global,
    draft: &mut PlainDraft,
    none: ExprId,
    node: BranchesIn,
    out: &mut List<Own>,
) -> Result<(), NoMemory>
    requires ready { IsReady node.source.now draft.old out.old }
    requires none { IsBit draft.old none.place }
    ensures { OnOk result (PutChain node.entry.source.now draft.old draft.new out.old out.new none.place node.entry.line node.entry.branches.now node.entry.rest.now) }
{
    let source = node.source;
    let bound = node.bound;
    let mut none = none;
    for branch in node.branches {
        let cond = source.lowered(draft, branch.cond);
        let here = push_and_test(draft, none, cond, Test::Holds)?;
        let ids = branch.body.as_slice();
        let body = StmtsIn { source, ids, bound };
        put_block_when(alloc, draft, here, body, node.line, out)?;
        none = push_and_test(draft, none, cond, Test::Fails)?;
    }
    let rest = StmtsIn {
        source,
        ids: node.rest,
        bound,
    };
    put_block_when(alloc, draft, none, rest, node.line, out)
}

/// Adds the flat statements of a `Case`.
#[cycle(flat)]
fn put_case(
    alloc: Global,
    draft: &mut PlainDraft,
    node: CaseIn,
    out: &mut List<Own>,
) -> Result<(), NoMemory>
    requires { IsReady node.source.now draft.old out.old }
    ensures { OnOk result (PutCase node.entry.source.now draft.old draft.new out.old out.new node.entry.on.place node.entry.line node.entry.arms.now node.entry.rest.now) }
{
    let source = node.source;
    let on = source.lowered(draft, node.on);
    draft.keeps();
    let fresh = fresh_keys(alloc, node.arms, on.shape)?;
    let fresh = fresh.as_slice();
    let arms = ArmsIn {
        source,
        on: node.on,
        arms: node.arms,
        fresh,
        rest: node.rest,
        bound: node.bound,
        line: node.line,
    };
    put_arms(alloc, draft, arms, out)?;
    put_otherwise(alloc, draft, arms, out)
}

/// Adds the flat statements of arms, each where its key is the value and stands first.
#[cycle(flat)]
fn put_arms(
    alloc: Global,
    draft: &mut PlainDraft,
    node: ArmsIn,
    out: &mut List<Own>,
) -> Result<(), NoMemory>
    requires { IsReady node.source.now draft.old out.old }
    ensures { OnOk result (PutArms node.entry.source.now draft.old draft.new out.old out.new node.entry.on.place node.entry.line node.entry.arms.now) }
{
    let source = node.source;
    let bound = node.bound;
    let arms = node.arms;
    let fresh = node.fresh;
    let on = source.lowered(draft, node.on);
    for (number, arm) in arms.iter().enumerate() {
        let here = push_key(draft, on, fresh[number], arm.key)?;
        let ids = arm.body.as_slice();
        let body = StmtsIn { source, ids, bound };
        put_block_when(alloc, draft, here, body, node.line, out)?;
    }
    Ok(())
}

/// Adds the flat statements of the rest of arms, where there are any: where no key is the value.
#[cycle(flat)]
fn put_otherwise(
    alloc: Global,
    draft: &mut PlainDraft,
    node: ArmsIn,
    out: &mut List<Own>,
) -> Result<(), NoMemory>
    requires { IsReady node.source.now draft.old out.old }
    ensures { OnOk result (PutOtherwise node.entry.source.now draft.old draft.new out.old out.new node.entry.on.place node.entry.line node.entry.arms.now node.entry.rest.now) }
{
    let source = node.source;
    if node.rest.is_empty() {
        return Ok(());
    }
    let rest = StmtsIn {
        source,
        ids: node.rest,
        bound: node.bound,
    };
    let on = source.lowered(draft, node.on);
    let keyed = Keyed {
        on,
        arms: node.arms,
        fresh: node.fresh,
    };
    match push_no_keys(draft, keyed)? {
        Some(none) => put_block_when(alloc, draft, none, rest, node.line, out),
        None => put_flat_block(alloc, draft, rest, out),
    }
}
