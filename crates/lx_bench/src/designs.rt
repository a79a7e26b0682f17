//! Designs of any size: every signal but the input takes the inverse of the input.

ghost use Rattle.std.specs.Prelude.{◌<◌, ◌≤◌, ◌+◌, ◌^◌, length, IfOk};
ghost use Rattle.lx_bench.specs.Fans.{AreLines, AreSignals, FanPut, IsInput, IsMade, LinePut, LinesPut};

use lx_fhdl::{Branch, Design, Draft, Expr, ExprId, SigId, Signal, Stmt, StmtId, Target};
use lx_num::Shape;
use lx_tables::Op;
use lx_text::{List, NoMemory};
use std::alloc::Global;

/// How the statements stand.
#[derive(Clone, Copy)]
pub(crate) enum Form {
    /// One after the other.
    Lines,
    /// All under one condition.
    If,
}

// Signals of eight bits.
#[tactic(auto, using(crate::proofs::Fans::signals_none, crate::proofs::Fans::signals_more, crate::proofs::Fans::signal_is))]
fn signals(alloc: Global, count: usize) -> Result<List<Signal>, NoMemory>
    ensures { IfOk result (λ ss. AreSignals ss count) }
{
    let mut signals = List::new(alloc);
    for _made in 0..count {
        signals.push(Signal {
            path: List::new(alloc),
            shape: Shape {
                bits: 8,
                signed: false,
            },
            reset: 0,
            reset_less: false,
            by_bus: false,
            line: 0,
        })?;
    }
    Ok(signals)
}

// A statement for a signal.
#[tactic(auto, using(crate::proofs::Fans::can_add_inverse, crate::proofs::Fans::can_add_target, crate::proofs::Fans::can_add_line, crate::proofs::Fans::line_put))]
fn put_line(draft: &mut Draft, input: ExprId, x: SigId) -> Result<StmtId, NoMemory>
    requires input { IsInput draft.old input.place }
    requires there { x.0 < length draft.old.signals }
    requires other { 1 ≤ x.0 }
    ensures { IfOk result (λ id. LinePut draft.old draft.new id.place) }
{
    draft.keeps();
    let value = draft.push_expr(Expr::Unary {
        op: Op::Not,
        of: input,
    })?;
    draft.keeps();
    let target = draft.push_target(Target::Whole(x))?;
    draft.push_stmt(Stmt::Assign {
        target,
        value,
        line: 1,
    })
}

// A statement for each signal but the input.
#[tactic(auto, using(crate::proofs::Fans::lines_none, crate::proofs::Fans::lines_more, crate::proofs::Fans::input_stays))]
fn put_lines(
    alloc: Global,
    draft: &mut Draft,
    input: ExprId,
    count: usize,
) -> Result<List<StmtId>, NoMemory>
    requires input { IsInput draft.old input.place }
    requires there { count ≤ length draft.old.signals }
    ensures { IfOk result (λ ids. LinesPut draft.old draft.new ids) }
{
    let mut ids = List::new(alloc);
    for x in 1..count {
        ids.push(put_line(draft, input, SigId(x))?)?;
    }
    Ok(ids)
}

// The statements under the condition that the input isn't 0.
#[tactic(auto, using(crate::proofs::Fans::can_add_if, crate::proofs::Fans::if_put))]
fn put_if(
    alloc: Global,
    draft: &mut Draft,
    input: ExprId,
    body: List<StmtId>,
) -> Result<List<StmtId>, NoMemory>
    requires input { IsInput draft.old input.place }
    requires lines { AreLines draft.old body }
    ensures { IfOk result (λ ids. FanPut draft.old draft.new ids) }
{
    let branches = List::of_one(alloc, Branch { cond: input, body })?;
    let id = draft.push_stmt(Stmt::If {
        branches,
        rest: List::new(alloc),
        line: 1,
    })?;
    List::of_one(alloc, id)
}

// The statements in one of the forms.
#[tactic(auto, using(crate::proofs::Fans::lines_fan, crate::proofs::Fans::fan_later, crate::proofs::Fans::input_stays))]
fn put_form(
    alloc: Global,
    draft: &mut Draft,
    input: ExprId,
    count: usize,
    form: Form,
) -> Result<List<StmtId>, NoMemory>
    requires input { IsInput draft.old input.place }
    requires there { count ≤ length draft.old.signals }
    ensures { IfOk result (λ ids. FanPut draft.old draft.new ids) }
{
    let lines = put_lines(alloc, draft, input, count)?;
    match form {
        Form::Lines => Ok(lines),
        Form::If => put_if(alloc, draft, input, lines),
    }
}

/// A design of so many signals.
#[tactic(auto, using(crate::proofs::Fans::can_add_input, crate::proofs::Fans::input_put, crate::proofs::Fans::made))]
pub(crate) fn design(alloc: Global, count: usize, form: Form) -> Result<Design, NoMemory>
    requires { 1 ≤ count }
    ensures { IfOk result (λ d. IsMade d count) }
{
    let signals = signals(alloc, count)?;
    let mut draft = Draft::start(alloc, signals, List::new(alloc));
    let input = draft.push_expr(Expr::Sig(SigId(0)))?;
    let comb = put_form(alloc, &mut draft, input, count, form)?;
    let ios = List::of_one(alloc, SigId(0))?;
    let sync = List::new(alloc);
    let domains = List::new(alloc);
    let ports = List::new(alloc);
    Ok(draft.finish(comb, sync, domains, ports, ios))
}
