//! The numbers of the states as expressions: `k` and `state == k`.

ghost use Rattle.std.specs.Prelude.{◌≡◌, ◌<◌, length, slice_get, IfOk, Some};
ghost use Rattle.lx_circuit.specs.Terms.{Signal};
ghost use Rattle.lx_fhdl.specs.Designs.{shapes};
ghost use Rattle.lx_fsm.specs.Lists.{is_in, numeral};
ghost use Rattle.lx_fsm.specs.Lowers.{HasTerm, NumbersPut, TermPut, register};

use crate::growing::Growing;
use lx_description::FsmDecl;
use lx_fhdl::{Expr, ExprId};
use lx_num::Shape;
use lx_tables::Op;
use lx_text::{List, NoMemory};
use std::alloc::Global;

/// For each state its number, and the condition that `state` is this number.
#[derive(Drop)]
pub struct Numbers {
    pub numerals: List<ExprId>,
    pub conds: List<ExprId>,
}

/// The expression of a number.
pub(crate) fn id_at(ids: &[ExprId], number: usize) -> ExprId
    requires { number < length ids.now }
    ensures { slice_get ids.now number ≡ Some result }
{
    ids[number]
}

// The shape of `state`.
fn state_shape(draft: &Growing, fsm: &FsmDecl) -> Shape
    requires { fsm.now.state.0 < length draft.now.signals }
    ensures { result ≡ shapes draft.now fsm.now.state.0 }
{
    draft.design().signals.at(fsm.state.0).shape
}

// Adds `state`.
#[tactic(auto, using(crate::proofs::Numbering::can_signal))]
fn push_state(draft: &mut Growing, fsm: &FsmDecl) -> Result<ExprId, NoMemory>
    requires { fsm.now.state.0 < length draft.old.signals }
    ensures { IfOk result (λ id. TermPut draft.old draft.new id.place (Signal fsm.now.state.0)) }
{
    draft.keeps();
    let id = draft.push_expr(Expr::Sig(fsm.state))?;
    draft.keeps();
    Ok(id)
}

// Adds the number of a state.
fn push_numeral(
    draft: &mut Growing,
    fsm: &FsmDecl,
    shape: Shape,
    number: usize,
) -> Result<ExprId, NoMemory>
    requires { shape ≡ shapes draft.old fsm.now.state.0 }
    ensures { IfOk result (λ id. TermPut draft.old draft.new id.place (numeral (register draft.old fsm.now) number)) }
{
    draft.keeps();
    let node = Expr::Const {
        value: number as i128,
        bits: shape.bits as u32,
        signed: shape.signed,
    };
    let id = draft.push_expr(node)?;
    draft.keeps();
    Ok(id)
}

// Adds the condition that `state` is a number.

fn push_cond(
    draft: &mut Growing,
    fsm: &FsmDecl,
    state: ExprId,
    constant: ExprId,
    number: usize,
) -> Result<ExprId, NoMemory>
    requires state { HasTerm draft.old state.place (Signal fsm.now.state.0) }
    requires constant { HasTerm draft.old constant.place (numeral (register draft.old fsm.now) number) }
    ensures { IfOk result (λ id. TermPut draft.old draft.new id.place (is_in (register draft.old fsm.now) number)) }
{
    let _fsm = fsm;
    let _number = number;
    draft.keeps();
    let node = Expr::Binary {
        op: Op::Eq,
        left: state,
        right: constant,
    };
    let id = draft.push_expr(node)?;
    draft.keeps();
    Ok(id)
}

/// Adds the numbers of all states, and their conditions.
pub(crate) fn push_numbers(
    alloc: Global,
    draft: &mut Growing,
    fsm: &FsmDecl,
) -> Result<Numbers, NoMemory>
    requires { fsm.now.state.0 < length draft.old.signals }
    ensures { IfOk result (λ numbers. NumbersPut draft.old draft.new (register draft.old fsm.now) (length fsm.now.states) numbers) }
{
    let shape = state_shape(draft, fsm);
    let state = push_state(draft, fsm)?;
    let mut numerals = List::new(alloc);
    let mut conds = List::new(alloc);
    for number in 0..fsm.states.len() {
        let constant = push_numeral(draft, fsm, shape, number)?;
        let cond = push_cond(draft, fsm, state, constant, number)?;
        numerals.push(constant)?;
        conds.push(cond)?;
    }
    Ok(Numbers { numerals, conds })
}
