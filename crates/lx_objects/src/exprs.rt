//! Expressions, targets and statements of FHDL as a description makes them.

ghost use Rattle.std.specs.Prelude.{◌≡◌};
ghost use Rattle.lx_state.specs.Step.{Gives};
ghost use Rattle.lx_objects.specs.Exprs.{expr_made, put_expr, put_stmt, put_target, width_kind};

use lx_circuit::WidthFault;
use lx_fhdl::{Expr, ExprId, Stmt, StmtId, Target, TargetId};
use lx_shaped::Outcome;
use lx_state::machine::Machine;
use lx_state::values::Value;
use lx_state::work::fault;
use lx_text::{Kind, Refusal};

/// The fault of a shape.
pub fn width_kind(fault: WidthFault) -> Kind
    ensures { result ≡ width_kind fault }
{
    match fault {
        WidthFault::TooWide(bits) => Kind::TooWide(bits),
        WidthFault::SignedShift => Kind::SignedShift,
        WidthFault::BadSlice => Kind::BadSlice,
        WidthFault::BadWidth => Kind::BadWidth,
    }
}

/// Makes an expression.
#[tactic(auto, unfolding(crate::specs::Exprs::put_expr))]
pub fn put_expr(machine: &mut Machine, line: u32, node: Expr) -> Result<ExprId, Refusal>
    ensures { Gives result machine.new (put_expr line node machine.old) }
{
    match machine.shaped.expr(node)? {
        Outcome::Made(id) => Ok(id),
        Outcome::Faulty(wrong) => Err(fault(line, width_kind(wrong))),
        Outcome::Misplaced => Err(fault(line, Kind::WrongKind)),
    }
}

/// Makes a target.
#[tactic(auto, unfolding(crate::specs::Exprs::put_target))]
pub fn put_target(machine: &mut Machine, line: u32, node: Target) -> Result<TargetId, Refusal>
    ensures { Gives result machine.new (put_target line node machine.old) }
{
    match machine.shaped.target(node)? {
        Outcome::Made(id) => Ok(id),
        Outcome::Faulty(wrong) => Err(fault(line, width_kind(wrong))),
        Outcome::Misplaced => Err(fault(line, Kind::WrongKind)),
    }
}

/// Makes a statement of the design.
#[tactic(auto, unfolding(crate::specs::Exprs::put_stmt))]
pub fn put_stmt(machine: &mut Machine, line: u32, node: Stmt) -> Result<StmtId, Refusal>
    ensures { Gives result machine.new (put_stmt line node machine.old) }
{
    match machine.shaped.stmt(node)? {
        Outcome::Made(id) => Ok(id),
        Outcome::Faulty(wrong) => Err(fault(line, width_kind(wrong))),
        Outcome::Misplaced => Err(fault(line, Kind::WrongKind)),
    }
}

/// Makes an expression that counts so many nodes; the fault of its shape comes first.
#[tactic(auto, unfolding(crate::specs::Exprs::expr_made))]
pub fn expr_made(machine: &mut Machine, line: u32, count: u32, node: Expr) -> Result<Value, Refusal>
    ensures { Gives result machine.new (expr_made line count node machine.old) }
{
    let id = put_expr(machine, line, node)?;
    machine.spend_nodes(line, count)?;
    Ok(Value::Expr(id))
}
