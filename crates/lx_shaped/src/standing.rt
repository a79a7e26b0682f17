//! Whether a node has the form that its operator asks for, and names what is there.

ghost use Rattle.std.specs.Prelude.{◌≡◌, nat_lt, slice_get};
ghost use Rattle.std.specs.List.{list_all};
ghost use Rattle.lx_circuit.specs.Operands as operands;
ghost use Rattle.lx_fhdl.specs.Kept as kept;
ghost use Rattle.lx_fhdl.specs.declared.stmts.Branch.{Branch};

use lx_fhdl::{Branch, Expr, Memory, Stmt};
use lx_tables::Op;

/// Whether an operator takes one operand.
fn is_unary(op: Op) -> bool
    ensures { result ≡ operands.is_unary op }
{
    matches!(op, Op::Neg | Op::Not)
}

/// Whether an operator takes two operands.
fn is_binary(op: Op) -> bool
    ensures { result ≡ operands.is_binary op }
{
    !matches!(op, Op::Neg | Op::Not | Op::Mux | Op::Cat | Op::Replicate)
}

/// Whether an operator stands with the number of operands that it takes.
pub fn takes_operands(node: &Expr) -> bool
    ensures { result ≡ kept.takes_operands node.now }
{
    match node {
        Expr::Unary { op, .. } => is_unary(*op),
        Expr::Binary { op, .. } => is_binary(*op),
        _ => true,
    }
}

/// Whether a Cat has a part, and a Pick an item.
pub fn has_parts(node: &Expr) -> bool
    ensures { result ≡ kept.has_parts node.now }
{
    match node {
        Expr::Cat(parts) => 0 < parts.len(),
        Expr::Pick { items, .. } => 0 < items.len(),
        _ => true,
    }
}

/// Whether a memory of this width stands at the place.
fn has_memory(memories: &[Memory], memory: usize, width: u8) -> bool
    ensures { result ≡ kept.has_width width (slice_get memories.now memory) }
{
    match memories.get(memory) {
        Some(there) => width == there.width,
        None => false,
    }
}

/// Whether the signal or the memory that a node names is there, of so many signals.
pub fn names_there(signals: usize, memories: &[Memory], node: &Expr) -> bool
    ensures { result ≡ kept.names_there signals memories.now node.now }
{
    match node {
        Expr::Sig(x) => x.0 < signals,
        Expr::Fetch { memory, width, .. } => has_memory(memories, *memory, *width),
        _ => true,
    }
}

/// Whether all conditions are there, of so many expressions.
fn conds_stand(exprs: usize, branches: &[Branch]) -> bool
    ensures { result ≡ list_all (λ (b : Branch). nat_lt b.cond.place exprs) branches.now }
{
    for branch in branches {
        if branch.cond.place >= exprs {
            return false;
        }
    }
    true
}

/// Whether the target and the expressions of a statement are there, of so many.
pub fn stmt_stands(exprs: usize, targets: usize, node: &Stmt) -> bool
    ensures { result ≡ kept.stmt_stands exprs targets node.now }
{
    match node {
        Stmt::Assign { target, value, .. } => target.place < targets && value.place < exprs,
        Stmt::If { branches, .. } => conds_stand(exprs, branches.as_slice()),
        Stmt::Case { on, .. } => on.place < exprs,
    }
}
