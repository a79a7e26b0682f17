//! Reads of words, and registers, of generated hardware.

ghost use Rattle.std.specs.Prelude.{◌≡◌, ◌<◌, ◌≤◌, ◌^◌, false, length, nat_lt, pos, IfOk, Some};
ghost use Rattle.lx_num.specs.Ints.{unsigned};
ghost use Rattle.lx_circuit.specs.Shapes.{shape_of};
ghost use Rattle.lx_circuit.specs.Statements as tree;
ghost use Rattle.lx_circuit.specs.Terms as term;
ghost use Rattle.lx_lowering.specs.Flat.{fails};
ghost use Rattle.lx_tables.specs.declared.operators.Op.TheVariants as op;
ghost use Rattle.lx_fhdl.specs.Designs.{circuit_of, memory_at, port_of, shapes};
ghost use Rattle.lx_fhdl.specs.Designs as designs;
ghost use Rattle.lx_fhdl.specs.Drafts.{SignalPut};
ghost use Rattle.lx_fhdl.specs.Nodes.{IsSmall};
ghost use Rattle.lx_memory.specs.Ports.{word_at};
ghost use Rattle.lx_memory.specs.Puts.{CanRead, HasTerm, StmtPut, TermPut, fetched, guarded, held, register_of};

use crate::growing::Growing;
use lx_fhdl::{Branch, Expr, ExprId, Port, SigId, Signal, Stmt, StmtId, Target};
use lx_num::Shape;
use lx_tables::Op;
use lx_text::{List, NoMemory};
use std::alloc::Global;

// Adds a signal as an expression.
#[tactic(auto, using(crate::proofs::Nodes::can_signal, crate::proofs::Nodes::term_put))]
fn push_name(draft: &mut Growing, x: SigId) -> Result<ExprId, NoMemory>
    requires { x.0 < length draft.old.signals }
    ensures { IfOk result (λ id. TermPut draft.old draft.new id.place (term.Signal x.0)) }
{
    draft.keeps();
    let id = draft.push_expr(Expr::Sig(x))?;
    Ok(id)
}

// Adds a number of a shape.
#[tactic(auto, using(crate::proofs::Nodes::can_number, crate::proofs::Nodes::term_put))]
fn push_number(draft: &mut Growing, value: i128, shape: Shape) -> Result<ExprId, NoMemory>
    requires { IsSmall shape }
    ensures { IfOk result (λ id. TermPut draft.old draft.new id.place (term.Constant value shape)) }
{
    draft.keeps();
    let id = draft.push_expr(Expr::Const {
        value,
        bits: shape.bits as u32,
        signed: shape.signed,
    })?;
    Ok(id)
}

// The shape of a signal.
fn shape_of(draft: &Growing, x: SigId) -> Shape
    requires { x.0 < length draft.now.signals }
    ensures { result ≡ shapes draft.now x.0 }
{
    draft.design().signals.at(x.0).shape
}

// Adds the test that a signal, which stands as an expression, is below a number.
fn push_below(draft: &mut Growing, x: SigId, at: ExprId, number: u32) -> Result<ExprId, NoMemory>
    requires there { x.0 < length draft.old.signals }
    requires at { HasTerm draft.old at.place (term.Signal x.0) }
    ensures { IfOk result (λ id. TermPut draft.old draft.new id.place (term.Binary op.Lt (term.Signal x.0) (term.Constant (pos number) (shapes draft.old x.0)))) }
{
    let shape = shape_of(draft, x);
    draft.keeps();
    let right = push_number(draft, number as i128, shape)?;
    draft.keeps();
    let id = draft.push_expr(Expr::Binary {
        op: Op::Lt,
        left: at,
        right,
    })?;
    Ok(id)
}

// Adds the test that a signal is 0.
fn push_is_zero(draft: &mut Growing, x: SigId) -> Result<ExprId, NoMemory>
    requires { x.0 < length draft.old.signals }
    ensures { IfOk result (λ id. TermPut draft.old draft.new id.place (fails (shapes draft.old) (term.Signal x.0))) }
{
    let shape = shape_of(draft, x);
    draft.keeps();
    let left = push_name(draft, x)?;
    let right = push_number(draft, 0, shape)?;
    draft.keeps();
    let id = draft.push_expr(Expr::Binary {
        op: Op::Eq,
        left,
        right,
    })?;
    Ok(id)
}

// The depth of a memory.
fn depth_of(draft: &Growing, memory: usize) -> u32
    requires { memory < length draft.now.memories }
    ensures { result ≡ (memory_at draft.now memory).depth }
{
    draft.design().memories.at(memory).depth
}

// The shape of a word of a memory.
fn word_shape(draft: &Growing, memory: usize) -> Shape
    requires { memory < length draft.now.memories }
    ensures { result ≡ unsigned (memory_at draft.now memory).width }
{
    Shape {
        bits: draft.design().memories.at(memory).width,
        signed: false,
    }
}

// Adds a read of the word at an address.
#[tactic(auto, using(crate::proofs::Nodes::can_fetch, crate::proofs::Nodes::term_put))]
fn push_fetch(draft: &mut Growing, memory: usize, at: ExprId) -> Result<ExprId, NoMemory>
    requires memory { memory < length draft.old.memories }
    requires there { at.place < length draft.old.exprs }
    requires plain { (shape_of (shapes draft.old) (designs.term draft.old at.place)).signed ≡ false }
    ensures { IfOk result (λ id. TermPut draft.old draft.new id.place (term.Fetch memory (memory_at draft.old memory).width (designs.term draft.old at.place))) }
{
    let width = word_shape(draft, memory).bits;
    draft.keeps();
    let id = draft.push_expr(Expr::Fetch { memory, width, at })?;
    Ok(id)
}

// Whether so many bits can tell an address at or past the depth.
fn reaches_past(depth: u32, bits: u8) -> bool
    requires { bits ≤ 127 }
    ensures { result ≡ nat_lt depth (2 ^ bits) }
{
    (depth as u128) < 1u128 << bits
}

// Adds the choice of a word where an address is below the depth, else 0.
fn push_guarded(
    draft: &mut Growing,
    port: Port,
    x: SigId,
    at: ExprId,
    word: ExprId,
) -> Result<ExprId, NoMemory>
    requires read { CanRead draft.old port x }
    requires at { HasTerm draft.old at.place (term.Signal x.0) }
    requires word { HasTerm draft.old word.place (fetched draft.old port x) }
    ensures { IfOk result (λ id. TermPut draft.old draft.new id.place (guarded draft.old port x)) }
{
    let depth = depth_of(draft, port.memory);
    let shape = word_shape(draft, port.memory);
    let cond = push_below(draft, x, at, depth)?;
    draft.keeps();
    let nothing = push_number(draft, 0, shape)?;
    draft.keeps();
    let id = draft.push_expr(Expr::Mux {
        cond,
        yes: word,
        no: nothing,
    })?;
    Ok(id)
}

/// Adds the word of a port's memory at the address that a signal has: 0 at or past the depth.
pub(crate) fn push_word(draft: &mut Growing, port: Port, x: SigId) -> Result<ExprId, NoMemory>
    requires { CanRead draft.old port x }
    ensures { IfOk result (λ id. TermPut draft.old draft.new id.place (word_at (circuit_of draft.old) (port_of port) x.0)) }
{
    let depth = depth_of(draft, port.memory);
    draft.keeps();
    let bits = shape_of(draft, port.adr).bits;
    let at = push_name(draft, x)?;
    let word = push_fetch(draft, port.memory, at)?;
    if reaches_past(depth, bits) {
        let id = push_guarded(draft, port, x, at, word)?;
        Ok(id)
    } else {
        Ok(word)
    }
}

/// Adds what a port keeps or shows.
pub(crate) fn push_signal_name(draft: &mut Growing, x: SigId) -> Result<ExprId, NoMemory>
    requires { x.0 < length draft.old.signals }
    ensures { IfOk result (λ id. TermPut draft.old draft.new id.place (term.Signal x.0)) }
{
    push_name(draft, x)
}

// Adds a register of a shape, which starts at 0 and which no reset changes.
fn push_register(alloc: Global, draft: &mut Growing, shape: Shape) -> Result<SigId, NoMemory>
    requires some { 1 ≤ shape.bits }
    requires most { shape.bits ≤ 64 }
    ensures { IfOk result (λ id. SignalPut draft.old draft.new (register_of shape) id.0) }
{
    let id = draft.push_signal(Signal {
        path: List::new(alloc),
        shape,
        reset: 0,
        reset_less: true,
        by_bus: false,
        line: 0,
    })?;
    Ok(id)
}

/// Adds a register for an address of a port.
pub(crate) fn push_address_register(
    alloc: Global,
    draft: &mut Growing,
    port: Port,
) -> Result<SigId, NoMemory>
    requires { port.adr.0 < length draft.old.signals }
    ensures { IfOk result (λ id. SignalPut draft.old draft.new (register_of (shapes draft.old port.adr.0)) id.0) }
{
    let shape = shape_of(draft, port.adr);
    draft.keeps();
    push_register(alloc, draft, shape)
}

/// Adds a register for a word of a port's memory.
pub(crate) fn push_word_register(
    alloc: Global,
    draft: &mut Growing,
    port: Port,
) -> Result<SigId, NoMemory>
    requires { port.memory < length draft.old.memories }
    ensures { IfOk result (λ id. SignalPut draft.old draft.new (register_of (unsigned (memory_at draft.old port.memory).width)) id.0) }
{
    let shape = word_shape(draft, port.memory);
    draft.keeps();
    push_register(alloc, draft, shape)
}

/// Adds the assignment of a signal.
pub(crate) fn push_assign(draft: &mut Growing, x: SigId, value: ExprId) -> Result<StmtId, NoMemory>
    requires signal { x.0 < length draft.old.signals }
    requires value { value.place < length draft.old.exprs }
    ensures { IfOk result (λ id. StmtPut draft.old draft.new id.place (tree.Assign (tree.Whole x.0) (designs.term draft.old value.place))) }
{
    draft.keeps();
    let target = draft.push_target(Target::Whole(x))?;
    let id = draft.push_stmt(Stmt::Assign {
        target,
        value,
        line: 0,
    })?;
    Ok(id)
}

/// Adds a statement where all bits of a signal are 0.
pub(crate) fn push_where_zero(
    alloc: Global,
    draft: &mut Growing,
    x: SigId,
    stmt: StmtId,
) -> Result<StmtId, NoMemory>
    requires signal { x.0 < length draft.old.signals }
    requires stmt { stmt.place < length draft.old.stmts }
    ensures { IfOk result (λ id. StmtPut draft.old draft.new id.place (held (shapes draft.old) (Some x) (designs.stmt draft.old stmt.place))) }
{
    let cond = push_is_zero(draft, x)?;
    let body = List::of_one(alloc, stmt)?;
    let branches = List::of_one(alloc, Branch { cond, body })?;
    let id = draft.push_stmt(Stmt::If {
        branches,
        rest: List::new(alloc),
        line: 0,
    })?;
    Ok(id)
}
