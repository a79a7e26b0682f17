//! The test.

ghost use Rattle.std.specs.Prelude.{◌≡◌, ◌&&◌, not, nat_le, true, IfOk};
ghost use Rattle.std.specs.List.{list_all};
ghost use Rattle.lx_circuit.specs.Circuit.{is_among};
ghost use Rattle.lx_fhdl.specs.Kept.{is_kept, is_signal};
ghost use Rattle.lx_fhdl.specs.Nodes.{is_fetch};
ghost use Rattle.lx_fhdl.specs.declared.exprs.Expr.{Expr};
ghost use Rattle.lx_fhdl.specs.declared.stmts.Stmt.{Stmt};
ghost use Rattle.lx_description.specs.Keeping as keeping;
ghost use Rattle.lx_description.specs.Kept as kept;
ghost use Rattle.lx_description.specs.Keeping.{KeepsDescription};
ghost use Rattle.lx_description.specs.Wires.{bus_signals};
ghost use Rattle.lx_description.specs.declared.fsms.FsmStmt.{FsmStmt};
ghost use Rattle.lx_fsm_kept.specs.Stand.{fsms_stand};
ghost use Rattle.lx_parts_kept.specs.Parts as parts;

use crate::modules::modules_keep;
use crate::places::are_apart;
use crate::registers::are_constants;
use crate::signals::is_some_generated;
use crate::system::{is_empty, top_keeps};
use lx_description::{Description, FsmStmt};
use lx_fhdl::{Expr, SigId, Stmt, Target};
use lx_text::NoMemory;
use std::alloc::Global;

// ---- expressions and targets

fn no_fetch(nodes: &[Expr]) -> bool
    ensures { result ≡ list_all (λ (x : Expr). not (is_fetch x)) nodes.now }
{
    for node in nodes {
        if let Expr::Fetch { .. } = node {
            return false;
        }
    }
    true
}

// Whether a signal is a port of the bus, where there is one.
#[tactic(auto, using(crate::proofs::Bus::bus_told))]
fn is_bus_signal(soc: bool, x: SigId) -> bool
    ensures { result ≡ is_among x.0 (bus_signals soc) }
{
    match soc {
        true => x.0 < 10,
        false => false,
    }
}

// Whether a signal is no port of the bus, and none of generated hardware.
fn is_open(description: &Description, x: SigId) -> bool
    ensures { result ≡ parts.is_open description.now x.0 }
{
    !is_some_generated(&description.design, x) && !is_bus_signal(description.soc, x)
}

fn names_open(description: &Description, node: &Target) -> bool
    ensures { result ≡ parts.names_open description.now node.now }
{
    match node {
        Target::Whole(x) => is_open(description, *x),
        Target::Part { signal, .. } => is_open(description, *signal),
        Target::Cat(_) | Target::Pick { .. } => true,
    }
}

fn name_open(description: &Description, nodes: &[Target]) -> bool
    ensures { result ≡ list_all (parts.names_open description.now) nodes.now }
{
    for node in nodes {
        if !names_open(description, node) {
            return false;
        }
    }
    true
}

fn are_open(description: &Description) -> bool
    ensures { result ≡ parts.are_open description.now }
{
    no_fetch(description.design.exprs.as_slice())
        && name_open(description, description.design.targets.as_slice())
}

// ---- lines

fn line_of(node: &Stmt) -> u32
    ensures { result ≡ keeping.line_of node.now }
{
    match node {
        Stmt::Assign { line, .. } => *line,
        Stmt::If { line, .. } => *line,
        Stmt::Case { line, .. } => *line,
    }
}

fn stmts_have_lines(nodes: &[Stmt]) -> bool
    ensures { result ≡ list_all (λ (s : Stmt). nat_le 1 (keeping.line_of s)) nodes.now }
{
    for node in nodes {
        if line_of(node) < 1 {
            return false;
        }
    }
    true
}

fn fsm_line(node: &FsmStmt) -> u32
    ensures { result ≡ keeping.fsm_line node.now }
{
    match node {
        FsmStmt::Assign { line, .. } => *line,
        FsmStmt::If { line, .. } => *line,
        FsmStmt::Case { line, .. } => *line,
        FsmStmt::NextState { line, .. } => *line,
        FsmStmt::NextValue { line, .. } => *line,
    }
}

fn fsm_stmts_have_lines(nodes: &[FsmStmt]) -> bool
    ensures { result ≡ list_all (λ (s : FsmStmt). nat_le 1 (keeping.fsm_line s)) nodes.now }
{
    for node in nodes {
        if fsm_line(node) < 1 {
            return false;
        }
    }
    true
}

fn have_lines(description: &Description) -> bool
    ensures { result ≡ kept.have_lines description.now }
{
    stmts_have_lines(description.design.stmts.as_slice())
        && fsm_stmts_have_lines(description.fsm_stmts.as_slice())
}

// ---- the whole

// Whether the modules, the constants and the lines of a description are such as descriptions have.
fn declared_keep(alloc: Global, description: &Description) -> Result<bool, NoMemory>
    requires { list_all is_signal description.now.design.signals ≡ true }
    ensures { IfOk result (λ keep. keep ≡ (kept.modules_keep description.now && (list_all kept.is_constant description.now.constants && kept.have_lines description.now))) }
{
    if !modules_keep(alloc, description)? {
        return Ok(false);
    }
    Ok(are_constants(description.constants.as_slice()) && have_lines(description))
}

fn wishes_keep(description: &Description) -> bool
    requires { list_all is_signal description.now.design.signals ≡ true }
    ensures { result ≡ ((kept.is_empty description.now.wishes.banks && kept.is_empty description.now.wishes.managers) && kept.top_keeps description.now description.now.soc) }
{
    (is_empty(&description.wishes.banks) && is_empty(&description.wishes.managers))
        && top_keeps(description)
}

fn tested(alloc: Global, description: &Description) -> Result<bool, NoMemory>
    requires { list_all is_signal description.now.design.signals ≡ true }
    ensures { IfOk result (λ keep. keep ≡ parts.parts_keep description.now) }
{
    if !are_open(description) || !declared_keep(alloc, description)? {
        return Ok(false);
    }
    if !are_apart(alloc, description)? {
        return Ok(false);
    }
    Ok(wishes_keep(description))
}

/// Whether what a description declares beside its design and its FSMs, which have passed their tests, is such as descriptions
/// have; in time that is linear in the description. No target may name a port of the bus or a signal of generated hardware,
/// whether a statement has the target or not.
#[tactic(auto, using(crate::proofs::Sound::are_signals))]
pub fn parts_keep(alloc: Global, description: &Description) -> Result<bool, NoMemory>
    requires design { is_kept description.now.design ≡ true }
    requires fsms { fsms_stand description.now ≡ true }
    ensures is { IfOk result (λ keep. keep ≡ parts.parts_keep description.now) }
    ensures law { IfOk result (λ keep. keep ≡ true → KeepsDescription description.now) }
{
    description.fsm_stmts.lower();
    let keep = tested(alloc, description)?;
    Ok(keep)
}
