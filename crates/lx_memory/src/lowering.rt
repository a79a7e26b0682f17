//! Ports of memories become registers and reads of words.

ghost use Rattle.std.specs.Prelude.{[], ◌≡◌, ◌∷◌, ◌<◌, length, IfOk, IfSome, OnOk};
ghost use Rattle.lx_circuit.specs.Memories as memory;
ghost use Rattle.lx_circuit.specs.Statements as tree;
ghost use Rattle.lx_fhdl.specs.Designs as designs;
ghost use Rattle.lx_fhdl.specs.Designs.{circuit_of, port_of, shapes};
ghost use Rattle.lx_fhdl.specs.Keeping.{EachOf, IsPort, Keeps, ListStands};
ghost use Rattle.lx_memory.specs.Lowers.{IsPortsOf, ShowAlone, writers};
ghost use Rattle.lx_memory.specs.Puts.{IsKept, IsShown, PortLowered, PortsLowered, StmtPut, SyncPut, held};

use crate::copies::copied_design;
use crate::growing::Growing;
use crate::words::{
    push_address_register, push_assign, push_signal_name, push_where_zero, push_word,
    push_word_register,
};
use lx_fhdl::{Design, ExprId, Port, PortMode, SigId, StmtId, SyncPart};
use lx_text::{List, NoMemory};
use std::alloc::Global;

// Adds a statement to the part of a domain, where there is one.
fn put_sync(
    alloc: Global,
    draft: &mut Growing,
    domain: Option<usize>,
    stmt: StmtId,
) -> Result<(), NoMemory>
    requires domain { IfSome domain (λ k. k < length draft.old.domains) }
    requires stmt { ListStands draft.old (stmt ∷ []) }
    ensures { OnOk result (SyncPut draft.old draft.new domain stmt) }
{
    if let Some(domain) = domain {
        let stmts = List::of_one(alloc, stmt)?;
        draft.push_sync(SyncPart { domain, stmts })?;
    }
    Ok(())
}

// A register takes the address at each rise; dat_r is the word at the register.
fn keep_address(alloc: Global, draft: &mut Growing, port: Port) -> Result<ExprId, NoMemory>
    requires { IsPort draft.old port }
    ensures { IfOk result (λ id. IsShown draft.old draft.new port memory.WriteFirst id.place) }
{
    let kept = push_address_register(alloc, draft, port)?;
    draft.stands();
    let address = push_signal_name(draft, port.adr)?;
    let stmt = push_assign(draft, kept, address)?;
    put_sync(alloc, draft, port.domain, stmt)?;
    draft.stands();
    let id = push_word(draft, port, kept)?;
    Ok(id)
}

// Adds the assignment of a register, with `holds` where all its bits are 0.
fn push_taken(
    alloc: Global,
    draft: &mut Growing,
    kept: SigId,
    word: ExprId,
    holds: Option<SigId>,
) -> Result<StmtId, NoMemory>
    requires kept { kept.0 < length draft.old.signals }
    requires word { word.place < length draft.old.exprs }
    requires holds { IfSome holds (λ x. x.0 < length draft.old.signals) }
    ensures { IfOk result (λ id. StmtPut draft.old draft.new id.place (held (shapes draft.old) holds (tree.Assign (tree.Whole kept.0) (designs.term draft.old word.place)))) }
{
    let taken = push_assign(draft, kept, word)?;
    match holds {
        Some(we) => {
            let id = push_where_zero(alloc, draft, we, taken)?;
            Ok(id)
        }
        None => Ok(taken),
    }
}

// A register takes the word at each rise, with `holds` where all of we is 0; dat_r is the register.
fn keep_word(
    alloc: Global,
    draft: &mut Growing,
    port: Port,
    holds: Option<SigId>,
) -> Result<ExprId, NoMemory>
    requires port { IsPort draft.old port }
    requires holds { IfSome holds (λ x. x.0 < length draft.old.signals) }
    ensures { IfOk result (λ id. IsKept draft.old draft.new port holds id.place) }
{
    let kept = push_word_register(alloc, draft, port)?;
    draft.stands();
    let word = push_word(draft, port, port.adr)?;
    let stmt = push_taken(alloc, draft, kept, word, holds)?;
    put_sync(alloc, draft, port.domain, stmt)?;
    draft.stands();
    let id = push_signal_name(draft, kept)?;
    Ok(id)
}

// Adds what dat_r of a port is.
fn push_read(alloc: Global, draft: &mut Growing, port: Port) -> Result<ExprId, NoMemory>
    requires { IsPort draft.old port }
    ensures { IfOk result (λ id. IsShown draft.old draft.new port (port_of port).mode id.place) }
{
    draft.stands();
    match port.mode {
        PortMode::Async => Ok(push_word(draft, port, port.adr)?),
        PortMode::WriteFirst => Ok(keep_address(alloc, draft, port)?),
        PortMode::ReadFirst => Ok(keep_word(alloc, draft, port, None)?),
        PortMode::NoChange => Ok(keep_word(alloc, draft, port, port.we)?),
    }
}

// The port's dat_r, where it has one, is assigned.
fn lower_port(alloc: Global, draft: &mut Growing, port: Port) -> Result<(), NoMemory>
    requires { IsPort draft.old port }
    ensures { OnOk result (PortLowered draft.old draft.new port) }
{
    if let Some(reader) = port.dat_r {
        let value = push_read(alloc, draft, port)?;
        draft.stands();
        let stmt = push_assign(draft, reader, value)?;
        draft.push_comb(stmt)?;
    }
    Ok(())
}

// Lowers all ports.
fn lower_all(alloc: Global, draft: &mut Growing, ports: &[Port]) -> Result<(), NoMemory>
    requires { EachOf (IsPort draft.old) ports.now }
    ensures { OnOk result (PortsLowered draft.old draft.new ports.now) }
{
    for port in ports {
        lower_port(alloc, draft, *port)?;
    }
    Ok(())
}

// The ports that write, without dat_r.
fn writers(alloc: Global, ports: &[Port]) -> Result<List<Port>, NoMemory>
    ensures { IfOk result (λ list. list ≡ writers ports.now) }
{
    let mut list = List::new(alloc);
    for port in ports {
        if port.we.is_some() {
            let mut silent = *port;
            silent.dat_r = None;
            list.push(silent)?;
        }
    }
    Ok(list)
}

/// The design with its ports lowered: each `dat_r` is assigned a word of the memory, beside a register that keeps the address
/// or the word where the mode asks for it; the ports that write stay. Nothing reads past a depth.
pub fn lower_ports(alloc: Global, design: &Design) -> Result<Design, NoMemory>
    requires keeps { Keeps design.now }
    requires alone { ShowAlone (circuit_of design.now) }
    ensures { IfOk result (λ e. IsPortsOf design.now e) }
{
    let mut draft = Growing::of(copied_design(alloc, design)?);
    lower_all(alloc, &mut draft, design.ports.as_slice())?;
    draft.stands();
    let ports = writers(alloc, design.ports.as_slice())?;
    Ok(draft.complete(ports))
}
