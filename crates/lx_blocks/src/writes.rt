//! The blocks that write memories (IEEE 1364-2005, "Procedural assignments").

ghost use Rattle.std.specs.Prelude.{◌≡◌, ◌<◌, ◌≤◌, ◌^◌, length, map, nat_le, IfOk, OnOk, IsTrue};
ghost use Rattle.lx_vtree.specs.Growth.{PutExpr, PutStmt};
ghost use Rattle.lx_vtree.specs.Stmts.{are_stmts_below};
ghost use Rattle.lx_vtree.specs.Modules.{are_blocks_placed};
ghost use Rattle.lx_fhdl.specs.Designs.{port_of};
ghost use Rattle.lx_fhdl.specs.Keeping.{IsPort};
ghost use Rattle.lx_emission.specs.Memories.{field_text, word_target, writes_memory, writing_domain};
ghost use Rattle.lx_blocks.specs.Lines.{PutAlways};
ghost use Rattle.lx_blocks.specs.Puts.{IsWordTarget, PutBlock, PutStmts};
ghost use Rattle.lx_blocks.specs.Writes.{IsWriteOf, all_writes_in, bound_text, bounded_in, memory_always_in, memory_body_in, part_in, parts_in, port_in, word_in, write_in};

use crate::write::Write;
use lx_fhdl::Port;
use lx_sheet::names::clock_name;
use lx_sheet::operands::{put_literal, put_net};
use lx_sheet::{MemoryOf, Sheet, SignalOf};
use lx_text::{List, NoMemory, Word};
use lx_vtext::BinOp;
use lx_vtree::{
    Always, ExprId as VExprId, Literal, Nodes, StmtId as VStmtId, VExpr, VStmt, VTarget,
};
use std::alloc::Global;

// Bits `low` to `low + len - 1` of a net of so many bits; a select never covers its name.
fn put_field(
    nodes: &mut Nodes,
    name: Word,
    bits: u8,
    low: u32,
    len: u8,
) -> Result<VExprId, NoMemory>
    requires { 1 ≤ len }
    ensures { IfOk result (λ i. PutExpr nodes.old nodes.new i.place (field_text name bits low len)) }
{
    if low == 0 && len == bits {
        return put_net(nodes, name);
    }
    let lo = low as u64;
    let hi = lo + len as u64 - 1;
    nodes.add_expr(VExpr::PartSelect { name, hi, lo })
}

// Bits `low` to `low + len - 1` of a word of so many bits.
fn word_part(name: Word, index: VExprId, bits: u8, low: u32, len: u8) -> VTarget
    requires { 1 ≤ len }
    ensures { IsWordTarget result index (λ e. word_target name e bits low len) }
{
    if low == 0 && len == bits {
        return VTarget::WholeWord { name, index };
    }
    let lo = low as u64;
    let hi = lo + len as u64 - 1;
    VTarget::PartWord {
        name,
        index,
        hi,
        lo,
    }
}

// `memory[adr][hi:lo] <= dat_w[hi:lo];` for a part.
fn put_word(alloc: Global, nodes: &mut Nodes, write: Write, i: u8) -> Result<VStmtId, NoMemory>
    ensures { IfOk result (λ s. PutStmt nodes.old nodes.new s.place (word_in write.entry i)) }
{
    let low = write.part as u32 * i as u32;
    let adr = write.adr.name(alloc)?;
    let index = put_net(nodes, adr)?;
    let name = write.memory.name(alloc)?;
    let target = word_part(name, index, write.width, low, write.part);
    let data = write.dat_w.name(alloc)?;
    let value = put_field(nodes, data, write.width, low, write.part)?;
    let node = VStmt::Assign {
        target,
        blocking: false,
        value,
    };
    nodes.add_stmt(node)
}

// `if (we[i:i]) begin`, the part, `end`.
fn put_part(alloc: Global, nodes: &mut Nodes, write: Write, i: u8) -> Result<VStmtId, NoMemory>
    ensures { IfOk result (λ s. PutStmt nodes.old nodes.new s.place (part_in write.entry i)) }
{
    let assign = put_word(alloc, nodes, write, i)?;
    let so = List::of_one(alloc, assign)?;
    let we = write.we.name(alloc)?;
    let cond = put_field(nodes, we, write.width / write.part, i as u32, 1)?;
    let other = None;
    nodes.add_stmt(VStmt::When { cond, so, other })
}

// Adds the parts of a word, in their order.
fn put_parts(
    alloc: Global,
    nodes: &mut Nodes,
    write: Write,
    list: List<VStmtId>,
) -> Result<List<VStmtId>, NoMemory>
    requires { IsTrue (are_stmts_below list (length nodes.old.stmts)) }
    ensures { IfOk result (λ after. PutStmts nodes.old nodes.new list after (parts_in write.entry)) }
{
    let mut after = list;
    for i in 0..write.width / write.part {
        let part = put_part(alloc, nodes, write, i)?;
        after.push(part)?;
    }
    Ok(after)
}

// `adr < depth`, with an address of so many bits.
fn put_bound(nodes: &mut Nodes, adr: Word, bits: u8, depth: u32) -> Result<VExprId, NoMemory>
    ensures { IfOk result (λ i. PutExpr nodes.old nodes.new i.place (bound_text adr bits depth)) }
{
    let left = put_net(nodes, adr)?;
    let value = depth as u128;
    let literal = Literal {
        bits,
        signed: false,
        value,
    };
    let right = put_literal(nodes, literal)?;
    let op = BinOp::Less;
    nodes.add_expr(VExpr::Binary { left, op, right })
}

// `if (adr < depth) begin`, the parts of a word, `end`.
fn put_bounded(
    alloc: Global,
    nodes: &mut Nodes,
    write: Write,
    depth: u32,
) -> Result<VStmtId, NoMemory>
    ensures { IfOk result (λ s. PutStmt nodes.old nodes.new s.place (bounded_in write.entry depth)) }
{
    let empty = List::new(alloc);
    let so = put_parts(alloc, nodes, write, empty)?;
    let bits = write.adr.shape().bits;
    let adr = write.adr.name(alloc)?;
    let cond = put_bound(nodes, adr, bits, depth)?;
    let other = None;
    nodes.add_stmt(VStmt::When { cond, so, other })
}

// Whether every address of so many bits is below the depth.
fn is_full(bits: u8, depth: u32) -> bool
    requires { bits < 128 }
    ensures { result ≡ nat_le (2 ^ bits) depth }
{
    1 << bits <= depth as u128
}

// Adds what a port writes, under a condition where an address may lie at or past the depth.
fn put_write(
    alloc: Global,
    nodes: &mut Nodes,
    write: Write,
    list: List<VStmtId>,
) -> Result<List<VStmtId>, NoMemory>
    requires { IsTrue (are_stmts_below list (length nodes.old.stmts)) }
    ensures { IfOk result (λ after. PutStmts nodes.old nodes.new list after (write_in write.entry)) }
{
    let depth = write.memory.memory().depth;
    if is_full(write.adr.shape().bits, depth) {
        return put_parts(alloc, nodes, write, list);
    }
    let mut after = list;
    let bounded = put_bounded(alloc, nodes, write, depth)?;
    after.push(bounded)?;
    Ok(after)
}

// What a port writes, where it does.
fn write_of<'a>(sheet: &'a Sheet<'a>, port: &Port) -> Option<Write<'a>>
    requires { IsPort sheet.now.design port.now }
    ensures { IsWriteOf sheet.now port.now result }
{
    let Some(dat_w) = port.dat_w else {
        return None;
    };
    let Some(we) = port.we else {
        return None;
    };
    let memory = MemoryOf::new(&*sheet, port.memory);
    Some(Write {
        memory,
        adr: SignalOf::new(&*sheet, port.adr),
        dat_w: SignalOf::new(&*sheet, dat_w),
        we: SignalOf::new(&*sheet, we),
        width: memory.memory().width,
        part: port.part,
    })
}

// Adds what a port writes to memory k.
fn put_port(
    alloc: Global,
    nodes: &mut Nodes,
    sheet: &Sheet,
    port: &Port,
    k: usize,
    list: List<VStmtId>,
) -> Result<List<VStmtId>, NoMemory>
    requires port { IsPort sheet.now.design port.now }
    requires list { IsTrue (are_stmts_below list (length nodes.old.stmts)) }
    ensures { IfOk result (λ after. PutStmts nodes.old nodes.new list after (port_in sheet.now k port.now)) }
{
    if port.memory != k {
        return Ok(list);
    }
    match write_of(sheet, port) {
        Some(write) => put_write(alloc, nodes, write, list),
        None => Ok(list),
    }
}

// The statements of the block that writes memory k: those of its ports, in their order.
fn put_body(
    alloc: Global,
    nodes: &mut Nodes,
    sheet: &Sheet,
    k: usize,
) -> Result<List<VStmtId>, NoMemory>
    ensures { IfOk result (λ list. PutBlock nodes.old nodes.new list (memory_body_in sheet.now k)) }
{
    let mut list = List::new(alloc);
    for place in 0..sheet.design.ports.len() {
        let port = sheet.design.ports.at(place);
        list = put_port(alloc, nodes, sheet, port, k, list)?;
    }
    Ok(list)
}

// Whether a port writes memory k.
fn writes(port: &Port, k: usize) -> bool
    ensures { result ≡ writes_memory k (port_of port.now) }
{
    port.memory == k && port.dat_w.is_some() && port.we.is_some()
}

// The domain of the first port that writes memory k.
fn writing_domain(ports: &[Port], k: usize) -> Option<usize>
    ensures { result ≡ writing_domain k (map port_of ports.now) }
{
    for port in ports {
        if writes(port, k) {
            return port.domain;
        }
    }
    None
}

// Adds the block that writes memory k, where a port writes it.
fn put_memory(
    alloc: Global,
    nodes: &mut Nodes,
    sheet: &Sheet,
    blocks: &mut List<Always>,
    k: usize,
) -> Result<(), NoMemory>
    requires { IsTrue (are_blocks_placed (length nodes.old.stmts) blocks.old) }
    ensures { OnOk result (PutAlways nodes.old nodes.new blocks.old blocks.new (memory_always_in sheet.now k)) }
{
    let Some(domain) = writing_domain(sheet.design.ports.as_slice(), k) else {
        return Ok(());
    };
    let clock = Some(clock_name(alloc, sheet.design.domains.at(domain))?);
    let body = put_body(alloc, nodes, sheet, k)?;
    blocks.push(Always { clock, body })
}

/// Adds the blocks that write memories, in the order of the memories.
pub fn put_memories(
    alloc: Global,
    nodes: &mut Nodes,
    sheet: &Sheet,
    blocks: &mut List<Always>,
) -> Result<(), NoMemory>
    requires { IsTrue (are_blocks_placed (length nodes.old.stmts) blocks.old) }
    ensures { OnOk result (PutAlways nodes.old nodes.new blocks.old blocks.new (all_writes_in sheet.now)) }
{
    for k in 0..sheet.design.memories.len() {
        put_memory(alloc, nodes, sheet, blocks, k)?;
    }
    Ok(())
}
