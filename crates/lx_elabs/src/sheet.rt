//! A description: its modules, and its circuit.

use crate::exprs::{put_all_targets, put_nodes};
use crate::fsms::put_fsms;
use crate::memories::put_memories;
use crate::parts::{put_part, put_system};
use crate::pieces::{put, put_line, put_path, put_signals, put_stmts};
use crate::stmts::put_all_stmts;
use lx_description::{Description, ModuleDecl};
use lx_fhdl::{Design, Domain, Signal, SyncPart};
use lx_text::{NoMemory, Text};

fn put_module(place: usize, module: &ModuleDecl, out: &mut Text) -> Result<(), NoMemory> {
    put(b"  ", place, out)?;
    out.word(b": ")?;
    out.word(module.name.as_bytes())?;
    out.word(if module.named {
        b" named".as_slice()
    } else {
        b" unnamed".as_slice()
    })?;
    out.word(b"\n")?;
    for part in module.parts.as_slice() {
        put_part(part, out)?;
    }
    Ok(())
}

fn put_signal(place: usize, signal: &Signal, out: &mut Text) -> Result<(), NoMemory> {
    put(b"  s", place, out)?;
    out.word(b":")?;
    put_path(signal.path.as_slice(), out)?;
    put(b" bits ", signal.shape.bits as usize, out)?;
    if signal.shape.signed {
        out.word(b" signed")?;
    }
    out.word(b" reset ")?;
    out.dec(signal.reset)?;
    if signal.reset_less {
        out.word(b" reset_less")?;
    }
    if signal.by_bus {
        out.word(b" given")?;
    }
    put_line(signal.line, out)?;
    out.word(b"\n")
}

fn put_domain(domain: &Domain, out: &mut Text) -> Result<(), NoMemory> {
    out.word(b"  ")?;
    out.word(domain.name.as_bytes())?;
    if let Some(reset) = domain.reset {
        put(b" s", reset.0, out)?;
    }
    out.word(b"\n")
}

fn put_sync(part: &SyncPart, out: &mut Text) -> Result<(), NoMemory> {
    put(b"  sync ", part.domain, out)?;
    out.word(b":")?;
    put_stmts(part.stmts.as_slice(), out)?;
    out.word(b"\n")
}

fn put_arenas(design: &Design, out: &mut Text) -> Result<(), NoMemory> {
    put_nodes(design.exprs.as_slice(), out)?;
    put_all_targets(design.targets.as_slice(), out)?;
    put_all_stmts(design.stmts.as_slice(), out)
}

fn put_lists(design: &Design, out: &mut Text) -> Result<(), NoMemory> {
    out.word(b"  comb:")?;
    put_stmts(design.comb.as_slice(), out)?;
    out.word(b"\n")?;
    for part in design.sync.as_slice() {
        put_sync(part, out)?;
    }
    out.word(b"  ios:")?;
    put_signals(design.ios.as_slice(), out)?;
    out.word(b"\n")
}

fn put_design(design: &Design, out: &mut Text) -> Result<(), NoMemory> {
    for domain in design.domains.as_slice() {
        put_domain(domain, out)?;
    }
    for (place, signal) in design.signals.as_slice().iter().enumerate() {
        put_signal(place, signal, out)?;
    }
    put_memories(design, out)?;
    put_arenas(design, out)?;
    put_lists(design, out)
}

pub(crate) fn put_description(description: &Description, out: &mut Text) -> Result<(), NoMemory> {
    out.word(description.top.as_bytes())?;
    out.word(b"\n")?;
    for (place, module) in description.modules.as_slice().iter().enumerate() {
        put_module(place, module, out)?;
    }
    put_system(description, out)?;
    put_design(&description.design, out)?;
    put_fsms(description, out)
}
