//! What the attributes of modules declare, and what a system declares beside its modules.

use crate::pieces::{put, put_line, put_signal, put_signals};
use lx_description::{
    ConstDecl, ConstValue, Description, Field, ManagerDecl, Part, RegDecl, RegKind, SlaveDecl,
    SlaveKind, SourceDecl, SourceKind,
};
use lx_fhdl::{Fix, RegionWish};
use lx_text::{NoMemory, Text, Word};

fn put_name(mark: &[u8], name: &Word, out: &mut Text) -> Result<(), NoMemory> {
    out.word(mark)?;
    out.word(name.as_bytes())
}

fn put_value(value: &ConstValue, out: &mut Text) -> Result<(), NoMemory> {
    match value {
        ConstValue::Number(number) => {
            out.word(b" ")?;
            out.dec(*number)
        }
        ConstValue::Text(text) => {
            put_name(b" '", text, out)?;
            out.word(b"'")
        }
        ConstValue::Nothing => Ok(()),
    }
}

fn put_constant(constant: &ConstDecl, out: &mut Text) -> Result<(), NoMemory> {
    put_name(b"    constant ", &constant.name, out)?;
    put_value(&constant.value, out)?;
    put_line(constant.line, out)?;
    out.word(b"\n")
}

fn put_field(field: &Field, out: &mut Text) -> Result<(), NoMemory> {
    put_name(b" field ", &field.name, out)?;
    put(b" at ", field.offset as usize, out)?;
    put(b" bits ", field.size as usize, out)?;
    out.word(b" reset ")?;
    out.dec(field.reset)?;
    put_line(field.line, out)
}

fn kind_word(kind: RegKind) -> &'static [u8] {
    match kind {
        RegKind::Storage => b"    storage ",
        RegKind::Status => b"    status ",
        RegKind::Raw => b"    raw ",
        RegKind::Pending => b"    pending ",
    }
}

fn put_flags(register: &RegDecl, out: &mut Text) -> Result<(), NoMemory> {
    if register.atomic {
        out.word(b" atomic")?;
    }
    if register.from_dev {
        out.word(b" from_dev")?;
    }
    Ok(())
}

fn put_register(register: &RegDecl, out: &mut Text) -> Result<(), NoMemory> {
    put_name(kind_word(register.kind), &register.name, out)?;
    put(b" bits ", register.size as usize, out)?;
    out.word(b" reset ")?;
    out.dec(register.reset)?;
    put_flags(register, out)?;
    for field in register.fields.as_slice() {
        put_field(field, out)?;
    }
    out.word(b" signals")?;
    put_signals(register.signals.as_slice(), out)?;
    put_line(register.line, out)?;
    out.word(b"\n")
}

fn source_word(kind: SourceKind) -> &'static [u8] {
    match kind {
        SourceKind::Pulse => b" pulse ",
        SourceKind::Falling => b" falling ",
        SourceKind::Rising => b" rising ",
        SourceKind::Level => b" level ",
    }
}

fn put_source(source: &SourceDecl, out: &mut Text) -> Result<(), NoMemory> {
    put_name(source_word(source.kind), &source.name, out)?;
    put_signals(source.signals.as_slice(), out)
}

fn put_manager(name: &Word, manager: &ManagerDecl, out: &mut Text) -> Result<(), NoMemory> {
    put_name(b"    manager ", name, out)?;
    for source in manager.sources.as_slice() {
        put_source(source, out)?;
    }
    out.word(b" irq")?;
    put_signal(manager.irq, out)?;
    out.word(b" enable")?;
    put_signal(manager.enable, out)?;
    put_line(manager.line, out)?;
    out.word(b"\n")
}

/// A part of a module, on a line of its own.
pub(crate) fn put_part(part: &Part, out: &mut Text) -> Result<(), NoMemory> {
    match part {
        Part::Reg(register) => put_register(register, out),
        Part::Constant(constant) => put_constant(constant, out),
        Part::Manager(name, manager) => put_manager(name, manager, out),
        Part::Module(place) => {
            put(b"    module ", *place, out)?;
            out.word(b"\n")
        }
    }
}

fn put_origin(origin: Option<u64>, out: &mut Text) -> Result<(), NoMemory> {
    if let Some(origin) = origin {
        out.word(b" at ")?;
        out.hex(origin, 8)?;
    }
    Ok(())
}

fn put_region(wish: &RegionWish, out: &mut Text) -> Result<(), NoMemory> {
    put_name(b"  region ", &wish.name, out)?;
    put_origin(wish.origin, out)?;
    put(b" bytes ", wish.size as usize, out)?;
    out.word(if wish.cached {
        b" cached".as_slice()
    } else {
        b" uncached".as_slice()
    })?;
    put_line(wish.line, out)?;
    out.word(b"\n")
}

fn put_fix(mark: &[u8], fix: &Fix, out: &mut Text) -> Result<(), NoMemory> {
    put_name(mark, &fix.name, out)?;
    if let Some(number) = fix.number {
        put(b" number ", number as usize, out)?;
    }
    put_line(fix.line, out)?;
    out.word(b"\n")
}

fn put_fixes(mark: &[u8], fixes: &[Fix], out: &mut Text) -> Result<(), NoMemory> {
    for fix in fixes {
        put_fix(mark, fix, out)?;
    }
    Ok(())
}

fn put_words(words: &[u32], out: &mut Text) -> Result<(), NoMemory> {
    for word in words {
        put(b" ", *word as usize, out)?;
    }
    Ok(())
}

fn put_answers(kind: &SlaveKind, out: &mut Text) -> Result<(), NoMemory> {
    match kind {
        SlaveKind::Ram(words) => {
            out.word(b" ram")?;
            put_words(words.as_slice(), out)
        }
        SlaveKind::Rom(words) => {
            out.word(b" rom")?;
            put_words(words.as_slice(), out)
        }
        SlaveKind::User(signals) => {
            out.word(b" signals")?;
            put_signals(signals.as_slice(), out)
        }
    }
}

fn put_slave(slave: &SlaveDecl, out: &mut Text) -> Result<(), NoMemory> {
    put_name(b"  slave ", &slave.name, out)?;
    put_answers(&slave.kind, out)?;
    put_line(slave.line, out)?;
    out.word(b"\n")
}

/// What a system wishes for, what answers on its bus, and the constants that its top adds.
pub(crate) fn put_system(description: &Description, out: &mut Text) -> Result<(), NoMemory> {
    if description.soc {
        out.word(b"  system\n")?;
    }
    for wish in description.wishes.regions.as_slice() {
        put_region(wish, out)?;
    }
    for slave in description.slaves.as_slice() {
        put_slave(slave, out)?;
    }
    put_fixes(b"  bank ", description.wishes.fixes.as_slice(), out)?;
    put_fixes(b"  interrupt ", description.wishes.irqs.as_slice(), out)?;
    for constant in description.constants.as_slice() {
        put_constant(constant, out)?;
    }
    Ok(())
}
