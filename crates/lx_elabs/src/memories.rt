//! Memories and their ports.

use crate::pieces::{put, put_line, put_path, put_signal};
use lx_fhdl::{Design, Memory, Port, PortMode, SigId};
use lx_text::{NoMemory, Text};

fn put_contents(words: &[u64], out: &mut Text) -> Result<(), NoMemory> {
    let mut mark: &[u8] = b" init ";
    for word in words {
        out.word(mark)?;
        out.dec(*word as i128)?;
        mark = b" ";
    }
    Ok(())
}

fn put_memory(place: usize, memory: &Memory, out: &mut Text) -> Result<(), NoMemory> {
    put(b"  m", place, out)?;
    out.word(b":")?;
    put_path(memory.path.as_slice(), out)?;
    put(b" width ", memory.width as usize, out)?;
    put(b" depth ", memory.depth as usize, out)?;
    put_contents(memory.init.as_slice(), out)?;
    put_line(memory.line, out)?;
    out.word(b"\n")
}

fn mode_word(mode: PortMode) -> &'static [u8] {
    match mode {
        PortMode::Async => b" async",
        PortMode::WriteFirst => b" write_first",
        PortMode::ReadFirst => b" read_first",
        PortMode::NoChange => b" no_change",
    }
}

fn put_domain(domain: Option<usize>, out: &mut Text) -> Result<(), NoMemory> {
    match domain {
        Some(number) => put(b" domain ", number, out),
        None => Ok(()),
    }
}

fn put_part(name: &[u8], signal: Option<SigId>, out: &mut Text) -> Result<(), NoMemory> {
    match signal {
        Some(id) => {
            out.word(name)?;
            put_signal(id, out)
        }
        None => Ok(()),
    }
}

fn put_port(port: &Port, out: &mut Text) -> Result<(), NoMemory> {
    put(b"  port of m", port.memory, out)?;
    out.word(mode_word(port.mode))?;
    put_domain(port.domain, out)?;
    put_part(b" adr", Some(port.adr), out)?;
    put_part(b" dat_r", port.dat_r, out)?;
    put_part(b" dat_w", port.dat_w, out)?;
    put_part(b" we", port.we, out)?;
    put(b" part ", port.part as usize, out)?;
    out.word(b"\n")
}

pub(crate) fn put_memories(design: &Design, out: &mut Text) -> Result<(), NoMemory> {
    for (place, memory) in design.memories.as_slice().iter().enumerate() {
        put_memory(place, memory, out)?;
    }
    for port in design.ports.as_slice() {
        put_port(port, out)?;
    }
    Ok(())
}
