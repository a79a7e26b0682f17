//! The test of what a design keeps.

ghost use Rattle.std.specs.Prelude.{◌≡◌, IfOk};
ghost use Rattle.std.specs.List.{list_all};
ghost use Rattle.lx_fhdl.specs.Kept as kept;
ghost use Rattle.lx_fhdl.specs.Kept.{is_kept};
ghost use Rattle.lx_kept.specs.Given.{HasArenas, kept_parts, lists_stand};

use crate::depths::Depths;
use crate::domains::are_domains;
use crate::ports::are_ports;
use lx_fhdl::{Design, Memory, SigId, Signal, SyncPart};
use lx_parts::{is_memory, is_signal};
use lx_text::NoMemory;
use std::alloc::Global;

fn are_signals(signals: &[Signal]) -> bool
    ensures { result ≡ list_all kept.is_signal signals.now }
{
    for signal in signals {
        if !is_signal(signal) {
            return false;
        }
    }
    true
}

fn are_memories(memories: &[Memory]) -> bool
    ensures { result ≡ list_all kept.is_memory memories.now }
{
    for memory in memories {
        if !is_memory(memory) {
            return false;
        }
    }
    true
}

// Whether these are signals of the design.
fn are_there(design: &Design, ids: &[SigId]) -> bool
    ensures { result ≡ list_all (kept.is_there design.now) ids.now }
{
    let count = design.signals.len();
    for id in ids {
        if id.0 >= count {
            return false;
        }
    }
    true
}

// Whether the signals, the memories and all ports are those of a design.
fn parts_keep(design: &Design) -> bool
    ensures { result ≡ kept_parts design.now }
{
    are_signals(design.signals.as_slice())
        && are_memories(design.memories.as_slice())
        && are_ports(design, design.ports.as_slice())
        && are_there(design, design.ios.as_slice())
}

// Whether these parts of domains are of a domain and of statements that are there, at most 128 deep.
fn parts_stand(design: &Design, depths: &Depths, parts: &[SyncPart]) -> bool
    requires { depths.now ≡ design.now }
    ensures { result ≡ list_all (kept.part_stands design.now) parts.now }
{
    let count = design.domains.len();
    for part in parts {
        if part.domain >= count || !depths.list_stands(part.stmts.as_slice()) {
            return false;
        }
    }
    true
}

// Whether all lists of statements stand.
fn lists_stand(alloc: Global, design: &Design) -> Result<bool, NoMemory>
    requires { HasArenas design.now }
    ensures { IfOk result (λ stand. stand ≡ lists_stand design.now) }
{
    let depths = Depths::new(alloc, design)?;
    Ok(
        depths.list_stands(design.comb.as_slice())
            && parts_stand(design, &depths, design.sync.as_slice()),
    )
}

/// Whether a design keeps what designs keep, where its arenas do, in time that is linear in the design.
#[tactic(auto, using(crate::proofs::Whole::kept_is, crate::proofs::Whole::lists_there))]
pub fn is_kept(alloc: Global, design: &Design) -> Result<bool, NoMemory>
    requires { HasArenas design.now }
    ensures { IfOk result (λ kept. kept ≡ is_kept design.now) }
{
    if !parts_keep(design) {
        return Ok(false);
    }
    if !lists_stand(alloc, design)? {
        return Ok(false);
    }
    are_domains(alloc, design)
}
