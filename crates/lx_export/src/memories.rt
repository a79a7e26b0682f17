//! `regions.ld`.

ghost use Rattle.std.specs.Prelude.{◌≡◌, ◌++◌, flat_map, IfOk, OnOk};
ghost use Rattle.lx_export.specs.Ld.{ld_text, memory_line};

use crate::orders::by_origin;
use crate::texts::put_address;
use lx_fhdl::Region;
use lx_soc::System;
use lx_text::{NoMemory, Text};
use std::alloc::Global;

#[tactic(auto, unfolding(crate::specs::Ld::memory_line))]
fn put_memory(out: &mut Text, region: &Region) -> Result<(), NoMemory>
    ensures { OnOk result (out.new ≡ out.old ++ memory_line region.now) }
{
    out.word(b"\t")?;
    out.word(region.name.as_bytes())?;
    out.word(b" : ORIGIN = ")?;
    put_address(out, region.origin)?;
    out.word(b", LENGTH = ")?;
    put_address(out, region.size)?;
    out.word(b"\n")?;
    Ok(())
}

fn put_memories(out: &mut Text, regions: &[Region]) -> Result<(), NoMemory>
    ensures { OnOk result (out.new ≡ out.old ++ flat_map memory_line regions.now) }
{
    for region in regions {
        put_memory(out, region)?;
    }
    Ok(())
}

/// The regions of a system by origin, each with its bytes as wished, as memories of a linker script (the command MEMORY of
/// GNU ld).
#[tactic(auto, unfolding(crate::specs::Ld::ld_text))]
pub fn regions_ld(alloc: Global, s: &System) -> Result<Text, NoMemory>
    ensures { IfOk result (λ t. t ≡ ld_text s.now.placement) }
{
    let regions = by_origin(alloc, s.placement.regions.as_slice())?;
    let mut out = Text::new(alloc);
    out.word(b"MEMORY {\n")?;
    put_memories(&mut out, regions.as_slice())?;
    out.word(b"}\n")?;
    Ok(out)
}
