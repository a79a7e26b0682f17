//! A case is placed, and what comes of it is shown.

use lx_alloc::{are_distinct, are_sized, place};
use lx_faults::fault_line;
use lx_fhdl::{Placement, Wishes};
use lx_text::{NoMemory, Refusal, Text};
use std::alloc::Global;

/// The origins of the regions, the numbers of the banks and those of the interrupts, or the line of the fault.
pub(crate) fn show_placed(alloc: Global, wishes: &Wishes, out: &mut Text) -> Result<(), NoMemory> {
    if !are_sized(wishes.regions.as_slice()) {
        return out.word(b"not run: a region has more than 4 GiB\n");
    }
    if !are_distinct(wishes.banks.as_slice()) {
        return out.word(b"not run: two banks have one name\n");
    }
    match place(alloc, wishes) {
        Ok(placement) => show(&placement, out),
        Err(refusal) => show_refusal(alloc, refusal, out),
    }
}

fn show_refusal(alloc: Global, refusal: Refusal, out: &mut Text) -> Result<(), NoMemory> {
    put_refusal(alloc, &refusal, out)
}

fn put_refusal(alloc: Global, refusal: &Refusal, out: &mut Text) -> Result<(), NoMemory> {
    match refusal {
        Refusal::Fault(fault) => {
            let line = fault_line(alloc, b"t", fault)?;
            out.word(line.as_bytes())
        }
        Refusal::NoMemory => Err(NoMemory),
    }
}

fn show(placement: &Placement, out: &mut Text) -> Result<(), NoMemory> {
    for region in placement.regions.as_slice() {
        out.word(b"region ")?;
        out.word(region.name.as_bytes())?;
        out.word(b" ")?;
        out.hex(region.origin, 8)?;
        out.word(b"\n")?;
    }
    for bank in placement.banks.as_slice() {
        show_number(out, b"bank ", bank.number)?;
    }
    for irq in placement.irqs.as_slice() {
        show_number(out, b"irq ", irq.number)?;
    }
    Ok(())
}

fn show_number(out: &mut Text, heading: &[u8], number: u32) -> Result<(), NoMemory> {
    out.word(heading)?;
    out.count(number as u128)?;
    out.word(b"\n")
}
