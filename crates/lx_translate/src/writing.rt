//! The text of the module of a circuit.

ghost use Rattle.lx_fhdl.specs.Keeping.{Keeps};
ghost use Rattle.lx_translate.specs.Translation.{Translates};

use lx_check::check::check;
use lx_fhdl::Design;
use lx_memory::{lower_ports, shows_alone};
use lx_namer::names::names;
use lx_text::{Fault, Kind, Refusal, Text};
use lx_vprint::print;
use lx_write::write_module;
use std::alloc::Global;

/// The text of `top.v` for a circuit (IEEE 1364-2005, "Modules"); or the circuit's first fault: StorageDriven, TwoDrivers,
/// MemoryClocks, CombLoop, NameTaken; or NotYetBuilt where two ports have one `dat_r`.
#[tactic(auto, using(crate::proofs::Writable::can_be_written, crate::proofs::Translated::translated, crate::proofs::Translated::name_refused, crate::proofs::Translated::name_refused_later, crate::proofs::Translated::not_built))]
pub fn top_v(alloc: Global, design: &Design) -> Result<Text, Refusal>
    requires { Keeps design.now }
    ensures { Translates design.now result }
{
    check(alloc, design)?;
    names(alloc, design)?;
    let alone = shows_alone(alloc, design)?;
    if !alone {
        return Err(Refusal::Fault(Fault {
            line: 0,
            kind: Kind::NotYetBuilt,
        }));
    }
    let plain = lower_ports(alloc, design)?;
    let names = names(alloc, &plain)?;
    let module = write_module(alloc, &plain, names.as_list())?;
    let text = print(alloc, &module)?;
    Ok(text)
}
