//! Lowering of a design: one list of flat statements for each signal.

ghost use Rattle.std.specs.Prelude.{IfOk};
ghost use Rattle.lx_fhdl.specs.Keeping.{Keeps};
ghost use Rattle.lx_lower.specs.Lowers.{IsLoweringOf};

use crate::parts::{lower_comb, lower_sync};
use lx_exprs::copies::{copied_accesses, copied_domains, copied_ports};
use lx_exprs::exprs::{LoweredExprs, lower_exprs};
use lx_fhdl::Design;
use lx_plain::source::Source;
use lx_text::NoMemory;
use std::alloc::Global;

/// The design lowered.
pub fn lower(alloc: Global, design: &Design) -> Result<Design, NoMemory>
    requires { Keeps design.now }
    ensures { IfOk result (λ e. IsLoweringOf design.now e) }
{
    let domains = copied_domains(alloc, design.domains.as_slice())?;
    let ports = copied_accesses(alloc, design.ports.as_slice())?;
    let ios = copied_ports(alloc, design.ios.as_slice())?;
    let LoweredExprs {
        draft,
        places,
        shapes,
    } = lower_exprs(alloc, design)?;
    let mut draft = draft;
    let source = Source::new(design, shapes.as_slice(), places.as_slice());
    let comb = lower_comb(alloc, &source, &mut draft)?;
    let sync = lower_sync(alloc, &source, &mut draft)?;
    Ok(draft.finish(comb, sync, domains, ports, ios))
}
