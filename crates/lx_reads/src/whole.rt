//! The net of all statements of a design.

ghost use Rattle.std.specs.Prelude.{◌+◌, ◌<◌, [], nat_eq, IfOk, OnOk, if◌then◌else◌};
ghost use Rattle.lx_fhdl.specs.Designs.{stmts_of};
ghost use Rattle.lx_fhdl.specs.Keeping.{Keeps, PartStands};
ghost use Rattle.lx_reads.specs.Drivings.{domains_drivings, drivings_of};
ghost use Rattle.lx_reads.specs.Net.{IsNet};
ghost use Rattle.lx_reads.specs.Whole.{Drives, IsCombNet};

use crate::net::Net;
use crate::walk::{start, walk};
use lx_fhdl::{Design, SyncPart};
use lx_text::NoMemory;
use std::alloc::Global;

/// The net of a design's combinatorial statements.
pub fn comb_net(alloc: Global, design: &Design) -> Result<Net, NoMemory>
    requires { Keeps design.now }
    ensures { IfOk result (λ net. IsCombNet design.now net) }
{
    let mut net = start(alloc, design)?;
    walk(alloc, design, &mut net, 0, design.comb.as_slice())?;
    Ok(net)
}

// Adds a part of the statements of domains, where it is of the domain of number k.
fn put_part(
    alloc: Global,
    design: &Design,
    net: &mut Net,
    k: usize,
    part: &SyncPart,
) -> Result<(), NoMemory>
    requires net { IsNet design.now net.old }
    requires domain { k < 16 }
    requires part { PartStands design.now part.now }
    ensures { OnOk result (Drives design.now net.old net.new (if nat_eq part.now.domain k then drivings_of design.now (k + 1) part.now.stmts else [])) }
{
    if part.domain == k {
        walk(alloc, design, net, k + 1, part.stmts.as_slice())?;
    }
    Ok(())
}

// Adds the statements of the domain of number k.
fn put_domain(alloc: Global, design: &Design, net: &mut Net, k: usize) -> Result<(), NoMemory>
    requires net { IsNet design.now net.old }
    requires domain { k < 16 }
    ensures { OnOk result (Drives design.now net.old net.new (drivings_of design.now (k + 1) (stmts_of k design.now.sync))) }
{
    for part in design.sync.as_slice() {
        put_part(alloc, design, net, k, part)?;
    }
    Ok(())
}

/// Adds the statements of all domains.
pub fn put_domains(alloc: Global, design: &Design, net: &mut Net) -> Result<(), NoMemory>
    requires { IsNet design.now net.old }
    ensures { OnOk result (Drives design.now net.old net.new (domains_drivings design.now 0 design.now.domains)) }
{
    for k in 0..design.domains.len() {
        put_domain(alloc, design, net, k)?;
    }
    Ok(())
}
