//! The plan of a design is made.

ghost use Rattle.std.specs.Prelude.{◌≡◌, IfOk};
ghost use Rattle.lx_circuit.specs.Reads.{HasOrder};
ghost use Rattle.lx_check.specs.Loops.{numbers_of};
ghost use Rattle.lx_emission.specs.Emits.{MemoriesFit};
ghost use Rattle.lx_fhdl.specs.Designs.{circuit_of};
ghost use Rattle.lx_fhdl.specs.Keeping.{Keeps};
ghost use Rattle.lx_reads.specs.Net.{IsNet};
ghost use Rattle.lx_reads.specs.Whole.{IsCombNet};
ghost use Rattle.lx_sheet.specs.Drives.{AreDrives};
ghost use Rattle.lx_sheet.specs.Lowered.{IsFit};
ghost use Rattle.lx_sim.specs.Orders.{HasBuckets, IsOrderFor};
ghost use Rattle.lx_sim.specs.Plans.{IsPlanOf};

use crate::masks::exprs_without_words;
use crate::places::{buckets, positions, ranks};
use crate::plan::Plan;
use lx_check::graph::comb_graph;
use lx_check::order::signals_among;
use lx_drives::drives::drives;
use lx_drives::lowered::Lowered;
use lx_drives::marks::marks;
use lx_fhdl::{Design, SigId};
use lx_graph::{Checked, check_reads};
use lx_lower::lower;
use lx_reads::net::Net;
use lx_reads::whole::comb_net;
use lx_sheet::Drive;
use lx_text::{List, NoMemory};
use lx_width::expr_shapes;
use std::alloc::Global;

// The numbers of some signals.
fn numbers(alloc: Global, order: &[SigId]) -> Result<List<usize>, NoMemory>
    ensures { IfOk result (λ list. list ≡ numbers_of order.now) }
{
    let mut list = List::new(alloc);
    for x in order {
        list.push(x.0)?;
    }
    Ok(list)
}

// The signals of a design whose reads have an order, in one. No port shows anything, so all is read in statements.
fn order_of(alloc: Global, design: &Design, net: &Net) -> Result<List<usize>, NoMemory>
    requires order { HasOrder (circuit_of design.now) }
    requires memories { MemoriesFit design.now }
    requires net { IsCombNet design.now net.now }
    ensures { IfOk result (λ order. IsOrderFor design.now order) }
{
    let graph = comb_graph(alloc, design, net)?;
    match check_reads(alloc, &graph)? {
        Checked::Order(nodes) => {
            let order = signals_among(alloc, design.signals.len(), nodes.as_slice())?;
            let list = numbers(alloc, order.as_slice())?;
            Ok(list)
        }
        Checked::Loop(_) => unreachable!(),
    }
}

// The expressions by their places in the order.
fn expr_buckets(
    alloc: Global,
    design: &Design,
    net: &Net,
    order: &[usize],
) -> Result<List<List<usize>>, NoMemory>
    requires net { IsNet design.now net.now }
    requires order { IsOrderFor design.now order.now }
    ensures { IfOk result (λ buckets. HasBuckets design.now order.now buckets) }
{
    let count = order.len();
    let positions = positions(alloc, design.signals.len(), order)?;
    let ranks = ranks(alloc, design, net, positions.as_slice())?;
    let buckets = buckets(alloc, count, ranks.as_slice())?;
    Ok(buckets)
}

// What drives each signal of a lowered design.
fn drives_of(alloc: Global, design: &Design) -> Result<List<Drive>, NoMemory>
    requires { IsFit design.now }
    ensures { IfOk result (λ drives. AreDrives design.now drives) }
{
    let lowered = Lowered::new(design);
    let marks = marks(alloc, &lowered)?;
    let drives = drives(alloc, &lowered, marks.as_slice())?;
    Ok(drives)
}

/// The plan of a design.
pub(crate) fn plan(alloc: Global, design: &Design) -> Result<Plan, NoMemory>
    requires keeps { Keeps design.now }
    requires order { HasOrder (circuit_of design.now) }
    requires memories { MemoriesFit design.now }
    ensures { IfOk result (λ p. IsPlanOf design.now p) }
{
    let design = lower(alloc, design)?;
    let exprs = exprs_without_words(alloc, &design.exprs)?;
    let shapes = expr_shapes(alloc, &design)?;
    let drives = drives_of(alloc, &design)?;
    let net = comb_net(alloc, &design)?;
    let order = order_of(alloc, &design, &net)?;
    let buckets = expr_buckets(alloc, &design, &net, order.as_slice())?;
    Ok(Plan {
        design,
        exprs,
        shapes,
        drives,
        order,
        buckets,
    })
}
