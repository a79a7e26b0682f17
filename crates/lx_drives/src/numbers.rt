//! The numbers of nodes' nets.

ghost use Rattle.std.specs.Prelude.{◌≡◌, ◌<◌, ◌+◌, ◌^◌, suc, IfOk, if◌then◌else◌};
ghost use Rattle.lx_emission.specs.Naming.{has_net};
ghost use Rattle.lx_sheet.specs.Tables.{AreNumbers};

use lx_fhdl::{Design, Expr};
use lx_sheet::tables::has_net;
use lx_text::{List, NoMemory};
use std::alloc::Global;

// The number of the next net after a node.
fn number_after(number: usize, node: &Expr) -> usize
    requires { number + 1 < 2 ^ 64 }
    ensures { result ≡ (if has_net node.now then suc number else number) }
{
    if has_net(node) { number + 1 } else { number }
}

/// The numbers of all expressions' nets: how many before an expression have nets.
pub fn numbers(alloc: Global, design: &Design) -> Result<List<usize>, NoMemory>
    ensures { IfOk result (λ ns. AreNumbers design.now ns) }
{
    let mut numbers = List::new(alloc);
    let mut next = 0;
    for node in design.exprs.as_slice() {
        numbers.push(next)?;
        next = number_after(next, node);
    }
    Ok(numbers)
}
