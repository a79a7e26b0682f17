//! The whole pass from a design to its module.

ghost use Rattle.std.specs.Prelude.{IfOk};
ghost use Rattle.lx_vtree.specs.Modules.{module_of};
ghost use Rattle.lx_write.specs.Writes.{CanBeWritten, Writes};

use lx_emit::emit_design;
use lx_fhdl::Design;
use lx_lower::lower;
use lx_text::{List, NoMemory, Word};
use lx_vtree::Module;
use std::alloc::Global;

/// The Verilog module of a design (IEEE 1364-2005, "Modules"), with a name for the net of each signal.
pub fn write_module(alloc: Global, design: &Design, names: &List<Word>) -> Result<Module, NoMemory>
    requires { CanBeWritten design.now names.now }
    ensures { IfOk result (λ m. Writes design.now names.now (module_of m)) }
{
    let lowered = lower(alloc, design)?;
    let module = emit_design(alloc, &lowered, names)?;
    Ok(module)
}
