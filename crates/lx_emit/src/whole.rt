//! The Verilog module of a lowered design (IEEE 1364-2005, "Modules").

ghost use Rattle.std.specs.Prelude.{◌≡◌, IfOk};
ghost use Rattle.lx_vtree.specs.Modules.{module_of};
ghost use Rattle.lx_emission.specs.Emission.{emitted};
ghost use Rattle.lx_emission.specs.Emits.{CanBeEmitted, Emits};
ghost use Rattle.lx_emit.specs.Whole.{ArePartsOf};

use lx_blocks::always::always;
use lx_drives::sheet;
use lx_fhdl::Design;
use lx_nets::assigns::assigns;
use lx_nets::decls::decls;
use lx_nets::memories::inits;
use lx_nets::ports::ports;
use lx_sheet::Sheet;
use lx_text::{List, NoMemory, Word};
use lx_vtree::{Module, Nodes, Parts};
use std::alloc::Global;

// The parts of the module, with their nodes.
fn parts(alloc: Global, sheet: &Sheet) -> Result<Parts, NoMemory>
    ensures { IfOk result (λ parts. ArePartsOf sheet.now.design sheet.now.names parts) }
{
    let mut nodes = Nodes::new(alloc);
    let ports = ports(alloc, sheet)?;
    let decls = decls(alloc, sheet)?;
    let inits = inits(alloc, sheet)?;
    let assigns = assigns(alloc, &mut nodes, sheet)?;
    let always = always(alloc, &mut nodes, sheet)?;
    Ok(Parts {
        nodes,
        ports,
        decls,
        inits,
        assigns,
        always,
    })
}

/// The Verilog module of a lowered design, with a name for the net of each signal: exactly that of the definition,
/// which has a text and a cycle meaning and gives each signal its number after every list of steps.
pub fn emit_design(alloc: Global, design: &Design, names: &List<Word>) -> Result<Module, NoMemory>
    requires { CanBeEmitted design.now names.now }
    ensures tree { IfOk result (λ m. module_of m ≡ emitted design.now names.now) }
    ensures emits { IfOk result (λ m. Emits design.now names.now (module_of m)) }
{
    let sheet = sheet(alloc, design, names)?;
    let parts = parts(alloc, &sheet)?;
    Ok(Module::new(parts))
}
