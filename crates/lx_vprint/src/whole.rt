//! The whole module.

ghost use Rattle.std.specs.Prelude.{◌≡◌, IfOk, OnOk, ◌++◌};
ghost use Rattle.lx_vtext.specs.Fits.{IsModule};
ghost use Rattle.lx_vtext.specs.Printed.{module_text};
ghost use Rattle.lx_vtext.specs.Tree.{VModule};
ghost use Rattle.lx_vtree.specs.Modules.{ArePlaced, module_of};

use crate::parts::{put_always_blocks, put_assigns, put_decls, put_inits, put_ports};
use lx_text::{NoMemory, Text};
use lx_vtree::{Module, Parts};
use std::alloc::Global;

// The parts in the order of the text.

fn put_parts(out: &mut Text, parts: &Parts) -> Result<(), NoMemory>
    requires { ArePlaced parts.now }
    ensures { OnOk result (out.new ≡ out.old ++ module_text (module_of parts.now)) }
{
    out.word(b"module top (\n")?;
    put_ports(out, parts.ports.as_slice())?;
    out.word(b");\n")?;
    put_decls(out, parts.decls.as_slice())?;
    put_inits(out, parts.inits.as_slice())?;
    put_assigns(out, &parts.nodes, parts.assigns.as_slice())?;
    put_always_blocks(out, &parts.nodes, parts.always.as_slice())?;
    out.word(b"endmodule\n")?;
    Ok(())
}

/// The text of parts whose places are places of their nodes: exactly the text of their tree.
pub(crate) fn print_parts(alloc: Global, parts: &Parts) -> Result<Text, NoMemory>
    requires { ArePlaced parts.now }
    ensures { IfOk result (λ t. t ≡ module_text (module_of parts.now)) }
{
    let mut out = Text::new(alloc);
    put_parts(&mut out, parts)?;
    Ok(out)
}

/// The text of a module: exactly the text of its tree, and any module with this text is that tree.
#[tactic(auto, using(lx_vtext::proofs::ModuleAgain::one_module))]
pub fn print(alloc: Global, m: &Module) -> Result<Text, NoMemory>
    ensures text { IfOk result (λ t. t ≡ module_text (module_of m.now)) }
    ensures only { IfOk result (λ t. (n : VModule) → IsModule n → module_text n ≡ t → n ≡ module_of m.now) }
{
    print_parts(alloc, m.parts())
}
