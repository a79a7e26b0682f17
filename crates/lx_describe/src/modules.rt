//! The modules of a description, as it declares them.

ghost use Rattle.std.specs.Prelude.{◌≡◌, ◌++◌, ◌∷◌, [], IfOk, OnOk, slice_get};
ghost use Rattle.lx_describe.specs.Modules.{class_text, module_decl, module_decls, module_text};

use crate::parts::{object_text, parts_of};
use lx_description::ModuleDecl;
use lx_paths::paths::is_top;
use lx_state::machine::{Machine, Submodule};
use lx_text::{List, NoMemory, Word};
use std::alloc::Global;

fn class_text(machine: &Machine, alloc: Global, class: usize) -> Result<Word, NoMemory>
    ensures { IfOk result (λ name. name ≡ class_text (slice_get machine.now.classes class)) }
{
    match machine.classes.get(class) {
        Some(class) => class.name.copied(alloc),
        None => Ok(Word::empty(alloc)),
    }
}

/// The name of a module: that of its object; the top has its class's.
pub fn module_text(machine: &Machine, alloc: Global, at: usize) -> Result<Word, NoMemory>
    ensures { IfOk result (λ name. name ≡ module_text machine.now (slice_get machine.now.modules at)) }
{
    match machine.modules.get(at) {
        Some(module) => {
            if is_top(machine, module) {
                class_text(machine, alloc, module.class)
            } else {
                object_text(machine, alloc, module.object)
            }
        }
        None => Ok(Word::empty(alloc)),
    }
}

fn module_decl(
    machine: &Machine,
    alloc: Global,
    all: &[Submodule],
    submodule: Submodule,
) -> Result<ModuleDecl, NoMemory>
    ensures { IfOk result (λ decl. decl ≡ module_decl machine.now all.now submodule) }
{
    let name = module_text(machine, alloc, submodule.place)?;
    let parts = parts_of(machine, alloc, all, submodule.place)?;
    Ok(ModuleDecl {
        name,
        named: submodule.named,
        parts,
    })
}

// Adds what a module declares.
fn push_decl(
    into: &mut List<ModuleDecl>,
    machine: &Machine,
    alloc: Global,
    all: &[Submodule],
    submodule: Submodule,
) -> Result<(), NoMemory>
    ensures { OnOk result (into.new ≡ into.old ++ module_decl machine.now all.now submodule ∷ []) }
{
    let decl = module_decl(machine, alloc, all, submodule)?;
    into.push(decl)
}

/// What all modules declare.
pub fn module_decls(
    machine: &Machine,
    alloc: Global,
    all: &[Submodule],
) -> Result<List<ModuleDecl>, NoMemory>
    ensures { IfOk result (λ decls. decls ≡ module_decls machine.now all.now) }
{
    let mut decls = List::new(alloc);
    for next in all {
        push_decl(&mut decls, machine, alloc, all, *next)?;
    }
    Ok(decls)
}
