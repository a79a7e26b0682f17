//! What a build stores.

ghost use Rattle.std.specs.Prelude.{◌≡◌, ◌++◌, [], ◌∷◌, IfOk, OnOk};
ghost use Rattle.lx_outside.specs.Calls.{pair};
ghost use Rattle.lx_soc.specs.Surveyed.{IsPlain};
ghost use Rattle.lx_top.specs.Files.{build_files, module_files};

use lx_description::Description;
use lx_export::{csr_csv, csr_json, regions_ld};
use lx_outside::Pair;
use lx_soc::System;
use lx_text::{List, NoMemory, Text, Word};
use std::alloc::Global;

// A file more.
fn add(files: &mut List<Pair>, alloc: Global, name: &[u8], text: Text) -> Result<(), NoMemory>
    ensures { OnOk result (files.new ≡ files.old ++ pair name.now text ∷ []) }
{
    let name = Word::new(alloc, name)?;
    let bytes = text.into_list();
    files.push(Pair { name, bytes })
}

// The files that a build stores, in order: `top.v` with this text, and what tells of the system's registers, places and
// constants.
fn files_of(alloc: Global, text: Text, system: &System) -> Result<List<Pair>, NoMemory>
    ensures { IfOk result (λ files. files ≡ build_files text system.now.map system.now.placement system.now.constants) }
{
    let mut files = List::new(alloc);
    add(&mut files, alloc, b"top.v", text)?;
    add(&mut files, alloc, b"csr.csv", csr_csv(alloc, system)?)?;
    add(&mut files, alloc, b"csr.json", csr_json(alloc, system)?)?;
    add(&mut files, alloc, b"regions.ld", regions_ld(alloc, system)?)?;
    Ok(files)
}

// The system of a module: none of its parts has a place.
fn system_of(alloc: Global, flat: Description) -> System
    ensures { IsPlain flat.design flat.top result }
{
    System::plain(alloc, flat.design, flat.top)
}

/// The files that a build stores of a module, whose circuit has this text.
pub(crate) fn files_of_module(
    alloc: Global,
    text: Text,
    flat: Description,
) -> Result<List<Pair>, NoMemory>
    ensures { IfOk result (λ files. files ≡ module_files text) }
{
    let system = system_of(alloc, flat);
    files_of(alloc, text, &system)
}
