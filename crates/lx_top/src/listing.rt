//! What is said of the parts of a description, and of their places.

ghost use Rattle.std.specs.Prelude.{◌≡◌, [], false, true};
ghost use Rattle.lx_command.specs.Commands.{Map};
ghost use Rattle.lx_description.specs.Keeping.{KeepsDescription};
ghost use Rattle.lx_fhdl.specs.Keeping.{Keeps};
ghost use Rattle.lx_fsm.specs.Flattened.{CanFlatten, fsm_faults};
ghost use Rattle.lx_top.specs.Making.{Lists, ListsBytes, ListsCircuit, ListsFile, ListsPlaces, Makes};

use crate::making::module_of;
use lx_command::fetching::{Stop, fetch};
use lx_command::judging::judge;
use lx_command::texts::Texts;
use lx_description::Description;
use lx_elab::elaborate;
use lx_export::listing;
use lx_fhdl::Design;
use lx_outside::Source;
use lx_running::named;
use lx_soc::{System, survey};
use lx_text::{List, Refusal, Text};
use std::alloc::Global;

// The listing of the description of this name.
#[tactic(auto, using(crate::proofs::Listings::makes_from, crate::proofs::Listings::makes_none))]
pub(crate) fn list<'a, S: Source>(
    alloc: Global,
    source: &'a [u8],
    src: &mut S,
) -> Result<Texts, Stop<'a>>
    ensures { Makes (Map source.now) (S.files src.old) (S.faults src.old) (S.faults src.new) result }
{
    match fetch(alloc, source, src) {
        Ok(bytes) => list_file(alloc, source, bytes.as_slice()),
        Err(stop) => Err(stop),
    }
}

// The listing of a file's bytes, or the fault of the file.
#[tactic(auto, using(crate::proofs::Listings::gives_file, crate::proofs::Listings::refuses_file))]
fn list_file<'a>(alloc: Global, name: &'a [u8], bytes: &[u8]) -> Result<Texts, Stop<'a>>
    ensures { ListsFile name.now bytes.now result }
{
    match list_bytes(alloc, bytes) {
        Ok(text) => Ok(Texts {
            files: List::new(alloc),
            text,
        }),
        Err(Refusal::Fault(fault)) => Err(Stop::Fault(name, fault)),
        Err(Refusal::NoMemory) => Err(Stop::NoMemory),
    }
}

// The listing of a description's bytes; or the first fault of its text, of what it describes, of its registers and places,
// or of the circuit of a module.
#[tactic(auto, using(crate::proofs::Listings::text_fault, crate::proofs::Listings::said_fault, crate::proofs::Listings::listed, crate::proofs::Flat::no_fsm_faults))]
fn list_bytes(alloc: Global, bytes: &[u8]) -> Result<Text, Refusal>
    ensures { ListsBytes bytes.now result }
{
    let tree = judge(alloc, bytes)?;
    let description = elaborate(alloc, bytes, &tree)?;
    list_description(alloc, description)
}

// The listing of a description.
#[tactic(auto, using(crate::proofs::Listings::system_kind, crate::proofs::Listings::module_kind))]
fn list_description(alloc: Global, description: Description) -> Result<Text, Refusal>
    requires whole { KeepsDescription description }
    requires can { CanFlatten description }
    requires faultless { fsm_faults description ≡ [] }
    ensures { Lists description.soc description result }
{
    if description.soc {
        list_system(alloc, description)
    } else {
        list_module(alloc, description)
    }
}

// The listing of a system.
#[tactic(auto, using(crate::proofs::Listings::system_listed, crate::proofs::Listings::system_unlisted))]
fn list_system(alloc: Global, description: Description) -> Result<Text, Refusal>
    requires { KeepsDescription description }
    ensures { Lists true description result }
{
    let system = survey(alloc, description)?;
    list_places(alloc, &system)
}

// The parts of a system with their places.
fn list_places(alloc: Global, system: &System) -> Result<Text, Refusal>
    ensures { ListsPlaces system.now result }
{
    Ok(listing(alloc, system)?)
}

// The listing of a module, which has no parts with places.
#[tactic(auto, using(crate::proofs::Listings::module_listed, crate::proofs::Listings::module_unlisted, crate::proofs::Flat::flat_keeps))]
fn list_module(alloc: Global, description: Description) -> Result<Text, Refusal>
    requires can { CanFlatten description }
    requires faultless { fsm_faults description ≡ [] }
    ensures { Lists false description result }
{
    let flat = module_of(alloc, description)?;
    list_circuit(alloc, &flat.design)
}

// Nothing is said of a circuit without a fault.
#[tactic(auto, using(crate::proofs::Listings::circuit_listed, crate::proofs::Listings::circuit_unlisted))]
fn list_circuit(alloc: Global, design: &Design) -> Result<Text, Refusal>
    requires { Keeps design.now }
    ensures { ListsCircuit design.now result }
{
    named(alloc, design)?;
    Ok(Text::new(alloc))
}
