//! Elaboration: the classes of a text are gone through, the last one's module is made, and what the machine holds then is
//! its description, where it keeps what descriptions keep.

ghost use Rattle.std.specs.Prelude.{◌≡◌, ◌<◌, ◌&&◌, length, true, IfOk};
ghost use Rattle.lx_pytree.specs.Reading.{tree_of};
ghost use Rattle.lx_syntax.specs.Classes.{classes};
ghost use Rattle.lx_syntax.specs.Forms.{classes_of};
ghost use Rattle.lx_describe.specs.Answers.{Answers};
ghost use Rattle.lx_description.specs.Keeping.{KeepsDescription};
ghost use Rattle.lx_elab.specs.Elaboration.{after, checked, described_under, elaborated, kept, parted, stood, untested};
ghost use Rattle.lx_elab.specs.Fsms.{bodies_there};
ghost use Rattle.lx_fhdl.specs.Keeping.{Keeps};
ghost use Rattle.lx_fhdl.specs.Kept.{is_kept};
ghost use Rattle.lx_fsm.specs.Flattened.{CanFlatten};
ghost use Rattle.lx_fsm_kept.specs.Stand.{FsmsStand, fsms_stand};
ghost use Rattle.lx_kept.specs.Given.{HasArenas};

use crate::fsms::{bodies_there, check_fsms};
use lx_describe::described;
use lx_describe::start::start;
use lx_description::Description;
use lx_fsm_kept::fsms_stand;
use lx_kept::is_kept;
use lx_parts_kept::parts_keep;
use lx_pytree::Tree;
use lx_run::description_run;
use lx_state::machine::Machine;
use lx_state::work::fault;
use lx_syntax::{Syntax, syntax_of};
use lx_text::{Kind, NoMemory, Refusal};
use std::alloc::Global;

// What running the classes of a text under this machine describes, or its first fault.
#[tactic(auto, using(lx_describe::proofs::Answering::answer_stopped, lx_describe::proofs::Answering::answer_next))]
fn described_under(
    machine: &mut Machine,
    alloc: Global,
    syntax: &Syntax,
) -> Result<Description, Refusal>
    ensures answers { Answers result (described_under machine.old (classes_of syntax.now)) }
    ensures arenas { IfOk result (λ d. HasArenas d.design) }
{
    let top = description_run(machine, alloc, syntax)?;
    described(machine, alloc, top)
}

// What running the classes of a text describes, or its first fault.
#[tactic(auto, using(crate::proofs::Same::started))]
fn untested(alloc: Global, syntax: &Syntax) -> Result<Description, Refusal>
    ensures answers { Answers result (untested (classes_of syntax.now)) }
    ensures arenas { IfOk result (λ d. HasArenas d.design) }
{
    let mut machine = start(alloc);
    described_under(&mut machine, alloc, syntax)
}

// Whether the design of a description keeps what designs keep, and the statements of all states are there.
#[tactic(auto, using(crate::proofs::Same::first_fails, crate::proofs::Same::first_passes))]
fn keeps(alloc: Global, description: &Description) -> Result<bool, NoMemory>
    requires { HasArenas description.now.design }
    ensures { IfOk result (λ passes. passes ≡ (is_kept description.now.design && bodies_there description.now)) }
{
    if !is_kept(alloc, &description.design)? {
        return Ok(false);
    }
    Ok(bodies_there(description))
}

// A description whose design keeps what designs keep, with the statements of all states; any other is not built.
#[tactic(auto, using(crate::proofs::Same::passed, crate::proofs::Same::refused))]
fn kept(alloc: Global, description: Description) -> Result<Description, Refusal>
    requires { HasArenas description.design }
    ensures answers { Answers result (kept description) }
    ensures keeps { IfOk result (λ d. Keeps d.design) }
    ensures design { IfOk result (λ d. is_kept d.design ≡ true) }
    ensures bodies { IfOk result (λ d. bodies_there d ≡ true) }
{
    if !keeps(alloc, &description)? {
        return Err(fault(0, Kind::NotYetBuilt));
    }
    Ok(description)
}

// A description whose FSMs have no fault, or the first fault.
#[tactic(auto, using(crate::proofs::Checked::none_found, crate::proofs::Checked::found))]
fn checked(alloc: Global, description: Description) -> Result<Description, Refusal>
    requires { bodies_there description ≡ true }
    ensures answers { Answers result (checked description) }
    ensures same { IfOk result (λ d. d ≡ description) }
{
    check_fsms(alloc, &description)?;
    Ok(description)
}

// A description whose FSMs are such as descriptions have; any other is not built.
#[tactic(auto, using(crate::proofs::Same::passed, crate::proofs::Same::refused))]
fn stood(alloc: Global, description: Description) -> Result<Description, Refusal>
    ensures answers { Answers result (stood description) }
    ensures same { IfOk result (λ d. d ≡ description) }
    ensures fsms { IfOk result (λ d. FsmsStand d) }
    ensures test { IfOk result (λ d. fsms_stand d ≡ true) }
{
    if !fsms_stand(alloc, &description)? {
        return Err(fault(0, Kind::NotYetBuilt));
    }
    Ok(description)
}

// A description whose parts are such as descriptions have; any other is not built.
#[tactic(auto, using(crate::proofs::Same::passed, crate::proofs::Same::refused))]
fn parted(alloc: Global, description: Description) -> Result<Description, Refusal>
    requires design { is_kept description.design ≡ true }
    requires fsms { fsms_stand description ≡ true }
    ensures answers { Answers result (parted description) }
    ensures same { IfOk result (λ d. d ≡ description) }
    ensures keeps { IfOk result (λ d. KeepsDescription d) }
{
    if !parts_keep(alloc, &description)? {
        return Err(fault(0, Kind::NotYetBuilt));
    }
    Ok(description)
}

// What the classes of a text describe, where its design keeps what designs keep.
#[tactic(auto, using(crate::proofs::Same::after_stopped, crate::proofs::Same::after_next))]
fn tested(alloc: Global, syntax: &Syntax) -> Result<Description, Refusal>
    ensures answers { Answers result (after kept (untested (classes_of syntax.now))) }
    ensures keeps { IfOk result (λ d. Keeps d.design) }
    ensures design { IfOk result (λ d. is_kept d.design ≡ true) }
    ensures bodies { IfOk result (λ d. bodies_there d ≡ true) }
{
    let description = untested(alloc, syntax)?;
    kept(alloc, description)
}

// What they describe, where its FSMs have no fault.
#[tactic(auto, using(crate::proofs::Same::after_stopped, crate::proofs::Same::after_next))]
fn judged(alloc: Global, syntax: &Syntax) -> Result<Description, Refusal>
    ensures answers { Answers result (after checked (after kept (untested (classes_of syntax.now)))) }
    ensures keeps { IfOk result (λ d. Keeps d.design) }
    ensures design { IfOk result (λ d. is_kept d.design ≡ true) }
{
    let description = tested(alloc, syntax)?;
    checked(alloc, description)
}

// What they describe, where its FSMs can stand in its design.
#[tactic(auto, using(crate::proofs::Same::after_stopped, crate::proofs::Same::after_next, crate::proofs::Flat::can_flatten))]
fn standing(alloc: Global, syntax: &Syntax) -> Result<Description, Refusal>
    ensures answers { Answers result (after stood (after checked (after kept (untested (classes_of syntax.now))))) }
    ensures keeps { IfOk result (λ d. Keeps d.design) }
    ensures design { IfOk result (λ d. is_kept d.design ≡ true) }
    ensures fsms { IfOk result (λ d. fsms_stand d ≡ true) }
    ensures flat { IfOk result (λ d. CanFlatten d) }
{
    let description = judged(alloc, syntax)?;
    stood(alloc, description)
}

// What the classes of a text describe, or its first fault.
#[tactic(auto, using(crate::proofs::Same::after_stopped, crate::proofs::Same::after_next))]
fn elaborated(alloc: Global, syntax: &Syntax) -> Result<Description, Refusal>
    ensures answers { Answers result (elaborated (classes_of syntax.now)) }
    ensures keeps { IfOk result (λ d. Keeps d.design) }
    ensures flat { IfOk result (λ d. CanFlatten d) }
    ensures whole { IfOk result (λ d. KeepsDescription d) }
{
    let description = standing(alloc, syntax)?;
    parted(alloc, description)
}

/// What a text describes, by its tree; or its first fault. It keeps what descriptions keep, its design what designs keep, and
/// the statements of the FSMs can stand in the design.
#[tactic(auto, using(crate::proofs::Same::same_classes))]
pub fn elaborate(alloc: Global, src: &[u8], tree: &Tree) -> Result<Description, Refusal>
    requires { tree.now.root.place < length tree.now.nodes }
    ensures answers { Answers result (elaborated (classes src.now (tree_of tree.now))) }
    ensures keeps { IfOk result (λ d. Keeps d.design) }
    ensures flat { IfOk result (λ d. CanFlatten d) }
    ensures whole { IfOk result (λ d. KeepsDescription d) }
{
    let syntax = syntax_of(alloc, src, tree)?;
    elaborated(alloc, &syntax)
}
