//! From a description to its system.

ghost use Rattle.std.specs.Prelude.{◌≡◌, ◌++◌, flat_map, IfOk, OnOk};
ghost use Rattle.lx_alloc.specs.Answer.{Answers};
ghost use Rattle.lx_alloc.specs.Numbers.{AreDistinct};
ghost use Rattle.lx_alloc.specs.Places.{AreSized};
ghost use Rattle.lx_csr.specs.Collected.{constants};
ghost use Rattle.lx_csr.specs.Mapped.{IsHoused, map_of};
ghost use Rattle.lx_description.specs.Keeping.{KeepsDescription, ModulesKeep};
ghost use Rattle.lx_soc.specs.Surveyed.{IsSystemOf, Surveys, ram_name, rams, with_banks};
ghost use Rattle.lx_soc.specs.Told.{AreTold};

use crate::system::System;
use lx_alloc::place;
use lx_csr::{Registers, bank_wishes, collect, constants, map};
use lx_description::{ConstDecl, Description, SlaveDecl, SlaveKind};
use lx_fhdl::{BankWish, Design, Placement, Wishes};
use lx_text::{List, NoMemory, Refusal, Word};
use std::alloc::Global;

// Adds the name of a slave that is a RAM.
fn push_ram(names: &mut List<Word>, alloc: Global, slave: &SlaveDecl) -> Result<(), NoMemory>
    ensures { OnOk result (names.new ≡ names.old ++ ram_name slave.now) }
{
    match slave.kind {
        SlaveKind::Ram(_) => names.push(slave.name.copied(alloc)?),
        SlaveKind::Rom(_) | SlaveKind::User(_) => Ok(()),
    }
}

// The names of the slaves that are RAMs.
fn ram_names(alloc: Global, slaves: &[SlaveDecl]) -> Result<List<Word>, NoMemory>
    ensures { IfOk result (λ names. names ≡ flat_map ram_name slaves.now) }
{
    let mut names = List::new(alloc);
    for slave in slaves {
        push_ram(&mut names, alloc, slave)?;
    }
    Ok(names)
}

// What a system tells of its own, beside its parts with places.
#[derive(Drop)]
struct Told {
    constants: List<ConstDecl>,
    rams: List<Word>,
}

fn told_of(alloc: Global, d: &Description) -> Result<Told, NoMemory>
    requires { ModulesKeep d.now }
    ensures { IfOk result (λ told. (told.constants ≡ constants d.now) × (told.rams ≡ rams d.now)) }
{
    let constants = constants(alloc, d)?;
    let rams = ram_names(alloc, d.slaves.as_slice())?;
    Ok(Told { constants, rams })
}

// The parts of a description that its system keeps.
fn kept_parts(d: Description) -> (Design, Word, Wishes)
    ensures { result ≡ (d.design, d.top, d.wishes) }
{
    (d.design, d.top, d.wishes)
}

// The places of what is wished for, with these banks and modules that have an interrupt.
fn placed(
    alloc: Global,
    wishes: Wishes,
    banks: List<BankWish>,
    managers: List<Word>,
) -> Result<Placement, Refusal>
    requires sizes { AreSized wishes.regions }
    requires names { AreDistinct banks }
    ensures { Answers (with_banks wishes banks managers) result }
{
    let wishes = Wishes {
        regions: wishes.regions,
        banks,
        fixes: wishes.fixes,
        managers,
        irqs: wishes.irqs,
    };
    place(alloc, &wishes)
}

// The system of a circuit whose registers have their places.
fn system_of(
    alloc: Global,
    design: Design,
    top: Word,
    registers: &Registers,
    placement: Placement,
    told: Told,
) -> Result<System, NoMemory>
    requires housed { IsHoused registers.now placement }
    requires told { AreTold (map_of registers.now placement) placement told.constants }
    ensures { IfOk result (IsSystemOf design top (map_of registers.now placement) placement told.constants told.rams) }
{
    let map = map(alloc, registers, &placement)?;
    let (constants, rams) = (told.constants, told.rams);
    Ok(System {
        design,
        map,
        placement,
        constants,
        rams,
        top,
    })
}

/// The system of a description: its registers are collected, all its parts get their places, and its circuit stays as it
/// is. Or the first fault: those of the registers' names and fields (`lx_csr`'s `collect`) come before those of places
/// (`lx_alloc`'s `place`). A top that is no `SoCCore` has no parts with places, and no fault.
pub fn survey(alloc: Global, d: Description) -> Result<System, Refusal>
    requires { KeepsDescription d }
    ensures { Surveys d result }
{
    let registers = collect(alloc, &d)?;
    let (banks, managers) = bank_wishes(alloc, &d, &registers)?;
    let told = told_of(alloc, &d)?;
    let (design, top, wishes) = kept_parts(d);
    let placement = placed(alloc, wishes, banks, managers)?;
    Ok(system_of(alloc, design, top, &registers, placement, told)?)
}
