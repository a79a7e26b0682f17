//! The registers of a system, its constants, and what its banks and interrupts wish for.

ghost use Rattle.std.specs.Prelude.{◌≡◌, ◌++◌, true, flat_map, IfOk, OnOk};
ghost use Rattle.std.specs.List.{list_any};
ghost use Rattle.lx_alloc.specs.Numbers.{AreDistinct};
ghost use Rattle.lx_fhdl.specs.Keeping.{EachOf};
ghost use Rattle.lx_description.specs.Keeping.{ModulesKeep};
ghost use Rattle.lx_csr.specs.Collected.{constants, is_ev, managers, part_manager, part_peripheral, top_parts};
ghost use Rattle.lx_csr.specs.Defined.{header_names};
ghost use Rattle.lx_csr.specs.Faults.{Collects};
ghost use Rattle.lx_csr.specs.Gathered.{HaveRoom, IsGathered, IsReady, IsRoomy, IsSized, gathered_of, with_peripherals};
ghost use Rattle.lx_csr.specs.Walked.{AreNested};
ghost use Rattle.lx_csr.specs.Laws.{AreNamedApart};
ghost use Rattle.lx_csr.specs.Mapped.{wishes_of};

use crate::defining::{push_banks, push_constants, push_interrupts, push_regions, wish_names};
use crate::faults::{check_fields, check_names, check_top};
use crate::gathering::{Gathered, add_events, end_bank, renamed};
use crate::names::Defined;
use crate::registers::{Bank, Registers};
use crate::walking::walk;
use lx_description::{ConstDecl, Description, ModuleDecl, Part};
use lx_fhdl::BankWish;
use lx_text::{List, NoMemory, Refusal, Word};
use std::alloc::Global;

// What an attribute of the top holds: a submodule with a name, or an event manager.
fn gather_part(
    gathered: &mut Gathered,
    alloc: Global,
    modules: &List<ModuleDecl>,
    part: &Part,
) -> Result<(), NoMemory>
    requires nested { AreNested modules.now }
    requires sized { IsSized part.now }
    requires ready { IsReady gathered.old }
    requires room { HaveRoom gathered.old (part_peripheral modules.now part.now) }
    ensures { OnOk result (gathered.new ≡ with_peripherals gathered.old (part_peripheral modules.now part.now)) }
{
    match part {
        Part::Manager(name, manager) => {
            add_events(gathered, alloc, name.as_bytes(), manager)?;
            end_bank(gathered, alloc, name)
        }
        Part::Module(k) => match modules.get(*k) {
            Some(module) if module.named => {
                walk(gathered, alloc, modules, *k, module)?;
                end_bank(gathered, alloc, &module.name)
            }
            _ => Ok(()),
        },
        Part::Reg(_) | Part::Constant(_) => Ok(()),
    }
}

// All peripherals among the attributes of the top.
fn gather_parts(
    alloc: Global,
    modules: &List<ModuleDecl>,
    parts: &[Part],
) -> Result<Gathered, NoMemory>
    requires nested { AreNested modules.now }
    requires sized { EachOf IsSized parts.now }
    requires room { IsRoomy (flat_map (part_peripheral modules.now) parts.now) }
    ensures { IfOk result (λ g. g ≡ gathered_of (flat_map (part_peripheral modules.now) parts.now)) }
{
    let mut gathered = Gathered::new(alloc);
    for part in parts {
        gather_part(&mut gathered, alloc, modules, part)?;
    }
    Ok(gathered)
}

// The attributes of the top of a system.
#[tactic(auto, unfolding(crate::specs::Collected::top_parts))]
fn top_parts(d: &Description) -> &[Part]
    ensures { result.now ≡ top_parts d.now }
{
    if d.soc {
        if let Some(top) = d.modules.get(0) {
            return top.parts.as_slice();
        }
    }
    &[]
}

// All peripherals of a system.
fn gather(alloc: Global, d: &Description) -> Result<Gathered, NoMemory>
    requires { ModulesKeep d.now }
    ensures { IfOk result (IsGathered d.now) }
{
    gather_parts(alloc, &d.modules, top_parts(d))
}

// The names that the headers of a system define.
fn header_names(
    alloc: Global,
    d: &Description,
    gathered: &Gathered,
) -> Result<List<Defined>, NoMemory>
    requires soc { d.now.soc ≡ true }
    requires gathered { IsGathered d.now gathered.now }
    ensures { IfOk result (λ names. names ≡ header_names d.now) }
{
    let mut names = List::new(alloc);
    push_banks(&mut names, alloc, gathered.banks.as_slice())?;
    push_interrupts(&mut names, alloc, d.wishes.irqs.as_slice())?;
    push_constants(&mut names, alloc, gathered.constants.as_slice())?;
    push_constants(&mut names, alloc, d.constants.as_slice())?;
    push_regions(&mut names, alloc, d.wishes.regions.as_slice())?;
    Ok(names)
}

// The banks of a system, or its first fault.
fn collected(alloc: Global, d: &Description) -> Result<List<Bank>, Refusal>
    requires kept { ModulesKeep d.now }
    requires soc { d.now.soc ≡ true }
    ensures { Collects d.now result }
{
    check_top(alloc, top_parts(d))?;
    let gathered = gather(alloc, d)?;
    let names = header_names(alloc, d, &gathered)?;
    check_names(alloc, true, names.as_slice())?;
    let wishes = wish_names(alloc, d.wishes.fixes.as_slice())?;
    check_names(alloc, false, wishes.as_slice())?;
    check_fields(alloc, gathered.banks.as_slice())?;
    Ok(gathered.banks)
}

/// The registers of a system, bank by bank, or its first fault: a register in the top itself (TopRegister), a name of
/// the headers that is taken (NameTaken), a field that begins before the end of an earlier one (FieldOverlap).
///
/// A bank is a submodule of the top that was added with a name and holds a register, in itself or below; or an event
/// manager of the top. Banks stand in the order of the top's attributes, their registers in that of theirs, a
/// submodule's in the place of its attribute. What was added without a name gives no registers.
///
/// A top that is no system has none, and no fault.
pub fn collect(alloc: Global, d: &Description) -> Result<Registers, Refusal>
    requires { ModulesKeep d.now }
    ensures answer { Collects d.now result }
    ensures banks { IfOk result (λ banks. AreDistinct (wishes_of banks)) }
    ensures names { IfOk result AreNamedApart }
{
    if !d.soc {
        return Ok(Registers::of(List::new(alloc)));
    }
    Ok(Registers::of(collected(alloc, d)?))
}

/// The constants of a system for software, but for its interrupts: those of its peripherals (`CSRConstant`), each under
/// its full name, then those that the top adds itself (`add_constant`).
pub fn constants(alloc: Global, d: &Description) -> Result<List<ConstDecl>, NoMemory>
    requires { ModulesKeep d.now }
    ensures { IfOk result (λ list. list ≡ constants d.now) }
{
    let mut list = gather(alloc, d)?.constants;
    if d.soc {
        for constant in d.constants.as_slice() {
            list.push(renamed(alloc, constant.name.copied(alloc)?, constant)?)?;
        }
    }
    Ok(list)
}

fn is_ev(part: &Part) -> bool
    ensures { result ≡ is_ev part.now }
{
    match part {
        Part::Manager(name, _) => name.is(b"ev"),
        _ => false,
    }
}

fn has_ev(module: &ModuleDecl) -> bool
    ensures { result ≡ list_any is_ev module.now.parts }
{
    module.parts.as_slice().iter().any(|part| is_ev(part))
}

fn push_manager(
    managers: &mut List<Word>,
    alloc: Global,
    modules: &List<ModuleDecl>,
    part: &Part,
) -> Result<(), NoMemory>
    ensures { OnOk result (managers.new ≡ managers.old ++ part_manager modules.now part.now) }
{
    if let Part::Module(k) = part {
        if let Some(module) = modules.get(*k) {
            if module.named && has_ev(module) {
                managers.push(module.name.copied(alloc)?)?;
            }
        }
    }
    Ok(())
}

// The submodules of the top that have an interrupt.
fn managers(alloc: Global, d: &Description) -> Result<List<Word>, NoMemory>
    ensures { IfOk result (λ names. names ≡ managers d.now) }
{
    let mut names = List::new(alloc);
    for part in top_parts(d) {
        push_manager(&mut names, alloc, &d.modules, part)?;
    }
    Ok(names)
}

fn copied_wish(alloc: Global, wish: &BankWish) -> Result<BankWish, NoMemory>
    ensures { IfOk result (λ copied. copied ≡ wish.now) }
{
    Ok(BankWish {
        name: wish.name.copied(alloc)?,
        words: wish.words,
        line: wish.line,
    })
}

/// What the banks wish for, in declared order, and the submodules of the top with a name that have an event manager
/// `ev`, and so an interrupt.
pub fn bank_wishes(
    alloc: Global,
    d: &Description,
    r: &Registers,
) -> Result<(List<BankWish>, List<Word>), NoMemory>
    ensures { IfOk result (λ wishes. (wishes.0 ≡ wishes_of r.now) × (wishes.1 ≡ managers d.now)) }
{
    let mut wishes = List::new(alloc);
    for bank in r.banks() {
        wishes.push(copied_wish(alloc, &bank.wish)?)?;
    }
    Ok((wishes, managers(alloc, d)?))
}
