//! The statements of the modules that were added to the top or below, in the order of the design.

ghost use Rattle.std.specs.Prelude.{◌≡◌, ◌++◌, ◌∷◌, [], IfOk, OnOk, slice_get};
ghost use Rattle.lx_state.specs.Step.{Gives};
ghost use Rattle.lx_fragments.specs.Fragments.{all_comb, all_sync, all_under, comb_of, first_comb, fragments_of, lay_parts, submodules_of, sync_of, under};

use crate::copies::push_all;
use crate::laying::{lay, lay_out};
use lx_fhdl::{StmtId, SyncPart};
use lx_state::lists::copied;
use lx_state::machine::{Machine, Module, Specials, Submodule, SyncItem};
use lx_text::{List, NoMemory, Refusal};
use std::alloc::Global;

/// The statements of a design.
#[derive(Drop)]
pub struct Fragments {
    pub comb: List<StmtId>,
    pub sync: List<SyncPart>,
}

// Adds a module, then its submodules in the order of adding, each followed by its own.
#[cycle(push_under)]
#[tactic(auto, unfolding(crate::specs::Fragments::under))]
fn push_under(
    into: &mut List<usize>,
    modules: &List<Module>,
    levels: u8,
    at: usize,
) -> Result<(), NoMemory>
    ensures { OnOk result (into.new ≡ into.old ++ under modules.now levels at) }
{
    if levels == 0 {
        return Ok(());
    }
    into.push(at)?;
    push_submodules(into, modules, levels - 1, at)
}

#[cycle(push_under)]
#[tactic(auto, unfolding(crate::specs::Fragments::all_under))]
fn push_submodules(
    into: &mut List<usize>,
    modules: &List<Module>,
    levels: u8,
    at: usize,
) -> Result<(), NoMemory>
    ensures { OnOk result (into.new ≡ into.old ++ all_under (under modules.now levels) (submodules_of (slice_get modules.now at))) }
{
    match modules.get(at) {
        Some(module) => push_all_under(into, modules, levels, module.submodules.as_slice()),
        None => Ok(()),
    }
}

#[cycle(push_under)]
#[tactic(auto, unfolding(crate::specs::Fragments::all_under))]
fn push_all_under(
    into: &mut List<usize>,
    modules: &List<Module>,
    levels: u8,
    submodules: &[Submodule],
) -> Result<(), NoMemory>
    ensures { OnOk result (into.new ≡ into.old ++ all_under (under modules.now levels) submodules.now) }
{
    for submodule in submodules {
        push_under(into, modules, levels, submodule.place)?;
    }
    Ok(())
}

/// The modules that stand at a place and below, with what stands for FSMs and event managers there.
pub fn under(machine: &Machine, alloc: Global, top: usize) -> Result<List<usize>, NoMemory>
    ensures { IfOk result (λ places. places ≡ under machine.now.modules 65 top) }
{
    let mut places = List::new(alloc);
    push_under(&mut places, &machine.modules, 65, top)?;
    Ok(places)
}

fn push_comb(into: &mut List<usize>, modules: &List<Module>, at: usize) -> Result<(), NoMemory>
    ensures { OnOk result (into.new ≡ into.old ++ comb_of (slice_get modules.now at)) }
{
    match modules.get(at) {
        Some(module) => push_all(into, module.comb.as_slice()),
        None => Ok(()),
    }
}

// The combinatorial statements of what takes part once it is made, those of registers' fields first.
fn first_comb(alloc: Global, specials: &Specials) -> Result<List<usize>, NoMemory>
    ensures { IfOk result (λ made. made ≡ first_comb specials.now) }
{
    let mut made = copied(alloc, &specials.fields)?;
    push_all(&mut made, specials.comb.as_slice())?;
    Ok(made)
}

// The combinatorial statements of what takes part once it is made, then those of modules.
#[tactic(auto, unfolding(crate::specs::Fragments::all_comb))]
fn all_comb(machine: &Machine, alloc: Global, places: &[usize]) -> Result<List<usize>, NoMemory>
    ensures { IfOk result (λ made. made ≡ first_comb machine.now.specials ++ all_comb machine.now.modules places.now) }
{
    let mut made = first_comb(alloc, &machine.specials)?;
    for at in places {
        push_comb(&mut made, &machine.modules, *at)?;
    }
    Ok(made)
}

fn push_sync(into: &mut List<SyncItem>, modules: &List<Module>, at: usize) -> Result<(), NoMemory>
    ensures { OnOk result (into.new ≡ into.old ++ sync_of (slice_get modules.now at)) }
{
    match modules.get(at) {
        Some(module) => push_all(into, module.sync.as_slice()),
        None => Ok(()),
    }
}

// The synchronous statements of what takes part once it is made, then those of modules.
#[tactic(auto, unfolding(crate::specs::Fragments::all_sync))]
fn all_sync(machine: &Machine, alloc: Global, places: &[usize]) -> Result<List<SyncItem>, NoMemory>
    ensures { IfOk result (λ items. items ≡ machine.now.specials.sync ++ all_sync machine.now.modules places.now) }
{
    let mut items = copied(alloc, &machine.specials.sync)?;
    for at in places {
        push_sync(&mut items, &machine.modules, *at)?;
    }
    Ok(items)
}

fn part_of(alloc: Global, domain: usize, id: StmtId) -> Result<SyncPart, NoMemory>
    ensures { IfOk result (λ part. part ≡ record { domain = domain; stmts = id ∷ [] }) }
{
    let stmts = List::of_one(alloc, id)?;
    Ok(SyncPart { domain, stmts })
}

// Adds a part with this statement.
fn push_part(
    into: &mut List<SyncPart>,
    alloc: Global,
    domain: usize,
    id: StmtId,
) -> Result<(), NoMemory>
    ensures { OnOk result (into.new ≡ into.old ++ record { domain = domain; stmts = id ∷ [] } ∷ []) }
{
    let part = part_of(alloc, domain, id)?;
    into.push(part)
}

// Each statement of a clock domain is a part by itself.
#[tactic(auto, unfolding(crate::specs::Fragments::lay_parts))]
fn lay_parts(
    machine: &mut Machine,
    alloc: Global,
    items: &[SyncItem],
) -> Result<List<SyncPart>, Refusal>
    ensures { Gives result machine.new (lay_parts items.now machine.old) }
{
    let mut parts = List::new(alloc);
    for item in items {
        let id = lay(machine, alloc, 64, 0, item.made)?;
        if push_part(&mut parts, alloc, item.domain, id).is_err() {
            return Err(Refusal::NoMemory);
        }
    }
    Ok(parts)
}

/// Lays out the statements of a module and of all modules below it.
#[tactic(auto, unfolding(crate::specs::Fragments::fragments_of))]
pub fn fragments_of(machine: &mut Machine, alloc: Global, top: usize) -> Result<Fragments, Refusal>
    ensures { Gives result machine.new (fragments_of top machine.old) }
{
    let places = under(machine, alloc, top)?;
    let made = all_comb(machine, alloc, places.as_slice())?;
    let items = all_sync(machine, alloc, places.as_slice())?;
    let comb = lay_out(machine, alloc, made.as_slice())?;
    let sync = lay_parts(machine, alloc, items.as_slice())?;
    Ok(Fragments { comb, sync })
}
