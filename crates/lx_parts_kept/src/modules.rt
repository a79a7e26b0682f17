//! Whether modules stand: their parts are such as descriptions have, and each but the top is a submodule exactly once.

ghost use Rattle.std.specs.Prelude.{◌≡◌, ◌++◌, ◌+◌, ◌≤◌, ◌<◌, ◌&&◌, ◌||◌, flat_map, length, map, min, nat_eq, nat_le, replicate, slice_index_or, sum, true, IfOk, OnOk};
ghost use Rattle.std.specs.List.{list_all};
ghost use Rattle.lx_arena.specs.Lower.{all_at};
ghost use Rattle.lx_fhdl.specs.Kept.{is_signal};
ghost use Rattle.lx_description.specs.Keeping as keeping;
ghost use Rattle.lx_description.specs.Kept as kept;
ghost use Rattle.lx_parts_kept.specs.Tables.{AreCounts, counted};

use crate::registers::{is_constant, is_manager, is_register};
use crate::signals::Signals;
use lx_description::{Description, ModuleDecl, Part};
use lx_parts::is_identifier;
use lx_text::{List, NoMemory};
use std::alloc::Global;

// ---- parts

fn is_part(alloc: Global, signals: &Signals, part: &Part) -> Result<bool, NoMemory>
    ensures { IfOk result (λ is. is ≡ kept.is_part signals.now part.now) }
{
    match part {
        Part::Reg(register) => is_register(alloc, signals, register),
        Part::Constant(constant) => Ok(is_constant(constant)),
        Part::Manager(name, manager) => {
            Ok(is_identifier(name.as_bytes()) && is_manager(signals, manager))
        }
        Part::Module(_) => Ok(true),
    }
}

fn are_parts(alloc: Global, signals: &Signals, parts: &[Part]) -> Result<bool, NoMemory>
    ensures { IfOk result (λ are. are ≡ list_all (kept.is_part signals.now) parts.now) }
{
    for part in parts {
        if !is_part(alloc, signals, part)? {
            return Ok(false);
        }
    }
    Ok(true)
}

// ---- submodules

// Adds the submodule that a part is.
fn add_submodule(all: &mut List<usize>, part: &Part) -> Result<(), NoMemory>
    ensures { OnOk result (all.new ≡ all.old ++ keeping.submodule part.now) }
{
    match part {
        Part::Module(place) => all.push(*place),
        Part::Reg(_) | Part::Constant(_) | Part::Manager(_, _) => Ok(()),
    }
}

fn add_submodules(all: &mut List<usize>, parts: &[Part]) -> Result<(), NoMemory>
    ensures { OnOk result (all.new ≡ all.old ++ flat_map keeping.submodule parts.now) }
{
    for part in parts {
        add_submodule(all, part)?;
    }
    Ok(())
}

// The submodules of all modules.
fn submodules(alloc: Global, modules: &[ModuleDecl]) -> Result<List<usize>, NoMemory>
    ensures { IfOk result (λ all. all ≡ flat_map keeping.submodules modules.now) }
{
    let mut all = List::new(alloc);
    for module in modules {
        add_submodules(&mut all, module.parts.as_slice())?;
    }
    Ok(all)
}

// Counts a number, as far as 2, where it is among those that are counted.
fn count_one(counts: &mut [u8], number: usize)
    ensures { counts.new ≡ counted counts.old number }
{
    if number < counts.len() {
        counts[number] = counts[number].saturating_add(1).min(2);
    }
}

// Counts all these numbers.
fn count_all(counts: &mut [u8], numbers: &[usize])
    requires none { counts.old ≡ replicate (length counts.old) 0 }
    ensures { AreCounts (length counts.old) numbers.now counts.new }
{
    for number in numbers {
        count_one(counts, *number);
    }
}

// How often each number below a count stands there; 2 stands for all that are more.
fn counts(alloc: Global, count: usize, numbers: &[usize]) -> Result<Vec<u8>, NoMemory>
    ensures { IfOk result (λ counts. AreCounts count numbers.now counts.items) }
{
    let mut counts = vec![in alloc; 0u8; count]?;
    count_all(&mut counts, numbers);
    Ok(counts)
}

// Whether the submodules among these parts stand behind the module at a place, among so many.
fn are_later(place: usize, count: usize, parts: &[Part]) -> bool
    ensures { result ≡ list_all (kept.is_later place count) (flat_map keeping.submodule parts.now) }
{
    for part in parts {
        if let Part::Module(other) = part {
            if *other <= place || *other >= count {
                return false;
            }
        }
    }
    true
}

// Whether a module is the top, or a submodule exactly once.
fn is_once(counts: &[u8], place: usize) -> bool
    requires { place < length counts.now }
    ensures { result ≡ (nat_eq place 0 || nat_eq (slice_index_or counts.now place 0) 1) }
{
    place == 0 || counts[place] == 1
}

// ---- modules

#[tactic(auto, using(crate::proofs::Counts::once_told))]
fn is_module(
    alloc: Global,
    signals: &Signals,
    description: &Description,
    counts: &[u8],
    place: usize,
    module: &ModuleDecl,
) -> Result<bool, NoMemory>
    requires design { signals.now ≡ description.now.design }
    requires counts { AreCounts (length description.now.modules) (flat_map keeping.submodules description.now.modules) counts.now }
    requires there { place < length description.now.modules }
    ensures { IfOk result (λ is. is ≡ kept.is_module description.now module.now place) }
{
    if !is_identifier(module.name.as_bytes())
        || !are_parts(alloc, signals, module.parts.as_slice())?
    {
        return Ok(false);
    }
    let all = description.modules.len();
    Ok(are_later(place, all, module.parts.as_slice()) && is_once(counts, place))
}

fn are_modules(
    alloc: Global,
    signals: &Signals,
    description: &Description,
    counts: &[u8],
) -> Result<bool, NoMemory>
    requires design { signals.now ≡ description.now.design }
    requires counts { AreCounts (length description.now.modules) (flat_map keeping.submodules description.now.modules) counts.now }
    ensures { IfOk result (λ are. are ≡ all_at (kept.is_module description.now) 0 description.now.modules) }
{
    for (place, module) in description.modules.as_slice().iter().enumerate() {
        if !is_module(alloc, signals, description, counts, place, module)? {
            return Ok(false);
        }
    }
    Ok(true)
}

fn is_top(name: &[u8], modules: &[ModuleDecl]) -> bool
    ensures { result ≡ kept.is_top name.now modules.now }
{
    match modules {
        [] => false,
        [first, ..] => first.name.is(name),
    }
}

// ---- the number of registers

fn part_registers(part: &Part) -> u32
    ensures is { result ≡ keeping.part_registers part.now }
    ensures most { result ≤ 3 }
{
    match part {
        Part::Reg(_) => 1,
        Part::Manager(_, _) => 3,
        Part::Constant(_) | Part::Module(_) => 0,
    }
}

// So many registers and those of these parts; 1,000,001 stands for all that are more.
fn with_parts(so_many: u32, parts: &[Part]) -> u32
    requires { so_many ≤ 1000001 }
    ensures { result ≡ min (so_many + sum (map keeping.part_registers parts.now)) 1000001 }
{
    let mut count = so_many;
    for part in parts {
        count = (count + part_registers(part)).min(1_000_001);
    }
    count
}

// The registers of all modules, likewise.
fn registers(modules: &[ModuleDecl]) -> u32
    ensures { result ≡ min (keeping.registers modules.now) 1000001 }
{
    let mut count = 0;
    for module in modules {
        count = with_parts(count, module.parts.as_slice());
    }
    count
}

/// Whether the modules are those of a description: the first is the top, each other is a submodule exactly once and stands
/// behind the module that it is in, their parts stand, and they have at most 1,000,000 registers.
#[tactic(auto, using(crate::proofs::Counts::registers_tell))]
pub(crate) fn modules_keep(alloc: Global, description: &Description) -> Result<bool, NoMemory>
    requires { list_all is_signal description.now.design.signals ≡ true }
    ensures { IfOk result (λ keep. keep ≡ kept.modules_keep description.now) }
{
    let modules = description.modules.as_slice();
    if !is_top(description.top.as_bytes(), modules) {
        return Ok(false);
    }
    let all = submodules(alloc, modules)?;
    let counts = counts(alloc, modules.len(), all.as_slice())?;
    let signals = Signals::new(&description.design);
    if !are_modules(alloc, &signals, description, counts.as_slice())? {
        return Ok(false);
    }
    Ok(registers(modules) <= 1_000_000)
}
