//! The paths of objects and of signals: the names of the modules around them, and their own.

ghost use Rattle.std.specs.Prelude.{◌≡◌, ◌++◌, ◌∷◌, [], IfOk, OnOk, Some, map, option_copied, option_to_list, reverse, slice_get};
ghost use Rattle.lx_paths.specs.Paths.{fsm_part, is_enable, is_top, maker_below, module_below, modules_around, object_fsm, object_manager, object_path, own_name, owner_manager, owner_path, part_name, path_of, signal_paths, what_fsm, what_manager};

use crate::names::own_name;
use lx_state::machine::{Fsm, Machine, ManagerState, Module, Object, Owner, What};
use lx_state::naming::item_name;
use lx_text::{List, NoMemory, Word};
use std::alloc::Global;

/// Whether a module is the top.
pub fn is_top(machine: &Machine, candidate: &Module) -> bool
    ensures { result ≡ is_top machine.now candidate.now }
{
    candidate.class as u128 + 1 == machine.classes.len() as u128
}

// The object of a module, unless it is the top.
fn module_below(machine: &Machine, at: usize) -> Option<&Object>
    ensures { option_copied result ≡ module_below machine.now (slice_get machine.now.modules at) }
{
    match machine.modules.get(at) {
        Some(module) => {
            if is_top(machine, module) {
                return None;
            }
            machine.objects.get(module.object)
        }
        None => None,
    }
}

// The module in whose `__init__` an object was made, unless it is the top.
fn maker_below(machine: &Machine, maker: Option<usize>) -> Option<&Object>
    ensures { option_copied result ≡ maker_below machine.now maker }
{
    match maker {
        Some(at) => module_below(machine, at),
        None => None,
    }
}

// Adds the name of an object.
fn push_name(
    machine: &Machine,
    alloc: Global,
    names: &mut Vec<Word>,
    object: &Object,
) -> Result<(), NoMemory>
    ensures { OnOk result (names.new.items ≡ names.old.items ++ own_name machine.now object.now ∷ []) }
{
    let name = own_name(machine, alloc, object)?;
    names.push(name)?;
    Ok(())
}

// Adds the names of the modules around an object, the innermost first.
#[tactic(auto, using(crate::proofs::Around::name_next, crate::proofs::Around::no_name, crate::proofs::Around::no_level, crate::proofs::Around::no_maker))]
fn push_around(
    machine: &Machine,
    alloc: Global,
    names: &mut Vec<Word>,
    object: &Object,
) -> Result<(), NoMemory>
    ensures { OnOk result (reverse names.new.items ≡ map (own_name machine.now) (modules_around machine.now 64 object.now) ++ reverse names.old.items) }
{
    let mut inner = object;
    for _level in 0..64usize {
        match maker_below(machine, inner.maker) {
            Some(module) => {
                push_name(machine, alloc, names, module)?;
                inner = module;
            }
            None => return Ok(()),
        }
    }
    Ok(())
}

// The name of a part, where there is one.
fn part_name(alloc: Global, part: Option<&Word>) -> Result<Vec<Word>, NoMemory>
    ensures { IfOk result (λ names. names.items ≡ option_to_list (option_copied part.entry)) }
{
    let mut names = Vec::new(alloc);
    if let Some(part) = part {
        names.push(part.copied(alloc)?)?;
    }
    Ok(names)
}

#[tactic(auto, using(crate::proofs::Around::path_is))]
fn object_path(
    machine: &Machine,
    alloc: Global,
    object: &Object,
    part: Option<&Word>,
) -> Result<List<Word>, NoMemory>
    ensures { IfOk result (λ path. path ≡ object_path machine.now (option_copied part.entry) object.now) }
{
    let mut names = part_name(alloc, part)?;
    push_name(machine, alloc, &mut names, object)?;
    push_around(machine, alloc, &mut names, object)?;
    names.reverse();
    Ok(List::from_vec(names))
}

/// The path of an object, or of a part of it: the names of the modules below the top in whose `__init__` it was made,
/// the outermost first, then its own name, then the part. It is for a machine in which the top was made.
pub fn path_of(
    machine: &Machine,
    alloc: Global,
    object: usize,
    part: Option<&Word>,
) -> Result<List<Word>, NoMemory>
    ensures { IfOk result (λ path. path ≡ path_of machine.now object (option_copied part.entry)) }
{
    match machine.objects.get(object) {
        Some(object) => object_path(machine, alloc, object, part),
        None => Ok(List::new(alloc)),
    }
}

// ---- parts of FSMs

fn what_fsm(machine: &Machine, what: What) -> Option<&Fsm>
    ensures { option_copied result ≡ what_fsm machine.now what }
{
    match what {
        What::Fsm(at) => machine.fsms.get(at),
        What::Signal(_) | What::Module(_) | What::ClockDomain(_) | What::MultiReg => None,
        What::Memory(_) | What::Port(_) | What::Register(_) | What::Field(_) => None,
        What::Constant(_) | What::Manager(_) | What::Source(_) => None,
        What::Region(_) | What::Interface(_) => None,
    }
}

/// The FSM that the object at a place is.
pub fn object_fsm(machine: &Machine, at: usize) -> Option<&Fsm>
    ensures { option_copied result ≡ object_fsm machine.now (slice_get machine.now.objects at) }
{
    match machine.objects.get(at) {
        Some(object) => what_fsm(machine, object.what),
        None => None,
    }
}

// The name of a part of an FSM: `state`, or `ongoing_<k>` of the state of number k.
fn fsm_part(alloc: Global, fsm: &Fsm, part: Option<&Word>) -> Result<Word, NoMemory>
    ensures { IfOk result (λ name. name ≡ fsm_part fsm.now (option_copied part.entry)) }
{
    match part {
        Some(name) => {
            let number = fsm.names.get(name.as_bytes()).unwrap_or(0);
            item_name(alloc, b"ongoing", number)
        }
        None => Word::new(alloc, b"state"),
    }
}

// ---- parts of event managers

fn what_manager(machine: &Machine, what: What) -> Option<&ManagerState>
    ensures { option_copied result ≡ what_manager machine.now what }
{
    match what {
        What::Manager(at) => machine.managers.get(at),
        What::Signal(_) | What::Module(_) | What::ClockDomain(_) | What::MultiReg => None,
        What::Fsm(_) | What::Memory(_) | What::Port(_) | What::Register(_) => None,
        What::Field(_) | What::Constant(_) | What::Source(_) => None,
        What::Region(_) | What::Interface(_) => None,
    }
}

// The event manager that the object at a place is.
fn object_manager(machine: &Machine, at: usize) -> Option<&ManagerState>
    ensures { option_copied result ≡ object_manager machine.now (slice_get machine.now.objects at) }
{
    match machine.objects.get(at) {
        Some(object) => what_manager(machine, object.what),
        None => None,
    }
}

fn is_enable(part: Option<&Word>) -> bool
    ensures { result ≡ is_enable (option_copied part.entry) }
{
    match part {
        Some(part) => part.is(b"enable"),
        None => false,
    }
}

/// The event manager whose `enable` a signal of this owner is.
pub fn owner_manager<'a>(machine: &'a Machine, owner: &Owner) -> Option<&'a ManagerState>
    ensures { option_copied result ≡ owner_manager machine.now (Some owner.now) }
{
    if is_enable(owner.part.as_ref()) {
        object_manager(machine, owner.object)
    } else {
        None
    }
}

// ---- signals

// The path of a part of an object.
fn part_path(machine: &Machine, alloc: Global, owner: &Owner) -> Result<List<Word>, NoMemory>
    ensures { IfOk result (λ path. path ≡ path_of machine.now owner.now.object (part_name (object_fsm machine.now (slice_get machine.now.objects owner.now.object)) owner.now.part)) }
{
    match object_fsm(machine, owner.object) {
        Some(fsm) => {
            let part = fsm_part(alloc, fsm, owner.part.as_ref())?;
            path_of(machine, alloc, owner.object, Some(&part))
        }
        None => path_of(machine, alloc, owner.object, owner.part.as_ref()),
    }
}

fn owner_path(machine: &Machine, alloc: Global, owner: &Owner) -> Result<List<Word>, NoMemory>
    ensures { IfOk result (λ path. path ≡ owner_path machine.now (Some owner.now)) }
{
    match owner_manager(machine, owner) {
        Some(_) => Ok(List::new(alloc)),
        None => part_path(machine, alloc, owner),
    }
}

/// The path of a signal, which is empty where it is nobody's.
pub fn signal_path(machine: &Machine, alloc: Global, signal: usize) -> Result<List<Word>, NoMemory>
    ensures { IfOk result (λ path. path ≡ owner_path machine.now (slice_get machine.now.owners signal)) }
{
    match machine.owners.get(signal) {
        Some(owner) => owner_path(machine, alloc, owner),
        None => Ok(List::new(alloc)),
    }
}

/// The paths of the signals, in the order of the design.
pub fn signal_paths(machine: &Machine, alloc: Global) -> Result<List<List<Word>>, NoMemory>
    ensures { IfOk result (λ paths. paths ≡ signal_paths machine.now) }
{
    let mut paths = List::new(alloc);
    for signal in 0..machine.shaped.design().signals.len() {
        paths.push(signal_path(machine, alloc, signal)?)?;
    }
    Ok(paths)
}
