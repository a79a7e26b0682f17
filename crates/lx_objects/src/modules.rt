//! Modules: their attributes, and what is added to them.

ghost use Rattle.std.specs.Prelude.{◌≡◌, ◌++◌, false, Ok, OnOk, slice_get};
ghost use Rattle.lx_state.specs.Changes.{changed};
ghost use Rattle.lx_state.specs.Step.{Gives};
ghost use Rattle.lx_objects.specs.Modules.{above, add_bound, add_comb, add_in, add_module, add_modules, add_object, add_objects, add_some, add_some_in, add_sync, added_of, added_of_object, added_of_what, added_to, adds_by_binding, attribute, bind_attribute, change_module, is_added, is_adding, keep_module, module_count, module_made, module_of, module_of_fsm, module_of_manager, module_of_object, module_of_what, new_module, object_of, rise, rise_on, room_of, set_attribute, settle, some_attribute, sync_items, with_attribute, with_comb, with_room, with_submodule, with_sync};

use crate::domains::{declare_bound, mention};
use crate::statements::{all_of, only, statements_of};
use lx_names::Table;
use lx_state::machine::{Binding, Leaves, Machine, Module, ModuleKind, Submodule, SyncItem, What};
use lx_state::values::Value;
use lx_state::work::{fault, limit, unknown};
use lx_text::{Kind, LimitKind, List, NoMemory, Refusal};
use std::alloc::Global;

/// A module without attributes, with nothing added.
pub(crate) fn new_module(alloc: Global, object: usize, class: usize, kind: ModuleKind) -> Module
    ensures { result ≡ new_module object class kind }
{
    Module {
        object,
        class,
        kind,
        attributes: Table::new(alloc),
        bound: List::new(alloc),
        comb: List::new(alloc),
        sync: List::new(alloc),
        submodules: List::new(alloc),
        added: None,
        room: 63,
    }
}

// The object that a value is stands behind others.
fn push_object(into: &mut List<usize>, value: Value) -> Result<(), NoMemory>
    ensures { OnOk result (into.new ≡ into.old ++ object_of value) }
{
    match value {
        Value::Object(at) => {
            into.push(at)?;
            Ok(())
        }
        _ => Ok(()),
    }
}

// Binds an attribute of the module at a place.
#[tactic(auto, using(lx_state::proofs::Changes::changed_there, lx_state::proofs::Changes::set_twice, lx_state::proofs::Changes::not_changed))]
fn put_attribute(
    alloc: Global,
    modules: &mut List<Module>,
    at: usize,
    name: &[u8],
    value: Value,
) -> Result<(), NoMemory>
    ensures { OnOk result (modules.new ≡ changed modules.old at (with_attribute name.now value)) }
{
    if at < modules.len() {
        let mut module = modules.replace(at, new_module(alloc, 0, 0, ModuleKind::Plain));
        module.attributes.set(name, value)?;
        push_object(&mut module.bound, value)?;
        modules.replace(at, module);
    }
    Ok(())
}

// Adds statements to the module at a place.
#[tactic(auto, using(lx_state::proofs::Changes::changed_there, lx_state::proofs::Changes::set_twice, lx_state::proofs::Changes::not_changed))]
fn put_comb(
    alloc: Global,
    modules: &mut List<Module>,
    at: usize,
    made: &[usize],
) -> Result<(), NoMemory>
    ensures { OnOk result (modules.new ≡ changed modules.old at (with_comb made.now)) }
{
    if at < modules.len() {
        let mut module = modules.replace(at, new_module(alloc, 0, 0, ModuleKind::Plain));
        push_all(&mut module.comb, made)?;
        modules.replace(at, module);
    }
    Ok(())
}

/// Adds places behind others.
pub(crate) fn push_all(into: &mut List<usize>, made: &[usize]) -> Result<(), NoMemory>
    ensures { OnOk result (into.new ≡ into.old ++ made.now) }
{
    for at in made {
        into.push(*at)?;
    }
    Ok(())
}

/// Adds statements of a domain.
pub(crate) fn push_sync(
    into: &mut List<SyncItem>,
    domain: usize,
    made: &[usize],
) -> Result<(), NoMemory>
    ensures { OnOk result (into.new ≡ into.old ++ sync_items domain made.now) }
{
    for at in made {
        into.push(SyncItem { domain, made: *at })?;
    }
    Ok(())
}

// Adds statements of a domain to the module at a place.
#[tactic(auto, using(lx_state::proofs::Changes::changed_there, lx_state::proofs::Changes::set_twice, lx_state::proofs::Changes::not_changed))]
fn put_sync(
    alloc: Global,
    modules: &mut List<Module>,
    at: usize,
    domain: usize,
    made: &[usize],
) -> Result<(), NoMemory>
    ensures { OnOk result (modules.new ≡ changed modules.old at (with_sync domain made.now)) }
{
    if at < modules.len() {
        let mut module = modules.replace(at, new_module(alloc, 0, 0, ModuleKind::Plain));
        push_sync(&mut module.sync, domain, made)?;
        modules.replace(at, module);
    }
    Ok(())
}

// Adds a submodule to the module at a place.
#[tactic(auto, using(lx_state::proofs::Changes::changed_there, lx_state::proofs::Changes::set_twice, lx_state::proofs::Changes::not_changed))]
fn put_submodule(
    alloc: Global,
    modules: &mut List<Module>,
    to: usize,
    place: usize,
    named: bool,
) -> Result<(), NoMemory>
    ensures { OnOk result (modules.new ≡ changed modules.old to (with_submodule place named)) }
{
    if to < modules.len() {
        let mut above = modules.replace(to, new_module(alloc, 0, 0, ModuleKind::Plain));
        above.submodules.push(Submodule { place, named })?;
        modules.replace(to, above);
    }
    Ok(())
}

// Notes to which module the one at a place was added.
#[tactic(auto, using(lx_state::proofs::Changes::changed_there, lx_state::proofs::Changes::set_twice, lx_state::proofs::Changes::not_changed))]
fn put_added(alloc: Global, modules: &mut List<Module>, at: usize, to: usize)
    ensures { modules.new ≡ changed modules.old at (added_to to) }
{
    if at < modules.len() {
        let mut module = modules.replace(at, new_module(alloc, 0, 0, ModuleKind::Plain));
        module.added = Some(to);
        modules.replace(at, module);
    }
}

// Notes how many modules may stand above the one at a place.
#[tactic(auto, using(lx_state::proofs::Changes::changed_there, lx_state::proofs::Changes::set_twice, lx_state::proofs::Changes::not_changed))]
fn put_room(alloc: Global, modules: &mut List<Module>, at: usize, room: u8)
    ensures { modules.new ≡ changed modules.old at (with_room room) }
{
    if at < modules.len() {
        let mut module = modules.replace(at, new_module(alloc, 0, 0, ModuleKind::Plain));
        module.room = room;
        modules.replace(at, module);
    }
}

fn adds_by_binding(kind: ModuleKind) -> bool
    ensures { result ≡ adds_by_binding kind }
{
    match kind {
        ModuleKind::Plain => false,
        ModuleKind::Lite => true,
        ModuleKind::Soc => true,
    }
}

#[tactic(auto, unfolding(crate::specs::Modules::keep_module))]
fn keep_module(
    machine: &mut Machine,
    alloc: Global,
    object: usize,
    class: usize,
    kind: ModuleKind,
) -> Result<usize, Refusal>
    ensures { Gives result machine.new (keep_module object class kind machine.old) }
{
    let place = machine.modules.len();
    machine
        .modules
        .push(new_module(alloc, object, class, kind))?;
    Ok(place)
}

// How many modules there are, but for what stands among them for FSMs and event managers.
fn module_count(machine: &Machine) -> usize
    ensures { result ≡ module_count machine.now }
{
    machine
        .modules
        .len()
        .saturating_sub(machine.fsms.len())
        .saturating_sub(machine.managers.len())
}

/// Makes a module, without attributes, with nothing added.
#[tactic(auto, unfolding(crate::specs::Modules::module_made))]
pub fn module_made(
    machine: &mut Machine,
    alloc: Global,
    line: u32,
    class: usize,
    kind: ModuleKind,
) -> Result<usize, Refusal>
    ensures { Gives result machine.new (module_made line class kind machine.old) }
{
    let place = machine.modules.len();
    let count = module_count(machine);
    machine.one_more(line, LimitKind::Modules, count)?;
    let object = machine.object_made(What::Module(place), line, None)?;
    keep_module(machine, alloc, object, class, kind)
}

// The value of an attribute of the module at a place.
fn some_attribute(machine: &Machine, at: usize, name: &[u8]) -> Option<Value>
    ensures { result ≡ some_attribute name.now (slice_get machine.now.modules at) }
{
    match machine.modules.get(at) {
        Some(module) => module.attributes.get(name),
        None => None,
    }
}

/// The value of an attribute of a module.
#[tactic(auto, unfolding(crate::specs::Modules::attribute))]
pub fn attribute(
    machine: &Machine,
    alloc: Global,
    line: u32,
    at: usize,
    name: &[u8],
) -> Result<Value, Refusal>
    ensures { Gives result machine.now (attribute line at name.now machine.now) }
{
    match some_attribute(machine, at, name) {
        Some(value) => Ok(value),
        None => Err(unknown(alloc, line, name)),
    }
}

// The module that an object is.
fn module_of_what(what: What) -> Option<usize>
    ensures { result ≡ module_of_what what }
{
    match what {
        What::Module(at) => Some(at),
        What::Signal(_) | What::ClockDomain(_) | What::MultiReg | What::Fsm(_) => None,
        What::Memory(_) | What::Port(_) => None,
        What::Register(_) | What::Field(_) | What::Constant(_) => None,
        What::Region(_) | What::Interface(_) => None,
        What::Manager(_) | What::Source(_) => None,
    }
}

// The module that the object at a place is.
fn module_of_object(machine: &Machine, at: usize) -> Option<usize>
    ensures { result ≡ module_of_object (slice_get machine.now.objects at) }
{
    match machine.objects.get(at) {
        Some(object) => module_of_what(object.what),
        None => None,
    }
}

/// The module that a value is.
pub fn module_of(machine: &Machine, value: Value) -> Option<usize>
    ensures { result ≡ module_of machine.now value }
{
    match value {
        Value::Object(at) => module_of_object(machine, at),
        _ => None,
    }
}

// The module that stands for the FSM at a place.
fn module_of_fsm(machine: &Machine, at: usize) -> Option<usize>
    ensures { result ≡ module_of_fsm (slice_get machine.now.fsms at) }
{
    match machine.fsms.get(at) {
        Some(fsm) => Some(fsm.module),
        None => None,
    }
}

// The module that stands for the event manager at a place.
fn module_of_manager(machine: &Machine, at: usize) -> Option<usize>
    ensures { result ≡ module_of_manager (slice_get machine.now.managers at) }
{
    match machine.managers.get(at) {
        Some(manager) => Some(manager.module),
        None => None,
    }
}

fn added_of_what(machine: &Machine, what: What) -> Option<usize>
    ensures { result ≡ added_of_what machine.now what }
{
    match what {
        What::Module(at) => Some(at),
        What::Fsm(at) => module_of_fsm(machine, at),
        What::Manager(at) => module_of_manager(machine, at),
        What::Signal(_) | What::ClockDomain(_) | What::MultiReg => None,
        What::Memory(_) | What::Port(_) => None,
        What::Register(_) | What::Field(_) | What::Constant(_) | What::Source(_) => None,
        What::Region(_) | What::Interface(_) => None,
    }
}

// The module that is added where the object at a place is.
fn added_of_object(machine: &Machine, at: usize) -> Option<usize>
    ensures { result ≡ added_of_object machine.now (slice_get machine.now.objects at) }
{
    match machine.objects.get(at) {
        Some(object) => added_of_what(machine, object.what),
        None => None,
    }
}

/// The module that is added where a value is: itself, or what stands for an FSM or an event manager.
pub fn added_of(machine: &Machine, value: Value) -> Option<usize>
    ensures { result ≡ added_of machine.now value }
{
    match value {
        Value::Object(at) => added_of_object(machine, at),
        _ => None,
    }
}

// How many modules may stand above a module, and to which it was added.
fn above(machine: &Machine, at: usize) -> Option<(u8, Option<usize>)>
    ensures { result ≡ above (slice_get machine.now.modules at) }
{
    match machine.modules.get(at) {
        Some(module) => Some((module.room, module.added)),
        None => None,
    }
}

#[cycle(rise)]
#[tactic(auto, unfolding(crate::specs::Modules::rise, crate::specs::Modules::change_module))]
fn rise(machine: &mut Machine, alloc: Global, line: u32, left: u8, at: usize) -> Result<(), Refusal>
    ensures { Gives result machine.new (rise line left at machine.old) }
{
    if left == 0 {
        return Err(limit(line, LimitKind::Depth));
    }
    match above(machine, at) {
        Some((room, added)) => {
            if left - 1 >= room {
                return Ok(());
            }
            put_room(alloc, &mut machine.modules, at, left - 1);
            rise_on(machine, alloc, line, left - 1, added)
        }
        None => Ok(()),
    }
}

#[cycle(rise)]
fn rise_on(
    machine: &mut Machine,
    alloc: Global,
    line: u32,
    left: u8,
    added: Option<usize>,
) -> Result<(), Refusal>
    ensures { Gives result machine.new (rise_on (rise line left) added machine.old) }
{
    match added {
        Some(at) => rise(machine, alloc, line, left, at),
        None => Ok(()),
    }
}

fn is_added(machine: &Machine, at: usize) -> bool
    ensures { result ≡ is_added (slice_get machine.now.modules at) }
{
    match machine.modules.get(at) {
        Some(module) => module.added.is_some(),
        None => true,
    }
}

fn room_of(machine: &Machine, at: usize) -> u8
    ensures { result ≡ room_of (slice_get machine.now.modules at) }
{
    match machine.modules.get(at) {
        Some(module) => module.room,
        None => 0,
    }
}

/// Adds a module to another, once; no chain of modules is longer than the limit.
#[tactic(auto, unfolding(crate::specs::Modules::add_module, crate::specs::Modules::change_module))]
pub fn add_module(
    machine: &mut Machine,
    alloc: Global,
    line: u32,
    to: usize,
    named: bool,
    at: usize,
) -> Result<(), Refusal>
    ensures { Gives result machine.new (add_module line to named at machine.old) }
{
    if is_added(machine, at) {
        return Err(fault(line, Kind::WrongKind));
    }
    let room = room_of(machine, at);
    put_added(alloc, &mut machine.modules, at, to);
    rise(machine, alloc, line, room, to)?;
    put_submodule(alloc, &mut machine.modules, to, at, named)?;
    Ok(())
}

// Adds a module, where there is one.
fn add_some(
    machine: &mut Machine,
    alloc: Global,
    line: u32,
    to: usize,
    named: bool,
    found: Option<usize>,
) -> Result<(), Refusal>
    ensures { Gives result machine.new (add_some line to named found machine.old) }
{
    match found {
        Some(at) => add_module(machine, alloc, line, to, named, at),
        None => Ok(()),
    }
}

#[tactic(auto, unfolding(crate::specs::Modules::add_object))]
fn add_object(
    machine: &mut Machine,
    alloc: Global,
    line: u32,
    to: usize,
    object: usize,
) -> Result<(), Refusal>
    ensures { Gives result machine.new (add_object line to false object machine.old) }
{
    let module = added_of_object(machine, object);
    add_some(machine, alloc, line, to, false, module)
}

#[tactic(auto, unfolding(crate::specs::Modules::add_objects))]
fn add_objects(
    machine: &mut Machine,
    alloc: Global,
    line: u32,
    to: usize,
    objects: &[usize],
) -> Result<(), Refusal>
    ensures { Gives result machine.new (add_objects line to objects.now machine.old) }
{
    for object in objects {
        add_object(machine, alloc, line, to, *object)?;
    }
    Ok(())
}

/// Adds modules, FSMs and event managers, which may stand in lists and tuples.
#[tactic(auto, unfolding(crate::specs::Modules::add_modules))]
pub fn add_modules(
    machine: &mut Machine,
    alloc: Global,
    line: u32,
    to: usize,
    value: Value,
) -> Result<(), Refusal>
    ensures { Gives result machine.new (add_modules line to value machine.old) }
{
    only(machine, Leaves::Modules, line, &[value])?;
    let objects = all_of(machine, alloc, Leaves::Modules, line, &[value])?;
    add_objects(machine, alloc, line, to, objects.as_slice())
}

fn is_adding(machine: &Machine, at: usize) -> bool
    ensures { result ≡ is_adding (slice_get machine.now.modules at) }
{
    match machine.modules.get(at) {
        Some(module) => adds_by_binding(module.kind),
        None => false,
    }
}

#[tactic(auto, unfolding(crate::specs::Modules::add_bound))]
fn add_bound(
    machine: &mut Machine,
    alloc: Global,
    line: u32,
    at: usize,
    value: Value,
) -> Result<(), Refusal>
    ensures { Gives result machine.new (add_bound line at value machine.old) }
{
    if !is_adding(machine, at) {
        return Ok(());
    }
    let module = added_of(machine, value);
    add_some(machine, alloc, line, at, true, module)
}

// An object that an attribute of the module binds itself.
fn settle(machine: &mut Machine, at: usize, value: Value)
    ensures { settle at value machine.old ≡ Ok (tt, machine.new) }
{
    match value {
        Value::Object(object) => machine.settle_object(at, object),
        _ => {}
    }
}

/// Binds an attribute, and adds nothing.
#[tactic(auto, unfolding(crate::specs::Modules::bind_attribute, crate::specs::Modules::change_module))]
pub fn bind_attribute(
    machine: &mut Machine,
    alloc: Global,
    line: u32,
    at: usize,
    name: &[u8],
    value: Value,
) -> Result<(), Refusal>
    ensures { Gives result machine.new (bind_attribute line at name.now value machine.old) }
{
    declare_bound(machine, line, name, value)?;
    machine.name_fits(line, name)?;
    machine.bind_name(alloc, Binding::Attribute, name, value)?;
    settle(machine, at, value);
    put_attribute(alloc, &mut machine.modules, at, name, value)?;
    Ok(())
}

/// Binds an attribute; in a `LiteXModule` and in a `SoCCore` a module, an FSM or an event manager is added by this.
#[tactic(auto, unfolding(crate::specs::Modules::set_attribute))]
pub fn set_attribute(
    machine: &mut Machine,
    alloc: Global,
    line: u32,
    at: usize,
    name: &[u8],
    value: Value,
) -> Result<(), Refusal>
    ensures { Gives result machine.new (set_attribute line at name.now value machine.old) }
{
    add_bound(machine, alloc, line, at, value)?;
    bind_attribute(machine, alloc, line, at, name, value)
}

/// Adds combinatorial statements, which may stand in lists and tuples.
#[tactic(auto, unfolding(crate::specs::Modules::add_comb, crate::specs::Modules::change_module))]
pub fn add_comb(
    machine: &mut Machine,
    alloc: Global,
    line: u32,
    at: usize,
    value: Value,
) -> Result<(), Refusal>
    ensures { Gives result machine.new (add_comb line at value machine.old) }
{
    let (made, _) = statements_of(machine, alloc, Leaves::Statements, line, 0, &[value])?;
    put_comb(alloc, &mut machine.modules, at, made.as_slice())?;
    Ok(())
}

// Adds statements to a domain, which they mention.
#[tactic(auto, unfolding(crate::specs::Modules::add_some_in, crate::specs::Modules::change_module))]
fn add_some_in(
    machine: &mut Machine,
    alloc: Global,
    line: u32,
    at: usize,
    name: &[u8],
    made: &[usize],
) -> Result<(), Refusal>
    ensures { Gives result machine.new (add_some_in line at name.now made.now machine.old) }
{
    let domain = mention(machine, line, name)?;
    machine.name_fits(line, name)?;
    put_sync(alloc, &mut machine.modules, at, domain, made)?;
    Ok(())
}

// Adds statements to a domain; where there is none, its name is looked at alone.
fn add_in(
    machine: &mut Machine,
    alloc: Global,
    line: u32,
    at: usize,
    name: &[u8],
    made: &[usize],
) -> Result<(), Refusal>
    ensures { Gives result machine.new (add_in line at name.now made.now machine.old) }
{
    if 0 < made.len() {
        add_some_in(machine, alloc, line, at, name, made)
    } else {
        machine.name_fits(line, name)
    }
}

/// Adds statements of a clock domain, which may stand in lists and tuples.
#[tactic(auto, unfolding(crate::specs::Modules::add_sync))]
pub fn add_sync(
    machine: &mut Machine,
    alloc: Global,
    line: u32,
    at: usize,
    name: &[u8],
    value: Value,
) -> Result<(), Refusal>
    ensures { Gives result machine.new (add_sync line at name.now value machine.old) }
{
    let (made, _) = statements_of(machine, alloc, Leaves::Statements, line, 0, &[value])?;
    add_in(machine, alloc, line, at, name, made.as_slice())
}
