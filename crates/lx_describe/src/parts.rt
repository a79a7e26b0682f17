//! What modules declare: registers, constants, event managers and submodules.

ghost use Rattle.std.specs.Prelude.{◌≡◌, ◌++◌, ◌∷◌, [], IfOk, OnOk, Some, flat_map, map, slice_get};
ghost use Rattle.lx_describe.specs.Parts.{constant_part, manager_decl, manager_part, module_part, object_text, part_at, part_of, parts_of, place_among, reg_decl, register_part, source_at, source_decl, some_part};

use crate::submodules::{bound_once, is_below, is_place, unnamed_below};
use lx_description::{ConstDecl, ConstValue, Field, ManagerDecl, Part, RegDecl, SourceDecl};
use lx_paths::names::own_name;
use lx_state::lists::copied;
use lx_state::machine::{
    Machine, ManagerState, Module, Object, RegisterState, SourceState, Submodule, What,
};
use lx_text::{List, NoMemory, Word};
use std::alloc::Global;

// ---- registers and constants

fn field_copied(alloc: Global, field: &Field) -> Result<Field, NoMemory>
    ensures { IfOk result (λ copy. copy ≡ field.now) }
{
    Ok(Field {
        name: field.name.copied(alloc)?,
        offset: field.offset,
        size: field.size,
        reset: field.reset,
        line: field.line,
    })
}

// Adds a copy of a field.
fn push_field(into: &mut List<Field>, alloc: Global, field: &Field) -> Result<(), NoMemory>
    ensures { OnOk result (into.new ≡ into.old ++ field.now ∷ []) }
{
    let field = field_copied(alloc, field)?;
    into.push(field)
}

fn fields_copied(alloc: Global, fields: &[Field]) -> Result<List<Field>, NoMemory>
    ensures { IfOk result (λ copy. copy ≡ fields.now) }
{
    let mut copy = List::new(alloc);
    for field in fields {
        push_field(&mut copy, alloc, field)?;
    }
    Ok(copy)
}

// A register with its object's name.
fn reg_decl(
    machine: &Machine,
    alloc: Global,
    object: &Object,
    register: &RegisterState,
) -> Result<RegDecl, NoMemory>
    ensures { IfOk result (λ decl. decl ≡ reg_decl machine.now object.now register.now) }
{
    let decl = &register.decl;
    Ok(RegDecl {
        name: own_name(machine, alloc, object)?,
        kind: decl.kind,
        size: decl.size,
        reset: decl.reset,
        atomic: decl.atomic,
        from_dev: decl.from_dev,
        fields: fields_copied(alloc, decl.fields.as_slice())?,
        signals: copied(alloc, &decl.signals)?,
        line: decl.line,
    })
}

// Adds the register of a number.
fn push_register(
    into: &mut List<Part>,
    machine: &Machine,
    alloc: Global,
    object: &Object,
    number: usize,
) -> Result<(), NoMemory>
    ensures { OnOk result (into.new ≡ into.old ++ register_part machine.now object.now (slice_get machine.now.registers number)) }
{
    match machine.registers.get(number) {
        Some(register) => {
            let decl = reg_decl(machine, alloc, object, register)?;
            into.push(Part::Reg(decl))
        }
        None => Ok(()),
    }
}

fn value_copied(alloc: Global, value: &ConstValue) -> Result<ConstValue, NoMemory>
    ensures { IfOk result (λ copy. copy ≡ value.now) }
{
    match value {
        ConstValue::Number(number) => Ok(ConstValue::Number(*number)),
        ConstValue::Text(text) => Ok(ConstValue::Text(text.copied(alloc)?)),
        ConstValue::Nothing => Ok(ConstValue::Nothing),
    }
}

// Adds the constant of a number.
fn push_constant(
    into: &mut List<Part>,
    machine: &Machine,
    alloc: Global,
    object: &Object,
    number: usize,
) -> Result<(), NoMemory>
    ensures { OnOk result (into.new ≡ into.old ++ constant_part machine.now object.now (slice_get machine.now.constants number)) }
{
    match machine.constants.get(number) {
        Some(value) => {
            let name = own_name(machine, alloc, object)?;
            let value = value_copied(alloc, value)?;
            into.push(Part::Constant(ConstDecl {
                name,
                value,
                line: object.line,
            }))
        }
        None => Ok(()),
    }
}

// ---- event managers

/// The name of the object at a place.
pub fn object_text(machine: &Machine, alloc: Global, object: usize) -> Result<Word, NoMemory>
    ensures { IfOk result (λ name. name ≡ object_text machine.now (slice_get machine.now.objects object)) }
{
    match machine.objects.get(object) {
        Some(object) => own_name(machine, alloc, object),
        None => Ok(Word::empty(alloc)),
    }
}

fn source_decl(
    machine: &Machine,
    alloc: Global,
    source: &SourceState,
) -> Result<SourceDecl, NoMemory>
    ensures { IfOk result (λ decl. decl ≡ source_decl machine.now source.now) }
{
    Ok(SourceDecl {
        name: object_text(machine, alloc, source.object)?,
        kind: source.kind,
        signals: copied(alloc, &source.signals)?,
    })
}

// Adds the source of a number.
fn push_source(
    into: &mut List<SourceDecl>,
    machine: &Machine,
    alloc: Global,
    number: usize,
) -> Result<(), NoMemory>
    ensures { OnOk result (into.new ≡ into.old ++ source_at machine.now number) }
{
    match machine.sources.get(number) {
        Some(source) => {
            let decl = source_decl(machine, alloc, source)?;
            into.push(decl)
        }
        None => Ok(()),
    }
}

fn sources(
    machine: &Machine,
    alloc: Global,
    numbers: &[usize],
) -> Result<List<SourceDecl>, NoMemory>
    ensures { IfOk result (λ list. list ≡ flat_map (source_at machine.now) numbers.now) }
{
    let mut list = List::new(alloc);
    for number in numbers {
        push_source(&mut list, machine, alloc, *number)?;
    }
    Ok(list)
}

fn manager_decl(
    machine: &Machine,
    alloc: Global,
    object: &Object,
    manager: &ManagerState,
) -> Result<ManagerDecl, NoMemory>
    ensures { IfOk result (λ decl. decl ≡ manager_decl machine.now object.now manager.now) }
{
    Ok(ManagerDecl {
        sources: sources(machine, alloc, manager.sources.as_slice())?,
        irq: manager.irq,
        enable: manager.enable,
        line: object.line,
    })
}

fn push_added_manager(
    into: &mut List<Part>,
    machine: &Machine,
    alloc: Global,
    at: usize,
    object: &Object,
    manager: &ManagerState,
) -> Result<(), NoMemory>
    ensures { OnOk result (into.new ≡ into.old ++ manager_part machine.now at object.now (Some manager.now)) }
{
    if !is_below(machine, at, manager.module) {
        return Ok(());
    }
    let name = own_name(machine, alloc, object)?;
    let decl = manager_decl(machine, alloc, object, manager)?;
    into.push(Part::Manager(name, decl))
}

// Adds the event manager of a number, where it was added to the module at a place.
fn push_manager(
    into: &mut List<Part>,
    machine: &Machine,
    alloc: Global,
    at: usize,
    object: &Object,
    number: usize,
) -> Result<(), NoMemory>
    ensures { OnOk result (into.new ≡ into.old ++ manager_part machine.now at object.now (slice_get machine.now.managers number)) }
{
    match machine.managers.get(number) {
        Some(manager) => push_added_manager(into, machine, alloc, at, object, manager),
        None => Ok(()),
    }
}

// ---- modules

// How many stand before the module at a place.
fn place_among(all: &[Submodule], at: usize) -> usize
    ensures { result ≡ place_among all.now at }
{
    for (before, other) in all.iter().enumerate() {
        if other.place == at {
            return before;
        }
    }
    all.len()
}

// Adds a module, where it was added to the one at a place.
fn push_module(
    into: &mut List<Part>,
    machine: &Machine,
    all: &[Submodule],
    at: usize,
    below: usize,
) -> Result<(), NoMemory>
    ensures { OnOk result (into.new ≡ into.old ++ module_part machine.now all.now at below) }
{
    if is_below(machine, at, below) {
        into.push(Part::Module(place_among(all, below)))
    } else {
        Ok(())
    }
}

// Adds these submodules.
fn push_submodules(
    into: &mut List<Part>,
    all: &[Submodule],
    submodules: &[Submodule],
) -> Result<(), NoMemory>
    ensures { OnOk result (into.new ≡ into.old ++ map (part_of all.now) submodules.now) }
{
    for submodule in submodules {
        into.push(Part::Module(place_among(all, submodule.place)))?;
    }
    Ok(())
}

// ---- all of them

// Adds what an object is that an attribute of the module at a place binds.
fn push_object(
    into: &mut List<Part>,
    machine: &Machine,
    alloc: Global,
    all: &[Submodule],
    at: usize,
    object: &Object,
) -> Result<(), NoMemory>
    ensures { OnOk result (into.new ≡ into.old ++ some_part machine.now all.now at (Some object.now)) }
{
    match object.what {
        What::Register(number) => {
            if is_place(at, object.home) {
                push_register(into, machine, alloc, object, number)
            } else {
                Ok(())
            }
        }
        What::Constant(number) => {
            if is_place(at, object.home) {
                push_constant(into, machine, alloc, object, number)
            } else {
                Ok(())
            }
        }
        What::Manager(number) => push_manager(into, machine, alloc, at, object, number),
        What::Module(below) => push_module(into, machine, all, at, below),
        What::Signal(_) | What::ClockDomain(_) | What::MultiReg | What::Fsm(_) => Ok(()),
        What::Memory(_) | What::Port(_) | What::Field(_) | What::Source(_) => Ok(()),
        What::Region(_) | What::Interface(_) => Ok(()),
    }
}

// Adds what the object at a place is.
fn push_part(
    into: &mut List<Part>,
    machine: &Machine,
    alloc: Global,
    all: &[Submodule],
    at: usize,
    object: usize,
) -> Result<(), NoMemory>
    ensures { OnOk result (into.new ≡ into.old ++ part_at machine.now all.now at object) }
{
    match machine.objects.get(object) {
        Some(object) => push_object(into, machine, alloc, all, at, object),
        None => Ok(()),
    }
}

// Adds what objects are.
fn push_parts(
    into: &mut List<Part>,
    machine: &Machine,
    alloc: Global,
    all: &[Submodule],
    at: usize,
    objects: &[usize],
) -> Result<(), NoMemory>
    ensures { OnOk result (into.new ≡ into.old ++ flat_map (part_at machine.now all.now at) objects.now) }
{
    for object in objects {
        push_part(into, machine, alloc, all, at, *object)?;
    }
    Ok(())
}

fn module_parts(
    machine: &Machine,
    alloc: Global,
    all: &[Submodule],
    at: usize,
    module: &Module,
) -> Result<List<Part>, NoMemory>
    ensures { IfOk result (λ parts. parts ≡ parts_of machine.now all.now at (Some module.now)) }
{
    let bound = bound_once(alloc, module)?;
    let unnamed = unnamed_below(machine, alloc, &bound, module)?;
    let mut parts = List::new(alloc);
    push_parts(&mut parts, machine, alloc, all, at, bound.as_slice())?;
    push_submodules(&mut parts, all, unnamed.as_slice())?;
    Ok(parts)
}

/// What the module at a place declares, where these are all modules in their order.
pub fn parts_of(
    machine: &Machine,
    alloc: Global,
    all: &[Submodule],
    at: usize,
) -> Result<List<Part>, NoMemory>
    ensures { IfOk result (λ parts. parts ≡ parts_of machine.now all.now at (slice_get machine.now.modules at)) }
{
    match machine.modules.get(at) {
        Some(module) => module_parts(machine, alloc, all, at, module),
        None => Ok(List::new(alloc)),
    }
}
