//! Attributes of values, and the fragments of modules.

ghost use Rattle.std.specs.Prelude.{◌≡◌, ◌≤◌, codes, length, slice_get};
ghost use Rattle.lx_objects.specs.Events.{source_parts};
ghost use Rattle.lx_objects.specs.Registers.{device_parts, own_parts};
ghost use Rattle.lx_objects.specs.Systems.{interface_parts};
ghost use Rattle.lx_state.specs.Step.{Gives};
ghost use Rattle.lx_ops.specs.Attributes.{attribute_of, branch, builtin_attribute, field_attribute, field_names, fragment_named, fsm_attribute, hub_attribute, if_branch, interface_attribute, is_system, last_branch, made_attribute, manager_attribute, manager_name, memory_attribute, module_attribute, named_source, object_attribute, place_among, port_attribute, read_there, register_attribute, single, source_attribute, source_value, system_name, system_value, what_attribute, writing_attribute};

use lx_description::{Field, RegDecl, RegKind};
use lx_fhdl::ExprId;
use lx_objects::modules::attribute;
use lx_state::machine::Writing;
use lx_state::work::{fault, unknown};
use lx_state::{Builtin, Form, Hub, Machine, Method, ModuleKind, Value, What};
use lx_text::{Kind, List, Refusal};
use std::alloc::Global;

/// A part of a module to which statements or objects are added.
#[derive(Clone, Copy)]
pub enum Fragment {
    Comb,
    Sync,
    Submodules,
    Specials,
    ClockDomains,
}

/// The fragment with a name.
pub fn fragment_named(name: &[u8]) -> Option<Fragment>
    ensures { result ≡ fragment_named name.now }
{
    if name == b"comb".as_slice() {
        Some(Fragment::Comb)
    } else if name == b"sync".as_slice() {
        Some(Fragment::Sync)
    } else if name == b"submodules".as_slice() {
        Some(Fragment::Submodules)
    } else if name == b"specials".as_slice() {
        Some(Fragment::Specials)
    } else if name == b"clock_domains".as_slice() {
        Some(Fragment::ClockDomains)
    } else {
        None
    }
}

/// Whether it is a system's top.
pub fn is_system(kind: ModuleKind) -> bool
    ensures { result ≡ is_system kind }
{
    match kind {
        ModuleKind::Soc => true,
        ModuleKind::Plain | ModuleKind::Lite => false,
    }
}

// What a system's top has besides its attributes.
fn system_name(name: &[u8]) -> Option<Value>
    ensures { result ≡ system_name name.now }
{
    if name == b"bus".as_slice() {
        Some(Value::Hub(Hub::Bus))
    } else if name == b"csr".as_slice() {
        Some(Value::Hub(Hub::Csr))
    } else if name == b"irq".as_slice() {
        Some(Value::Hub(Hub::Irq))
    } else if name == b"add_ram".as_slice() {
        Some(Value::Method(Method::AddRam))
    } else if name == b"add_rom".as_slice() {
        Some(Value::Method(Method::AddRom))
    } else if name == b"add_constant".as_slice() {
        Some(Value::Method(Method::AddConstant))
    } else {
        None
    }
}

// The same of the module at a place, where no attribute has the name.
fn system_value(machine: &Machine, at: usize, name: &[u8]) -> Option<Value>
    ensures { result ≡ system_value name.now (slice_get machine.now.modules at) }
{
    match machine.modules.get(at) {
        Some(module) => {
            if is_system(module.kind) && module.attributes.get(name).is_none() {
                system_name(name)
            } else {
                None
            }
        }
        None => None,
    }
}

// An attribute of a module; a fragment is no value.
#[tactic(auto, unfolding(crate::specs::Attributes::module_attribute))]
fn module_attribute(
    machine: &Machine,
    alloc: Global,
    line: u32,
    at: usize,
    name: &[u8],
) -> Result<Value, Refusal>
    ensures { Gives result machine.now (module_attribute line at name.now machine.now) }
{
    if fragment_named(name).is_some() {
        return Err(fault(line, Kind::WrongKind));
    }
    match system_value(machine, at, name) {
        Some(value) => Ok(value),
        None => attribute(machine, alloc, line, at, name),
    }
}

// Where a system is asked for places.
fn hub_attribute(
    machine: &Machine,
    alloc: Global,
    line: u32,
    name: &[u8],
    hub: Hub,
) -> Result<Value, Refusal>
    ensures { Gives result machine.now (hub_attribute line name.now hub machine.now) }
{
    match hub {
        Hub::Bus => {
            let add = Value::Method(Method::AddSlave);
            single(machine, alloc, line, name, b"add_slave", add)
        }
        Hub::Csr => {
            let add = Value::Method(Method::AddBank);
            single(machine, alloc, line, name, b"add", add)
        }
        Hub::Irq => {
            let add = Value::Method(Method::AddInterrupt);
            single(machine, alloc, line, name, b"add", add)
        }
    }
}

// A method of an FSM.
fn fsm_attribute(
    machine: &Machine,
    alloc: Global,
    line: u32,
    name: &[u8],
    at: usize,
) -> Result<Value, Refusal>
    ensures { Gives result machine.now (fsm_attribute line name.now at machine.now) }
{
    let _machine = machine;
    if name == b"act".as_slice() {
        Ok(Value::Method(Method::Act(at)))
    } else if name == b"ongoing".as_slice() {
        Ok(Value::Method(Method::Ongoing(at)))
    } else {
        Err(unknown(alloc, line, name))
    }
}

// The method of a memory.
fn memory_attribute(
    machine: &Machine,
    alloc: Global,
    line: u32,
    name: &[u8],
    at: usize,
) -> Result<Value, Refusal>
    ensures { Gives result machine.now (memory_attribute line name.now at machine.now) }
{
    let _machine = machine;
    if name == b"get_port".as_slice() {
        Ok(Value::Method(Method::GetPort(at)))
    } else {
        Err(unknown(alloc, line, name))
    }
}

// A signal by which a port writes.
fn writing_attribute(
    machine: &Machine,
    alloc: Global,
    line: u32,
    name: &[u8],
    writing: Option<Writing>,
) -> Result<Value, Refusal>
    ensures { Gives result machine.now (writing_attribute line name.now writing machine.now) }
{
    let _machine = machine;
    match writing {
        Some(writing) => {
            if name == b"dat_w".as_slice() {
                Ok(Value::Expr(writing.dat_w))
            } else if name == b"we".as_slice() {
                Ok(Value::Expr(writing.we))
            } else {
                Err(unknown(alloc, line, name))
            }
        }
        None => Err(unknown(alloc, line, name)),
    }
}

// A signal of a port.
fn port_attribute(
    machine: &Machine,
    alloc: Global,
    line: u32,
    name: &[u8],
    at: usize,
) -> Result<Value, Refusal>
    ensures { Gives result machine.now (port_attribute line name.now (slice_get machine.now.ports at) machine.now) }
{
    match machine.ports.get(at) {
        Some(port) => {
            if name == b"adr".as_slice() {
                Ok(Value::Expr(port.adr))
            } else if name == b"dat_r".as_slice() {
                Ok(Value::Expr(port.dat_r))
            } else {
                writing_attribute(machine, alloc, line, name, port.writing)
            }
        }
        None => Err(unknown(alloc, line, name)),
    }
}

// The signal that one of these expressions reads.
fn read_there(
    machine: &Machine,
    alloc: Global,
    line: u32,
    name: &[u8],
    reads: &List<ExprId>,
    place: Option<usize>,
) -> Result<Value, Refusal>
    ensures { Gives result machine.now (read_there line name.now reads.now place machine.now) }
{
    let _machine = machine;
    match place {
        Some(place) => match reads.get(place) {
            Some(read) => Ok(Value::Expr(*read)),
            None => Err(unknown(alloc, line, name)),
        },
        None => Err(unknown(alloc, line, name)),
    }
}

// The place of a signal by which the circuit writes a storage.
#[tactic(auto, unfolding(crate::specs::Attributes::place_among))]
fn device_place(from_dev: bool, name: &[u8]) -> Option<usize>
    ensures { result ≡ place_among 2 name.now (device_parts from_dev) }
{
    if !from_dev {
        None
    } else if name == b"we".as_slice() {
        Some(2)
    } else if name == b"dat_w".as_slice() {
        Some(3)
    } else {
        None
    }
}

// The place of a register's own signal.
#[tactic(auto, unfolding(crate::specs::Attributes::place_among))]
fn own_place(register: &RegDecl, name: &[u8]) -> Option<usize>
    ensures { result ≡ place_among 0 name.now (own_parts register.now register.now.kind) }
{
    match register.kind {
        RegKind::Storage => {
            if name == b"storage".as_slice() {
                Some(0)
            } else if name == b"re".as_slice() {
                Some(1)
            } else {
                device_place(register.from_dev, name)
            }
        }
        RegKind::Status => {
            if name == b"status".as_slice() {
                Some(0)
            } else if name == b"we".as_slice() {
                Some(1)
            } else {
                None
            }
        }
        RegKind::Raw => {
            if name == b"r".as_slice() {
                Some(0)
            } else if name == b"re".as_slice() {
                Some(1)
            } else if name == b"w".as_slice() {
                Some(2)
            } else if name == b"we".as_slice() {
                Some(3)
            } else {
                None
            }
        }
        RegKind::Pending => None,
    }
}

// How many signals a register has, those of its fields aside.
fn own_count(register: &RegDecl) -> usize
    ensures count { result ≡ length (own_parts register.now register.now.kind) }
    ensures few { result ≤ 4 }
{
    match register.kind {
        RegKind::Storage => if register.from_dev { 4 } else { 2 },
        RegKind::Status => 2,
        RegKind::Raw => 4,
        RegKind::Pending => 0,
    }
}

// The place of the signal of the first field with a name, where the fields' signals begin at a place.
#[tactic(auto, unfolding(crate::specs::Attributes::place_among))]
fn field_place(first: usize, name: &[u8], fields: &[Field]) -> Option<usize>
    requires { first ≤ 4 }
    ensures { result ≡ place_among first name.now (field_names fields.now) }
{
    for (place, field) in fields.iter().enumerate() {
        if name == field.name.as_bytes() {
            return Some(first + place);
        }
    }
    None
}

// A signal of a register, or its fields.
fn register_attribute(
    machine: &Machine,
    alloc: Global,
    line: u32,
    name: &[u8],
    at: usize,
) -> Result<Value, Refusal>
    ensures { Gives result machine.now (register_attribute line name.now at (slice_get machine.now.registers at) machine.now) }
{
    match machine.registers.get(at) {
        Some(register) => {
            if name == b"fields".as_slice() {
                Ok(Value::Fields(at))
            } else {
                let place = own_place(&register.decl, name);
                read_there(machine, alloc, line, name, &register.reads, place)
            }
        }
        None => Err(unknown(alloc, line, name)),
    }
}

// The signal of a field of a register.
fn field_attribute(
    machine: &Machine,
    alloc: Global,
    line: u32,
    name: &[u8],
    at: usize,
) -> Result<Value, Refusal>
    ensures { Gives result machine.now (field_attribute line name.now (slice_get machine.now.registers at) machine.now) }
{
    match machine.registers.get(at) {
        Some(register) => {
            let first = own_count(&register.decl);
            let place = field_place(first, name, register.decl.fields.as_slice());
            read_there(machine, alloc, line, name, &register.reads, place)
        }
        None => Err(unknown(alloc, line, name)),
    }
}

#[tactic(auto, unfolding(crate::specs::Attributes::place_among))]
fn source_place(name: &[u8]) -> Option<usize>
    ensures { result ≡ place_among 0 name.now source_parts }
{
    if name == b"trigger".as_slice() {
        Some(0)
    } else if name == b"status".as_slice() {
        Some(1)
    } else if name == b"pending".as_slice() {
        Some(2)
    } else if name == b"clear".as_slice() {
        Some(3)
    } else {
        None
    }
}

// A signal of a source of events.
fn source_attribute(
    machine: &Machine,
    alloc: Global,
    line: u32,
    name: &[u8],
    at: usize,
) -> Result<Value, Refusal>
    ensures { Gives result machine.now (source_attribute line name.now (slice_get machine.now.sources at) machine.now) }
{
    match machine.sources.get(at) {
        Some(source) => read_there(
            machine,
            alloc,
            line,
            name,
            &source.reads,
            source_place(name),
        ),
        None => Err(unknown(alloc, line, name)),
    }
}

#[tactic(auto, unfolding(crate::specs::Attributes::place_among))]
fn interface_place(name: &[u8]) -> Option<usize>
    ensures { result ≡ place_among 0 name.now interface_parts }
{
    if name == b"adr".as_slice() {
        Some(0)
    } else if name == b"dat_w".as_slice() {
        Some(1)
    } else if name == b"dat_r".as_slice() {
        Some(2)
    } else if name == b"sel".as_slice() {
        Some(3)
    } else if name == b"cyc".as_slice() {
        Some(4)
    } else if name == b"stb".as_slice() {
        Some(5)
    } else if name == b"we".as_slice() {
        Some(6)
    } else if name == b"ack".as_slice() {
        Some(7)
    } else if name == b"err".as_slice() {
        Some(8)
    } else {
        None
    }
}

// A signal of an interface of the bus.
fn interface_attribute(
    machine: &Machine,
    alloc: Global,
    line: u32,
    name: &[u8],
    at: usize,
) -> Result<Value, Refusal>
    ensures { Gives result machine.now (interface_attribute line name.now (slice_get machine.now.interfaces at) machine.now) }
{
    match machine.interfaces.get(at) {
        Some(interface) => read_there(
            machine,
            alloc,
            line,
            name,
            &interface.reads,
            interface_place(name),
        ),
        None => Err(unknown(alloc, line, name)),
    }
}

fn source_value(
    machine: &Machine,
    alloc: Global,
    line: u32,
    name: &[u8],
    at: usize,
) -> Result<Value, Refusal>
    ensures { Gives result machine.now (source_value line name.now (slice_get machine.now.sources at) machine.now) }
{
    match machine.sources.get(at) {
        Some(source) => Ok(Value::Object(source.object)),
        None => Err(unknown(alloc, line, name)),
    }
}

// What an event manager has besides its sources.
fn manager_name(
    machine: &Machine,
    alloc: Global,
    line: u32,
    name: &[u8],
    irq: ExprId,
) -> Result<Value, Refusal>
    ensures { Gives result machine.now (manager_name line name.now irq machine.now) }
{
    let _machine = machine;
    if name == b"irq".as_slice() {
        Ok(Value::Expr(irq))
    } else if name == b"finalize".as_slice() {
        Ok(Value::Method(Method::Finalize))
    } else {
        Err(unknown(alloc, line, name))
    }
}

fn named_source(
    machine: &Machine,
    alloc: Global,
    line: u32,
    name: &[u8],
    irq: ExprId,
    source: Option<usize>,
) -> Result<Value, Refusal>
    ensures { Gives result machine.now (named_source line name.now irq source machine.now) }
{
    match source {
        Some(at) => source_value(machine, alloc, line, name, at),
        None => manager_name(machine, alloc, line, name, irq),
    }
}

// A source that is bound to an event manager, its interrupt, or its method.
fn manager_attribute(
    machine: &Machine,
    alloc: Global,
    line: u32,
    name: &[u8],
    at: usize,
) -> Result<Value, Refusal>
    ensures { Gives result machine.now (manager_attribute line name.now (slice_get machine.now.managers at) machine.now) }
{
    match machine.managers.get(at) {
        Some(manager) => {
            let source = manager.names.get(name);
            named_source(machine, alloc, line, name, manager.read, source)
        }
        None => Err(unknown(alloc, line, name)),
    }
}

fn what_attribute(
    machine: &Machine,
    alloc: Global,
    line: u32,
    name: &[u8],
    what: What,
) -> Result<Value, Refusal>
    ensures { Gives result machine.now (what_attribute line name.now what machine.now) }
{
    match what {
        What::Module(at) => module_attribute(machine, alloc, line, at, name),
        What::Fsm(at) => fsm_attribute(machine, alloc, line, name, at),
        What::Signal(_) | What::ClockDomain(_) | What::MultiReg => Err(unknown(alloc, line, name)),
        What::Memory(at) => memory_attribute(machine, alloc, line, name, at),
        What::Port(at) => port_attribute(machine, alloc, line, name, at),
        What::Register(at) => register_attribute(machine, alloc, line, name, at),
        What::Field(_) | What::Constant(_) => Err(unknown(alloc, line, name)),
        What::Manager(at) => manager_attribute(machine, alloc, line, name, at),
        What::Source(at) => source_attribute(machine, alloc, line, name, at),
        What::Region(_) => Err(unknown(alloc, line, name)),
        What::Interface(at) => interface_attribute(machine, alloc, line, name, at),
    }
}

fn object_attribute(
    machine: &Machine,
    alloc: Global,
    line: u32,
    name: &[u8],
    at: usize,
) -> Result<Value, Refusal>
    ensures { Gives result machine.now (object_attribute line name.now (slice_get machine.now.objects at) machine.now) }
{
    match machine.objects.get(at) {
        Some(object) => what_attribute(machine, alloc, line, name, object.what),
        None => Err(unknown(alloc, line, name)),
    }
}

// The one attribute that there is.
fn single(
    machine: &Machine,
    alloc: Global,
    line: u32,
    name: &[u8],
    own: &[u8],
    value: Value,
) -> Result<Value, Refusal>
    ensures { Gives result machine.now (single line name.now own.now value machine.now) }
{
    let _machine = machine;
    if name == own {
        Ok(value)
    } else {
        Err(unknown(alloc, line, name))
    }
}

// A further branch of an `If`.
fn if_branch(
    machine: &Machine,
    alloc: Global,
    line: u32,
    name: &[u8],
    at: usize,
) -> Result<Value, Refusal>
    ensures { Gives result machine.now (if_branch line name.now at machine.now) }
{
    let _machine = machine;
    if name == b"Elif".as_slice() {
        Ok(Value::Method(Method::Elif(at)))
    } else if name == b"Else".as_slice() {
        Ok(Value::Method(Method::Else(at)))
    } else {
        Err(unknown(alloc, line, name))
    }
}

// After an `Else` neither branch may stand.
fn last_branch(machine: &Machine, alloc: Global, line: u32, name: &[u8]) -> Result<Value, Refusal>
    ensures { Gives result machine.now (last_branch line name.now machine.now) }
{
    let _machine = machine;
    if name == b"Elif".as_slice() || name == b"Else".as_slice() {
        Err(fault(line, Kind::WrongKind))
    } else {
        Err(unknown(alloc, line, name))
    }
}

fn branch(
    machine: &Machine,
    alloc: Global,
    line: u32,
    name: &[u8],
    at: usize,
    form: &Form,
) -> Result<Value, Refusal>
    ensures { Gives result machine.now (branch line name.now at form.now machine.now) }
{
    match form {
        Form::If { .. } => if_branch(machine, alloc, line, name, at),
        Form::Else { .. } => last_branch(machine, alloc, line, name),
        Form::Assign { .. } | Form::Case { .. } | Form::NextState { .. } | Form::NextValue { .. } =>
            Err(unknown(alloc, line, name)),
    }
}

// An attribute of a statement.
fn made_attribute(
    machine: &Machine,
    alloc: Global,
    line: u32,
    name: &[u8],
    at: usize,
) -> Result<Value, Refusal>
    ensures { Gives result machine.now (made_attribute line name.now at (slice_get machine.now.made at) machine.now) }
{
    match machine.made.get(at) {
        Some(made) => branch(machine, alloc, line, name, at, &made.form),
        None => Err(unknown(alloc, line, name)),
    }
}

fn builtin_attribute(
    machine: &Machine,
    alloc: Global,
    line: u32,
    name: &[u8],
    builtin: Builtin,
) -> Result<Value, Refusal>
    ensures { Gives result machine.now (builtin_attribute line name.now builtin machine.now) }
{
    match builtin {
        Builtin::Wishbone => {
            let interface = Value::Method(Method::Interface);
            single(machine, alloc, line, name, b"Interface", interface)
        }
        _ => Err(unknown(alloc, line, name)),
    }
}

/// An attribute of a value: `eq` of an expression of FHDL, a further branch of an `If`, what was bound in a module, a
/// method of an FSM or a memory, a signal of a memory's port, of a register, of one of its fields or of a source of
/// events, a source that is bound to an event manager, or the `__init__` of `super()`.
#[tactic(auto, unfolding(crate::specs::Attributes::attribute_of))]
pub fn attribute_of(
    machine: &Machine,
    alloc: Global,
    line: u32,
    value: Value,
    name: &[u8],
) -> Result<Value, Refusal>
    ensures { Gives result machine.now (attribute_of line value name.now machine.now) }
{
    match value {
        Value::Expr(id) => {
            let eq = Value::Method(Method::Eq(id));
            single(machine, alloc, line, name, b"eq", eq)
        }
        Value::Made(at) => made_attribute(machine, alloc, line, name, at),
        Value::Object(at) => object_attribute(machine, alloc, line, name, at),
        Value::Fields(at) => field_attribute(machine, alloc, line, name, at),
        Value::Hub(hub) => hub_attribute(machine, alloc, line, name, hub),
        Value::Super(at) => {
            let init = Value::Method(Method::Init(at));
            single(machine, alloc, line, name, b"__init__", init)
        }
        Value::Builtin(builtin) => builtin_attribute(machine, alloc, line, name, builtin),
        _ => Err(unknown(alloc, line, name)),
    }
}
