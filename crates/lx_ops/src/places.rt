//! What attributes are bound and added to.

ghost use Rattle.std.specs.Prelude.{◌≡◌, slice_get};
ghost use Rattle.lx_state.specs.Step.{Gives};
ghost use Rattle.lx_ops.specs.Places.{add_at, add_fragment, add_part, add_under, adds, attribute_fits, bind_added, bind_at, bind_managed, bind_module, bind_own, bind_part, bind_plain, bind_special, bind_submodule, bind_under, held, holder_of, is_leaf, is_ports, is_sync, manager_of, manager_of_object, manager_of_what, named_holder, part_named, part_of, read_at, setattr_holder, takes_names};

use crate::attributes::{Fragment, attribute_of, fragment_named};
use lx_objects::events::bind_source;
use lx_objects::ios::ios_of;
use lx_objects::modules::{
    add_comb, add_module, add_modules, add_sync, added_of, bind_attribute, module_of, set_attribute,
};
use lx_objects::statements::{are_all, only};
use lx_paths::paths::is_top;
use lx_state::work::fault;
use lx_state::{Leaves, Machine, Value, What};
use lx_text::{Kind, Refusal};
use std::alloc::Global;

/// A fragment of a module.
#[derive(Clone, Copy)]
pub struct Part {
    pub module_: usize,
    pub fragment: Fragment,
}

/// What stands before the last attribute of a place.
#[derive(Clone, Copy)]
pub enum Holder {
    Plain(Value),
    Part(Part),
}

// The fragment of a module, where there are both.
fn part_named(at: Option<usize>, fragment: Option<Fragment>) -> Option<Part>
    ensures { result ≡ part_named at fragment }
{
    match (at, fragment) {
        (Some(at), Some(fragment)) => Some(Part {
            module_: at,
            fragment,
        }),
        (Some(_), None) => None,
        (None, _) => None,
    }
}

// The fragment that an attribute of a value is.
fn part_of(machine: &Machine, value: Value, name: &[u8]) -> Option<Part>
    ensures { result ≡ part_of machine.now value name.now }
{
    part_named(module_of(machine, value), fragment_named(name))
}

/// An attribute of a value, where it may be a fragment of a module.
#[tactic(auto, unfolding(crate::specs::Places::holder_of))]
pub fn holder_of(
    machine: &Machine,
    alloc: Global,
    line: u32,
    value: Value,
    name: &[u8],
) -> Result<Holder, Refusal>
    ensures { Gives result machine.now (holder_of line value name.now machine.now) }
{
    match part_of(machine, value, name) {
        Some(part) => Ok(Holder::Part(part)),
        None => {
            let plain = attribute_of(machine, alloc, line, value, name)?;
            Ok(Holder::Plain(plain))
        }
    }
}

fn takes_names(fragment: Fragment) -> bool
    ensures { result ≡ takes_names fragment }
{
    match fragment {
        Fragment::Comb | Fragment::Sync => false,
        Fragment::Submodules | Fragment::Specials | Fragment::ClockDomains => true,
    }
}

fn named_holder(machine: &Machine, line: u32, holder: Holder) -> Result<Holder, Refusal>
    ensures { Gives result machine.now (named_holder line holder machine.now) }
{
    let _machine = machine;
    match holder {
        Holder::Plain(value) => Ok(Holder::Plain(value)),
        Holder::Part(part) => {
            if takes_names(part.fragment) {
                Ok(Holder::Part(part))
            } else {
                Err(fault(line, Kind::WrongKind))
            }
        }
    }
}

/// An attribute of a value, as the first argument of `setattr`.
#[tactic(auto, unfolding(crate::specs::Places::setattr_holder))]
pub fn setattr_holder(
    machine: &Machine,
    alloc: Global,
    line: u32,
    value: Value,
    name: &[u8],
) -> Result<Holder, Refusal>
    ensures { Gives result machine.now (setattr_holder line value name.now machine.now) }
{
    let holder = holder_of(machine, alloc, line, value, name)?;
    named_holder(machine, line, holder)
}

// Whether an attribute is the `ios` of the top.
fn is_ports(machine: &Machine, name: &[u8], at: usize) -> bool
    ensures { result ≡ is_ports machine.now name.now (slice_get machine.now.modules at) }
{
    match machine.modules.get(at) {
        Some(module) => name == b"ios".as_slice() && is_top(machine, module),
        None => false,
    }
}

// The top binds `ios` to lists of signals alone.
fn attribute_fits(
    machine: &Machine,
    alloc: Global,
    line: u32,
    at: usize,
    name: &[u8],
    value: Value,
) -> Result<(), Refusal>
    ensures { Gives result machine.now (attribute_fits line at name.now value machine.now) }
{
    if is_ports(machine, name, at) {
        ios_of(machine, alloc, line, value)?;
    }
    Ok(())
}

fn bind_own(
    machine: &mut Machine,
    alloc: Global,
    line: u32,
    at: usize,
    name: &[u8],
    value: Value,
) -> Result<(), Refusal>
    ensures { Gives result machine.new (bind_own line at name.now value machine.old) }
{
    attribute_fits(machine, alloc, line, at, name, value)?;
    set_attribute(machine, alloc, line, at, name, value)
}

fn bind_added(
    machine: &mut Machine,
    alloc: Global,
    line: u32,
    to: usize,
    name: &[u8],
    value: Value,
    at: usize,
) -> Result<(), Refusal>
    ensures { Gives result machine.new (bind_added line to name.now value at machine.old) }
{
    attribute_fits(machine, alloc, line, to, name, value)?;
    add_module(machine, alloc, line, to, true, at)?;
    bind_attribute(machine, alloc, line, to, name, value)
}

fn manager_of_what(what: What) -> Option<usize>
    ensures { result ≡ manager_of_what what }
{
    match what {
        What::Manager(at) => Some(at),
        _ => None,
    }
}

fn manager_of_object(machine: &Machine, at: usize) -> Option<usize>
    ensures { result ≡ manager_of_object (slice_get machine.now.objects at) }
{
    match machine.objects.get(at) {
        Some(object) => manager_of_what(object.what),
        None => None,
    }
}

/// The event manager that a value is.
pub fn manager_of(machine: &Machine, value: Value) -> Option<usize>
    ensures { result ≡ manager_of machine.now value }
{
    match value {
        Value::Object(at) => manager_of_object(machine, at),
        _ => None,
    }
}

fn bind_managed(
    machine: &mut Machine,
    alloc: Global,
    line: u32,
    name: &[u8],
    value: Value,
    manager: Option<usize>,
) -> Result<(), Refusal>
    ensures { Gives result machine.new (bind_managed line name.now value manager machine.old) }
{
    match manager {
        Some(manager) => bind_source(machine, alloc, line, manager, name, value),
        None => Err(fault(line, Kind::WrongKind)),
    }
}

// No fragment of a module is bound.
fn bind_module(
    machine: &mut Machine,
    alloc: Global,
    line: u32,
    at: usize,
    name: &[u8],
    value: Value,
) -> Result<(), Refusal>
    ensures { Gives result machine.new (bind_module line at name.now value machine.old) }
{
    if fragment_named(name).is_some() {
        return Err(fault(line, Kind::WrongKind));
    }
    bind_own(machine, alloc, line, at, name, value)
}

// Binds an attribute of a module, or of an event manager.
fn bind_plain(
    machine: &mut Machine,
    alloc: Global,
    line: u32,
    of: Value,
    name: &[u8],
    value: Value,
    at: Option<usize>,
) -> Result<(), Refusal>
    ensures { Gives result machine.new (bind_plain line of name.now value at machine.old) }
{
    match at {
        Some(at) => bind_module(machine, alloc, line, at, name, value),
        None => {
            let manager = manager_of(machine, of);
            bind_managed(machine, alloc, line, name, value, manager)
        }
    }
}

fn bind_submodule(
    machine: &mut Machine,
    alloc: Global,
    line: u32,
    to: usize,
    name: &[u8],
    value: Value,
    at: Option<usize>,
) -> Result<(), Refusal>
    ensures { Gives result machine.new (bind_submodule line to name.now value at machine.old) }
{
    match at {
        Some(at) => bind_added(machine, alloc, line, to, name, value, at),
        None => Err(fault(line, Kind::WrongKind)),
    }
}

// Whether a value is an object of a kind itself.
fn is_leaf(machine: &Machine, what: Leaves, value: Value) -> bool
    ensures { result ≡ is_leaf what machine.now value }
{
    match value {
        Value::Object(at) => are_all(what, machine.leaf_of(at)),
        _ => false,
    }
}

fn bind_special(
    machine: &mut Machine,
    alloc: Global,
    line: u32,
    to: usize,
    name: &[u8],
    value: Value,
    fits: bool,
) -> Result<(), Refusal>
    ensures { Gives result machine.new (bind_special line to name.now value fits machine.old) }
{
    if fits {
        bind_own(machine, alloc, line, to, name, value)
    } else {
        Err(fault(line, Kind::WrongKind))
    }
}

fn bind_under(
    machine: &mut Machine,
    alloc: Global,
    line: u32,
    to: usize,
    name: &[u8],
    value: Value,
    fragment: Fragment,
) -> Result<(), Refusal>
    ensures { Gives result machine.new (bind_under line to name.now value fragment machine.old) }
{
    match fragment {
        Fragment::Submodules => {
            let at = added_of(machine, value);
            bind_submodule(machine, alloc, line, to, name, value, at)
        }
        Fragment::Specials => {
            let fits = is_leaf(machine, Leaves::Specials, value);
            bind_special(machine, alloc, line, to, name, value, fits)
        }
        Fragment::ClockDomains => {
            let fits = is_leaf(machine, Leaves::ClockDomains, value);
            bind_special(machine, alloc, line, to, name, value, fits)
        }
        Fragment::Comb => Err(fault(line, Kind::WrongKind)),
        Fragment::Sync => Err(fault(line, Kind::WrongKind)),
    }
}

fn bind_part(
    machine: &mut Machine,
    alloc: Global,
    line: u32,
    name: &[u8],
    value: Value,
    part: Part,
) -> Result<(), Refusal>
    ensures { Gives result machine.new (bind_part line name.now value part machine.old) }
{
    if fragment_named(name).is_some() {
        return Err(fault(line, Kind::WrongKind));
    }
    bind_under(
        machine,
        alloc,
        line,
        part.module_,
        name,
        value,
        part.fragment,
    )
}

/// Binds an attribute: of a module, where no fragment is bound, or of an event manager, which takes sources of events
/// alone.
#[tactic(auto, unfolding(crate::specs::Places::bind_at))]
pub fn bind_at(
    machine: &mut Machine,
    alloc: Global,
    line: u32,
    holder: Holder,
    name: &[u8],
    value: Value,
) -> Result<(), Refusal>
    ensures { Gives result machine.new (bind_at line holder name.now value machine.old) }
{
    match holder {
        Holder::Plain(of) => {
            let at = module_of(machine, of);
            bind_plain(machine, alloc, line, of, name, value, at)
        }
        Holder::Part(part) => bind_part(machine, alloc, line, name, value, part),
    }
}

fn is_sync(fragment: Fragment) -> bool
    ensures { result ≡ is_sync fragment }
{
    match fragment {
        Fragment::Sync => true,
        Fragment::Comb | Fragment::Submodules | Fragment::Specials | Fragment::ClockDomains =>
            false,
    }
}

/// Whether `+=` adds to a fragment.
pub fn adds(machine: &Machine, holder: Holder, name: &[u8]) -> bool
    ensures { result ≡ adds machine.now holder name.now }
{
    match holder {
        Holder::Plain(of) => part_of(machine, of, name).is_some(),
        Holder::Part(part) => is_sync(part.fragment),
    }
}

fn add_fragment(
    machine: &mut Machine,
    alloc: Global,
    line: u32,
    at: usize,
    value: Value,
    fragment: Fragment,
) -> Result<(), Refusal>
    ensures { Gives result machine.new (add_fragment line at value fragment machine.old) }
{
    match fragment {
        Fragment::Comb => add_comb(machine, alloc, line, at, value),
        Fragment::Sync => add_sync(machine, alloc, line, at, b"sys", value),
        Fragment::Submodules => add_modules(machine, alloc, line, at, value),
        Fragment::Specials => only(machine, Leaves::Specials, line, &[value]),
        Fragment::ClockDomains => only(machine, Leaves::ClockDomains, line, &[value]),
    }
}

fn add_part(
    machine: &mut Machine,
    alloc: Global,
    line: u32,
    value: Value,
    part: Option<Part>,
) -> Result<(), Refusal>
    ensures { Gives result machine.new (add_part line value part machine.old) }
{
    match part {
        Some(part) => add_fragment(machine, alloc, line, part.module_, value, part.fragment),
        None => Err(fault(line, Kind::WrongKind)),
    }
}

fn add_under(
    machine: &mut Machine,
    alloc: Global,
    line: u32,
    name: &[u8],
    value: Value,
    part: Part,
) -> Result<(), Refusal>
    ensures { Gives result machine.new (add_under line name.now value part machine.old) }
{
    if is_sync(part.fragment) {
        add_sync(machine, alloc, line, part.module_, name, value)
    } else {
        Err(fault(line, Kind::WrongKind))
    }
}

/// Adds to a fragment; a domain's name stands behind `sync`.
#[tactic(auto, unfolding(crate::specs::Places::add_at))]
pub fn add_at(
    machine: &mut Machine,
    alloc: Global,
    line: u32,
    holder: Holder,
    name: &[u8],
    value: Value,
) -> Result<(), Refusal>
    ensures { Gives result machine.new (add_at line holder name.now value machine.old) }
{
    match holder {
        Holder::Plain(of) => {
            let part = part_of(machine, of, name);
            add_part(machine, alloc, line, value, part)
        }
        Holder::Part(part) => add_under(machine, alloc, line, name, value, part),
    }
}

/// An attribute of what stands before it, as a value.
#[tactic(auto, unfolding(crate::specs::Places::read_at))]
pub fn read_at(
    machine: &Machine,
    alloc: Global,
    line: u32,
    holder: Holder,
    name: &[u8],
) -> Result<Value, Refusal>
    ensures { Gives result machine.now (read_at line holder name.now machine.now) }
{
    match holder {
        Holder::Plain(of) => attribute_of(machine, alloc, line, of, name),
        Holder::Part(_) => Err(fault(line, Kind::WrongKind)),
    }
}
