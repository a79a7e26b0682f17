//! The submodules of a module.

ghost use Rattle.std.specs.Prelude.{◌≡◌, ◌++◌, [], IfOk, OnOk, flat_map, Some, slice_get};
ghost use Rattle.lx_objects.specs.Modules.{module_of_object};
ghost use Rattle.lx_describe.specs.Submodules.{bound_once, each_once, is_among, is_below, is_place, is_unnamed, named_at, submodules, submodules_of, unnamed_at, with_next};

use indexmap::IndexSet;
use lx_fragments::copies::push_all;
use lx_objects::modules::module_of;
use lx_state::machine::{Machine, Module, Submodule};
use lx_state::values::Value;
use lx_text::{List, NoMemory};
use std::alloc::Global;
use std::marker::Model;

// ---- each object once

/// Objects, each once, where they are found in constant time on the average. A contract sees the list of their places in the
/// order in which they were added.
#[derive(Drop)]
pub struct Once {
    set: IndexSet<usize>,
}

impl Model for Once {
    ghost use Rattle.std.specs.Prelude.{ℕ, List};

    ghost Value = { List ℕ };

    ghost view = { λ once. once.set.keys };
}

impl Once {
    fn new(alloc: Global) -> Once
        ensures { result ≡ [] }
    {
        Once {
            set: IndexSet::new(alloc),
        }
    }

    fn has(&self, object: usize) -> bool
        ensures { result ≡ is_among object self.now }
    {
        self.set.contains(&object)
    }

    // Adds an object behind the others, where it isn't there.
    fn add(&mut self, object: usize) -> Result<(), NoMemory>
        ensures { OnOk result (self.new ≡ with_next object self.old) }
    {
        self.set.insert(object)?;
        Ok(())
    }

    /// The objects.
    pub fn as_slice(&self) -> &[usize]
        ensures { result.now ≡ self.now }
    {
        self.set.as_slice()
    }
}

/// The objects that the attributes of a module bind themselves, each where it was first bound.
#[tactic(auto, unfolding(crate::specs::Submodules::each_once))]
pub fn bound_once(alloc: Global, module: &Module) -> Result<Once, NoMemory>
    ensures { IfOk result (λ once. once ≡ bound_once module.now) }
{
    let mut once = Once::new(alloc);
    for object in module.bound.as_slice() {
        once.add(*object)?;
    }
    Ok(once)
}

// ---- where a module was added

/// Whether the place of a module is that of another, where there is one.
pub fn is_place(at: usize, above: Option<usize>) -> bool
    ensures { result ≡ is_place at above }
{
    match above {
        Some(above) => above == at,
        None => false,
    }
}

/// Whether the module at the place `below` was added to the one at the place `at`.
pub fn is_below(machine: &Machine, at: usize, below: usize) -> bool
    ensures { result ≡ is_below at (slice_get machine.now.modules below) }
{
    match machine.modules.get(below) {
        Some(module) => is_place(at, module.added),
        None => false,
    }
}

// The module that an object is.
fn module_at(machine: &Machine, object: usize) -> Option<usize>
    ensures { result ≡ module_of_object (slice_get machine.now.objects object) }
{
    module_of(machine, Value::Object(object))
}

// ---- with a name

// Adds the submodule that an object is.
fn push_named(
    into: &mut List<Submodule>,
    machine: &Machine,
    at: usize,
    object: usize,
) -> Result<(), NoMemory>
    ensures { OnOk result (into.new ≡ into.old ++ named_at machine.now at object) }
{
    match module_at(machine, object) {
        Some(place) => {
            if is_below(machine, at, place) {
                into.push(Submodule { place, named: true })
            } else {
                Ok(())
            }
        }
        None => Ok(()),
    }
}

// Adds the submodules that objects are.
fn push_all_named(
    into: &mut List<Submodule>,
    machine: &Machine,
    at: usize,
    objects: &[usize],
) -> Result<(), NoMemory>
    ensures { OnOk result (into.new ≡ into.old ++ flat_map (named_at machine.now at) objects.now) }
{
    for object in objects {
        push_named(into, machine, at, *object)?;
    }
    Ok(())
}

// ---- without one

// Whether a module is one that no attribute binds; what stands for an FSM or an event manager is no module.
fn is_unnamed(machine: &Machine, bound: &Once, place: usize) -> bool
    ensures { result ≡ is_unnamed machine.now bound.now (slice_get machine.now.modules place) }
{
    match machine.modules.get(place) {
        Some(module) => { module_at(machine, module.object).is_some() && !bound.has(module.object) }
        None => false,
    }
}

// Adds a submodule that is none of these objects.
fn push_unnamed(
    into: &mut List<Submodule>,
    machine: &Machine,
    bound: &Once,
    submodule: Submodule,
) -> Result<(), NoMemory>
    ensures { OnOk result (into.new ≡ into.old ++ unnamed_at machine.now bound.now submodule) }
{
    if is_unnamed(machine, bound, submodule.place) {
        return into.push(Submodule {
            place: submodule.place,
            named: false,
        });
    }
    Ok(())
}

/// The submodules of a module that none of its attributes binds, where these are the objects that they bind.
pub fn unnamed_below(
    machine: &Machine,
    alloc: Global,
    bound: &Once,
    module: &Module,
) -> Result<List<Submodule>, NoMemory>
    ensures { IfOk result (λ list. list ≡ flat_map (unnamed_at machine.now bound.now) module.now.submodules) }
{
    let mut list = List::new(alloc);
    for submodule in module.submodules.as_slice() {
        push_unnamed(&mut list, machine, bound, *submodule)?;
    }
    Ok(list)
}

// ---- the submodules

fn submodules_of(
    machine: &Machine,
    alloc: Global,
    at: usize,
    module: &Module,
) -> Result<List<Submodule>, NoMemory>
    ensures { IfOk result (λ list. list ≡ submodules_of machine.now at (Some module.now)) }
{
    let bound = bound_once(alloc, module)?;
    let unnamed = unnamed_below(machine, alloc, &bound, module)?;
    let mut list = List::new(alloc);
    push_all_named(&mut list, machine, at, bound.as_slice())?;
    push_all(&mut list, unnamed.as_slice())?;
    Ok(list)
}

/// The submodules of a module: those that its attributes bind, in the order of these, then the others in the order of
/// adding.
pub fn submodules(machine: &Machine, alloc: Global, at: usize) -> Result<List<Submodule>, NoMemory>
    ensures { IfOk result (λ list. list ≡ submodules machine.now at) }
{
    match machine.modules.get(at) {
        Some(module) => submodules_of(machine, alloc, at, module),
        None => Ok(List::new(alloc)),
    }
}
