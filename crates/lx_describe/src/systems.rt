//! What a system declares beside its modules: the places that it wishes for, and what its bus gives to interfaces.

ghost use Rattle.std.specs.Prelude.{◌≡◌, ◌++◌, ◌∷◌, [], IfOk, OnOk, Some, option_copied, slice_get};
ghost use Rattle.lx_description.specs.Laws.{no_wishes};
ghost use Rattle.lx_describe.specs.Systems.{csr_region, declared_by, is_access, is_bus_given, is_handed, is_read, object_is_handed, what_is_handed};

use lx_description::{ConstDecl, SlaveDecl};
use lx_fhdl::{RegionWish, Wishes};
use lx_state::machine::{Machine, Owner, SystemState, What};
use lx_text::{List, NoMemory, Word};
use std::alloc::Global;

// ---- places

/// What a system declares beside its modules.
#[derive(Drop)]
pub struct Declared {
    pub slaves: List<SlaveDecl>,
    pub wishes: Wishes,
    pub constants: List<ConstDecl>,
}

/// What stands where a system was taken out.
pub fn no_system(alloc: Global) -> SystemState {
    SystemState {
        base: 0,
        line: 0,
        regions: List::new(alloc),
        slaves: List::new(alloc),
        fixes: List::new(alloc),
        irqs: List::new(alloc),
        constants: List::new(alloc),
    }
}

fn no_wishes(alloc: Global) -> Wishes
    ensures { result ≡ no_wishes }
{
    Wishes {
        regions: List::new(alloc),
        banks: List::new(alloc),
        fixes: List::new(alloc),
        managers: List::new(alloc),
        irqs: List::new(alloc),
    }
}

// The region of the registers.
fn csr_region(alloc: Global, system: &SystemState) -> Result<RegionWish, NoMemory>
    ensures { IfOk result (λ wish. wish ≡ csr_region system.now) }
{
    Ok(RegionWish {
        name: Word::new(alloc, b"csr")?,
        origin: Some(system.base),
        size: 65_536,
        cached: false,
        line: system.line,
    })
}

fn wish_copied(alloc: Global, wish: &RegionWish) -> Result<RegionWish, NoMemory>
    ensures { IfOk result (λ copy. copy ≡ wish.now) }
{
    Ok(RegionWish {
        name: wish.name.copied(alloc)?,
        origin: wish.origin,
        size: wish.size,
        cached: wish.cached,
        line: wish.line,
    })
}

// Adds a copy of a wish.
fn push_wish(into: &mut List<RegionWish>, alloc: Global, wish: &RegionWish) -> Result<(), NoMemory>
    ensures { OnOk result (into.new ≡ into.old ++ wish.now ∷ []) }
{
    let wish = wish_copied(alloc, wish)?;
    into.push(wish)
}

// The region of the registers, then the others.
fn regions(alloc: Global, system: &SystemState) -> Result<List<RegionWish>, NoMemory>
    ensures { IfOk result (λ list. list ≡ csr_region system.now ∷ system.now.regions) }
{
    let first = csr_region(alloc, system)?;
    let mut list = List::of_one(alloc, first)?;
    for wish in system.regions.as_slice() {
        push_wish(&mut list, alloc, wish)?;
    }
    Ok(list)
}

/// What the top declares as a system; of another top no wishes.
pub fn declared_by(alloc: Global, soc: bool, system: SystemState) -> Result<Declared, NoMemory>
    ensures { IfOk result (λ declared. declared ≡ declared_by soc system) }
{
    if !soc {
        let SystemState {
            slaves,
            constants,
            ..
        } = system;
        return Ok(Declared {
            slaves,
            wishes: no_wishes(alloc),
            constants,
        });
    }
    let regions = regions(alloc, &system)?;
    let SystemState {
        slaves,
        fixes,
        irqs,
        constants,
        ..
    } = system;
    let wishes = Wishes {
        regions,
        banks: List::new(alloc),
        fixes,
        managers: List::new(alloc),
        irqs,
    };
    Ok(Declared {
        slaves,
        wishes,
        constants,
    })
}

// ---- interfaces

fn is_access(part: &Word) -> bool
    ensures { result ≡ is_access part.now }
{
    part.is(b"cyc") || part.is(b"stb") || part.is(b"we")
}

// Whether a part of an interface is one that its slave reads.
fn is_read(part: Option<&Word>) -> bool
    ensures { result ≡ is_read (option_copied part.entry) }
{
    match part {
        Some(part) => { part.is(b"adr") || part.is(b"dat_w") || part.is(b"sel") || is_access(part) }
        None => false,
    }
}

fn is_handed(machine: &Machine, number: usize) -> bool
    ensures { result ≡ is_handed (slice_get machine.now.interfaces number) }
{
    match machine.interfaces.get(number) {
        Some(interface) => interface.handed,
        None => false,
    }
}

fn what_is_handed(machine: &Machine, what: What) -> bool
    ensures { result ≡ what_is_handed machine.now what }
{
    match what {
        What::Interface(number) => is_handed(machine, number),
        What::Signal(_) | What::Module(_) | What::ClockDomain(_) | What::MultiReg => false,
        What::Fsm(_) | What::Memory(_) | What::Port(_) | What::Register(_) => false,
        What::Field(_) | What::Constant(_) | What::Manager(_) | What::Source(_) => false,
        What::Region(_) => false,
    }
}

// Whether the object at a place is an interface that was handed over to the bus.
fn object_is_handed(machine: &Machine, at: usize) -> bool
    ensures { result ≡ object_is_handed machine.now (slice_get machine.now.objects at) }
{
    match machine.objects.get(at) {
        Some(object) => what_is_handed(machine, object.what),
        None => false,
    }
}

/// Whether the bus gives a signal of this owner.
pub fn is_bus_given(machine: &Machine, owner: &Owner) -> bool
    ensures { result ≡ is_bus_given machine.now (Some owner.now) }
{
    object_is_handed(machine, owner.object) && is_read(owner.part.as_ref())
}
