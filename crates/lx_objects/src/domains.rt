//! Clock domains: where they are mentioned, and what declares them.

ghost use Rattle.std.specs.Prelude.{◌≡◌, slice_get};
ghost use Rattle.lx_state.specs.Step.{Gives};
ghost use Rattle.lx_objects.specs.Domains.{clock_domain_made, declare, declare_bound, declare_named, declare_some, declared_with, domain_name, mention, new_domain, note_domain, place_among, unbound, unbound_there};

use lx_parts::is_identifier;
use lx_state::machine::{ClockDomain, DomainState, Machine, What};
use lx_state::values::Value;
use lx_state::work::fault;
use lx_text::{Kind, LimitKind, Refusal};

// A domain that wasn't mentioned before.
#[tactic(auto, unfolding(crate::specs::Domains::new_domain))]
fn new_domain(machine: &mut Machine, line: u32, name: &[u8]) -> Result<usize, Refusal>
    ensures { Gives result machine.new (new_domain line name.now machine.old) }
{
    let place = machine.domains.len();
    machine.one_more(line, LimitKind::Domains, place)?;
    machine.domains.set(
        name,
        DomainState {
            declared: false,
            reset: true,
        },
    )?;
    Ok(place)
}

// The place that was found, or that of a new domain.
fn place_among(
    machine: &mut Machine,
    line: u32,
    name: &[u8],
    found: Option<usize>,
) -> Result<usize, Refusal>
    ensures { Gives result machine.new (place_among found line name.now machine.old) }
{
    match found {
        Some(place) => Ok(place),
        None => new_domain(machine, line, name),
    }
}

/// The place of a domain, which is mentioned by this.
#[tactic(auto, unfolding(crate::specs::Domains::mention))]
pub fn mention(machine: &mut Machine, line: u32, name: &[u8]) -> Result<usize, Refusal>
    ensures { Gives result machine.new (mention line name.now machine.old) }
{
    let found = machine.domains.place_of(name);
    place_among(machine, line, name, found)
}

/// Makes a `ClockDomain`, which declares nothing yet.
#[tactic(auto, unfolding(crate::specs::Domains::clock_domain_made))]
pub fn clock_domain_made(machine: &mut Machine, line: u32, reset: bool) -> Result<Value, Refusal>
    ensures { Gives result machine.new (clock_domain_made line reset machine.old) }
{
    let fresh = ClockDomain {
        reset,
        bound: false,
    };
    let object = machine.object_made(What::ClockDomain(fresh), line, None)?;
    Ok(Value::Object(object))
}

// What a domain is after a declaration.
fn declared_with(reset: bool, before: Option<DomainState>) -> DomainState
    ensures { result ≡ declared_with reset before }
{
    let declared = DomainState {
        declared: true,
        reset,
    };
    match before {
        Some(domain) => { if domain.declared { domain } else { declared } }
        None => declared,
    }
}

#[tactic(auto, unfolding(crate::specs::Domains::note_domain))]
fn note_domain(machine: &mut Machine, name: &[u8], reset: bool) -> Result<(), Refusal>
    ensures { Gives result machine.new (note_domain name.now reset machine.old) }
{
    let domain = declared_with(reset, machine.domains.get(name));
    machine.domains.set(name, domain)?;
    Ok(())
}

// Declares a domain, which mentions it.
#[tactic(auto, unfolding(crate::specs::Domains::declare))]
pub(crate) fn declare(
    machine: &mut Machine,
    line: u32,
    name: &[u8],
    reset: bool,
) -> Result<(), Refusal>
    ensures { Gives result machine.new (declare line name.now reset machine.old) }
{
    mention(machine, line, name)?;
    note_domain(machine, name, reset)
}

#[tactic(auto, unfolding(crate::specs::Domains::declare_named))]
fn declare_named(machine: &mut Machine, line: u32, name: &[u8], reset: bool) -> Result<(), Refusal>
    ensures { Gives result machine.new (declare_named line name.now reset machine.old) }
{
    if is_identifier(name) {
        declare(machine, line, name, reset)
    } else {
        Err(fault(line, Kind::BadKey))
    }
}

// The name of an attribute without the prefix `cd_`.
fn domain_name(name: &[u8]) -> &[u8]
    ensures { result.now ≡ domain_name name.now }
{
    match name {
        [b'c', b'd', b'_', rest @ ..] => rest,
        _ => name,
    }
}

// A `ClockDomain` to which no attribute was bound yet.
fn unbound(what: What) -> Option<ClockDomain>
    ensures { result ≡ unbound what }
{
    match what {
        What::ClockDomain(domain) => { if domain.bound { None } else { Some(domain) } }
        What::Signal(_) => None,
        What::Module(_) => None,
        What::MultiReg => None,
        What::Fsm(_) => None,
        What::Memory(_) => None,
        What::Port(_) => None,
        What::Register(_) | What::Field(_) | What::Constant(_) => None,
        What::Region(_) | What::Interface(_) => None,
        What::Manager(_) | What::Source(_) => None,
    }
}

fn unbound_there(machine: &Machine, at: usize) -> Option<ClockDomain>
    ensures { result ≡ unbound_there (slice_get machine.now.objects at) }
{
    match machine.objects.get(at) {
        Some(object) => unbound(object.what),
        None => None,
    }
}

fn declare_some(
    machine: &mut Machine,
    line: u32,
    name: &[u8],
    at: usize,
    found: Option<ClockDomain>,
) -> Result<(), Refusal>
    ensures { Gives result machine.new (declare_some line name.now at found machine.old) }
{
    match found {
        Some(domain) => {
            let bound = ClockDomain {
                reset: domain.reset,
                bound: true,
            };
            machine.turn_object(What::ClockDomain(bound), at);
            declare_named(machine, line, domain_name(name), domain.reset)
        }
        None => Ok(()),
    }
}

/// A value is bound to an attribute: a `ClockDomain` declares a domain by the first one.
#[tactic(auto, unfolding(crate::specs::Domains::declare_bound))]
pub fn declare_bound(
    machine: &mut Machine,
    line: u32,
    name: &[u8],
    value: Value,
) -> Result<(), Refusal>
    ensures { Gives result machine.new (declare_bound line name.now value machine.old) }
{
    match value {
        Value::Object(at) => {
            let found = unbound_there(machine, at);
            declare_some(machine, line, name, at, found)
        }
        _ => Ok(()),
    }
}
