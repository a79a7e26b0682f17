//! Whether clock domains have names of their own, and resets that nothing drives.

ghost use Rattle.std.specs.Prelude.{◌≡◌, IfOk, Some};
ghost use Rattle.std.specs.List.{list_all, list_any};
ghost use Rattle.std.specs.Str.{bytes_eq};
ghost use Rattle.lx_fhdl.specs.Keeping as keeping;
ghost use Rattle.lx_fhdl.specs.Kept as kept;
ghost use Rattle.lx_kept.specs.Given.{HasArenas, ListsAreThere, names};

use crate::drivers::is_input;
use lx_fhdl::{Design, Domain, SigId};
use lx_parts::is_identifier;
use lx_text::{NoMemory, Text, Word};
use std::alloc::Global;

// Whether a domain of this name is among these.
fn is_taken(name: &[u8], domains: &[Domain]) -> bool
    ensures { result ≡ list_any (bytes_eq name.now) (names domains.now) }
{
    for domain in domains {
        if name == domain.name.as_bytes() {
            return true;
        }
    }
    false
}

// Whether no two domains have the same name.
fn are_distinct(domains: &[Domain]) -> bool
    ensures { result ≡ keeping.is_distinct (names domains.now) }
{
    for (place, domain) in domains.iter().enumerate() {
        if is_taken(domain.name.as_bytes(), &domains[place + 1..]) {
            return false;
        }
    }
    true
}

// Whether a path is the one word `<name>_rst`.
fn is_reset_path(alloc: Global, name: &[u8], path: &[Word]) -> Result<bool, NoMemory>
    ensures { IfOk result (λ is. is ≡ kept.is_reset_path name.now path.now) }
{
    match path {
        [] => Ok(false),
        [word] => {
            let mut wanted = Text::new(alloc);
            wanted.word(name)?;
            wanted.word(b"_rst")?;
            Ok(word.is(wanted.as_bytes()))
        }
        [_, _, ..] => Ok(false),
    }
}

// Whether a signal is the reset of a domain of this name.
#[tactic(auto, using(crate::proofs::There::made_there))]
fn is_reset_named(
    alloc: Global,
    design: &Design,
    domain: &Domain,
    x: SigId,
) -> Result<bool, NoMemory>
    requires arenas { HasArenas design.now }
    requires lists { ListsAreThere design.now }
    ensures { IfOk result (λ is. is ≡ kept.is_reset design.now domain.now (Some x)) }
{
    let Some(signal) = design.signals.get(x.0) else {
        return Ok(false);
    };
    if !is_reset_path(alloc, domain.name.as_bytes(), signal.path.as_slice())? {
        return Ok(false);
    }
    is_input(alloc, design, x, signal.by_bus)
}

// Whether the reset of a domain, where it has one, is named after it and driven by nothing.
fn is_reset(alloc: Global, design: &Design, domain: &Domain) -> Result<bool, NoMemory>
    requires arenas { HasArenas design.now }
    requires lists { ListsAreThere design.now }
    ensures { IfOk result (λ is. is ≡ kept.is_reset design.now domain.now domain.now.reset) }
{
    match domain.reset {
        Some(x) => is_reset_named(alloc, design, domain, x),
        None => Ok(true),
    }
}

fn is_domain(alloc: Global, design: &Design, domain: &Domain) -> Result<bool, NoMemory>
    requires arenas { HasArenas design.now }
    requires lists { ListsAreThere design.now }
    ensures { IfOk result (λ is. is ≡ kept.is_domain design.now domain.now) }
{
    if !is_identifier(domain.name.as_bytes()) {
        return Ok(false);
    }
    is_reset(alloc, design, domain)
}

fn each_is_domain(alloc: Global, design: &Design, domains: &[Domain]) -> Result<bool, NoMemory>
    requires arenas { HasArenas design.now }
    requires lists { ListsAreThere design.now }
    ensures { IfOk result (λ are. are ≡ list_all (kept.is_domain design.now) domains.now) }
{
    for domain in domains {
        if !is_domain(alloc, design, domain)? {
            return Ok(false);
        }
    }
    Ok(true)
}

/// Whether the domains are those of a design: at most 16, with names of their own, and resets that nothing drives.
pub fn are_domains(alloc: Global, design: &Design) -> Result<bool, NoMemory>
    requires arenas { HasArenas design.now }
    requires lists { ListsAreThere design.now }
    ensures { IfOk result (λ are. are ≡ kept.are_domains design.now) }
{
    let domains = design.domains.as_slice();
    if domains.len() > 16 || !are_distinct(domains) {
        return Ok(false);
    }
    each_is_domain(alloc, design, domains)
}
