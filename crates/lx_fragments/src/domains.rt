//! The clock domains of a design, and their resets.

ghost use Rattle.std.specs.Prelude.{◌≡◌, ◌++◌, ◌∷◌, [], IfOk, OnOk, map, slice_get};
ghost use Rattle.lx_fhdl.specs.Keeping as keeping;
ghost use Rattle.lx_state.specs.Step.{Gives};
ghost use Rattle.lx_fragments.specs.Domains.{domain_made, domains_made, mention_at, mention_of, reset_signal, some_reset};

use lx_fhdl::{Domain, SigId, Signal};
use lx_num::Shape;
use lx_objects::signals::put_signal;
use lx_state::machine::Machine;
use lx_text::{List, NoMemory, Refusal, Text, Word};
use std::alloc::Global;

/// A domain that was mentioned, and whether it has a reset.
#[derive(Drop)]
pub struct Mention {
    pub name: Word,
    pub reset: bool,
}

fn reset_name(alloc: Global, name: &[u8]) -> Result<Word, NoMemory>
    ensures { IfOk result (λ word. word ≡ keeping.reset_name name.now) }
{
    let mut text = Text::new(alloc);
    text.word(name)?;
    text.word(b"_rst")?;
    Ok(Word::from_list(text.into_list()))
}

// The reset of a domain.
fn reset_signal(alloc: Global, name: &[u8]) -> Result<Signal, NoMemory>
    ensures { IfOk result (λ signal. signal ≡ reset_signal name.now) }
{
    let path = List::of_one(alloc, reset_name(alloc, name)?)?;
    Ok(Signal {
        path,
        shape: Shape {
            bits: 1,
            signed: false,
        },
        reset: 0,
        reset_less: false,
        by_bus: false,
        line: 0,
    })
}

// Makes the reset of a domain, where it has one.
#[tactic(auto, unfolding(crate::specs::Domains::some_reset))]
fn some_reset(
    machine: &mut Machine,
    alloc: Global,
    mention: &Mention,
) -> Result<Option<SigId>, Refusal>
    ensures { Gives result machine.new (some_reset mention.now machine.old) }
{
    if !mention.reset {
        return Ok(None);
    }
    let signal = reset_signal(alloc, mention.name.as_bytes())?;
    let id = put_signal(machine, 0, signal)?;
    Ok(Some(id))
}

#[tactic(auto, unfolding(crate::specs::Domains::domain_made))]
fn domain_made(machine: &mut Machine, alloc: Global, mention: &Mention) -> Result<Domain, Refusal>
    ensures { Gives result machine.new (domain_made mention.now machine.old) }
{
    let reset = some_reset(machine, alloc, mention)?;
    let name = mention.name.copied(alloc)?;
    Ok(Domain { name, reset })
}

/// Makes the domains of a design; their resets are its last signals.
#[tactic(auto, unfolding(crate::specs::Domains::domains_made))]
pub fn domains_made(
    machine: &mut Machine,
    alloc: Global,
    mentions: &[Mention],
) -> Result<List<Domain>, Refusal>
    ensures { Gives result machine.new (domains_made mentions.now machine.old) }
{
    let mut domains = List::new(alloc);
    for mention in mentions {
        let domain = domain_made(machine, alloc, mention)?;
        if domains.push(domain).is_err() {
            return Err(Refusal::NoMemory);
        }
    }
    Ok(domains)
}

// Adds the domain at a place.
fn push_mention(
    into: &mut List<Mention>,
    machine: &Machine,
    alloc: Global,
    place: usize,
) -> Result<(), NoMemory>
    ensures { OnOk result (into.new ≡ into.old ++ mention_at (slice_get machine.now.domains place)) }
{
    match machine.domains.at(place) {
        Some((name, state)) => {
            let name = Word::new(alloc, name)?;
            into.push(Mention {
                name,
                reset: state.reset,
            })
        }
        None => Ok(()),
    }
}

/// The domains that were mentioned, in order of first mention.
#[tactic(auto, using(crate::proofs::Mentions::mentions_end))]
pub fn mentions(machine: &Machine, alloc: Global) -> Result<List<Mention>, NoMemory>
    ensures { IfOk result (λ found. found ≡ map mention_of machine.now.domains) }
{
    let mut found = List::new(alloc);
    for place in 0..machine.domains.len() {
        push_mention(&mut found, machine, alloc, place)?;
    }
    Ok(found)
}
