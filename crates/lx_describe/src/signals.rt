//! The signals of a design with their paths, with the bits of those that are the `state` of an FSM or the `enable` of an event
//! manager, and with those that the bus gives to interfaces.

ghost use Rattle.std.specs.Prelude.{◌≡◌, ◌++◌, ◌∷◌, [], IfOk, OnOk, slice_get};
ghost use Rattle.lx_describe.specs.Signals.{named_signal, named_signals, with_bits, with_bus, with_path};
ghost use Rattle.lx_describe.specs.Systems.{is_bus_given};

use crate::apart::late_bits;
use crate::systems::is_bus_given;
use lx_fhdl::Signal;
use lx_num::Shape;
use lx_paths::paths::signal_path;
use lx_state::machine::Machine;
use lx_text::{List, NoMemory, Word};
use std::alloc::Global;

fn push_word(into: &mut List<Word>, alloc: Global, word: &Word) -> Result<(), NoMemory>
    ensures { OnOk result (into.new ≡ into.old ++ word.now ∷ []) }
{
    let word = word.copied(alloc)?;
    into.push(word)
}

fn path_copied(alloc: Global, path: &[Word]) -> Result<List<Word>, NoMemory>
    ensures { IfOk result (λ copy. copy ≡ path.now) }
{
    let mut copy = List::new(alloc);
    for word in path {
        push_word(&mut copy, alloc, word)?;
    }
    Ok(copy)
}

// The path, or the one that a signal has, where it is empty.
#[tactic(auto, using(crate::proofs::Named::own_path, crate::proofs::Named::given_path))]
fn path_or_own(alloc: Global, path: List<Word>, signal: &Signal) -> Result<List<Word>, NoMemory>
    ensures { IfOk result (λ own. record signal.now { path = own } ≡ with_path path signal.now) }
{
    if path.is_empty() {
        let own = path_copied(alloc, signal.path.as_slice())?;
        return Ok(own);
    }
    Ok(path)
}

// A signal with a path, unless that is empty.
fn with_path(alloc: Global, path: List<Word>, signal: &Signal) -> Result<Signal, NoMemory>
    ensures { IfOk result (λ named. named ≡ with_path path signal.now) }
{
    let path = path_or_own(alloc, path, signal)?;
    Ok(Signal {
        path,
        shape: signal.shape,
        reset: signal.reset,
        reset_less: signal.reset_less,
        by_bus: signal.by_bus,
        line: signal.line,
    })
}

// A signal with so many bits, where they weren't known before.
fn with_bits(bits: Option<u8>, signal: Signal) -> Signal
    ensures { result ≡ with_bits bits signal }
{
    match bits {
        Some(bits) => Signal {
            shape: Shape {
                bits,
                signed: false,
            },
            ..signal
        },
        None => signal,
    }
}

// A signal that the bus gives, or that it doesn't.
fn with_bus(given: bool, signal: Signal) -> Signal
    ensures { result ≡ with_bus given signal }
{
    if given {
        return Signal {
            by_bus: true,
            ..signal
        };
    }
    signal
}

// Whether the bus gives the signal at a place.
fn is_given(machine: &Machine, place: usize) -> bool
    ensures { result ≡ is_bus_given machine.now (slice_get machine.now.owners place) }
{
    match machine.owners.get(place) {
        Some(owner) => is_bus_given(machine, owner),
        None => false,
    }
}

fn named_signal(
    machine: &Machine,
    alloc: Global,
    place: usize,
    signal: &Signal,
) -> Result<Signal, NoMemory>
    ensures { IfOk result (λ named. named ≡ named_signal machine.now place signal.now) }
{
    let path = signal_path(machine, alloc, place)?;
    let named = with_path(alloc, path, signal)?;
    let wide = with_bits(late_bits(machine, place), named);
    Ok(with_bus(is_given(machine, place), wide))
}

// Adds the signal at a place with its path.
fn push_named(
    into: &mut List<Signal>,
    machine: &Machine,
    alloc: Global,
    place: usize,
    signal: &Signal,
) -> Result<(), NoMemory>
    ensures { OnOk result (into.new ≡ into.old ++ named_signal machine.now place signal.now ∷ []) }
{
    let named = named_signal(machine, alloc, place, signal)?;
    into.push(named)
}

/// The signals of the design with their paths; the `state` of an FSM has bits for all its states, the
/// `enable` of an event manager one for each source. What a slave reads of an interface that was handed over is given.
#[tactic(auto, unfolding(crate::specs::Signals::named_signals))]
pub fn named_signals(machine: &Machine, alloc: Global) -> Result<List<Signal>, NoMemory>
    ensures { IfOk result (λ signals. signals ≡ named_signals machine.now 0 machine.now.shaped.signals) }
{
    let mut named = List::new(alloc);
    let signals = machine.shaped.design().signals.as_slice();
    for (place, signal) in signals.iter().enumerate() {
        push_named(&mut named, machine, alloc, place, signal)?;
    }
    Ok(named)
}
