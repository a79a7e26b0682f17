//! Whether signals look as a declaration asks for.

ghost use Rattle.std.specs.Prelude.{◌≡◌, ◌&&◌, pos, nat_eq, slice_get, true};
ghost use Rattle.std.specs.List.{list_all};
ghost use Rattle.lx_description.specs.Keeping as keeping;
ghost use Rattle.lx_description.specs.Kept as kept;
ghost use Rattle.lx_description.specs.Wires as wires;
ghost use Rattle.lx_fhdl.specs.Kept.{is_signal};

use lx_fhdl::{Design, SigId, Signal};
use lx_num::wrap;
use lx_text::Word;
use std::marker::Model;

/// How a signal looks: its unsigned bits, its first value, and whether its value comes from the bus.
#[derive(Drop)]
pub(crate) struct Wire {
    bits: u8,
    reset: i128,
    given: bool,
}

impl Model for Wire {
    ghost use Rattle.lx_description.specs.Wires.{Wire};

    ghost Value = { Wire };

    ghost view = { λ w. record { bits = w.bits; reset = w.reset; given = w.given } };
}

/// Given by the bus, or a register, source or manager.
pub(crate) fn given(bits: u8, reset: i128) -> Wire
    ensures { result ≡ wires.given bits reset }
{
    Wire {
        bits,
        reset,
        given: true,
    }
}

/// Left to the circuit.
pub(crate) fn left(bits: u8, reset: i128) -> Wire
    ensures { result ≡ wires.left bits reset }
{
    Wire {
        bits,
        reset,
        given: false,
    }
}

fn same_bit(one: bool, other: bool) -> bool
    ensures { result ≡ kept.same_bit one other }
{
    match one {
        true => other,
        false => !other,
    }
}

// Whether a signal of 1 to 64 bits looks so.
#[tactic(auto, using(crate::proofs::Wires::signal_bits, crate::proofs::Wires::other_bits, crate::proofs::Wires::signed_bits, crate::proofs::Wires::same_bits))]
fn is_wire(signal: &Signal, wire: &Wire) -> bool
    requires { is_signal signal.now ≡ true }
    ensures { result ≡ kept.is_wire signal.now wire.now }
{
    let shape = signal.shape;
    if shape.bits != wire.bits || shape.signed {
        return false;
    }
    signal.reset == wrap(wire.reset, shape)
        && (!signal.reset_less && same_bit(signal.by_bus, wire.given))
}

fn has_path(name: &[u8], path: &[Word]) -> bool
    ensures { result ≡ kept.has_path name.now path.now }
{
    match path {
        [] => false,
        [word] => word.is(name),
        [_, _, ..] => false,
    }
}

/// A design whose signals have 1 to 64 bits. A contract sees the design.
#[derive(Drop)]
pub(crate) struct Signals<'a> {
    design: &'a Design,
}

impl<'a> Model for Signals<'a> {
    ghost use Rattle.lx_fhdl.specs.declared.design.Design.{Design};

    ghost Value = { Design };

    ghost use Rattle.std.specs.Prelude.{◌≡◌, true};
    ghost use Rattle.std.specs.List.{list_all};
    ghost use Rattle.lx_fhdl.specs.Kept.{is_signal};

    ghost view = { λ a. a.design.now };

    ghost invariant = { λ a. list_all is_signal a.design.now.signals ≡ true };
}

impl<'a> Signals<'a> {
    /// The signals of a design.
    pub(crate) fn new(design: &'a Design) -> Signals<'a>
        requires { list_all is_signal design.now.signals ≡ true }
        ensures { result ≡ design.now }
    {
        Signals { design }
    }

    /// Whether a signal is there, and looks so.
    #[tactic(auto, using(crate::proofs::Wires::each_signal))]
    pub(crate) fn has_wire(&self, x: SigId, wire: &Wire) -> bool
        ensures { result ≡ kept.has_wire (slice_get self.now.signals x.0) wire.now }
    {
        match self.design.signals.get(x.0) {
            Some(signal) => is_wire(signal, wire),
            None => false,
        }
    }

    /// Whether these signals look so, one by one.
    #[tactic(auto, using(crate::proofs::Wires::wires_short))]
    pub(crate) fn have_wires(&self, signals: &[SigId], wires: &[Wire]) -> bool
        ensures { result ≡ kept.have_wires self.now signals.now wires.now }
    {
        let mut rest = wires;
        for x in signals {
            match rest {
                [] => return false,
                [wire, tail @ ..] => {
                    if !self.has_wire(*x, wire) {
                        return false;
                    }
                    rest = tail;
                }
            }
        }
        match rest {
            [] => true,
            [_, ..] => false,
        }
    }

    /// Whether a signal is there, and one of generated hardware.
    pub(crate) fn is_generated(&self, x: SigId) -> bool
        ensures { result ≡ kept.is_some_generated (slice_get self.now.signals x.0) }
    {
        is_some_generated(self.design, x)
    }
}

// Whether a signal is one of generated hardware: it has no name, and isn't given.
fn is_generated(signal: &Signal) -> bool
    ensures { result ≡ keeping.is_generated signal.now }
{
    signal.path.len() == 0 && !signal.by_bus
}

/// Whether a signal of a design is there, and one of generated hardware.
pub(crate) fn is_some_generated(design: &Design, x: SigId) -> bool
    ensures { result ≡ kept.is_some_generated (slice_get design.now.signals x.0) }
{
    match design.signals.get(x.0) {
        Some(signal) => is_generated(signal),
        None => false,
    }
}

/// A port of the bus.
#[derive(Drop)]
pub(crate) struct BusPort<'a> {
    name: &'a [u8],
    bits: u8,
}

impl<'a> Model for BusPort<'a> {
    ghost use Rattle.lx_description.specs.Wires.{BusPort};

    ghost Value = { BusPort };

    ghost view = { λ p. record { name = p.name.now; bits = p.bits } };
}

/// The port of this name, of so many bits.
pub(crate) fn bus_port(name: &[u8], bits: u8) -> BusPort
    ensures { result ≡ wires.bus_port name.now bits }
{
    BusPort { name, bits }
}

/// Whether a signal has the name of a port alone and its unsigned bits, starts at 0, and is left to the circuit.
#[tactic(auto, using(crate::proofs::Wires::port_is))]
pub(crate) fn is_bus_port(signal: &Signal, port: &BusPort) -> bool
    ensures { result ≡ (kept.has_path port.now.name signal.now.path && kept.is_wire signal.now (wires.left port.now.bits (pos 0))) }
{
    has_path(port.name, signal.path.as_slice())
        && ((signal.shape.bits == port.bits && !signal.shape.signed)
            && (signal.reset == 0 && (!signal.reset_less && !signal.by_bus)))
}
