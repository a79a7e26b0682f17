//! Whether ports of memories have the signals and the domain that their memories ask for.

ghost use Rattle.std.specs.Prelude.{◌≡◌, ◌≤◌, ◌-◌, ◌&&◌, length, nat_eq, not};
ghost use Rattle.std.specs.List.{list_all};
ghost use Rattle.lx_fhdl.specs.Keeping as keeping;
ghost use Rattle.lx_fhdl.specs.Kept as kept;
ghost use Rattle.lx_kept.specs.Given.{has_signals};

use lx_fhdl::{Design, Memory, Port, PortMode, SigId, Signal};

// Whether n is the least number of bits, at least 1, that hold a number.
#[tactic(auto, using(crate::proofs::Numbers::fewest_none, crate::proofs::Numbers::fewest_far, crate::proofs::Numbers::fewest_near))]
fn is_fewest(number: u32, bits: u8) -> bool
    ensures { result ≡ kept.is_fewest number bits }
{
    if bits < 1 || bits > 32 {
        return false;
    }
    let number = number as u64;
    let end = 1u64 << bits;
    let half = 1u64 << (bits - 1);
    number < end && (bits == 1 || half <= number)
}

// Whether a signal is unsigned, of the fewest bits that hold every address below the depth.
fn holds_addresses(signal: &Signal, depth: u32) -> bool
    ensures { result ≡ (not signal.now.shape.signed && kept.is_fewest (depth - 1) signal.now.shape.bits) }
{
    !signal.shape.signed && is_fewest(depth.saturating_sub(1), signal.shape.bits)
}

// Whether a signal is there, and holds every address below the depth.
#[tactic(auto, using(crate::proofs::There::address_there, crate::proofs::There::address_none))]
fn is_address(design: &Design, depth: u32, x: SigId) -> bool
    ensures { result ≡ kept.is_address design.now depth x }
{
    match design.signals.get(x.0) {
        Some(signal) => holds_addresses(signal, depth),
        None => false,
    }
}

// Whether a signal is unsigned, of so many bits.
fn has_bits(signal: &Signal, bits: u8) -> bool
    ensures { result ≡ (nat_eq signal.now.shape.bits bits && not signal.now.shape.signed) }
{
    signal.shape.bits == bits && !signal.shape.signed
}

// Whether a signal is there, unsigned and of so many bits.
#[tactic(auto, using(crate::proofs::There::unsigned_there, crate::proofs::There::unsigned_none))]
fn is_unsigned(design: &Design, bits: u8, x: SigId) -> bool
    ensures { result ≡ kept.is_unsigned design.now bits x }
{
    match design.signals.get(x.0) {
        Some(signal) => has_bits(signal, bits),
        None => false,
    }
}

fn is_some_unsigned(design: &Design, bits: u8, x: Option<SigId>) -> bool
    ensures { result ≡ kept.is_some_unsigned design.now bits x }
{
    match x {
        Some(x) => is_unsigned(design, bits, x),
        None => true,
    }
}

// Whether what a port writes stands together with one bit for each part of the word, or neither is there.
fn writer_stands(design: &Design, width: u8, port: &Port) -> bool
    requires { 1 ≤ port.now.part }
    ensures { result ≡ kept.writer_stands design.now width port.now.part port.now.dat_w port.now.we }
{
    match (port.dat_w, port.we) {
        (Some(dat_w), Some(we)) => {
            is_unsigned(design, width, dat_w) && is_unsigned(design, width / port.part, we)
        }
        (None, None) => true,
        (Some(_), None) => false,
        (None, Some(_)) => false,
    }
}

fn is_clocked(mode: PortMode, we: Option<SigId>) -> bool
    ensures { result ≡ keeping.is_clocked mode we }
{
    match mode {
        PortMode::Async => we.is_some(),
        PortMode::WriteFirst | PortMode::ReadFirst | PortMode::NoChange => true,
    }
}

// Whether a domain is one of so many where a clock is needed, else none.
#[tactic(auto, using(crate::proofs::Numbers::domain_some, crate::proofs::Numbers::domain_none))]
fn has_domain(count: usize, clocked: bool, domain: Option<usize>) -> bool
    ensures { result ≡ kept.has_domain count clocked domain }
{
    match domain {
        Some(k) => clocked && k < count,
        None => !clocked,
    }
}

// Whether a port of this memory stands, apart from its domain.
#[tactic(auto, using(crate::proofs::Numbers::no_parts, crate::proofs::Numbers::some_parts))]
fn has_signals(design: &Design, memory: &Memory, port: &Port) -> bool
    ensures { result ≡ has_signals design.now memory.now.width memory.now.depth port.now }
{
    if port.part < 1 {
        return false;
    }
    is_address(design, memory.depth, port.adr)
        && is_some_unsigned(design, memory.width, port.dat_r)
        && writer_stands(design, memory.width, port)
        && memory.width % port.part == 0
}

// Whether a port of this memory stands.
fn stands_at(design: &Design, memory: &Memory, port: &Port) -> bool
    ensures { result ≡ (kept.has_domain (length design.now.domains) (keeping.is_clocked port.now.mode port.now.we) port.now.domain && has_signals design.now memory.now.width memory.now.depth port.now) }
{
    has_domain(
        design.domains.len(),
        is_clocked(port.mode, port.we),
        port.domain,
    ) && has_signals(design, memory, port)
}

// Whether a port stands.
#[tactic(auto, using(crate::proofs::There::port_there, crate::proofs::There::port_none))]
fn is_port(design: &Design, port: &Port) -> bool
    ensures { result ≡ kept.is_port design.now port.now }
{
    match design.memories.get(port.memory) {
        Some(memory) => stands_at(design, memory, port),
        None => false,
    }
}

/// Whether all these ports stand.
pub fn are_ports(design: &Design, ports: &[Port]) -> bool
    ensures { result ≡ list_all (kept.is_port design.now) ports.now }
{
    for port in ports {
        if !is_port(design, port) {
            return false;
        }
    }
    true
}
