//! Whether signals have the bits that an FSM asks for.

ghost use Rattle.std.specs.Prelude.{◌≡◌, ◌-◌, ◌&&◌, nat_eq, not};
ghost use Rattle.lx_fhdl.specs.Kept as kept;

use lx_fhdl::{Design, SigId, Signal};

// Whether n is the least number of bits, at least 1, that hold a number.
#[tactic(auto, using(crate::proofs::Numbers::fewest_none, crate::proofs::Numbers::fewest_far, crate::proofs::Numbers::fewest_near))]
fn is_fewest(number: u32, bits: u8) -> bool
    ensures { result ≡ kept.is_fewest number bits }
{
    if bits < 1 || bits > 32 {
        return false;
    }
    let number = number as u64;
    let end = 1u64 << bits;
    let half = 1u64 << (bits - 1);
    number < end && (bits == 1 || half <= number)
}

// Whether a signal is unsigned, of the fewest bits that hold every number below the count.
fn holds_numbers(signal: &Signal, count: u32) -> bool
    ensures { result ≡ (not signal.now.shape.signed && kept.is_fewest (count - 1) signal.now.shape.bits) }
{
    !signal.shape.signed && is_fewest(count.saturating_sub(1), signal.shape.bits)
}

/// Whether a signal is there, unsigned, and of the fewest bits that hold every number below the count.
#[tactic(auto, using(crate::proofs::There::address_there, crate::proofs::There::address_none))]
pub(crate) fn holds_states(design: &Design, count: u32, x: SigId) -> bool
    ensures { result ≡ kept.is_address design.now count x }
{
    match design.signals.get(x.0) {
        Some(signal) => holds_numbers(signal, count),
        None => false,
    }
}

// Whether a signal is unsigned, of so many bits.
fn has_bits(signal: &Signal, bits: u8) -> bool
    ensures { result ≡ (nat_eq signal.now.shape.bits bits && not signal.now.shape.signed) }
{
    signal.shape.bits == bits && !signal.shape.signed
}

/// Whether a signal is there, unsigned and of so many bits.
#[tactic(auto, using(crate::proofs::There::unsigned_there, crate::proofs::There::unsigned_none))]
pub(crate) fn is_unsigned(design: &Design, bits: u8, x: SigId) -> bool
    ensures { result ≡ kept.is_unsigned design.now bits x }
{
    match design.signals.get(x.0) {
        Some(signal) => has_bits(signal, bits),
        None => false,
    }
}
