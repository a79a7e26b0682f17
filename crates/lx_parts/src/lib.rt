//! Whether a signal or a memory can be part of a design: its bits, its first values and its path.
#![tactic(auto)]

ghost use Rattle.std.specs.Prelude.{◌≡◌, ◌≤◌, ◌^◌, nat_lt};
ghost use Rattle.std.specs.List.{list_all};
ghost use Rattle.lx_fhdl.specs.Keeping as keeping;
ghost use Rattle.lx_fhdl.specs.Kept as kept;

use lx_fhdl::{Memory, Signal};
use lx_num::wrap;
use lx_text::Word;

// Whether a byte is a letter or `_`.
fn is_first(byte: u8) -> bool
    ensures { result ≡ keeping.is_first byte }
{
    byte >= b'a' && byte <= b'z' || (byte >= b'A' && byte <= b'Z' || byte == b'_')
}

// Whether a byte is a letter, `_` or a digit.
fn is_later(byte: u8) -> bool
    ensures { result ≡ keeping.is_later byte }
{
    is_first(byte) || byte >= b'0' && byte <= b'9'
}

// Whether each byte is a letter, `_` or a digit.
fn are_later(bytes: &[u8]) -> bool
    ensures { result ≡ list_all keeping.is_later bytes.now }
{
    for byte in bytes {
        if !is_later(*byte) {
            return false;
        }
    }
    true
}

/// Whether these bytes are an identifier.
pub fn is_identifier(bytes: &[u8]) -> bool
    ensures { result ≡ keeping.is_identifier bytes.now }
{
    match bytes {
        [] => false,
        [first, rest @ ..] => is_first(*first) && are_later(rest),
    }
}

/// Whether a path is made of identifiers.
pub fn is_path(path: &[Word]) -> bool
    ensures { result ≡ list_all keeping.is_identifier path.now }
{
    for word in path {
        if !is_identifier(word.as_bytes()) {
            return false;
        }
    }
    true
}

/// Whether a signal has 1 to 64 bits, a reset value of its shape, and a path of identifiers.
pub fn is_signal(signal: &Signal) -> bool
    ensures { result ≡ kept.is_signal signal.now }
{
    let bits = signal.shape.bits;
    if bits < 1 || bits > 64 {
        return false;
    }
    wrap(signal.reset, signal.shape) == signal.reset && is_path(signal.path.as_slice())
}

// Whether each number is below 2 to the width.
fn are_below(width: u8, numbers: &[u64]) -> bool
    requires { width ≤ 64 }
    ensures { result ≡ list_all (λ z. nat_lt z (2 ^ width)) numbers.now }
{
    let end = 1u128 << width;
    for number in numbers {
        if *number as u128 >= end {
            return false;
        }
    }
    true
}

/// Whether a memory has words of 1 to 64 bits, 1 to 65,536 of them, contents that fit, and a path of identifiers.
pub fn is_memory(memory: &Memory) -> bool
    ensures { result ≡ kept.is_memory memory.now }
{
    if memory.width < 1 || memory.width > 64 || memory.depth < 1 || memory.depth > 65536 {
        return false;
    }
    are_below(memory.width, memory.init.as_slice())
        && memory.init.len() as u64 <= memory.depth as u64
        && is_path(memory.path.as_slice())
}
