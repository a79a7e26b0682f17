//! Numbers as a trace writes them. A number of 65 bits and more is none of any signal, so it may be cut.

ghost use Rattle.std.specs.Prelude.{◌≡◌, ◌≤◌, ◌+◌, ◌*◌, option_map};
ghost use Rattle.lx_trace.specs.Cutoff.{AtMost, capped, clipped, signed_of};
ghost use Rattle.lx_trace.specs.Numbers.{are_digits, behind_zero, counting, digit, digits_value, magnitude, number, number_in};

// A number that is greater than all numbers of a signal, and than all numbers of steps.
const GREATEST: u128 = 18_446_744_073_709_551_616;

// What a byte stands for as a digit; 16 where it is none.
fn digit(byte: u8) -> u8
    ensures is { result ≡ digit byte }
    ensures most { result ≤ 16 }
{
    if byte >= b'0' && byte <= b'9' {
        byte - b'0'
    } else if byte >= b'a' && byte <= b'f' {
        byte - 87
    } else if byte >= b'A' && byte <= b'F' {
        byte - 55
    } else {
        16
    }
}

// Whether all bytes are digits.
fn are_digits(base: u8, bytes: &[u8]) -> bool
    ensures { result ≡ are_digits base bytes.now }
{
    for byte in bytes {
        if digit(*byte) >= base {
            return false;
        }
    }
    true
}

// The number with one digit more.
fn with_digit(base: u8, value: u128, digit: u8) -> u128
    requires base { base ≤ 16 }
    requires digit { digit ≤ 16 }
    requires value { value ≤ 18446744073709551616 }
    ensures { result ≡ capped (base * value + digit) }
{
    (base as u128 * value + digit as u128).min(GREATEST)
}

// The number of some digits.
#[tactic(auto, using(crate::proofs::Digits::cap_digits), unfolding(crate::specs::Numbers::digits_value))]
fn digits_value(base: u8, bytes: &[u8]) -> u128
    requires some { 1 ≤ base }
    requires most { base ≤ 16 }
    ensures { result ≡ capped (digits_value base 0 bytes.now) }
{
    let mut value = 0u128;
    for byte in bytes {
        value = with_digit(base, value, digit(*byte));
    }
    value
}

// The number of some digits, where all bytes are digits.
fn number_in(base: u8, bytes: &[u8]) -> Option<u128>
    requires some { 1 ≤ base }
    requires most { base ≤ 16 }
    ensures { result ≡ option_map capped (number_in base bytes.now) }
{
    if bytes.is_empty() || !are_digits(base, bytes) {
        return None;
    }
    Some(digits_value(base, bytes))
}

/// A decimal number from 1 on, without a leading zero; what is above 2 to the power 64 is cut to that.
#[tactic(auto, unfolding(crate::specs::Numbers::counting))]
pub fn counting(bytes: &[u8]) -> Option<u128>
    ensures { result ≡ option_map capped (counting bytes.now) }
{
    match bytes {
        [] => None,
        [first, ..] => {
            if *first == b'0' {
                None
            } else {
                number_in(10, bytes)
            }
        }
    }
}

// What stands behind a first 0: nothing, or `x` and hexadecimal digits.
fn behind_zero(bytes: &[u8]) -> Option<u128>
    ensures { result ≡ option_map capped (behind_zero bytes.now) }
{
    match bytes {
        [] => Some(0),
        [first, rest @ ..] => {
            if *first == b'x' {
                number_in(16, rest)
            } else {
                None
            }
        }
    }
}

// A number without a sign.
fn magnitude(bytes: &[u8]) -> Option<u128>
    ensures { result ≡ option_map capped (magnitude bytes.now) }
{
    match bytes {
        [] => None,
        [first, rest @ ..] => {
            if *first == b'0' {
                behind_zero(rest)
            } else {
                number_in(10, bytes)
            }
        }
    }
}

// The number with its sign.
fn signed(negative: bool, magnitude: Option<u128>) -> Option<i128>
    requires { AtMost magnitude }
    ensures { result ≡ signed_of negative magnitude }
{
    let value = magnitude? as i128;
    Some(if negative { -value } else { value })
}

/// The number that a word is: `0`, `0x` and hexadecimal digits, or decimal digits without a leading zero, with or
/// without `-` before it. What is above 2 to the power 64, or below its negative, is cut to that.
#[tactic(auto, unfolding(crate::specs::Numbers::number))]
pub fn number(bytes: &[u8]) -> Option<i128>
    ensures { result ≡ option_map clipped (number bytes.now) }
{
    match bytes {
        [] => None,
        [first, rest @ ..] => {
            if *first == b'-' {
                signed(true, magnitude(rest))
            } else {
                signed(false, magnitude(bytes))
            }
        }
    }
}
