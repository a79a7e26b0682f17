//! Numbers as they are written.

ghost use Rattle.std.specs.Prelude.{◌≡◌, ◌+◌, ◌≤◌, ◌<◌, ◌∷◌, ◌*◌, ◌^◌, length, IfSome, MatchOption, drop};
ghost use Rattle.lx_token.specs.Numbers.{more_digits, digits_behind, digits_len, named_base, zeros, zero_number, number, number_len, digits_value, greatest_number, whole_number};
ghost use Rattle.lx_token.specs.Bytes.{digit_value};

use crate::bytes::{digit_value, is_digit_in};

/// A number at the front of some bytes: its base, the bytes of its prefix, and those of its digits.
#[derive(Clone, Copy)]
pub struct Number {
    pub base: u8,
    pub prefix: usize,
    pub digits: usize,
}

// The greatest number that may be written.
const GREATEST: u128 = 170_141_183_460_469_231_731_687_303_715_884_105_727;

// The bytes of the digits at the front, with single `_` between them.
#[tactic(auto, unfolding(crate::specs::Numbers::digits_len))]
fn digits_len(base: u8, bytes: &[u8]) -> usize
    ensures value { result ≡ digits_len base bytes.now }
    ensures within { result ≤ length bytes.now }
{
    match bytes {
        [] => 0,
        [first, rest @ ..] => {
            if is_digit_in(base, *first) {
                1 + more_digits(base, rest)
            } else {
                0
            }
        }
    }
}

// The bytes of the digits that go on behind a digit.
fn more_digits(base: u8, bytes: &[u8]) -> usize
    ensures value { result ≡ more_digits base bytes.now }
    ensures within { result ≤ length bytes.now }
{
    let mut rest = bytes;
    'digits: while let Some(left) = behind_digit(base, rest) {
        rest = left;
    }
    bytes.len() - rest.len()
}

// What is left behind the next digit, where the digits go on.
#[tactic(auto, unfolding(crate::specs::Numbers::more_digits))]
fn behind_digit<'a>(base: u8, bytes: &'a [u8]) -> Option<&'a [u8]>
    ensures { MatchOption result (more_digits base bytes.now ≡ 0) (λ rest.
        (more_digits base bytes.now + length rest.now ≡ length bytes.now + more_digits base rest.now)
        × (length rest.now < length bytes.now)) }
{
    match bytes {
        [] => None,
        [first, rest @ ..] => {
            if is_digit_in(base, *first) {
                Some(rest)
            } else if *first == b'_' {
                behind_joint(base, rest)
            } else {
                None
            }
        }
    }
}

// What is left behind a digit that follows a `_`.
#[tactic(auto, unfolding(crate::specs::Numbers::digits_behind))]
fn behind_joint<'a>(base: u8, bytes: &'a [u8]) -> Option<&'a [u8]>
    ensures { MatchOption result (digits_behind base bytes.now ≡ 0) (λ rest.
        (digits_behind base bytes.now + length rest.now ≡ 1 + length bytes.now + more_digits base rest.now)
        × (length rest.now < length bytes.now)) }
{
    match bytes {
        [] => None,
        [first, rest @ ..] => {
            if is_digit_in(base, *first) {
                Some(rest)
            } else {
                None
            }
        }
    }
}

// The base that a letter behind a 0 names.
#[tactic(auto, unfolding(crate::specs::Numbers::named_base))]
fn named_base(bytes: &[u8]) -> Option<u8>
    ensures value { result ≡ named_base bytes.now }
    ensures positive { IfSome result (λ base. 0 < base) }
{
    match bytes {
        [] => None,
        [first, ..] => {
            if *first == b'x' {
                Some(16)
            } else if *first == b'o' {
                Some(8)
            } else if *first == b'b' {
                Some(2)
            } else {
                None
            }
        }
    }
}

// All but the first byte.
fn behind_first(bytes: &[u8]) -> &[u8]
    ensures { result.now ≡ drop 1 bytes.now }
{
    match bytes {
        [] => bytes,
        [_, rest @ ..] => rest,
    }
}

// A 0 that may be repeated, from behind it on.
#[tactic(auto, unfolding(crate::specs::Numbers::zeros, crate::specs::Numbers::digits_len, crate::specs::Bytes::is_digit_in, crate::specs::Bytes::digit_value, crate::specs::Bytes::is_digit))]
fn zeros(rest: &[u8]) -> Number
    requires { length rest.now < 2 ^ 63 }
    ensures value { result ≡ zeros rest.now }
    ensures within { number_len result ≤ 1 + length rest.now }
    ensures based { 0 < result.base }
{
    Number {
        base: 1,
        prefix: 0,
        digits: 1 + more_digits(1, rest),
    }
}

// The number that begins with a 0, from behind it on.
#[tactic(auto, unfolding(crate::specs::Numbers::zero_number))]
fn zero_number(named: Option<u8>, rest: &[u8]) -> Number
    requires short { length rest.now < 2 ^ 63 }
    requires positive { IfSome named (λ base. 0 < base) }
    ensures value { result ≡ zero_number named rest.now }
    ensures within { number_len result ≤ 1 + length rest.now }
    ensures based { 0 < result.base }
{
    match named {
        None => zeros(rest),
        Some(base) => {
            let digits = digits_len(base, behind_first(rest));
            if digits > 0 {
                Number {
                    base,
                    prefix: 2,
                    digits,
                }
            } else {
                zeros(rest)
            }
        }
    }
}

// The longest number at the front of bytes that begin with a digit.
#[tactic(auto, unfolding(crate::specs::Numbers::number))]
pub(crate) fn number_at(bytes: &[u8]) -> Number
    ensures value { result ≡ number bytes.now }
    ensures within { number_len result ≤ length bytes.now }
    ensures based { 0 < result.base }
{
    match bytes {
        [b'0', rest @ ..] => zero_number(named_base(rest), rest),
        _ => Number {
            base: 10,
            prefix: 0,
            digits: digits_len(10, bytes),
        },
    }
}

// What these digits stand for, where that number may be written.
#[tactic(auto, unfolding(crate::specs::Numbers::digits_value))]
pub(crate) fn value_of(base: u8, digits: &[u8]) -> Option<u128>
    requires { 0 < base }
    ensures { MatchOption result (greatest_number < digits_value base digits.now) (λ value. (value ≡ digits_value base digits.now) × (value ≤ greatest_number)) }
{
    let mut value: u128 = 0;
    for byte in digits {
        if *byte != b'_' {
            let digit = digit_value(*byte) as u128;
            if value > (GREATEST - digit) / base as u128 {
                return None;
            }
            value = value * base as u128 + digit;
        }
    }
    Some(value)
}

/// The whole number that the text of a number stands for; None above `2^127 - 1`.
#[tactic(auto, unfolding(crate::specs::Numbers::number_value, crate::specs::Numbers::whole_number, crate::specs::Numbers::digits_value))]
pub fn whole_number(text: &[u8]) -> Option<i128>
    ensures { result ≡ whole_number text.now }
{
    let number = number_at(text);
    match value_of(
        number.base,
        &text[number.prefix..number.prefix + number.digits],
    ) {
        Some(value) => Some(value as i128),
        None => None,
    }
}
