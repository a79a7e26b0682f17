//! Shapes, and the arithmetic of numbers that stand for patterns of bits.
#![tactic(auto)]

ghost use Rattle.std.specs.Prelude.{◌≡◌, ◌+◌, ◌-◌, ◌*◌, ◌/◌, ◌%◌, ◌^◌, ◌<◌, ◌≤◌, ◌↔◌, ◌<ℤ◌, ◌≤ℤ◌, pos, negsuc, IsTrue};
ghost use Rattle.lx_num.specs.Ints.{Fits, field_of, modulo, read_bits, wrapped};
ghost use Rattle.lx_num.specs.Fewest.{IsFewestBits, magnitude_of};
ghost use Rattle.lx_num.specs.Fields.{with_field_of};
ghost use Rattle.lx_num.specs.Laws.{FieldIsLaid, HighBitsStay, LowBitsStay, WrappedFits, WrappedIsCongruent, WrappedIsUnique};

/// A number of bits, 1 to 127, and whether the values are signed (FHDL, "Signal").
#[derive(Clone, Copy, PartialEq, Eq)]
pub struct Shape {
    pub bits: u8,
    pub signed: bool,
}

/// 2 to the power n.
fn power(n: u8) -> u128
    requires { n ≤ 127 }
    ensures { result ≡ 2 ^ n }
{
    1 << n
}

/// The lowest n bits of v.
fn pattern(v: i128, n: u8) -> u128
    requires { n ≤ 127 }
    ensures value { result ≡ modulo v (2 ^ n) }
    ensures bound { result < 2 ^ n }
{
    let low = magnitude(v) % power(n);
    if v < 0 { power(n) - 1 - low } else { low }
}

/// The value of a shape that a pattern of its bits stands for.
fn read(pattern: u128, s: Shape) -> i128
    requires some { 1 ≤ s.bits }
    requires most { s.bits ≤ 127 }
    requires below { pattern < 2 ^ s.bits }
    ensures { result ≡ read_bits s.bits s.signed pattern }
{
    if s.signed && power(s.bits - 1) <= pattern {
        !((power(s.bits) - 1 - pattern) as i128)
    } else {
        pattern as i128
    }
}

/// Whether v is a value of the shape, which has 1 to 127 bits.
pub fn fits(v: i128, s: Shape) -> bool
    requires some { 1 ≤ s.bits }
    requires most { s.bits ≤ 127 }
    ensures { IsTrue result ↔ Fits s v }
{
    wrap(v, s) == v
}

/// The one value of the shape, of 1 to 127 bits, that equals v modulo 2 to its bits.
pub fn wrap(v: i128, s: Shape) -> i128
    requires some { 1 ≤ s.bits }
    requires most { s.bits ≤ 127 }
    ensures { result ≡ wrapped s v }
{
    read(pattern(v, s.bits), s)
}

/// The fewest bits, at least 1 and at most 128, that hold v: signed where v is negative.
pub fn bits_for(v: i128) -> u8
    requires { negsuc (2 ^ 127 - 1) <ℤ v }
    ensures fewest { IsFewestBits v result }
    ensures most { result ≤ 128 }
{
    let bits = length(magnitude(v));
    if v < 0 { bits + 1 } else { bits.max(1) }
}

/// v, or -v - 1 where v is negative.
fn magnitude(v: i128) -> u128
    ensures value { result ≡ magnitude_of v }
    ensures bound { result < 2 ^ 127 }
{
    if v < 0 { !v as u128 } else { v as u128 }
}

/// The number of bits below which all bits of v lie.
fn length(v: u128) -> u8
    requires { v < 2 ^ 127 }
    ensures enough { v < 2 ^ result }
    ensures fewest { 2 ^ result ≤ 2 * v + 1 }
    ensures most { result ≤ 127 }
{
    (128 - v.leading_zeros()) as u8
}

/// The number that the len bits of v from low on stand for, unsigned; len is 1 to 127.
pub fn field(v: i128, low: u8, len: u8) -> i128
    requires start { low ≤ 126 }
    requires some { 1 ≤ len }
    requires most { len ≤ 127 }
    ensures { result ≡ pos (field_of v low len) }
{
    pattern(v >> low, len) as i128
}

/// v, of at most 64 bits, with its len bits from low on taken from the lowest bits of x.
pub fn with_field(v: i128, low: u8, len: u8, x: i128) -> i128
    requires from_zero { pos 0 ≤ℤ v }
    requires within { v <ℤ pos (2 ^ 64) }
    requires some { 1 ≤ len }
    requires end { low + len ≤ 64 }
    ensures value { result ≡ with_field_of v low len x }
    ensures from_zero { pos 0 ≤ℤ result }
    ensures within { result <ℤ pos (2 ^ 64) }
{
    laid(v as u128, low, len, pattern(x, len)) as i128
}

/// v with its len bits from low on replaced by x.
fn laid(v: u128, low: u8, len: u8, x: u128) -> u128
    requires within { v < 2 ^ 64 }
    requires end { low + len ≤ 64 }
    requires part { x < 2 ^ len }
    ensures value { result ≡ v / 2 ^ (low + len) * 2 ^ (low + len) + x * 2 ^ low + v % 2 ^ low }
    ensures bound { result < 2 ^ 64 }
{
    let unit = power(low);
    let above = power(low + len);
    v / above * above + x * unit + v % unit
}

/// The wrapped value fits, equals the number modulo 2 to the bits, and is the only value that does.
pub fn wrap_law()
    ensures fits { WrappedFits }
    ensures congruent { WrappedIsCongruent }
    ensures unique { WrappedIsUnique }
{}

/// A number with a new field has this field, and its other bits are as they were.
pub fn field_law()
    ensures laid { FieldIsLaid }
    ensures below { LowBitsStay }
    ensures above { HighBitsStay }
{}
