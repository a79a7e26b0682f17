//! Whole numbers as Python computes them, from -(2^127 - 1) to 2^127 - 1.

ghost use Rattle.std.specs.Prelude.{◌≡◌, ◌<◌, ◌^◌, ◌+◌, ◌%◌, ◌+ℤ◌, ◌-ℤ◌, ◌*ℤ◌, pos, nat_lt, if◌then◌else◌, MatchOption, IfOk, Ok, Err, ℤ, ℕ};
ghost use Rattle.std.specs.Int.{int_pow};
ghost use Rattle.lx_num.specs.Bits.{int_and, int_or, int_xor};
ghost use Rattle.lx_value.specs.NumberLaws.{DivisionRoundsDown, PowersMultiply};
ghost use Rattle.lx_value.specs.Numbers.{IsInteger, python_value, ranged, divided, counted, floor_quotient, floor_remainder, shifted_left, shifted_right};

/// The operators that Python has on two whole numbers.
#[derive(Clone, Copy)]
pub enum PyOp {
    /// `a + b`
    Add,
    /// `a - b`
    Sub,
    /// `a * b`
    Mul,
    /// `a // b`
    FloorDiv,
    /// `a % b`
    Mod,
    /// `a ** b`
    Pow,
    /// `a << b`
    Shl,
    /// `a >> b`
    Shr,
    /// `a & b`
    And,
    /// `a | b`
    Or,
    /// `a ^ b`
    Xor,
}

/// Why an operator gives no integer.
#[derive(Clone, Copy, PartialEq, Eq)]
pub enum NumFault {
    /// The divisor is 0.
    DivZero,
    /// The result lies out of range, or an exponent or a number of places is negative.
    NumberRange,
}

/// What Python's operator gives of two integers, each from -(2^127 - 1) to 2^127 - 1: division
/// rounds down, a remainder has the divisor's sign, and the bits of a negative number are those of
/// two's complement (The Python Language Reference, "Binary arithmetic operations").
///
/// A zero divisor is `DivZero`. A result out of the range, and a negative exponent or number of
/// places, is `NumberRange`.
#[tactic(auto, unfolding(crate::specs::Numbers::python_value))]
pub fn int_op(op: PyOp, a: i128, b: i128) -> Result<i128, NumFault>
    requires first { IsInteger a }
    requires second { IsInteger b }
    ensures value { result ≡ python_value op a b }
    ensures range { IfOk result (λ z. IsInteger z) }
{
    match op {
        PyOp::Add => sum(a, b),
        PyOp::Sub => difference(a, b),
        PyOp::Mul => product(a, b),
        PyOp::FloorDiv => quotient(a, b),
        PyOp::Mod => remainder(a, b),
        PyOp::Pow => power(a, b),
        PyOp::Shl => left_shift(a, b),
        PyOp::Shr => right_shift(a, b),
        PyOp::And => both_bits(a, b),
        PyOp::Or => either_bits(a, b),
        PyOp::Xor => unequal_bits(a, b),
    }
}

/// A law: quotient and remainder make up the dividend, and the remainder lies between 0 and the
/// divisor.
pub fn division_law()
    ensures { DivisionRoundsDown }
{}

/// A law: a power is a product of as many equal factors as its exponent says.
pub fn power_law()
    ensures { PowersMultiply }
{}

// The number, where it lies in the range.
fn in_range(number: i128) -> Result<i128, NumFault>
    ensures { result ≡ ranged number }
{
    if number.unsigned_abs() < 1 << 127 {
        Ok(number)
    } else {
        Err(NumFault::NumberRange)
    }
}

// The number, where one of 128 bits could be computed and lies in the range.
fn checked(number: Option<i128>) -> Result<i128, NumFault>
    ensures { MatchOption number (result ≡ Err NumFault.NumberRange) (λ z. result ≡ ranged z) }
{
    match number {
        Some(number) => in_range(number),
        None => Err(NumFault::NumberRange),
    }
}

fn sum(a: i128, b: i128) -> Result<i128, NumFault>
    ensures { result ≡ ranged (a +ℤ b) }
{
    checked(a.checked_add(b))
}

fn difference(a: i128, b: i128) -> Result<i128, NumFault>
    ensures { result ≡ ranged (a -ℤ b) }
{
    checked(a.checked_sub(b))
}

fn product(a: i128, b: i128) -> Result<i128, NumFault>
    ensures { result ≡ ranged (a *ℤ b) }
{
    checked(a.checked_mul(b))
}

// The quotient, rounded down: by a negative divisor it is that of the two opposite numbers.
fn quotient(a: i128, b: i128) -> Result<i128, NumFault>
    requires first { IsInteger a }
    requires second { IsInteger b }
    ensures { result ≡ divided b (floor_quotient a b) }
{
    if b == 0 {
        Err(NumFault::DivZero)
    } else if b < 0 {
        in_range((-a).div_euclid(-b))
    } else {
        in_range(a.div_euclid(b))
    }
}

// The remainder, with the divisor's sign.
fn remainder(a: i128, b: i128) -> Result<i128, NumFault>
    requires first { IsInteger a }
    requires second { IsInteger b }
    ensures { result ≡ divided b (floor_remainder a b) }
{
    if b == 0 {
        Err(NumFault::DivZero)
    } else if b < 0 {
        in_range(-(-a).rem_euclid(-b))
    } else {
        in_range(a.rem_euclid(b))
    }
}

// The power; a negative exponent has none.
fn power(a: i128, b: i128) -> Result<i128, NumFault>
    ensures { result ≡ counted (int_pow a) b }
{
    if b < 0 {
        Err(NumFault::NumberRange)
    } else {
        any_power(a, b.unsigned_abs())
    }
}

fn any_power(a: i128, exponent: u128) -> Result<i128, NumFault>
    ensures { result ≡ ranged (int_pow a exponent) }
{
    short_power(a, short_exponent(exponent))
}

// From 128 on all that an exponent still tells is whether it is odd.
fn short_exponent(exponent: u128) -> u32
    ensures { result ≡ (if nat_lt exponent 128 then exponent else 128 + exponent % 2) }
{
    if exponent < 128 {
        exponent as u32
    } else {
        128 + (exponent % 2) as u32
    }
}

fn short_power(a: i128, exponent: u32) -> Result<i128, NumFault>
    ensures { result ≡ ranged (int_pow a exponent) }
{
    checked(a.checked_pow(exponent))
}

// The number with its bits moved up, by a number of places that may not be negative.
fn left_shift(a: i128, b: i128) -> Result<i128, NumFault>
    ensures { result ≡ counted (shifted_left a) b }
{
    if b < 0 {
        Err(NumFault::NumberRange)
    } else {
        any_left_shift(a, b.unsigned_abs())
    }
}

// All numbers but 0 leave the range by 127 places.
fn any_left_shift(a: i128, places: u128) -> Result<i128, NumFault>
    ensures { result ≡ ranged (shifted_left a places) }
{
    if places < 127 {
        product(a, unit(places))
    } else if a == 0 {
        Ok(0)
    } else {
        Err(NumFault::NumberRange)
    }
}

// 2 to so many places.
fn unit(places: u128) -> i128
    requires { places < 127 }
    ensures { result ≡ pos (2 ^ places) }
{
    1 << places
}

// The number with its bits moved down, by a number of places that may not be negative.
fn right_shift(a: i128, b: i128) -> Result<i128, NumFault>
    requires { IsInteger a }
    ensures { result ≡ counted (shifted_right a) b }
{
    if b < 0 {
        Err(NumFault::NumberRange)
    } else {
        in_range(any_right_shift(a, b.unsigned_abs()))
    }
}

// After 127 places only the sign is left.
fn any_right_shift(a: i128, places: u128) -> i128
    requires { IsInteger a }
    ensures { result ≡ shifted_right a places }
{
    a >> places.min(127)
}

fn both_bits(a: i128, b: i128) -> Result<i128, NumFault>
    ensures { result ≡ ranged (int_and a b) }
{
    in_range(a & b)
}

fn either_bits(a: i128, b: i128) -> Result<i128, NumFault>
    ensures { result ≡ ranged (int_or a b) }
{
    in_range(a | b)
}

fn unequal_bits(a: i128, b: i128) -> Result<i128, NumFault>
    ensures { result ≡ ranged (int_xor a b) }
{
    in_range(a ^ b)
}
