//! Questions of numbers.
//!
//! `wrap NUMBER BITS s` (or `u`) asks for the wrapped number and whether the number fits, `bits NUMBER` for the fewest
//! bits, `field NUMBER LOW LEN` for a field, `with NUMBER LOW LEN PART` for the number with a new field, and
//! `int NUMBER OPERATOR NUMBER` for what Python gives.

use crate::reading::{answer, answer_number, answer_truth, byte, cut, whole};
use lx_num::{Shape, bits_for, field, fits, with_field, wrap};
use lx_text::{NoMemory, Text};
use lx_value::{NumFault, PyOp, int_op};

// The least number that has a number of bits.
const LEAST: i128 = -170141183460469231731687303715884105727;

/// Answers a question of numbers; false where it is none.
pub(crate) fn run(key: &str, rest: &str, out: &mut Text) -> Result<bool, NoMemory> {
    match key {
        "wrap" => show_wrapped(rest, out),
        "bits" => show_bits(rest, out),
        "field" => show_field(rest, out),
        "with" => show_with(rest, out),
        "int" => show_int(rest, out),
        _ => Ok(false),
    }
}

fn show_wrapped(rest: &str, out: &mut Text) -> Result<bool, NoMemory> {
    let (number, rest) = cut(rest);
    let (bits, sign) = cut(rest);
    let Some(number) = whole(number) else {
        return Ok(false);
    };
    let Some(bits) = byte(bits) else {
        return Ok(false);
    };
    if bits < 1 || bits > 127 {
        return Ok(false);
    }
    let shape = Shape {
        bits,
        signed: sign == "s",
    };
    answer_number(out, wrap(number, shape))?;
    answer_truth(out, fits(number, shape))
}

fn show_bits(rest: &str, out: &mut Text) -> Result<bool, NoMemory> {
    match whole(rest) {
        Some(number) if LEAST <= number => answer_number(out, bits_for(number) as i128),
        _ => Ok(false),
    }
}

// The number, and the start and the length of its field.
fn part_of(rest: &str) -> Option<(i128, u8, u8)> {
    let (number, rest) = cut(rest);
    let (low, len) = cut(rest);
    let number = whole(number)?;
    let low = byte(low)?;
    let len = byte(cut(len).0)?;
    Some((number, low, len))
}

fn show_field(rest: &str, out: &mut Text) -> Result<bool, NoMemory> {
    match part_of(rest) {
        Some((number, low, len)) if low <= 126 && 1 <= len && len <= 127 => {
            answer_number(out, field(number, low, len))
        }
        _ => Ok(false),
    }
}

fn show_with(rest: &str, out: &mut Text) -> Result<bool, NoMemory> {
    let Some((number, low, len)) = part_of(rest) else {
        return Ok(false);
    };
    let Some(part) = whole(rest.rsplit_once(' ').unwrap_or(("", "")).1) else {
        return Ok(false);
    };
    if number < 0 || number >= 1 << 64 || len < 1 || len > 64 || low > 64 - len {
        return Ok(false);
    }
    answer_number(out, with_field(number, low, len, part))
}

fn operator(sign: &str) -> Option<PyOp> {
    let op = match sign {
        "+" => PyOp::Add,
        "-" => PyOp::Sub,
        "*" => PyOp::Mul,
        "//" => PyOp::FloorDiv,
        "%" => PyOp::Mod,
        "**" => PyOp::Pow,
        "<<" => PyOp::Shl,
        ">>" => PyOp::Shr,
        "&" => PyOp::And,
        "|" => PyOp::Or,
        "^" => PyOp::Xor,
        _ => return None,
    };
    Some(op)
}

fn show_int(rest: &str, out: &mut Text) -> Result<bool, NoMemory> {
    let (first, rest) = cut(rest);
    let (sign, second) = cut(rest);
    let Some(first) = whole(first) else {
        return Ok(false);
    };
    let Some(second) = whole(second) else {
        return Ok(false);
    };
    let Some(op) = operator(sign) else {
        return Ok(false);
    };
    if first.unsigned_abs() >= 1 << 127 || second.unsigned_abs() >= 1 << 127 {
        return Ok(false);
    }
    show_result(int_op(op, first, second), out)
}

fn show_result(res: Result<i128, NumFault>, out: &mut Text) -> Result<bool, NoMemory> {
    match res {
        Ok(number) => answer_number(out, number),
        Err(NumFault::DivZero) => answer(out, b"zero divisor"),
        Err(NumFault::NumberRange) => answer(out, b"range"),
    }
}
