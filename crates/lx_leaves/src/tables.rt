//! Questions of the tables.
//!
//! `row OPERATOR SIGNS` asks how an operator is written beside operands of these signs, `us` for an unsigned left and a
//! signed right one; `python WORD`, `verilog WORD` and `two WORD` whether the word stands in a table.

use crate::reading::{answer, answer_truth, cut};
use lx_tables::{LONGEST, Mix, Op, OpRow, OpText, Words, is_python_word, is_verilog_word, op_row};
use lx_text::{NoMemory, Text};

static CHOICES: [[u8; LONGEST]; 2] = [*b"and                  ", *b"or                   "];

/// Answers a question of the tables; false where it is none.
pub(crate) fn run(key: &str, rest: &str, out: &mut Text) -> Result<bool, NoMemory> {
    match key {
        "row" => show_row(rest, out),
        "python" => answer_truth(out, is_python_word(rest.as_bytes())),
        "verilog" => answer_truth(out, is_verilog_word(rest.as_bytes())),
        "two" => answer_truth(out, Words::new(&CHOICES).has(rest.as_bytes())),
        _ => Ok(false),
    }
}

fn operator(name: &str) -> Option<Op> {
    let op = match name {
        "neg" => Op::Neg,
        "not" => Op::Not,
        "add" => Op::Add,
        "sub" => Op::Sub,
        "mul" => Op::Mul,
        "shl" => Op::Shl,
        "shr" => Op::Shr,
        "and" => Op::And,
        "or" => Op::Or,
        "xor" => Op::Xor,
        "eq" => Op::Eq,
        "ne" => Op::Ne,
        "lt" => Op::Lt,
        "le" => Op::Le,
        "gt" => Op::Gt,
        "ge" => Op::Ge,
        "mux" => Op::Mux,
        "cat" => Op::Cat,
        "replicate" => Op::Replicate,
        _ => return None,
    };
    Some(op)
}

fn signs(mix: &str) -> Option<Mix> {
    let mix = match mix {
        "uu" => Mix::UU,
        "us" => Mix::US,
        "su" => Mix::SU,
        "ss" => Mix::SS,
        _ => return None,
    };
    Some(mix)
}

// How a form is written.
fn form(text: OpText) -> &'static [u8] {
    match text {
        OpText::Negated => b"(-a)",
        OpText::Inverted => b"(~a)",
        OpText::Plus => b"(a + b)",
        OpText::Minus => b"(a - b)",
        OpText::Times => b"(a * b)",
        OpText::ShiftLeft => b"(a << b)",
        OpText::ShiftRight => b"(a >> b)",
        OpText::ShiftRightSigned => b"(a >>> b)",
        OpText::BitAnd => b"(a & b)",
        OpText::BitOr => b"(a | b)",
        OpText::BitXor => b"(a ^ b)",
        OpText::Equal => b"(a == b)",
        OpText::NotEqual => b"(a != b)",
        OpText::Less => b"(a < b)",
        OpText::LessOrEqual => b"(a <= b)",
        OpText::Greater => b"(a > b)",
        OpText::GreaterOrEqual => b"(a >= b)",
        OpText::Choice => b"(c ? a : b)",
        OpText::Joined => b"{b, a}",
        OpText::Repeated => b"{k{a}}",
    }
}

fn show_row(rest: &str, out: &mut Text) -> Result<bool, NoMemory> {
    let (name, mix) = cut(rest);
    let Some(op) = operator(name) else {
        return Ok(false);
    };
    let Some(mix) = signs(mix) else {
        return Ok(false);
    };
    show_form(op_row(op, mix), out)
}

fn show_form(row: OpRow, out: &mut Text) -> Result<bool, NoMemory> {
    answer(out, form(row.text))?;
    if row.signed {
        answer(out, b"signed")?;
    }
    if row.widen_left {
        answer(out, b"left widened")?;
    }
    if row.widen_right {
        answer(out, b"right widened")?;
    }
    Ok(true)
}
