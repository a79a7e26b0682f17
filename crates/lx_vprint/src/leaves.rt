//! Words, numbers, literals and operators.

ghost use Rattle.std.specs.Prelude.{◌≡◌, ◌++◌, OnOk};
ghost use Rattle.lx_vtext.specs.Printed.{number_text, literal_text, range_text, op_text, unary_text, base_text, indent};

use lx_text::{NoMemory, Text};
use lx_vtext::{BinOp, UnOp};
use lx_vtree::Literal;

/// A number in decimal.
#[tactic(auto, using(lx_vtext::proofs::Numbers::number_decimal))]
pub(crate) fn number(out: &mut Text, value: u128) -> Result<(), NoMemory>
    ensures { OnOk result (out.new ≡ out.old ++ number_text value) }
{
    out.count(value)
}

/// `4'd9`, and `4'sd9` where it is signed.
#[tactic(auto, unfolding(lx_vtext::specs::Printed::literal_text))]
pub(crate) fn literal(out: &mut Text, value: &Literal) -> Result<(), NoMemory>
    ensures { OnOk result (out.new ≡ out.old ++ literal_text value.now.bits value.now.signed value.now.value) }
{
    number(out, value.bits as u128)?;
    out.word(base(value.signed))?;
    number(out, value.value)
}

fn base(signed: bool) -> &'static [u8]
    ensures { result.now ≡ base_text signed }
{
    if signed { b"'sd" } else { b"'d" }
}

/// `[hi:lo]`
#[tactic(auto, unfolding(lx_vtext::specs::Printed::range_text))]
pub(crate) fn range(out: &mut Text, hi: u64, lo: u64) -> Result<(), NoMemory>
    ensures { OnOk result (out.new ≡ out.old ++ range_text hi lo) }
{
    out.word(b"[")?;
    number(out, hi as u128)?;
    out.word(b":")?;
    number(out, lo as u128)?;
    out.word(b"]")
}

/// The sign of a unary operator.
pub(crate) fn unary_sign(op: UnOp) -> &'static [u8]
    ensures { result.now ≡ unary_text op }
{
    match op {
        UnOp::Negate => b"-",
        UnOp::Invert => b"~",
    }
}

/// The sign of a binary operator.
pub(crate) fn binary_sign(op: BinOp) -> &'static [u8]
    ensures { result.now ≡ op_text op }
{
    match op {
        BinOp::Add => b"+",
        BinOp::Sub => b"-",
        BinOp::Mul => b"*",
        BinOp::ShiftLeft => b"<<",
        BinOp::ArithmeticLeft => b"<<<",
        BinOp::ShiftRight => b">>",
        BinOp::ArithmeticRight => b">>>",
        BinOp::And => b"&",
        BinOp::Or => b"|",
        BinOp::Xor => b"^",
        BinOp::Less => b"<",
        BinOp::LessEqual => b"<=",
        BinOp::Equal => b"==",
        BinOp::NotEqual => b"!=",
        BinOp::Greater => b">",
        BinOp::GreaterEqual => b">=",
    }
}

/// Four blanks for each level.
#[tactic(auto, using(crate::proofs::Margins::margin_more))]
pub(crate) fn margin(out: &mut Text, levels: u128) -> Result<(), NoMemory>
    ensures { OnOk result (out.new ≡ out.old ++ indent levels) }
{
    for _ in 0..levels {
        out.word(b"    ")?;
    }
    Ok(())
}
