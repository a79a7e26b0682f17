//! Pieces of a line, each behind a blank: nodes by their places, tokens by their texts, lines.

use lx_arena::Id;
use lx_pytree::PyNodes;
use lx_syntax::{Comparison, Operator, Prefix, Syntax};
use lx_text::{NoMemory, Text};
use lx_token::Token;

/// A node.
pub(crate) fn put_node(id: Id<PyNodes>, out: &mut Text) -> Result<(), NoMemory> {
    out.word(b" #")?;
    out.count(id.place as u128)
}

/// Nodes.
pub(crate) fn put_nodes(ids: &[Id<PyNodes>], out: &mut Text) -> Result<(), NoMemory> {
    for id in ids {
        put_node(*id, out)?;
    }
    Ok(())
}

/// A node where there is one.
pub(crate) fn put_option(id: Option<Id<PyNodes>>, out: &mut Text) -> Result<(), NoMemory> {
    match id {
        None => Ok(()),
        Some(id) => put_node(id, out),
    }
}

/// A word and a node.
pub(crate) fn put_with(word: &[u8], id: Id<PyNodes>, out: &mut Text) -> Result<(), NoMemory> {
    out.word(word)?;
    put_node(id, out)
}

/// A word and nodes.
pub(crate) fn put_all(word: &[u8], ids: &[Id<PyNodes>], out: &mut Text) -> Result<(), NoMemory> {
    out.word(word)?;
    put_nodes(ids, out)
}

/// A node, a word and a node.
pub(crate) fn put_between(
    left: Id<PyNodes>,
    word: &[u8],
    right: Id<PyNodes>,
    out: &mut Text,
) -> Result<(), NoMemory> {
    put_node(left, out)?;
    put_with(word, right, out)
}

/// A word and a line.
pub(crate) fn put_line(word: &[u8], line: u32, out: &mut Text) -> Result<(), NoMemory> {
    out.word(word)?;
    out.word(b" line ")?;
    out.count(line as u128)
}

/// A word and a token.
pub(crate) fn put_token(
    syntax: &Syntax,
    word: &[u8],
    token: &Token,
    out: &mut Text,
) -> Result<(), NoMemory> {
    out.word(word)?;
    out.word(b" ")?;
    out.word(syntax.text(token))
}

/// A word and tokens.
pub(crate) fn put_tokens(
    syntax: &Syntax,
    word: &[u8],
    tokens: &[Token],
    out: &mut Text,
) -> Result<(), NoMemory> {
    out.word(word)?;
    for token in tokens {
        put_token(syntax, b"", token, out)?;
    }
    Ok(())
}

/// An operator.
pub(crate) fn operator_text(operator: Operator) -> &'static [u8] {
    match operator {
        Operator::Add => b" +",
        Operator::Sub => b" -",
        Operator::Mul => b" *",
        Operator::Floor => b" //",
        Operator::Remainder => b" %",
        Operator::ShiftLeft => b" <<",
        Operator::ShiftRight => b" >>",
        Operator::And => b" &",
        Operator::Or => b" |",
        Operator::Xor => b" ^",
    }
}

/// A comparison.
pub(crate) fn comparison_text(comparison: Comparison) -> &'static [u8] {
    match comparison {
        Comparison::Equal => b" ==",
        Comparison::Unequal => b" !=",
        Comparison::Less => b" <",
        Comparison::LessEqual => b" <=",
        Comparison::Greater => b" >",
        Comparison::GreaterEqual => b" >=",
        Comparison::In => b" in",
    }
}

/// A sign before an operand.
pub(crate) fn prefix_text(prefix: Prefix) -> &'static [u8] {
    match prefix {
        Prefix::Minus => b" -",
        Prefix::Plus => b" +",
        Prefix::Tilde => b" ~",
    }
}
