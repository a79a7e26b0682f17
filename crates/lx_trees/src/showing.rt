//! Trees and faults, as they are shown.

use lx_grammar::Rule;
use lx_pytree::{PyNode, PyPart, Tree, read};
use lx_text::{Fault, Kind, List, NoMemory, Refusal, Text};
use lx_token::Token;
use std::alloc::Global;

/// What was read; nothing where there is a fault.
pub(crate) fn faultless<T: Drop>(read: Result<T, Refusal>) -> Result<Option<T>, NoMemory> {
    match read {
        Ok(value) => Ok(Some(value)),
        Err(Refusal::Fault(_)) => Ok(None),
        Err(Refusal::NoMemory) => Err(NoMemory),
    }
}

/// Whether a text has a tree.
pub(crate) fn has_tree(alloc: Global, text: &[u8], tokens: &List<Token>) -> Result<bool, NoMemory> {
    let tree = faultless(read(alloc, text, tokens))?;
    Ok(tree.is_some())
}

/// Whether there is a tree.
pub(crate) fn show_truth(has: bool, out: &mut Text) -> Result<(), NoMemory> {
    out.word(if has {
        b" tree\n".as_slice()
    } else {
        b" no tree\n".as_slice()
    })
}

/// The nodes of a text as far as the first line's.
pub(crate) fn show_line(
    alloc: Global,
    text: &str,
    tokens: &List<Token>,
    out: &mut Text,
) -> Result<(), NoMemory> {
    match faultless(read(alloc, text.as_bytes(), tokens))? {
        Some(tree) => show_tree(alloc, text.as_bytes(), &tree, out),
        None => show_truth(false, out),
    }
}

fn show_tree(alloc: Global, text: &[u8], tree: &Tree, out: &mut Text) -> Result<(), NoMemory> {
    if tree.root.place != tree.nodes.len().saturating_sub(1) {
        return out.word(b" the root isn't last\n");
    }
    for node in tree.nodes.as_slice() {
        show_node(alloc, text, node, out)?;
        if matches!(node.rule, Rule::Simple) {
            break;
        }
    }
    out.word(b"\n")
}

// A node with its rule and parts; a node as a part is its number.
fn show_node(alloc: Global, text: &[u8], node: &PyNode, out: &mut Text) -> Result<(), NoMemory> {
    let rule = node.rule;
    let name = format!(in alloc; " {rule:?}(")?;
    out.word(name.as_bytes())?;
    for part in node.parts.as_slice() {
        show_part(text, part, out)?;
    }
    out.word(b" )")
}

fn show_part(text: &[u8], part: &PyPart, out: &mut Text) -> Result<(), NoMemory> {
    out.word(b" ")?;
    match part {
        PyPart::Token(token) => out.word(
            text.get(token.start as usize..token.end as usize)
                .unwrap_or(b"?"),
        ),
        PyPart::Node(id) => {
            out.word(b"#")?;
            out.count(id.place as u128)
        }
    }
}

/// The number and the line of a text's fault.
pub(crate) fn show_fault(
    alloc: Global,
    text: &str,
    tokens: &List<Token>,
    out: &mut Text,
) -> Result<(), NoMemory> {
    match read(alloc, text.as_bytes(), tokens) {
        Ok(_tree) => show_truth(true, out),
        Err(Refusal::Fault(fault)) => show_place(&fault, out),
        Err(Refusal::NoMemory) => Err(NoMemory),
    }
}

fn show_place(fault: &Fault, out: &mut Text) -> Result<(), NoMemory> {
    let Kind::Syntax(number) = &fault.kind else {
        return out.word(b" another fault\n");
    };
    out.word(b" ")?;
    out.count(*number as u128)?;
    out.word(b" ")?;
    out.count(fault.line as u128)?;
    out.word(b"\n")
}
