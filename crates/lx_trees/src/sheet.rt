//! What a file says: each node, from the lowest place on, and then each class, on a line.

use crate::exprs::put_expr;
use crate::pieces::{put_all, put_line, put_token, put_with};
use crate::showing::faultless;
use crate::stmts::put_stmt;
use lx_arena::Id;
use lx_pytree::read;
use lx_syntax::{ClassForm, Node, Parameter, Syntax, syntax_of};
use lx_text::{List, NoMemory, Refusal, Text};
use lx_token::Token;
use lx_token::tokens::tokens;
use std::alloc::Global;
use std::marker::PhantomData;

/// What a description says, or that it has no tokens or no tree.
pub(crate) fn put_said(alloc: Global, source: &[u8], out: &mut Text) -> Result<(), NoMemory> {
    match faultless(tokens(alloc, source))? {
        Some(tokens) => put_tree(alloc, source, &tokens, out),
        None => out.word(b"no tokens\n"),
    }
}

fn put_tree(
    alloc: Global,
    source: &[u8],
    tokens: &List<Token>,
    out: &mut Text,
) -> Result<(), NoMemory> {
    match read(alloc, source, tokens) {
        Ok(tree) => put_syntax(&syntax_of(alloc, source, &tree)?, out),
        Err(Refusal::Fault(_)) => out.word(b"no tree\n"),
        Err(Refusal::NoMemory) => Err(NoMemory),
    }
}

// All nodes, and all classes.
fn put_syntax(syntax: &Syntax, out: &mut Text) -> Result<(), NoMemory> {
    put_all_nodes(syntax, out)?;
    put_all_classes(syntax, out)
}

fn put_all_nodes(syntax: &Syntax, out: &mut Text) -> Result<(), NoMemory> {
    for place in 0..syntax.node_count() {
        let id = Id {
            place,
            of: PhantomData,
        };
        put_node_said(syntax, place, syntax.node(id), out)?;
    }
    Ok(())
}

fn put_node_said(
    syntax: &Syntax,
    place: usize,
    node: &Node,
    out: &mut Text,
) -> Result<(), NoMemory> {
    out.count(place as u128)?;
    put_line(b"", node.line, out)?;
    put_expr(syntax, &node.expr, out)?;
    put_stmt(syntax, &node.stmt, out)?;
    out.word(b"\n")
}

fn put_all_classes(syntax: &Syntax, out: &mut Text) -> Result<(), NoMemory> {
    for place in 0..syntax.class_count() {
        put_class(syntax, syntax.class(place), out)?;
    }
    Ok(())
}

fn put_class(syntax: &Syntax, class: &ClassForm, out: &mut Text) -> Result<(), NoMemory> {
    put_token(syntax, b"class", &class.name, out)?;
    put_line(b"", class.line, out)?;
    put_bases(syntax, class.bases.as_slice(), out)?;
    put_line(b" __init__", class.init_line, out)?;
    put_params(syntax, class.params.as_slice(), out)?;
    put_all(b" :", class.body.as_slice(), out)?;
    out.word(b"\n")
}

fn put_bases(syntax: &Syntax, bases: &[Token], out: &mut Text) -> Result<(), NoMemory> {
    for base in bases {
        put_base(syntax, base, out)?;
    }
    Ok(())
}

fn put_base(syntax: &Syntax, base: &Token, out: &mut Text) -> Result<(), NoMemory> {
    put_token(syntax, b" of", base, out)?;
    put_line(b"", base.line, out)
}

fn put_params(syntax: &Syntax, params: &[Parameter], out: &mut Text) -> Result<(), NoMemory> {
    for param in params {
        put_param(syntax, param, out)?;
    }
    Ok(())
}

fn put_param(syntax: &Syntax, param: &Parameter, out: &mut Text) -> Result<(), NoMemory> {
    put_token(syntax, b"", &param.name, out)?;
    match param.default {
        None => Ok(()),
        Some(default) => put_with(b" =", default, out),
    }
}
