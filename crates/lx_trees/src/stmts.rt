//! What nodes say as statements.

use crate::pieces::{put_all, put_token, put_tokens, put_with};
use lx_arena::Id;
use lx_pytree::PyNodes;
use lx_syntax::{Branch, Place, StmtForm, Syntax};
use lx_text::{NoMemory, Text};
use lx_token::Token;

/// What a node says as a statement; nothing where it is none.
pub(crate) fn put_stmt(syntax: &Syntax, form: &StmtForm, out: &mut Text) -> Result<(), NoMemory> {
    match form {
        StmtForm::NoStmt => Ok(()),
        StmtForm::Pass => out.word(b" pass"),
        StmtForm::Value(id) => put_with(b" value", *id, out),
        StmtForm::Bind { place, value } => put_bound(syntax, place, b" =", *value, out),
        StmtForm::Add { place, value } => put_bound(syntax, place, b" +=", *value, out),
        StmtForm::If { branches, rest } => put_if(branches.as_slice(), rest.as_slice(), out),
        StmtForm::For {
            names,
            source,
            body,
        } => put_for(syntax, names.as_slice(), *source, body.as_slice(), out),
    }
}

fn put_bound(
    syntax: &Syntax,
    place: &Place,
    sign: &[u8],
    value: Id<PyNodes>,
    out: &mut Text,
) -> Result<(), NoMemory> {
    put_place(syntax, place, out)?;
    put_with(sign, value, out)
}

fn put_place(syntax: &Syntax, place: &Place, out: &mut Text) -> Result<(), NoMemory> {
    match place {
        Place::Name(name) => put_token(syntax, b" bind", name, out),
        Place::Attribute(of, name) => {
            put_with(b" bind", *of, out)?;
            put_token(syntax, b" .", name, out)
        }
    }
}

fn put_if(branches: &[Branch], rest: &[Id<PyNodes>], out: &mut Text) -> Result<(), NoMemory> {
    for branch in branches {
        put_branch(branch, out)?;
    }
    put_all(b" else", rest, out)
}

fn put_branch(branch: &Branch, out: &mut Text) -> Result<(), NoMemory> {
    put_with(b" if", branch.condition, out)?;
    put_all(b" :", branch.body.as_slice(), out)
}

fn put_for(
    syntax: &Syntax,
    names: &[Token],
    source: Id<PyNodes>,
    body: &[Id<PyNodes>],
    out: &mut Text,
) -> Result<(), NoMemory> {
    put_tokens(syntax, b" for", names, out)?;
    put_with(b" in", source, out)?;
    put_all(b" :", body, out)
}
