//! What nodes say as expressions.

use crate::pieces::{
    comparison_text, operator_text, prefix_text, put_all, put_between, put_line, put_node,
    put_option, put_token, put_tokens, put_with,
};
use lx_arena::Id;
use lx_pytree::PyNodes;
use lx_syntax::{Argument, Branching, Couple, ExprForm, Link, Signed, Syntax, Trailer};
use lx_text::{NoMemory, Text};
use lx_token::Token;

/// What a node says as an expression; nothing where it is none.
pub(crate) fn put_expr(syntax: &Syntax, form: &ExprForm, out: &mut Text) -> Result<(), NoMemory> {
    match form {
        ExprForm::Misshapen => Ok(()),
        ExprForm::Same(id) => put_with(b" same", *id, out),
        ExprForm::Name(token) => put_token(syntax, b" name", token, out),
        ExprForm::Number(value) => put_number(*value, out),
        ExprForm::Quoted(token) => put_token(syntax, b" text", token, out),
        ExprForm::Nothing => out.word(b" None"),
        ExprForm::Truth(true) => out.word(b" True"),
        ExprForm::Truth(false) => out.word(b" False"),
        _ => put_listed(syntax, form, out),
    }
}

// The same, where several expressions stand side by side.
fn put_listed(syntax: &Syntax, form: &ExprForm, out: &mut Text) -> Result<(), NoMemory> {
    match form {
        ExprForm::Tuple(ids) => put_all(b" tuple", ids.as_slice(), out),
        ExprForm::Listed(ids) => put_all(b" list", ids.as_slice(), out),
        ExprForm::Either(ids) => put_all(b" or", ids.as_slice(), out),
        ExprForm::Both(ids) => put_all(b" and", ids.as_slice(), out),
        ExprForm::Dictionary(pairs) => put_dictionary(pairs.as_slice(), out),
        ExprForm::Choice { value, rest } => put_choice(*value, rest.as_slice(), out),
        ExprForm::Chain { first, rest } => put_chain(*first, rest.as_slice(), out),
        ExprForm::Post { of, trailers } => put_post(syntax, *of, trailers.as_slice(), out),
        _ => put_operation(syntax, form, out),
    }
}

// The same, of one or two operands, and of a comprehension.
fn put_operation(syntax: &Syntax, form: &ExprForm, out: &mut Text) -> Result<(), NoMemory> {
    match form {
        ExprForm::Not { words, of } => put_not(words.as_slice(), *of, out),
        ExprForm::Prefixed { signs, of } => put_prefixed(signs.as_slice(), *of, out),
        ExprForm::IsNothing { negated: true, of } => put_with(b" is not None", *of, out),
        ExprForm::IsNothing { negated: false, of } => put_with(b" is None", *of, out),
        ExprForm::Compare { by, left, right } => {
            put_between(*left, comparison_text(*by), *right, out)
        }
        ExprForm::Power { base, exponent } => put_between(*base, b" **", *exponent, out),
        ExprForm::Comprehension {
            item,
            names,
            source,
            filter,
        } => put_comprehension(syntax, *item, names.as_slice(), *source, *filter, out),
        _ => Ok(()),
    }
}

fn put_number(value: Option<i128>, out: &mut Text) -> Result<(), NoMemory> {
    out.word(b" number ")?;
    match value {
        None => out.word(b"too great"),
        Some(value) => out.dec(value),
    }
}

fn put_dictionary(pairs: &[Couple], out: &mut Text) -> Result<(), NoMemory> {
    out.word(b" dictionary")?;
    for pair in pairs {
        put_between(pair.first, b" :", pair.second, out)?;
    }
    Ok(())
}

fn put_choice(value: Id<PyNodes>, rest: &[Branching], out: &mut Text) -> Result<(), NoMemory> {
    put_with(b" choice", value, out)?;
    for branching in rest {
        put_branching(branching, out)?;
    }
    Ok(())
}

fn put_branching(branching: &Branching, out: &mut Text) -> Result<(), NoMemory> {
    put_line(b" if", branching.line, out)?;
    put_between(branching.condition, b" else", branching.value, out)
}

fn put_chain(first: Id<PyNodes>, rest: &[Link], out: &mut Text) -> Result<(), NoMemory> {
    put_with(b" chain", first, out)?;
    for link in rest {
        put_with(operator_text(link.operator), link.operand, out)?;
    }
    Ok(())
}

fn put_not(words: &[Token], of: Id<PyNodes>, out: &mut Text) -> Result<(), NoMemory> {
    for word in words {
        put_line(b" not", word.line, out)?;
    }
    put_node(of, out)
}

fn put_prefixed(signs: &[Signed], of: Id<PyNodes>, out: &mut Text) -> Result<(), NoMemory> {
    for sign in signs {
        put_line(prefix_text(sign.prefix), sign.line, out)?;
    }
    put_node(of, out)
}

fn put_comprehension(
    syntax: &Syntax,
    item: Id<PyNodes>,
    names: &[Token],
    source: Id<PyNodes>,
    filter: Option<Id<PyNodes>>,
    out: &mut Text,
) -> Result<(), NoMemory> {
    put_with(b" comprehension", item, out)?;
    put_tokens(syntax, b" for", names, out)?;
    put_with(b" in", source, out)?;
    match filter {
        None => Ok(()),
        Some(filter) => put_with(b" if", filter, out),
    }
}

fn put_post(
    syntax: &Syntax,
    of: Id<PyNodes>,
    trailers: &[Trailer],
    out: &mut Text,
) -> Result<(), NoMemory> {
    put_with(b" post", of, out)?;
    for trailer in trailers {
        put_trailer(syntax, trailer, out)?;
    }
    Ok(())
}

fn put_trailer(syntax: &Syntax, trailer: &Trailer, out: &mut Text) -> Result<(), NoMemory> {
    match trailer {
        Trailer::Attribute(name) => put_token(syntax, b" .", name, out),
        Trailer::Call(arguments) => put_call(syntax, arguments.as_slice(), out),
        Trailer::Item(index) => put_item(*index, out),
        Trailer::Slice(low, high) => put_slice(*low, *high, out),
    }
}

fn put_call(syntax: &Syntax, arguments: &[Argument], out: &mut Text) -> Result<(), NoMemory> {
    out.word(b" (")?;
    for argument in arguments {
        put_argument(syntax, argument, out)?;
    }
    out.word(b" )")
}

fn put_argument(syntax: &Syntax, argument: &Argument, out: &mut Text) -> Result<(), NoMemory> {
    match argument {
        Argument::Placed(id) => put_node(*id, out),
        Argument::Starred(id) => put_with(b" *", *id, out),
        Argument::Keyed(name, id) => put_keyed(syntax, name, *id, out),
    }
}

fn put_keyed(
    syntax: &Syntax,
    name: &Token,
    id: Id<PyNodes>,
    out: &mut Text,
) -> Result<(), NoMemory> {
    put_token(syntax, b"", name, out)?;
    put_with(b" =", id, out)
}

fn put_item(index: Id<PyNodes>, out: &mut Text) -> Result<(), NoMemory> {
    put_with(b" [", index, out)?;
    out.word(b" ]")
}

fn put_slice(
    low: Option<Id<PyNodes>>,
    high: Option<Id<PyNodes>>,
    out: &mut Text,
) -> Result<(), NoMemory> {
    out.word(b" [")?;
    put_option(low, out)?;
    out.word(b" :")?;
    put_option(high, out)?;
    out.word(b" ]")
}
