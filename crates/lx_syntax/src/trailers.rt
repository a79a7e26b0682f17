//! Attributes, calls and subscripts.

ghost use Rattle.std.specs.Prelude.{◌<◌, ◌∷◌, IfOk, OnOk, length};
ghost use Rattle.lx_pytree.specs.declared.tree.PyPart.TheVariants as part;
ghost use Rattle.lx_pytree.specs.Trees.{tree_at};
ghost use Rattle.lx_syntax.specs.Convert.{post};
ghost use Rattle.lx_syntax.specs.declared.trailers.Mark.TheVariants.{Bracket, Pair};
ghost use Rattle.lx_syntax.specs.Says.{Hung, PartsLower, SaysOf};
ghost use Rattle.lx_syntax.specs.Trails.{AreTrailers, IsFront, IsMade, IsPut, MarkLower};

use crate::children::{arguments, index};
use crate::forms::{ExprForm, Trailer};
use crate::parts::{Head, head_of, sign_of};
use lx_arena::Id;
use lx_grammar::Sign;
use lx_pytree::{PyNodes, PyPart, Tree};
use lx_text::{List, NoMemory};
use lx_token::Token;
use std::alloc::Global;

// What a trailer is made of: two tokens, or a bracket and what stands in it.
#[derive(Clone, Copy)]
pub(crate) enum Mark {
    Pair(Token, Token),
    Bracket(Token, Id<PyNodes>),
}

// The first trailer among parts and the parts behind it, or the end.
pub(crate) enum Front<'a> {
    End,
    On(Mark, &'a [PyPart]),
}

#[tactic(auto, using(crate::proofs::Trailing::front_done, crate::proofs::Trailing::front_node, crate::proofs::Trailing::front_same))]
fn front_of(parts: &[PyPart]) -> Front<'_>
    ensures { IsFront parts.now result }
{
    match head_of(parts) {
        Head::Done => Front::End,
        Head::Node(_id, _rest) => Front::End,
        Head::Token(x, rest) => front_behind(x, rest),
    }
}

// The same, behind a token.
#[tactic(auto, using(crate::proofs::Trailing::behind_done, crate::proofs::Trailing::behind_token, crate::proofs::Trailing::behind_node))]
fn front_behind(x: Token, parts: &[PyPart]) -> Front<'_>
    ensures { IsFront (part.Token x ∷ parts.now) result }
{
    match head_of(parts) {
        Head::Done => Front::End,
        Head::Token(y, rest) => Front::On(Mark::Pair(x, y), rest),
        Head::Node(id, rest) => front_in(x, id, rest),
    }
}

// The same, behind a token and a node.
#[tactic(auto, using(crate::proofs::Trailing::in_done, crate::proofs::Trailing::in_token, crate::proofs::Trailing::in_node))]
fn front_in(x: Token, id: Id<PyNodes>, parts: &[PyPart]) -> Front<'_>
    ensures { IsFront (part.Token x ∷ part.Node id ∷ parts.now) result }
{
    match head_of(parts) {
        Head::Done => Front::End,
        Head::Node(_id, _rest) => Front::End,
        Head::Token(_x, rest) => Front::On(Mark::Bracket(x, id), rest),
    }
}

// `(` and `)`, or `.` and a name.
#[tactic(auto, using(crate::proofs::Trailing::empty_call, crate::proofs::Trailing::named))]
fn pair(alloc: Global, src: &[u8], x: &Token, y: &Token) -> Trailer
    ensures { (t : Hung) → IsMade src.now t (Pair x.now y.now) result }
{
    match sign_of(src, x) {
        Sign::OpenRound => Trailer::Call(List::new(alloc)),
        _ => Trailer::Attribute(*y),
    }
}

// A call, or a subscript.
#[tactic(auto, using(crate::proofs::Trailing::called, crate::proofs::Trailing::indexed))]
fn bracket(
    alloc: Global,
    src: &[u8],
    tree: &Tree,
    x: &Token,
    id: Id<PyNodes>,
) -> Result<Trailer, NoMemory>
    requires { id.place < length tree.now.nodes }
    ensures { IfOk result (λ trailer. IsMade src.now (tree_at tree.now.nodes) (Bracket x.now id) trailer) }
{
    match sign_of(src, x) {
        Sign::OpenRound => Ok(Trailer::Call(arguments(alloc, tree, id)?)),
        _ => Ok(index(tree, id)),
    }
}

// The trailer of a mark.
fn made(alloc: Global, src: &[u8], tree: &Tree, mark: &Mark) -> Result<Trailer, NoMemory>
    requires { MarkLower (length tree.now.nodes) mark.now }
    ensures { IfOk result (λ trailer. IsMade src.now (tree_at tree.now.nodes) mark.now trailer) }
{
    match mark {
        Mark::Pair(x, y) => Ok(pair(alloc, src, x, y)),
        Mark::Bracket(x, id) => bracket(alloc, src, tree, x, *id),
    }
}

// Puts the trailer of a mark behind others.
fn put(
    alloc: Global,
    src: &[u8],
    tree: &Tree,
    mark: &Mark,
    trailers: &mut List<Trailer>,
) -> Result<(), NoMemory>
    requires { MarkLower (length tree.now.nodes) mark.now }
    ensures { OnOk result (IsPut src.now (tree_at tree.now.nodes) mark.now trailers.old trailers.new) }
{
    let trailer = made(alloc, src, tree, mark)?;
    trailers.push(trailer)
}

// All trailers of a node's parts.
#[tactic(auto, using(crate::proofs::Trailing::read_none, crate::proofs::Trailing::read_more, crate::proofs::Trailing::read_all, crate::proofs::Trailing::marks_within))]
fn trailers_of(
    alloc: Global,
    src: &[u8],
    tree: &Tree,
    id: Id<PyNodes>,
    parts: &[PyPart],
) -> Result<List<Trailer>, NoMemory>
    requires inside { id.place < length tree.now.nodes }
    requires low { PartsLower id.place parts.now }
    ensures { IfOk result (λ xs. AreTrailers src.now (tree_at tree.now.nodes) id.place parts.now xs) }
{
    let mut trailers = List::new(alloc);
    let mut rest = parts;
    'trailers: loop {
        match front_of(rest) {
            Front::End => return Ok(trailers),
            Front::On(mark, left) => {
                put(alloc, src, tree, &mark, &mut trailers)?;
                rest = left;
            }
        }
    }
}

// What stands before trailers, and the trailers.
#[tactic(auto, using(crate::proofs::Trailing::post_made, crate::proofs::Trailing::post_done, crate::proofs::Trailing::post_token, crate::proofs::Trailing::post_low))]
pub(crate) fn post(
    alloc: Global,
    src: &[u8],
    tree: &Tree,
    id: Id<PyNodes>,
    parts: &[PyPart],
) -> Result<ExprForm, NoMemory>
    requires inside { id.place < length tree.now.nodes }
    requires low { PartsLower id.place parts.now }
    ensures { IfOk result (λ form. SaysOf src.now (tree_at tree.now.nodes) id.place parts.now post form) }
{
    match head_of(parts) {
        Head::Done => Ok(ExprForm::Misshapen),
        Head::Token(_x, _rest) => Ok(ExprForm::Misshapen),
        Head::Node(of, rest) => Ok(ExprForm::Post {
            of,
            trailers: trailers_of(alloc, src, tree, id, rest)?,
        }),
    }
}
