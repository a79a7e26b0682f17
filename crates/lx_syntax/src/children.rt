//! What a node is to the one above it: items, names, a block, arguments, an index.

ghost use Rattle.lx_pytree.specs.declared.tree.PyPart.TheVariants as part;
ghost use Rattle.std.specs.Prelude.{◌≡◌, ◌∷◌, ◌<◌, IfOk, length, map};
ghost use Rattle.lx_pytree.specs.Trees.{tree_at};
ghost use Rattle.lx_syntax.specs.Convert.{names_of};
ghost use Rattle.lx_syntax.specs.Forms.{Lower};
ghost use Rattle.lx_syntax.specs.Says.{AreArguments, AreItems, AreLines, IsIndex, IsSlice, argument_of};

use crate::forms::{Argument, Trailer};
use crate::parts::{Head, Row, head_of, names_among, nodes_in, row_of, tokens_in};
use lx_arena::Id;
use lx_grammar::Rule;
use lx_pytree::{PyNodes, PyPart, Tree};
use lx_text::{List, NoMemory};
use lx_token::Token;
use std::alloc::Global;

// The names of a node.
#[tactic(auto, using(crate::proofs::Hanging::names_at))]
pub(crate) fn names_of(
    alloc: Global,
    src: &[u8],
    tree: &Tree,
    id: Id<PyNodes>,
) -> Result<List<Token>, NoMemory>
    requires { id.place < length tree.now.nodes }
    ensures { IfOk result (λ names. names ≡ names_of src.now (tree_at tree.now.nodes id.place)) }
{
    let node = tree.node(id);
    let tokens = tokens_in(alloc, node.parts.as_slice())?;
    names_among(alloc, src, tokens.as_slice())
}

// The items of several expressions with commas, or one item.
#[tactic(auto, using(crate::proofs::Hanging::items_of_values, crate::proofs::Hanging::item_alone))]
pub(crate) fn items(
    alloc: Global,
    tree: &Tree,
    id: Id<PyNodes>,
) -> Result<List<Id<PyNodes>>, NoMemory>
    requires { id.place < length tree.now.nodes }
    ensures { IfOk result (λ ids. AreItems (tree_at tree.now.nodes) id.place ids) }
{
    let node = tree.node(id);
    match node.rule {
        Rule::Values => nodes_in(alloc, node.parts.as_slice()),
        _ => List::of_one(alloc, id),
    }
}

// The statements of a block of lines, or one on the same line.
#[tactic(auto, using(crate::proofs::Hanging::lines_of_suite, crate::proofs::Hanging::line_alone))]
pub(crate) fn lines(
    alloc: Global,
    tree: &Tree,
    id: Id<PyNodes>,
) -> Result<List<Id<PyNodes>>, NoMemory>
    requires { id.place < length tree.now.nodes }
    ensures { IfOk result (λ ids. AreLines (tree_at tree.now.nodes) id.place ids) }
{
    let node = tree.node(id);
    match node.rule {
        Rule::Suite => nodes_in(alloc, node.parts.as_slice()),
        _ => List::of_one(alloc, id),
    }
}

// The argument that a node is.
#[tactic(auto, using(crate::proofs::Hanging::way_other), unfolding(crate::specs::Convert::way_of, lx_pytree::specs::Trees::plants))]
fn argument(tree: &Tree, id: Id<PyNodes>) -> Argument
    requires { id.place < length tree.now.nodes }
    ensures { result ≡ argument_of (tree_at tree.now.nodes) id }
{
    let node = tree.node(id);
    match node.rule {
        Rule::Arg => match node.parts.as_slice() {
            [] => Argument::Placed(id),
            [PyPart::Node(_), ..] => Argument::Placed(id),
            [PyPart::Token(_)] => Argument::Placed(id),
            [PyPart::Token(_), PyPart::Node(_), ..] => Argument::Starred(id),
            [PyPart::Token(name), PyPart::Token(_), ..] => Argument::Keyed(*name, id),
        },
        _ => Argument::Placed(id),
    }
}

// The arguments that nodes are.
#[tactic(auto, unfolding(crate::specs::Forms::Lower))]
fn arguments_of(alloc: Global, tree: &Tree, ids: &[Id<PyNodes>]) -> Result<List<Argument>, NoMemory>
    requires { Lower (length tree.now.nodes) ids.now }
    ensures { IfOk result (λ args. args ≡ map (argument_of (tree_at tree.now.nodes)) ids.now) }
{
    let mut args = List::new(alloc);
    let mut rest = ids;
    'given: loop {
        match row_of(rest) {
            Row::Done => return Ok(args),
            Row::Next(id, left) => {
                args.push(argument(tree, id))?;
                rest = left;
            }
        }
    }
}

// The arguments between round brackets: several with commas, or one.
#[tactic(auto, using(crate::proofs::Hanging::arguments_of_args, crate::proofs::Hanging::argument_alone, crate::proofs::Hanging::nodes_within))]
pub(crate) fn arguments(
    alloc: Global,
    tree: &Tree,
    id: Id<PyNodes>,
) -> Result<List<Argument>, NoMemory>
    requires { id.place < length tree.now.nodes }
    ensures { IfOk result (λ args. AreArguments (tree_at tree.now.nodes) id.place args) }
{
    let node = tree.node(id);
    match node.rule {
        Rule::Args => {
            let ids = nodes_in(alloc, node.parts.as_slice())?;
            arguments_of(alloc, tree, ids.as_slice())
        }
        _ => List::of_one(alloc, argument(tree, id)),
    }
}

// The index or the slice between square brackets.
#[tactic(auto, using(crate::proofs::Hanging::index_of_sub, crate::proofs::Hanging::index_alone))]
pub(crate) fn index(tree: &Tree, id: Id<PyNodes>) -> Trailer
    requires { id.place < length tree.now.nodes }
    ensures { IsIndex (tree_at tree.now.nodes) id.place result }
{
    let node = tree.node(id);
    match node.rule {
        Rule::Sub => slice(id, node.parts.as_slice()),
        _ => Trailer::Item(id),
    }
}

// A slice by its bounds.
#[tactic(auto, using(crate::proofs::Hanging::slice_done, crate::proofs::Hanging::slice_same))]
fn slice(id: Id<PyNodes>, parts: &[PyPart]) -> Trailer
    ensures { IsSlice id parts.now result }
{
    match head_of(parts) {
        Head::Done => Trailer::Item(id),
        Head::Token(x, rest) => slice_behind(id, x, rest),
        Head::Node(low, rest) => slice_from(id, low, rest),
    }
}

// Behind the `:` of a slice without a low bound.
#[tactic(auto, using(crate::proofs::Hanging::whole_slice, crate::proofs::Hanging::no_slice, crate::proofs::Hanging::high_slice, crate::proofs::Hanging::high_many))]
fn slice_behind(id: Id<PyNodes>, x: Token, parts: &[PyPart]) -> Trailer
    ensures { IsSlice id (part.Token x ∷ parts.now) result }
{
    match head_of(parts) {
        Head::Done => Trailer::Slice(None, None),
        Head::Token(_x, _rest) => Trailer::Item(id),
        Head::Node(high, rest) => match head_of(rest) {
            Head::Done => Trailer::Slice(None, Some(high)),
            Head::Token(_x, _rest) => Trailer::Item(id),
            Head::Node(_id, _rest) => Trailer::Item(id),
        },
    }
}

// Behind the low bound of a slice.
#[tactic(auto, using(crate::proofs::Hanging::low_alone, crate::proofs::Hanging::low_node, crate::proofs::Hanging::low_token))]
fn slice_from(id: Id<PyNodes>, low: Id<PyNodes>, parts: &[PyPart]) -> Trailer
    ensures { IsSlice id (part.Node low ∷ parts.now) result }
{
    match head_of(parts) {
        Head::Done => Trailer::Item(id),
        Head::Node(_id, _rest) => Trailer::Item(id),
        Head::Token(x, rest) => slice_on(id, low, x, rest),
    }
}

// Behind the low bound and the `:` of a slice.
#[tactic(auto, using(crate::proofs::Hanging::low_slice, crate::proofs::Hanging::low_no_slice, crate::proofs::Hanging::both_slice, crate::proofs::Hanging::both_many))]
fn slice_on(id: Id<PyNodes>, low: Id<PyNodes>, x: Token, parts: &[PyPart]) -> Trailer
    ensures { IsSlice id (part.Node low ∷ part.Token x ∷ parts.now) result }
{
    match head_of(parts) {
        Head::Done => Trailer::Slice(Some(low), None),
        Head::Token(_x, _rest) => Trailer::Item(id),
        Head::Node(high, rest) => match head_of(rest) {
            Head::Done => Trailer::Slice(Some(low), Some(high)),
            Head::Token(_x, _rest) => Trailer::Item(id),
            Head::Node(_id, _rest) => Trailer::Item(id),
        },
    }
}
