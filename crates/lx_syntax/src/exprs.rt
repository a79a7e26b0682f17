//! What nodes say as expressions.

ghost use Rattle.lx_pytree.specs.declared.tree.PyPart.TheVariants as part;
ghost use Rattle.std.specs.Prelude.{ℕ, ◌∷◌, ◌≡◌, ◌<◌, ◌≤◌, IfOk, List, length};
ghost use Rattle.lx_pytree.specs.Trees.{plants, tree_at};
ghost use Rattle.lx_syntax.specs.Convert.{atom, chosen, empty, leaf, line_of, line_of_parts, sign_of};
ghost use Rattle.lx_syntax.specs.Forming.{branchings_of};
ghost use Rattle.lx_syntax.specs.Forms.{Lower};
ghost use Rattle.lx_syntax.specs.Says.{HaveLines, IsExprAt, PartsLower, SaysOf};
ghost use Rattle.lx_syntax.specs.Brackets.{IsBare, IsComprehension, IsDictionary, IsGrouped, IsSourced, IsSpelled};

use crate::children::{items, names_of};
use crate::flat::flat;
use crate::forms::{Branching, ExprForm, Node};
use crate::parts::{
    Few, Head, Row, Twos, couples_from, few_of, head_of, nodes_in, row_of, sign_of, split_of,
    twos_of,
};
use crate::trailers::post;
use lx_arena::Id;
use lx_grammar::{Rule, Sign, token_text};
use lx_pytree::{PyNodes, PyPart, Tree};
use lx_text::{List, NoMemory};
use lx_token::{Token, whole_number};
use std::alloc::Global;

// The line of a node below.
pub(crate) fn line_at(tree: &Tree, nodes: &List<Node>, id: Id<PyNodes>) -> u32
    requires inside { id.place < length nodes.now }
    requires lines { HaveLines (tree_at tree.now.nodes) nodes.now }
    ensures { result ≡ line_of (tree_at tree.now.nodes id.place) }
{
    nodes.at(id.place).line
}

// Conditions and what else is chosen, in a conditional that begins on this line.
#[tactic(auto, using(crate::proofs::Bracketing::branchings_begin, crate::proofs::Bracketing::branchings_more, crate::proofs::Bracketing::branchings_all, crate::proofs::Bracketing::value_inside))]
fn branchings_of(
    alloc: Global,
    tree: &Tree,
    nodes: &List<Node>,
    begin: u32,
    ids: &[Id<PyNodes>],
) -> Result<List<Branching>, NoMemory>
    requires inside { Lower (length nodes.now) ids.now }
    requires lines { HaveLines (tree_at tree.now.nodes) nodes.now }
    ensures { IfOk result (λ made. made ≡ branchings_of (λ k. line_of (tree_at tree.now.nodes k)) begin ids.now) }
{
    let mut made = List::new(alloc);
    let mut line = begin;
    let mut rest = ids;
    'branchings: loop {
        match twos_of(rest) {
            Twos::Done => return Ok(made),
            Twos::Next(condition, value, left) => {
                made.push(Branching {
                    line,
                    condition,
                    value,
                })?;
                line = line_at(tree, nodes, value);
                rest = left;
            }
        }
    }
}

// A conditional.
#[tactic(auto, using(crate::proofs::Bracketing::choice_made, crate::proofs::Bracketing::no_choice, crate::proofs::Bracketing::nodes_inside, crate::proofs::Bracketing::value_rest))]
fn choice(
    alloc: Global,
    tree: &Tree,
    nodes: &List<Node>,
    id: Id<PyNodes>,
    parts: &[PyPart],
    line: u32,
) -> Result<ExprForm, NoMemory>
    requires inside { id.place ≤ length nodes.now }
    requires lines { HaveLines (tree_at tree.now.nodes) nodes.now }
    requires low { PartsLower id.place parts.now }
    requires begin { line ≡ line_of_parts (plants (tree_at tree.now.nodes) parts.now) }
    ensures { IfOk result (λ form. (src : List ℕ) → SaysOf src (tree_at tree.now.nodes) id.place parts.now chosen form) }
{
    let ids = nodes_in(alloc, parts)?;
    match row_of(ids.as_slice()) {
        Row::Done => Ok(ExprForm::Misshapen),
        Row::Next(value, rest) => Ok(ExprForm::Choice {
            value,
            rest: branchings_of(alloc, tree, nodes, line, rest)?,
        }),
    }
}

// A token that stands alone.
#[tactic(auto, unfolding(crate::specs::Convert::leaf, crate::specs::Forms::expr_form, crate::specs::Forms::expr_ids))]
fn leaf(src: &[u8], token: &Token) -> ExprForm
    ensures { IsBare src.now token.now.line (leaf src.now token.now (sign_of src.now token.now)) result }
{
    match sign_of(src, token) {
        Sign::Name => ExprForm::Name(*token),
        Sign::Init => ExprForm::Name(*token),
        Sign::SelfName => ExprForm::Name(*token),
        Sign::Number => ExprForm::Number(whole_number(token_text(src, token))),
        Sign::Text => ExprForm::Quoted(*token),
        Sign::None => ExprForm::Nothing,
        Sign::True => ExprForm::Truth(true),
        Sign::False => ExprForm::Truth(false),
        _ => ExprForm::Misshapen,
    }
}

// Brackets with nothing between them.
#[tactic(auto, unfolding(crate::specs::Convert::empty, crate::specs::Forms::expr_form, crate::specs::Forms::expr_ids, crate::specs::Forms::items_at, crate::specs::Forms::pairs_at, crate::specs::Forms::couple_ids))]
fn empty(alloc: Global, src: &[u8], token: &Token) -> ExprForm
    ensures { IsBare src.now token.now.line (empty (sign_of src.now token.now) token.now.line) result }
{
    match sign_of(src, token) {
        Sign::OpenRound => ExprForm::Tuple(List::new(alloc)),
        Sign::OpenSquare => ExprForm::Listed(List::new(alloc)),
        Sign::OpenCurly => ExprForm::Dictionary(List::new(alloc)),
        _ => ExprForm::Misshapen,
    }
}

// One expression, or several with commas, in brackets.
#[tactic(auto, using(crate::proofs::Bracketing::group_same, crate::proofs::Bracketing::group_list, crate::proofs::Bracketing::group_other))]
fn grouped(
    alloc: Global,
    src: &[u8],
    tree: &Tree,
    id: Id<PyNodes>,
    token: &Token,
    inner: Id<PyNodes>,
) -> Result<ExprForm, NoMemory>
    requires inside { id.place < length tree.now.nodes }
    requires low { inner.place < id.place }
    ensures { IfOk result (λ form. IsGrouped src.now (tree_at tree.now.nodes) id.place token.now inner.place form) }
{
    match sign_of(src, token) {
        Sign::OpenRound => Ok(ExprForm::Same(inner)),
        Sign::OpenSquare => Ok(ExprForm::Listed(items(alloc, tree, inner)?)),
        _ => Ok(ExprForm::Misshapen),
    }
}

// A comprehension by its item, its names, and its source with a filter where there is one.
#[tactic(auto, using(crate::proofs::Bracketing::no_source, crate::proofs::Bracketing::one_source, crate::proofs::Bracketing::two_sources, crate::proofs::Bracketing::too_many_sources))]
fn sourced(item: Id<PyNodes>, names: List<Token>, ids: &[Id<PyNodes>]) -> ExprForm
    ensures { IsSourced item.place names ids.now result }
{
    match few_of(ids) {
        Few::Zero => ExprForm::Misshapen,
        Few::One(source) => ExprForm::Comprehension {
            item,
            names,
            source,
            filter: None,
        },
        Few::Two(source, filter) => ExprForm::Comprehension {
            item,
            names,
            source,
            filter: Some(filter),
        },
        Few::Many => ExprForm::Misshapen,
    }
}

// A comprehension.
#[tactic(auto, using(crate::proofs::Bracketing::comprehension_made))]
fn comprehension(
    alloc: Global,
    src: &[u8],
    tree: &Tree,
    id: Id<PyNodes>,
    item: Id<PyNodes>,
    names: Id<PyNodes>,
    parts: &[PyPart],
) -> Result<ExprForm, NoMemory>
    requires inside { id.place < length tree.now.nodes }
    requires item { item.place < id.place }
    requires names { names.place < id.place }
    requires low { PartsLower id.place parts.now }
    ensures { IfOk result (λ form. IsComprehension src.now (tree_at tree.now.nodes) id.place item.place names.place parts.now form) }
{
    let names = names_of(alloc, src, tree, names)?;
    let ids = nodes_in(alloc, parts)?;
    Ok(sourced(item, names, ids.as_slice()))
}

// Pairs of keys and values.
#[tactic(auto, using(crate::proofs::Bracketing::pairs_made))]
fn dictionary(
    alloc: Global,
    id: Id<PyNodes>,
    key: Id<PyNodes>,
    value: Id<PyNodes>,
    parts: &[PyPart],
) -> Result<ExprForm, NoMemory>
    requires key { key.place < id.place }
    requires value { value.place < id.place }
    requires low { PartsLower id.place parts.now }
    ensures { IfOk result (λ form. IsDictionary id.place key.place value.place parts.now form) }
{
    let ids = nodes_in(alloc, parts)?;
    let pairs = couples_from(alloc, key, value, ids.as_slice())?;
    Ok(ExprForm::Dictionary(pairs))
}

// A comprehension, or pairs.
#[tactic(auto, using(crate::proofs::Bracketing::spell_list, crate::proofs::Bracketing::spell_pairs, crate::proofs::Bracketing::spell_none))]
fn spelled(
    alloc: Global,
    src: &[u8],
    tree: &Tree,
    id: Id<PyNodes>,
    token: &Token,
    first: Id<PyNodes>,
    second: Id<PyNodes>,
    parts: &[PyPart],
) -> Result<ExprForm, NoMemory>
    requires inside { id.place < length tree.now.nodes }
    requires first { first.place < id.place }
    requires second { second.place < id.place }
    requires low { PartsLower id.place parts.now }
    ensures { IfOk result (λ form. IsSpelled src.now (tree_at tree.now.nodes) id.place token.now first.place second.place parts.now form) }
{
    match sign_of(src, token) {
        Sign::OpenSquare => comprehension(alloc, src, tree, id, first, second, parts),
        Sign::OpenCurly => dictionary(alloc, id, first, second, parts),
        _ => Ok(ExprForm::Misshapen),
    }
}

// What is written in one word, or between brackets.
#[tactic(auto, using(crate::proofs::Wording::atom_done, crate::proofs::Wording::atom_node, crate::proofs::Wording::atom_same, crate::proofs::Wording::atom_low))]
fn atom(
    alloc: Global,
    src: &[u8],
    tree: &Tree,
    id: Id<PyNodes>,
    parts: &[PyPart],
) -> Result<ExprForm, NoMemory>
    requires inside { id.place < length tree.now.nodes }
    requires low { PartsLower id.place parts.now }
    ensures { IfOk result (λ form. SaysOf src.now (tree_at tree.now.nodes) id.place parts.now atom form) }
{
    match head_of(parts) {
        Head::Done => Ok(ExprForm::Misshapen),
        Head::Node(_id, _rest) => Ok(ExprForm::Misshapen),
        Head::Token(x, rest) => atom_behind(alloc, src, tree, id, x, rest),
    }
}

// The same, behind a token.
#[tactic(auto, using(crate::proofs::Wording::leaf_made, crate::proofs::Wording::empty_made, crate::proofs::Wording::empty_token, crate::proofs::Wording::empty_node, crate::proofs::Wording::inner_same, crate::proofs::Wording::inner_low, crate::proofs::Wording::inner_rest))]
fn atom_behind(
    alloc: Global,
    src: &[u8],
    tree: &Tree,
    id: Id<PyNodes>,
    x: Token,
    parts: &[PyPart],
) -> Result<ExprForm, NoMemory>
    requires inside { id.place < length tree.now.nodes }
    requires low { PartsLower id.place parts.now }
    ensures { IfOk result (λ form. SaysOf src.now (tree_at tree.now.nodes) id.place (part.Token x ∷ parts.now) atom form) }
{
    match head_of(parts) {
        Head::Done => Ok(leaf(src, &x)),
        Head::Token(_x, rest) => match head_of(rest) {
            Head::Done => Ok(empty(alloc, src, &x)),
            Head::Token(_x, _rest) => Ok(ExprForm::Misshapen),
            Head::Node(_id, _rest) => Ok(ExprForm::Misshapen),
        },
        Head::Node(inner, rest) => atom_in(alloc, src, tree, id, x, inner, rest),
    }
}

// The same, behind a bracket and a node.
#[tactic(auto, using(crate::proofs::Wording::open_done, crate::proofs::Wording::open_node, crate::proofs::Wording::group_made, crate::proofs::Wording::group_token, crate::proofs::Wording::spell_made, crate::proofs::Wording::second_low, crate::proofs::Wording::second_rest))]
fn atom_in(
    alloc: Global,
    src: &[u8],
    tree: &Tree,
    id: Id<PyNodes>,
    x: Token,
    inner: Id<PyNodes>,
    parts: &[PyPart],
) -> Result<ExprForm, NoMemory>
    requires inside { id.place < length tree.now.nodes }
    requires inner { inner.place < id.place }
    requires low { PartsLower id.place parts.now }
    ensures { IfOk result (λ form. SaysOf src.now (tree_at tree.now.nodes) id.place (part.Token x ∷ part.Node inner ∷ parts.now) atom form) }
{
    match head_of(parts) {
        Head::Done => Ok(ExprForm::Misshapen),
        Head::Node(_id, _rest) => Ok(ExprForm::Misshapen),
        Head::Token(_x, rest) => match head_of(rest) {
            Head::Done => grouped(alloc, src, tree, id, &x, inner),
            Head::Token(_x, _rest) => Ok(ExprForm::Misshapen),
            Head::Node(second, left) => spelled(alloc, src, tree, id, &x, inner, second, left),
        },
    }
}

/// What the node at a place says as an expression.
#[tactic(auto, using(crate::proofs::Flats::post_at, crate::proofs::Flats::atom_at, crate::proofs::Flats::choice_at, crate::proofs::Flats::flat_at, crate::proofs::Hanging::parts_within))]
pub(crate) fn expr(
    alloc: Global,
    src: &[u8],
    tree: &Tree,
    nodes: &List<Node>,
    id: Id<PyNodes>,
    line: u32,
) -> Result<ExprForm, NoMemory>
    requires inside { id.place < length tree.now.nodes }
    requires known { id.place ≤ length nodes.now }
    requires lines { HaveLines (tree_at tree.now.nodes) nodes.now }
    requires begin { line ≡ line_of (tree_at tree.now.nodes id.place) }
    ensures { IfOk result (λ form. IsExprAt src.now (tree_at tree.now.nodes) id.place form) }
{
    let node = tree.node(id);
    let parts = node.parts.as_slice();
    match node.rule {
        Rule::Post => post(alloc, src, tree, id, parts),
        Rule::Atom => atom(alloc, src, tree, id, parts),
        Rule::Expr => choice(alloc, tree, nodes, id, parts, line),
        _ => {
            let split = split_of(alloc, parts)?;
            flat(alloc, src, node.rule, split)
        }
    }
}
