//! What nodes say as statements.

ghost use Rattle.lx_pytree.specs.declared.tree.PyPart.TheVariants as part;
ghost use Rattle.std.specs.Prelude.{ℕ, ◌∷◌, ◌<◌, IfOk, OnOk, List, length};
ghost use Rattle.lx_pytree.specs.Trees.{tree_at};
ghost use Rattle.lx_syntax.specs.Convert.{loop_, simple};
ghost use Rattle.lx_syntax.specs.Says.{IsStmtAt, PartsLower, StmtSaysOf};
ghost use Rattle.lx_syntax.specs.Blocks.{IsArm, IsBound, IsBranch, IsLoop, IsOver, IsPlaceAt, IsPlaceIn, LoopSaysOf, conditional};

use crate::children::{lines, names_of};
use crate::forms::{Branch, Place, StmtForm};
use crate::parts::{Head, head_of, sign_of};
use lx_arena::Id;
use lx_grammar::{Rule, Sign};
use lx_pytree::{PyNodes, PyPart, Tree};
use lx_text::{List, NoMemory};
use lx_token::Token;
use std::alloc::Global;

// Where a value is bound, by the parts of the place.
#[tactic(auto, using(crate::proofs::Simply::place_done, crate::proofs::Simply::place_name, crate::proofs::Simply::place_more, crate::proofs::Simply::place_same))]
fn place_in(parts: &[PyPart]) -> Option<Place>
    ensures { IsPlaceIn parts.now result }
{
    match head_of(parts) {
        Head::Done => None,
        Head::Token(x, rest) => match head_of(rest) {
            Head::Done => Some(Place::Name(x)),
            Head::Token(_x, _rest) => None,
            Head::Node(_id, _rest) => None,
        },
        Head::Node(of, rest) => place_of_node(of, rest),
    }
}

// The same, behind the object.
#[tactic(auto, using(crate::proofs::Simply::of_done, crate::proofs::Simply::of_node, crate::proofs::Simply::of_dot, crate::proofs::Simply::of_dot_node, crate::proofs::Simply::of_name))]
fn place_of_node(of: Id<PyNodes>, parts: &[PyPart]) -> Option<Place>
    ensures { IsPlaceIn (part.Node of ∷ parts.now) result }
{
    match head_of(parts) {
        Head::Done => None,
        Head::Node(_id, _rest) => None,
        Head::Token(dot, rest) => match head_of(rest) {
            Head::Done => None,
            Head::Node(_id, _rest) => None,
            Head::Token(x, left) => attribute_of(of, dot, x, left),
        },
    }
}

// The same, behind the object, the dot and the name.
#[tactic(auto, using(crate::proofs::Simply::name_done, crate::proofs::Simply::name_more))]
fn attribute_of(of: Id<PyNodes>, dot: Token, x: Token, parts: &[PyPart]) -> Option<Place>
    ensures { IsPlaceIn (part.Node of ∷ part.Token dot ∷ part.Token x ∷ parts.now) result }
{
    match head_of(parts) {
        Head::Done => Some(Place::Attribute(of, x)),
        Head::Token(_x, _rest) => None,
        Head::Node(_id, _rest) => None,
    }
}

// Where a value is bound.
#[tactic(auto, using(crate::proofs::Blocking::place_made, crate::proofs::Blocking::no_place))]
fn place_at(tree: &Tree, id: Id<PyNodes>) -> Option<Place>
    requires { id.place < length tree.now.nodes }
    ensures { IsPlaceAt (tree_at tree.now.nodes) id.place result }
{
    let node = tree.node(id);
    match node.rule {
        Rule::Place => place_in(node.parts.as_slice()),
        _ => None,
    }
}

// A statement that binds a place, or adds to it.
#[tactic(auto, using(crate::proofs::Blocking::bound_none, crate::proofs::Blocking::bound_bind, crate::proofs::Blocking::bound_more, crate::proofs::Blocking::bound_other))]
fn bound(sign: Sign, place: Option<Place>, value: Id<PyNodes>) -> StmtForm
    ensures { IsBound sign place value.place result }
{
    match place {
        None => StmtForm::NoStmt,
        Some(place) => match sign {
            Sign::Assign => StmtForm::Bind { place, value },
            Sign::AddAssign => StmtForm::Add { place, value },
            _ => StmtForm::NoStmt,
        },
    }
}

// `pass`, a value, or a binding.
#[tactic(auto, using(crate::proofs::Simply::simple_done, crate::proofs::Simply::simple_pass, crate::proofs::Simply::simple_same, crate::proofs::Simply::simple_low))]
fn simple(src: &[u8], tree: &Tree, id: Id<PyNodes>, parts: &[PyPart]) -> StmtForm
    requires inside { id.place < length tree.now.nodes }
    requires low { PartsLower id.place parts.now }
    ensures { StmtSaysOf src.now (tree_at tree.now.nodes) id.place parts.now simple result }
{
    match head_of(parts) {
        Head::Done => StmtForm::NoStmt,
        Head::Token(_x, _rest) => StmtForm::Pass,
        Head::Node(at, rest) => simple_behind(src, tree, id, at, rest),
    }
}

// The same, behind a node.
#[tactic(auto, using(crate::proofs::Simply::node_done, crate::proofs::Simply::node_node, crate::proofs::Simply::value_made, crate::proofs::Simply::node_token, crate::proofs::Simply::bound_there, crate::proofs::Simply::at_inside))]
fn simple_behind(
    src: &[u8],
    tree: &Tree,
    id: Id<PyNodes>,
    at: Id<PyNodes>,
    parts: &[PyPart],
) -> StmtForm
    requires inside { id.place < length tree.now.nodes }
    requires low { PartsLower id.place (part.Node at ∷ parts.now) }
    ensures { StmtSaysOf src.now (tree_at tree.now.nodes) id.place (part.Node at ∷ parts.now) simple result }
{
    match head_of(parts) {
        Head::Done => StmtForm::NoStmt,
        Head::Node(_id, _rest) => StmtForm::NoStmt,
        Head::Token(x, rest) => match head_of(rest) {
            Head::Done => StmtForm::Value(at),
            Head::Token(_x, _rest) => StmtForm::NoStmt,
            Head::Node(value, _rest) => bound(sign_of(src, &x), place_at(tree, at), value),
        },
    }
}

// A loop over what a node gives.
#[tactic(auto, using(crate::proofs::Blocking::loop_made))]
fn looped(
    alloc: Global,
    src: &[u8],
    tree: &Tree,
    names: Id<PyNodes>,
    source: Id<PyNodes>,
    block: Id<PyNodes>,
) -> Result<StmtForm, NoMemory>
    requires names { names.place < length tree.now.nodes }
    requires block { block.place < length tree.now.nodes }
    ensures { IfOk result (λ form. IsLoop src.now (tree_at tree.now.nodes) names.place source.place block.place form) }
{
    let names = names_of(alloc, src, tree, names)?;
    let body = lines(alloc, tree, block)?;
    Ok(StmtForm::For {
        names,
        source,
        body,
    })
}

// The same, by the parts behind the node.
#[tactic(auto, using(crate::proofs::Looping::over_done, crate::proofs::Looping::over_node, crate::proofs::Looping::over_more, crate::proofs::Looping::over_made, crate::proofs::Looping::over_open, crate::proofs::Looping::over_tokens, crate::proofs::Looping::block_inside))]
fn for_over(
    alloc: Global,
    src: &[u8],
    tree: &Tree,
    names: Id<PyNodes>,
    source: Id<PyNodes>,
    parts: &[PyPart],
) -> Result<StmtForm, NoMemory>
    requires names { names.place < length tree.now.nodes }
    requires low { PartsLower (length tree.now.nodes) parts.now }
    ensures { IfOk result (λ form. IsOver src.now (tree_at tree.now.nodes) names.place source.place parts.now form) }
{
    match head_of(parts) {
        Head::Done => Ok(StmtForm::NoStmt),
        Head::Node(_id, _rest) => Ok(StmtForm::NoStmt),
        Head::Token(_x, rest) => match head_of(rest) {
            Head::Done => Ok(StmtForm::NoStmt),
            Head::Token(_x, _rest) => Ok(StmtForm::NoStmt),
            Head::Node(block, left) => match head_of(left) {
                Head::Done => looped(alloc, src, tree, names, source, block),
                Head::Token(_x, _rest) => Ok(StmtForm::NoStmt),
                Head::Node(_id, _rest) => Ok(StmtForm::NoStmt),
            },
        },
    }
}

// A loop.
#[tactic(auto, using(crate::proofs::Looping::for_done, crate::proofs::Looping::for_node, crate::proofs::Looping::for_same, crate::proofs::Looping::for_low))]
fn for_(
    alloc: Global,
    src: &[u8],
    tree: &Tree,
    id: Id<PyNodes>,
    parts: &[PyPart],
) -> Result<StmtForm, NoMemory>
    requires inside { id.place < length tree.now.nodes }
    requires low { PartsLower id.place parts.now }
    ensures { IfOk result (λ form. StmtSaysOf src.now (tree_at tree.now.nodes) id.place parts.now loop_ form) }
{
    match head_of(parts) {
        Head::Done => Ok(StmtForm::NoStmt),
        Head::Node(_id, _rest) => Ok(StmtForm::NoStmt),
        Head::Token(x, rest) => for_behind(alloc, src, tree, id, x, rest),
    }
}

// The same, behind `for`.
#[tactic(auto, using(crate::proofs::Looping::word_done, crate::proofs::Looping::word_token, crate::proofs::Looping::names_done, crate::proofs::Looping::names_node, crate::proofs::Looping::names_same, crate::proofs::Looping::names_low))]
fn for_behind(
    alloc: Global,
    src: &[u8],
    tree: &Tree,
    id: Id<PyNodes>,
    x: Token,
    parts: &[PyPart],
) -> Result<StmtForm, NoMemory>
    requires inside { id.place < length tree.now.nodes }
    requires low { PartsLower id.place parts.now }
    ensures { IfOk result (λ form. StmtSaysOf src.now (tree_at tree.now.nodes) id.place (part.Token x ∷ parts.now) loop_ form) }
{
    match head_of(parts) {
        Head::Done => Ok(StmtForm::NoStmt),
        Head::Token(_x, _rest) => Ok(StmtForm::NoStmt),
        Head::Node(names, rest) => match head_of(rest) {
            Head::Done => Ok(StmtForm::NoStmt),
            Head::Node(_id, _rest) => Ok(StmtForm::NoStmt),
            Head::Token(y, left) => for_in(alloc, src, tree, id, x, names, y, left),
        },
    }
}

// The same, behind `for`, the names and `in`.
#[tactic(auto, using(crate::proofs::Looping::in_done, crate::proofs::Looping::in_token, crate::proofs::Looping::in_made, crate::proofs::Looping::in_low, crate::proofs::Looping::in_names))]
fn for_in(
    alloc: Global,
    src: &[u8],
    tree: &Tree,
    id: Id<PyNodes>,
    x: Token,
    names: Id<PyNodes>,
    y: Token,
    parts: &[PyPart],
) -> Result<StmtForm, NoMemory>
    requires inside { id.place < length tree.now.nodes }
    requires low { PartsLower id.place (part.Node names ∷ part.Token y ∷ parts.now) }
    ensures { IfOk result (λ form. LoopSaysOf src.now (tree_at tree.now.nodes) id.place x names y parts.now form) }
{
    match head_of(parts) {
        Head::Done => Ok(StmtForm::NoStmt),
        Head::Token(_x, _rest) => Ok(StmtForm::NoStmt),
        Head::Node(source, rest) => for_over(alloc, src, tree, names, source, rest),
    }
}

// What an `if` goes on with: a condition and its block, the block behind `else`, or nothing.
enum Arm<'a> {
    Branch(Id<PyNodes>, Id<PyNodes>, &'a [PyPart]),
    Else(Id<PyNodes>),
    End,
}

#[tactic(auto, using(crate::proofs::Arming::arm_done, crate::proofs::Arming::arm_node, crate::proofs::Arming::arm_same))]
fn arm_of(parts: &[PyPart]) -> Arm<'_>
    ensures { IsArm parts.now result }
{
    match head_of(parts) {
        Head::Done => Arm::End,
        Head::Node(_id, _rest) => Arm::End,
        Head::Token(x, rest) => arm_behind(x, rest),
    }
}

// The same, behind a word.
#[tactic(auto, using(crate::proofs::Arming::word_done, crate::proofs::Arming::behind_same))]
fn arm_behind(x: Token, parts: &[PyPart]) -> Arm<'_>
    ensures { IsArm (part.Token x ∷ parts.now) result }
{
    match head_of(parts) {
        Head::Done => Arm::End,
        Head::Token(y, rest) => arm_else(x, y, rest),
        Head::Node(condition, rest) => arm_branch(x, condition, rest),
    }
}

// The same, behind `else` and `:`.
#[tactic(auto, using(crate::proofs::Arming::else_done, crate::proofs::Arming::else_token, crate::proofs::Arming::else_node))]
fn arm_else(x: Token, y: Token, parts: &[PyPart]) -> Arm<'_>
    ensures { IsArm (part.Token x ∷ part.Token y ∷ parts.now) result }
{
    match head_of(parts) {
        Head::Done => Arm::End,
        Head::Token(_x, _rest) => Arm::End,
        Head::Node(block, _rest) => Arm::Else(block),
    }
}

// The same, behind a word and a condition.
#[tactic(auto, using(crate::proofs::Arming::branch_done, crate::proofs::Arming::branch_node, crate::proofs::Arming::branch_open, crate::proofs::Arming::branch_token, crate::proofs::Arming::branch_block))]
fn arm_branch(x: Token, condition: Id<PyNodes>, parts: &[PyPart]) -> Arm<'_>
    ensures { IsArm (part.Token x ∷ part.Node condition ∷ parts.now) result }
{
    match head_of(parts) {
        Head::Done => Arm::End,
        Head::Node(_id, _rest) => Arm::End,
        Head::Token(_x, rest) => match head_of(rest) {
            Head::Done => Arm::End,
            Head::Token(_x, _rest) => Arm::End,
            Head::Node(block, left) => Arm::Branch(condition, block, left),
        },
    }
}

// Puts a condition and its block behind others.
#[tactic(auto, using(crate::proofs::Blocking::branch_put))]
fn put(
    alloc: Global,
    tree: &Tree,
    condition: Id<PyNodes>,
    block: Id<PyNodes>,
    branches: &mut List<Branch>,
) -> Result<(), NoMemory>
    requires { block.place < length tree.now.nodes }
    ensures { OnOk result (IsBranch (tree_at tree.now.nodes) condition.place block.place branches.old branches.new) }
{
    let body = lines(alloc, tree, block)?;
    branches.push(Branch { condition, body })
}

// Conditions with their blocks, and what is done where none holds.
#[tactic(auto, using(crate::proofs::Blocking::arms_none, crate::proofs::Blocking::arms_more, crate::proofs::Blocking::arms_else, crate::proofs::Blocking::arms_end, crate::proofs::Blocking::block_within, crate::proofs::Blocking::else_within))]
fn if_(alloc: Global, tree: &Tree, id: Id<PyNodes>, parts: &[PyPart]) -> Result<StmtForm, NoMemory>
    requires inside { id.place < length tree.now.nodes }
    requires low { PartsLower id.place parts.now }
    ensures { IfOk result (λ form. (src : List ℕ) → StmtSaysOf src (tree_at tree.now.nodes) id.place parts.now conditional form) }
{
    let mut branches = List::new(alloc);
    let mut rest = parts;
    'branches: loop {
        match arm_of(rest) {
            Arm::Branch(condition, block, left) => {
                put(alloc, tree, condition, block, &mut branches)?;
                rest = left;
            }
            Arm::Else(block) => {
                let rest = lines(alloc, tree, block)?;
                return Ok(StmtForm::If { branches, rest });
            }
            Arm::End => {
                let rest = List::new(alloc);
                return Ok(StmtForm::If { branches, rest });
            }
        }
    }
}

/// What the node at a place says as a statement.
#[tactic(auto, using(crate::proofs::Blocking::simple_at, crate::proofs::Blocking::if_at, crate::proofs::Blocking::for_at, crate::proofs::Blocking::no_stmt_at, crate::proofs::Hanging::parts_within))]
pub(crate) fn stmt(
    alloc: Global,
    src: &[u8],
    tree: &Tree,
    id: Id<PyNodes>,
) -> Result<StmtForm, NoMemory>
    requires { id.place < length tree.now.nodes }
    ensures { IfOk result (λ form. IsStmtAt src.now (tree_at tree.now.nodes) id.place form) }
{
    let node = tree.node(id);
    let parts = node.parts.as_slice();
    match node.rule {
        Rule::Simple => Ok(simple(src, tree, id, parts)),
        Rule::If => if_(alloc, tree, id, parts),
        Rule::For => for_(alloc, src, tree, id, parts),
        _ => Ok(StmtForm::NoStmt),
    }
}
