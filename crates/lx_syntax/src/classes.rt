//! What the classes of a file say.

ghost use Rattle.std.specs.Prelude.{None, ◌≡◌, ◌<◌, ◌≤◌, IfOk, MatchOption, OnOk, length};
ghost use Rattle.lx_pytree.specs.Trees.{tree_at};
ghost use Rattle.lx_syntax.specs.Classes.{is_assign};
ghost use Rattle.lx_syntax.specs.Forming.{last_in};
ghost use Rattle.lx_syntax.specs.Convert.{line_of};
ghost use Rattle.lx_syntax.specs.Forms.{Lower};
ghost use Rattle.lx_syntax.specs.Says.{HaveLines, PartsLower};
ghost use Rattle.lx_syntax.specs.Classing.{AreAmong, AreBody, AreClasses, AreInitParams, AreParams, IsClassAt, IsFirstInit, IsInit, IsNamed, IsNext, IsPut, IsTail, IsWith, NoToken};

use crate::children::lines;
use crate::exprs::line_at;
use crate::forms::{ClassForm, Node, Parameter};
use crate::parts::{
    Head, Line, Row, head_of, is_name, line_of, names_among, nodes_in, row_of, sign_of, tokens_in,
};
use lx_arena::Id;
use lx_grammar::{Rule, Sign};
use lx_pytree::{PyNodes, PyPart, Tree};
use lx_text::{List, NoMemory};
use lx_token::Token;
use std::alloc::Global;

#[tactic(auto, unfolding(crate::specs::Classes::is_assign))]
fn is_assign(sign: Sign) -> bool
    ensures { result ≡ is_assign sign }
{
    match sign {
        Sign::Assign => true,
        _ => false,
    }
}

// The first parameter among parts and the parts behind it, or the end.
enum Next<'a> {
    End,
    On(Parameter, &'a [PyPart]),
}

// A parameter by its name and the parts behind it.
#[tactic(auto, using(crate::proofs::Classing::plain_done, crate::proofs::Classing::plain_node, crate::proofs::Classing::plain_one, crate::proofs::Classing::plain_two, crate::proofs::Classing::plain_default, crate::proofs::Classing::default_there, crate::proofs::Classing::no_param))]
fn named<'a>(src: &[u8], name: &Token, parts: &'a [PyPart]) -> Next<'a>
    ensures { IsNamed src.now name.now parts.now result }
{
    if !is_name(sign_of(src, name)) {
        return Next::End;
    }
    let plain = Parameter {
        name: *name,
        default: None,
    };
    match head_of(parts) {
        Head::Done => Next::On(plain, parts),
        Head::Node(_id, _rest) => Next::On(plain, parts),
        Head::Token(sign, rest) => match head_of(rest) {
            Head::Done => Next::On(plain, parts),
            Head::Token(_x, _rest) => Next::On(plain, parts),
            Head::Node(default, left) => {
                if is_assign(sign_of(src, &sign)) {
                    Next::On(
                        Parameter {
                            name: *name,
                            default: Some(default),
                        },
                        left,
                    )
                } else {
                    Next::On(plain, parts)
                }
            }
        },
    }
}

#[tactic(auto, using(crate::proofs::Classing::next_done, crate::proofs::Classing::next_node, crate::proofs::Classing::next_one, crate::proofs::Classing::next_open, crate::proofs::Classing::next_from))]
fn next_of<'a>(src: &[u8], parts: &'a [PyPart]) -> Next<'a>
    ensures { IsNext src.now parts.now result }
{
    match head_of(parts) {
        Head::Done => Next::End,
        Head::Node(_id, _rest) => Next::End,
        Head::Token(_x, rest) => match head_of(rest) {
            Head::Done => Next::End,
            Head::Node(_id, _rest) => Next::End,
            Head::Token(name, left) => named(src, &name, left),
        },
    }
}

// Parameters, each with a comma before it.
#[tactic(auto, using(crate::proofs::Classing::params_none, crate::proofs::Classing::params_more, crate::proofs::Classing::params_all))]
fn params_of(alloc: Global, src: &[u8], parts: &[PyPart]) -> Result<List<Parameter>, NoMemory>
    ensures { IfOk result (λ params. AreParams src.now parts.now params) }
{
    let mut params = List::new(alloc);
    let mut rest = parts;
    'params: loop {
        match next_of(src, rest) {
            Next::End => return Ok(params),
            Next::On(param, left) => {
                params.push(param)?;
                rest = left;
            }
        }
    }
}

// The last part, where it is a node.
#[tactic(auto, unfolding(crate::specs::Forming::last_in))]
fn last_in(parts: &[PyPart]) -> Option<Id<PyNodes>>
    ensures { result ≡ last_in None parts.now }
{
    let mut last = None;
    for part in parts {
        last = match part {
            PyPart::Token(_) => None,
            PyPart::Node(id) => Some(*id),
        };
    }
    last
}

// The block that is the last part.
#[tactic(auto, using(crate::proofs::Classing::body_last, crate::proofs::Classing::no_body, crate::proofs::Classing::last_within))]
fn body_of(
    alloc: Global,
    tree: &Tree,
    id: Id<PyNodes>,
    parts: &[PyPart],
) -> Result<List<Id<PyNodes>>, NoMemory>
    requires inside { id.place < length tree.now.nodes }
    requires low { PartsLower id.place parts.now }
    ensures { IfOk result (λ ids. AreBody (tree_at tree.now.nodes) id.place parts.now ids) }
{
    match last_in(parts) {
        None => Ok(List::new(alloc)),
        Some(block) => lines(alloc, tree, block),
    }
}

// What stands behind a token, where parts begin with one.
#[tactic(auto, using(crate::proofs::Classing::tail_done, crate::proofs::Classing::tail_node, crate::proofs::Classing::tail_token))]
fn tail_of(parts: &[PyPart]) -> Option<&[PyPart]>
    ensures { MatchOption result (NoToken parts.now) (λ rest. IsTail parts.now rest.now) }
{
    match head_of(parts) {
        Head::Done => None,
        Head::Node(_id, _rest) => None,
        Head::Token(_x, rest) => Some(rest),
    }
}

// The parameters behind `def`, `__init__`, the bracket and `self`.
#[tactic(auto, using(crate::proofs::Classing::heads_none, crate::proofs::Classing::heads_one, crate::proofs::Classing::heads_two, crate::proofs::Classing::heads_three, crate::proofs::Classing::heads_all))]
fn init_params(alloc: Global, src: &[u8], parts: &[PyPart]) -> Result<List<Parameter>, NoMemory>
    ensures { IfOk result (λ params. AreInitParams src.now parts.now params) }
{
    let Some(first) = tail_of(parts) else {
        return Ok(List::new(alloc));
    };
    let Some(second) = tail_of(first) else {
        return Ok(List::new(alloc));
    };
    let Some(third) = tail_of(second) else {
        return Ok(List::new(alloc));
    };
    let Some(rest) = tail_of(third) else {
        return Ok(List::new(alloc));
    };
    params_of(alloc, src, rest)
}

// The line, the parameters and the block of an `__init__`.
#[derive(Drop)]
pub(crate) struct Init {
    pub(crate) line: u32,
    pub(crate) params: List<Parameter>,
    pub(crate) body: List<Id<PyNodes>>,
}

#[tactic(auto, using(crate::proofs::Classing::init_made, crate::proofs::Classing::init_other, crate::proofs::Hanging::parts_within))]
fn init_at(
    alloc: Global,
    src: &[u8],
    tree: &Tree,
    line: u32,
    id: Id<PyNodes>,
) -> Result<Init, NoMemory>
    requires inside { id.place < length tree.now.nodes }
    requires line { line ≡ line_of (tree_at tree.now.nodes id.place) }
    ensures { IfOk result (λ init. IsInit src.now (tree_at tree.now.nodes) id.place init) }
{
    let node = tree.node(id);
    let parts = node.parts.as_slice();
    match node.rule {
        Rule::Init => {
            let params = init_params(alloc, src, parts)?;
            let body = body_of(alloc, tree, id, parts)?;
            Ok(Init { line, params, body })
        }
        _ => {
            let params = List::new(alloc);
            let body = List::new(alloc);
            Ok(Init { line, params, body })
        }
    }
}

// The `__init__` that is the first node, where there is one.
#[tactic(auto, using(crate::proofs::Classing::first_init, crate::proofs::Classing::no_init, crate::proofs::Classing::first_inside))]
fn init_among(
    alloc: Global,
    src: &[u8],
    tree: &Tree,
    nodes: &List<Node>,
    ids: &[Id<PyNodes>],
) -> Result<Init, NoMemory>
    requires inside { Lower (length nodes.now) ids.now }
    requires known { length nodes.now ≤ length tree.now.nodes }
    requires lines { HaveLines (tree_at tree.now.nodes) nodes.now }
    ensures { IfOk result (λ init. IsFirstInit src.now (tree_at tree.now.nodes) ids.now init) }
{
    match row_of(ids) {
        Row::Done => {
            let params = List::new(alloc);
            let body = List::new(alloc);
            Ok(Init {
                line: 0,
                params,
                body,
            })
        }
        Row::Next(id, _rest) => init_at(alloc, src, tree, line_at(tree, nodes, id), id),
    }
}

fn copied(alloc: Global, tokens: &[Token]) -> Result<List<Token>, NoMemory>
    ensures { IfOk result (λ list. list ≡ tokens.now) }
{
    Ok(List::from_vec(Vec::from_slice(alloc, tokens)?))
}

// A class by its line, the names in its head, and its `__init__`.
#[tactic(auto, using(crate::proofs::Classing::class_named, crate::proofs::Classing::class_nameless))]
fn class_with(
    alloc: Global,
    line: u32,
    names: &[Token],
    init: Init,
) -> Result<Option<ClassForm>, NoMemory>
    ensures { IfOk result (λ made. IsWith line names.now init made) }
{
    match line_of(names) {
        Line::Done => Ok(None),
        Line::Next(name, rest) => {
            let bases = copied(alloc, rest)?;
            Ok(Some(ClassForm {
                line,
                name,
                bases,
                init_line: init.line,
                params: init.params,
                body: init.body,
            }))
        }
    }
}

// The class that a node is, if it is one.
#[tactic(auto, using(crate::proofs::Classing::class_made, crate::proofs::Classing::class_other, crate::proofs::Classing::class_nodes))]
fn class_at(
    alloc: Global,
    src: &[u8],
    tree: &Tree,
    nodes: &List<Node>,
    id: Id<PyNodes>,
) -> Result<Option<ClassForm>, NoMemory>
    requires inside { id.place < length nodes.now }
    requires known { length nodes.now ≤ length tree.now.nodes }
    requires lines { HaveLines (tree_at tree.now.nodes) nodes.now }
    ensures { IfOk result (λ made. IsClassAt src.now (tree_at tree.now.nodes) id.place made) }
{
    let node = tree.node(id);
    match node.rule {
        Rule::Class => {
            let tokens = tokens_in(alloc, node.parts.as_slice())?;
            let names = names_among(alloc, src, tokens.as_slice())?;
            let ids = nodes_in(alloc, node.parts.as_slice())?;
            let init = init_among(alloc, src, tree, nodes, ids.as_slice())?;
            class_with(alloc, line_at(tree, nodes, id), names.as_slice(), init)
        }
        _ => Ok(None),
    }
}

// Puts the class that a node is behind others, if it is one.
#[tactic(auto, using(crate::proofs::Classing::class_put, crate::proofs::Classing::class_not_put))]
fn put(
    alloc: Global,
    src: &[u8],
    tree: &Tree,
    nodes: &List<Node>,
    id: Id<PyNodes>,
    classes: &mut List<ClassForm>,
) -> Result<(), NoMemory>
    requires inside { id.place < length nodes.now }
    requires known { length nodes.now ≤ length tree.now.nodes }
    requires lines { HaveLines (tree_at tree.now.nodes) nodes.now }
    ensures { OnOk result (IsPut src.now (tree_at tree.now.nodes) id.place classes.old classes.new) }
{
    match class_at(alloc, src, tree, nodes, id)? {
        None => Ok(()),
        Some(class) => classes.push(class),
    }
}

// The classes that nodes are.
#[tactic(auto, using(crate::proofs::Classing::classes_none, crate::proofs::Classing::classes_more, crate::proofs::Classing::classes_all, crate::proofs::Classing::next_inside))]
fn classes_among(
    alloc: Global,
    src: &[u8],
    tree: &Tree,
    nodes: &List<Node>,
    ids: &[Id<PyNodes>],
) -> Result<List<ClassForm>, NoMemory>
    requires inside { Lower (length nodes.now) ids.now }
    requires known { length nodes.now ≤ length tree.now.nodes }
    requires lines { HaveLines (tree_at tree.now.nodes) nodes.now }
    ensures { IfOk result (λ made. AreAmong src.now (tree_at tree.now.nodes) (length nodes.now) ids.now made) }
{
    let mut classes = List::new(alloc);
    let mut rest = ids;
    'classes: loop {
        match row_of(rest) {
            Row::Done => return Ok(classes),
            Row::Next(id, left) => {
                put(alloc, src, tree, nodes, id, &mut classes)?;
                rest = left;
            }
        }
    }
}

/// The classes of the file that hangs at a place.
#[tactic(auto, using(crate::proofs::Classing::file_made, crate::proofs::Classing::file_other, crate::proofs::Classing::class_nodes))]
pub(crate) fn classes_of(
    alloc: Global,
    src: &[u8],
    tree: &Tree,
    nodes: &List<Node>,
    id: Id<PyNodes>,
) -> Result<List<ClassForm>, NoMemory>
    requires inside { id.place < length nodes.now }
    requires known { length nodes.now ≤ length tree.now.nodes }
    requires lines { HaveLines (tree_at tree.now.nodes) nodes.now }
    ensures { IfOk result (λ made. AreClasses src.now (tree_at tree.now.nodes) (length nodes.now) id.place made) }
{
    let node = tree.node(id);
    let parts = node.parts.as_slice();
    match node.rule {
        Rule::File => {
            let ids = nodes_in(alloc, parts)?;
            classes_among(alloc, src, tree, nodes, ids.as_slice())
        }
        _ => Ok(List::new(alloc)),
    }
}
