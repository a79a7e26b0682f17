//! The syntax of a description by its tree.

ghost use Rattle.std.specs.Prelude.{Some, ◌≡◌, ◌+◌, ◌<◌, ◌≤◌, IfOk, OnOk, length, slice_get};
ghost use Rattle.lx_pytree.specs.Reading.{tree_of};
ghost use Rattle.lx_pytree.specs.Trees.{plants, tree_at};
ghost use Rattle.lx_syntax.specs.Classes.{classes};
ghost use Rattle.lx_syntax.specs.Convert.{line_of, line_of_parts, text_of};
ghost use Rattle.lx_syntax.specs.Forms.{Lower, class_ids, class_of, classes_of, expr_form, expr_of, node_ids, stmt_form, stmt_of};
ghost use Rattle.lx_syntax.specs.Programs.{IsProgram};
ghost use Rattle.lx_syntax.specs.Says.{AreNodes, HaveLines, IsNode, PartsLower};

use crate::classes::classes_of;
use crate::exprs::{expr, line_at};
use crate::forms::{ClassForm, Node, Program};
use crate::stmts::stmt;
use lx_arena::Id;
use lx_grammar::token_text;
use lx_pytree::{PyNodes, PyPart, Tree};
use lx_text::{List, NoMemory, Word};
use lx_token::Token;
use std::alloc::Global;
use std::marker::{Model, PhantomData};

// The line of the first part.
#[tactic(auto, unfolding(crate::specs::Convert::line_of_parts, crate::specs::Says::PartsLower, lx_pytree::specs::Trees::plants))]
fn first_line(tree: &Tree, nodes: &List<Node>, parts: &[PyPart]) -> u32
    requires low { PartsLower (length nodes.now) parts.now }
    requires lines { HaveLines (tree_at tree.now.nodes) nodes.now }
    ensures { result ≡ line_of_parts (plants (tree_at tree.now.nodes) parts.now) }
{
    match parts {
        [] => 0,
        [PyPart::Token(x), ..] => x.line,
        [PyPart::Node(id), ..] => line_at(tree, nodes, *id),
    }
}

// The line of the node at a place.
#[tactic(auto, using(crate::proofs::Flats::line_is, crate::proofs::Hanging::parts_within))]
fn line_of(tree: &Tree, nodes: &List<Node>, id: Id<PyNodes>) -> u32
    requires inside { id.place < length tree.now.nodes }
    requires known { id.place ≤ length nodes.now }
    requires lines { HaveLines (tree_at tree.now.nodes) nodes.now }
    ensures { result ≡ line_of (tree_at tree.now.nodes id.place) }
{
    let node = tree.node(id);
    first_line(tree, nodes, node.parts.as_slice())
}

// What the node at a place says.
#[tactic(auto, using(crate::proofs::Programming::node_made, crate::proofs::Programming::have_lines))]
fn node_at(
    alloc: Global,
    src: &[u8],
    tree: &Tree,
    nodes: &List<Node>,
    id: Id<PyNodes>,
) -> Result<Node, NoMemory>
    requires inside { id.place < length tree.now.nodes }
    requires known { id.place ≤ length nodes.now }
    requires nodes { AreNodes src.now (tree_at tree.now.nodes) nodes.now }
    ensures { IfOk result (λ node. IsNode src.now (tree_at tree.now.nodes) id.place node) }
{
    let line = line_of(tree, nodes, id);
    let expr = expr(alloc, src, tree, nodes, id, line)?;
    let stmt = stmt(alloc, src, tree, id)?;
    Ok(Node { line, expr, stmt })
}

// Puts what the next node says behind what those before it say.
#[tactic(auto, using(crate::proofs::Programming::nodes_more))]
fn put(
    alloc: Global,
    src: &[u8],
    tree: &Tree,
    nodes: &mut List<Node>,
    id: Id<PyNodes>,
) -> Result<(), NoMemory>
    requires inside { id.place < length tree.now.nodes }
    requires next { id.place ≡ length nodes.old }
    requires nodes { AreNodes src.now (tree_at tree.now.nodes) nodes.old }
    ensures nodes { OnOk result (AreNodes src.now (tree_at tree.now.nodes) nodes.new) }
    ensures more { OnOk result (length nodes.new ≡ length nodes.old + 1) }
{
    let node = node_at(alloc, src, tree, nodes, id)?;
    nodes.push(node)
}

// What all nodes of a tree say, from the lowest place on.
#[tactic(auto, using(crate::proofs::Programming::nodes_none))]
fn nodes_of(alloc: Global, src: &[u8], tree: &Tree) -> Result<List<Node>, NoMemory>
    ensures nodes { IfOk result (λ nodes. AreNodes src.now (tree_at tree.now.nodes) nodes) }
    ensures all { IfOk result (λ nodes. length nodes ≡ length tree.now.nodes) }
{
    let mut nodes = List::new(alloc);
    for place in 0..tree.nodes.len() {
        put(
            alloc,
            src,
            tree,
            &mut nodes,
            Id {
                place,
                of: PhantomData,
            },
        )?;
    }
    Ok(nodes)
}

/// What a file says: its nodes, whose parts are lower, and its classes, whose parts are nodes.
#[derive(Drop)]
pub struct Syntax {
    program: Program,
}

impl Model for Syntax {
    ghost use Rattle.lx_syntax.specs.declared.forms.Program.{Program};

    ghost Value = { Program };

    ghost use Rattle.lx_syntax.specs.Programs.{IsProgram};

    ghost view = { λ a. a.program };

    ghost invariant = { λ a. IsProgram a.program };
}

/// What the tree of a file says.
#[tactic(auto, using(crate::proofs::Programming::is_program, crate::proofs::Programming::have_lines, crate::proofs::Programming::classes_are))]
pub fn syntax_of(alloc: Global, src: &[u8], tree: &Tree) -> Result<Syntax, NoMemory>
    requires { tree.now.root.place < length tree.now.nodes }
    ensures { IfOk result (λ syntax. classes_of syntax ≡ classes src.now (tree_of tree.now)) }
{
    let text = Word::new(alloc, src)?;
    let nodes = nodes_of(alloc, src, tree)?;
    let classes = classes_of(alloc, src, tree, &nodes, tree.root)?;
    Ok(Syntax {
        program: Program {
            src: text,
            nodes,
            classes,
        },
    })
}

impl Syntax {
    /// The number of nodes.
    pub fn node_count(&self) -> usize
        ensures { result ≡ length self.now.nodes }
    {
        self.program.nodes.len()
    }

    /// The number of classes.
    pub fn class_count(&self) -> usize
        ensures { result ≡ length self.now.classes }
    {
        self.program.classes.len()
    }

    /// The class at a place, whose parts are nodes.
    #[tactic(auto, using(crate::proofs::Programming::class_lower))]
    pub fn class(&self, place: usize) -> &ClassForm
        requires { place < length self.now.classes }
        ensures class { slice_get self.now.classes place ≡ Some result.now }
        ensures inside { Lower (length self.now.nodes) (class_ids result.now) }
    {
        self.program.classes.at(place)
    }

    /// The node at a place, whose parts are lower.
    #[tactic(auto, using(crate::proofs::Programming::node_expr, crate::proofs::Programming::node_stmt, crate::proofs::Programming::node_lower))]
    pub fn node(&self, id: Id<PyNodes>) -> &Node
        requires { id.place < length self.now.nodes }
        ensures expr { expr_of self.now id.place ≡ expr_form self.now.src (expr_of self.now) result.now.line result.now.expr }
        ensures stmt { stmt_of self.now id.place ≡ stmt_form self.now.src (expr_of self.now) (stmt_of self.now) result.now.line result.now.stmt }
        ensures below { Lower id.place (node_ids result.now) }
    {
        self.program.nodes.at(id.place)
    }

    /// The bytes of a token of the source.
    pub fn text(&self, token: &Token) -> &[u8]
        ensures { result.now ≡ text_of self.now.src token.now }
    {
        token_text(self.program.src.as_bytes(), token)
    }
}
