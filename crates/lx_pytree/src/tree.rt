//! The nodes of a syntax tree.

ghost use Rattle.std.specs.Prelude.{true, ◌≡◌, ◌<◌, ◌≤◌, length, MatchOption, MatchResult, List, [], ◌∷◌};
ghost use Rattle.lx_grammar.specs.Derives.{wrap};
ghost use Rattle.lx_pytree.specs.Below.{parts_below};
ghost use Rattle.lx_pytree.specs.Trees.{IsClosed, IsSole, node_tree, tree_at};

use lx_arena::{Arena, Id, Node};
use lx_grammar::Rule;
use lx_text::{List, NoMemory};
use lx_token::Token;

/// The tag of a syntax tree's nodes.
#[derive(Clone, Copy)]
pub struct PyNodes;

/// A part of a node: a token, or a node.
#[derive(Clone, Copy)]
pub enum PyPart {
    Token(Token),
    Node(Id<PyNodes>),
}

/// A node: the left side of the grammar that it has, and its parts in the order of the text.
#[derive(Drop)]
pub struct PyNode {
    pub rule: Rule,
    pub parts: List<PyPart>,
}

impl Node for PyNode {
    ghost use Rattle.lx_pytree.specs.Below.{parts_below};

    type Tag = PyNodes;

    ghost below = { λ node n. parts_below n node.parts };

    fn below(&self, n: usize) -> bool {
        all_below(self.parts.as_slice(), n)
    }
}

/// A syntax tree: the tree that hangs at the root.
#[derive(Drop)]
pub struct Tree {
    pub nodes: Arena<PyNode>,
    pub root: Id<PyNodes>,
}

impl Tree {
    /// The node at a place, whose parts hang in its tree from lower places.
    pub fn node(&self, id: Id<PyNodes>) -> &PyNode
        requires { id.place < length self.now.nodes }
        ensures tree { tree_at self.now.nodes id.place ≡ node_tree (tree_at self.now.nodes) result.now }
        ensures below { parts_below id.place result.now.parts ≡ true }
    {
        self.nodes.get(id)
    }
}

// Whether all nodes among these parts stand below a place.
#[tactic(auto, unfolding(crate::specs::Below::parts_below))]
fn all_below(parts: &[PyPart], n: usize) -> bool
    ensures { result ≡ parts_below n parts.now }
{
    for part in parts {
        if let PyPart::Node(id) = part {
            if id.place >= n {
                return false;
            }
        }
    }
    true
}

// The only part, where it is a node.
#[tactic(auto, unfolding(crate::specs::Trees::plants, lx_grammar::specs::Derives::wrap))]
fn sole(parts: &[PyPart]) -> Option<Id<PyNodes>>
    ensures { IsSole parts.now result }
{
    match parts {
        [] => None,
        [PyPart::Token(_), ..] => None,
        [PyPart::Node(id)] => Some(*id),
        [PyPart::Node(_), PyPart::Token(_), ..] => None,
        [PyPart::Node(_), PyPart::Node(_), ..] => None,
    }
}

/// The node of a rule with these parts; of a rule whose only part is one node, that node.
pub fn closed(
    nodes: &mut Arena<PyNode>,
    rule: Rule,
    parts: List<PyPart>,
) -> Result<Id<PyNodes>, NoMemory>
    requires { parts_below (length nodes.old) parts ≡ true }
    ensures { IsClosed rule parts nodes.old nodes.new result }
{
    nodes.lower();
    match sole(parts.as_slice()) {
        Some(id) => Ok(id),
        None => nodes.push(PyNode { rule, parts }),
    }
}
