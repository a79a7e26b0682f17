//! Nodes in an arena: a tree whose children are named by typed places, each lower than its parent's.
#![tactic(auto)]

ghost use Rattle.std.specs.Prelude.{ℕ, Bool, ◌≡◌, ◌==◌, ◌++◌, ◌∷◌, [], ◌<◌, length, slice_get, Some, IsTrue, MatchResult};
ghost use Rattle.lx_arena.specs.Lower.{EachLower};

use lx_text::NoMemory;
use std::alloc::Global;
use std::marker::{Model, PhantomData};

/// The place of a node in an arena whose nodes have the tag `K`.
#[derive(Clone, Copy, PartialEq, Eq)]
pub struct Id<K> {
    pub place: usize,
    pub of: PhantomData<K>,
}

/// What an arena holds.
pub trait Node {
    /// The tag that tells places of this arena from those of another.
    type Tag: Copy;

    ghost below: { Self → ℕ → Bool };

    /// Whether all children stand at places lower than `n`.
    fn below(&self, n: usize) -> bool
        ensures { result ≡ below self.now n };
}

/// A list of nodes, in which each node's children are lower.
#[derive(Drop)]
pub struct Arena<T: Node + Drop> {
    nodes: Vec<T>,
}

impl<T: Node + Drop> Model for Arena<T> {
    ghost use Rattle.std.specs.Prelude.{List};
    ghost use Rattle.std.specs.Coded.{coded_list};
    ghost use Rattle.lx_arena.specs.Lower.{EachLower};

    ghost Value = { List T };

    ghost coded = { coded_list T.code };

    ghost view = { λ a. a.nodes.items };

    ghost invariant = { λ a. EachLower T.below a.nodes.items };
}

impl<T: Node + Drop> Arena<T> {
    /// The arena without nodes.
    pub fn new(alloc: Global) -> Arena<T>
        ensures { result ≡ [] }
    {
        Arena {
            nodes: Vec::new(alloc),
        }
    }

    /// The number of nodes.
    pub fn len(&self) -> usize
        ensures { result ≡ length self.now }
    {
        self.nodes.len()
    }

    /// Whether there is no node.
    pub fn is_empty(&self) -> bool
        ensures { result ≡ (length self.now == 0) }
    {
        self.nodes.is_empty()
    }

    /// The node at a place, whose children are lower.
    pub fn get(&self, id: Id<T::Tag>) -> &T
        requires { id.place < length self.now }
        ensures item { slice_get self.now id.place ≡ Some result.now }
        ensures lower { IsTrue (T.below result.now id.place) }
        ensures all { EachLower T.below self.now }
    {
        &self.nodes[id.place]
    }

    /// Adds a node whose children stand already, and gives its place.
    pub fn push(&mut self, node: T) -> Result<Id<T::Tag>, NoMemory>
        requires { IsTrue (T.below node (length self.old)) }
        ensures ok { MatchResult result (λ id. (id.place ≡ length self.old) × (self.new ≡ self.old ++ node ∷ [])) (λ _. self.new ≡ self.old) }
        ensures old { EachLower T.below self.old }
        ensures new { EachLower T.below self.new }
    {
        let place = self.nodes.len();
        self.nodes.push(node)?;
        Ok(Id {
            place,
            of: PhantomData,
        })
    }

    /// Each node's children are lower.
    pub fn lower(&self)
        ensures { EachLower T.below self.now }
    {
        let _nodes = &self.nodes;
    }

    /// The nodes.
    pub fn as_slice(&self) -> &[T]
        ensures { result.now ≡ self.now }
    {
        self.nodes.as_slice()
    }
}
