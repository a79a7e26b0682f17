//! Graphs of plain and inner nodes.

ghost use Rattle.std.specs.Prelude.{[], ◌≡◌, ◌<◌, ◌∷◌, ◌++◌, length, slice_set, IfOk, OnOk, OnErr};
ghost use Rattle.std.specs.List.{All};
ghost use Rattle.lx_graph.specs.Graph.{row, IsGraph};

use lx_text::{List, NoMemory};
use std::alloc::Global;
use std::marker::Model;

/// Nodes by their numbers, with those that each reads: first plain ones, and then inner ones, which read lower nodes
/// alone.
#[derive(Drop)]
pub struct Graph {
    plain: usize,
    rows: Vec<List<usize>>,
}

impl Model for Graph {
    ghost use Rattle.lx_graph.specs.Graph.{Nodes, IsGraph};

    ghost Value = { Nodes };

    ghost view = { λ a. record { plain = a.plain; rows = a.rows.items } };

    ghost invariant = { λ a. IsGraph (record { plain = a.plain; rows = a.rows.items }) };
}

impl Graph {
    ghost use Rattle.std.specs.Prelude.{replicate};

    /// So many plain nodes that read nothing.
    pub fn new(alloc: Global, plain: usize) -> Result<Graph, NoMemory>
        ensures { IfOk result (λ graph. graph ≡ record { plain = plain; rows = replicate plain [] }) }
    {
        let mut rows = Vec::new(alloc);
        for _ in 0..plain {
            rows.push(List::new(alloc))?;
        }
        Ok(Graph { plain, rows })
    }

    /// Its nodes read nodes, and the inner ones lower nodes alone.
    pub fn holds(&self)
        ensures { IsGraph self.now }
    {
        let _rows = &self.rows;
    }

    /// The number of nodes.
    pub fn len(&self) -> usize
        ensures { result ≡ length self.now.rows }
    {
        self.rows.len()
    }

    /// The number of plain nodes.
    pub fn plain(&self) -> usize
        ensures { result ≡ self.now.plain }
    {
        self.plain
    }

    /// The nodes that a node reads.
    pub fn row(&self, node: usize) -> &[usize]
        requires { node < length self.now.rows }
        ensures { result.now ≡ row self.now node }
    {
        self.rows[node].as_slice()
    }

    /// Adds an inner node that reads these, and gives its number.
    pub fn add_node(&mut self, reads: List<usize>) -> Result<usize, NoMemory>
        requires { All (λ b. b < length self.old.rows) reads }
        ensures ok { IfOk result (λ node. (node ≡ length self.old.rows)
            × (self.new ≡ record { plain = self.old.plain; rows = self.old.rows ++ reads ∷ [] })) }
        ensures err { OnErr result (self.new ≡ self.old) }
    {
        let node = self.rows.len();
        self.rows.push(reads)?;
        Ok(node)
    }

    /// Lets a plain node read a further node.
    pub fn add_read(&mut self, node: usize, read: usize) -> Result<(), NoMemory>
        requires node { node < self.old.plain }
        requires read { read < length self.old.rows }
        ensures ok { OnOk result (self.new ≡ record {
          plain = self.old.plain;
          rows = slice_set self.old.rows node (row self.old node ++ read ∷ []);
        }) }
        ensures err { OnErr result (self.new ≡ self.old) }
    {
        self.rows[node].push(read)?;
        Ok(())
    }
}
