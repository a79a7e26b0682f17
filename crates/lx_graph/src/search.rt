//! Depth first over a graph, with a stack of its own.

ghost use Rattle.std.specs.Prelude.{◌≡◌, ◌≢◌, ◌<◌, ◌≤◌, ◌++◌, ◌∷◌, [], length, replicate, MatchOption, IfOk};
ghost use Rattle.lx_graph.specs.Graph.{Reads, row};
ghost use Rattle.lx_graph.specs.Cycle.{OnCycle};
ghost use Rattle.lx_graph.specs.Search.{IsSearch, Searches, IsLooking, IsTurn, IsVisited, IsSearched, mark_of};
ghost use Rattle.lx_graph.specs.declared.search.Mark.TheVariants.{Unseen};

use crate::graph::Graph;
use lx_text::{List, NoMemory};
use std::alloc::Global;

/// How far the search has come with a node.
#[derive(Clone, Copy)]
pub enum Mark {
    /// It was not met.
    Unseen,
    /// It is on the stack.
    Open,
    /// It has its place in the order.
    Placed,
}

/// A node on the stack, and how many of its reads have been looked at.
#[derive(Clone, Copy)]
pub struct Frame {
    pub node: usize,
    pub next: usize,
}

/// A search under way: the marks of the nodes, the stack, on which each node reads the one above it, and the nodes
/// that have their place in the order.
#[derive(Drop)]
pub struct Search {
    pub marks: Vec<Mark>,
    pub stack: Vec<Frame>,
    pub order: List<usize>,
}

/// What one step of a search found.
#[derive(Clone, Copy)]
pub enum Turn {
    /// The stack is empty.
    Done,
    /// The search goes on.
    On,
    /// A node on a cycle.
    Loop(usize),
}

/// What the search of all nodes found.
#[derive(Drop)]
pub enum Searched {
    /// An order of all nodes.
    Order(List<usize>),
    /// A node on a cycle.
    Cycle(usize),
}

// Looks at the next read of a node that was taken off the stack. Only a node that was not met goes on top of it.
fn look(search: &mut Search, graph: &Graph, frame: Frame, reads: &[usize]) -> Result<Turn, NoMemory>
    requires { IsLooking graph.now search.old frame reads.now }
    ensures { IfOk result (IsTurn graph.now search.old.marks.items (search.old.stack.items ++ frame ∷ []) search.new) }
{
    graph.holds();
    let read = reads[frame.next];
    match search.marks[read] {
        Mark::Unseen => {
            search.marks[read] = Mark::Open;
            search.stack.push(frame)?;
            search.stack.push(Frame {
                node: read,
                next: 0,
            })?;
            Ok(Turn::On)
        }
        Mark::Open => Ok(Turn::Loop(read)),
        Mark::Placed => {
            search.stack.push(Frame {
                node: frame.node,
                next: frame.next + 1,
            })?;
            Ok(Turn::On)
        }
    }
}

// Gives a node that was taken off the stack its place in the order, since all that it reads has one.
fn place(search: &mut Search, graph: &Graph, frame: Frame) -> Result<Turn, NoMemory>
    requires searches { IsSearch graph.now search.old.marks.items (search.old.stack.items ++ frame ∷ []) search.old.order }
    requires whole { length (row graph.now frame.node) ≤ frame.next }
    ensures { IfOk result (IsTurn graph.now search.old.marks.items (search.old.stack.items ++ frame ∷ []) search.new) }
{
    let _graph = graph;
    search.marks[frame.node] = Mark::Placed;
    search.order.push(frame.node)?;
    Ok(Turn::On)
}

// One step: at the node on top of the stack one read is looked at, or it gets its place.
fn step(search: &mut Search, graph: &Graph) -> Result<Turn, NoMemory>
    requires { Searches graph.now search.old }
    ensures { IfOk result (IsTurn graph.now search.old.marks.items search.old.stack.items search.new) }
{
    let Some(frame) = search.stack.pop() else {
        return Ok(Turn::Done);
    };
    let reads = graph.row(frame.node);
    if frame.next < reads.len() {
        look(search, graph, frame, reads)
    } else {
        place(search, graph, frame)
    }
}

// Goes on until the stack is empty, or a node on a cycle is found.
fn run(search: &mut Search, graph: &Graph) -> Result<Option<usize>, NoMemory>
    requires { Searches graph.now search.old }
    ensures { IfOk result (λ found. MatchOption found
        (IsVisited graph.now search.old.marks.items search.new)
        (OnCycle (Reads graph.now))) }
{
    loop {
        match step(search, graph)? {
            Turn::Done => return Ok(None),
            Turn::On => {}
            Turn::Loop(node) => return Ok(Some(node)),
        }
    }
}

// Searches from a node on, where it was not met.
fn visit(search: &mut Search, graph: &Graph, root: usize) -> Result<Option<usize>, NoMemory>
    requires searches { Searches graph.now search.old }
    requires done { search.old.stack.items ≡ [] }
    requires root { root < length graph.now.rows }
    ensures { IfOk result (λ found. MatchOption found
        (IsVisited graph.now search.old.marks.items search.new × (mark_of search.new.marks.items root ≢ Unseen))
        (OnCycle (Reads graph.now))) }
{
    let Mark::Unseen = search.marks[root] else {
        return Ok(None);
    };
    search.marks[root] = Mark::Open;
    search.stack.push(Frame {
        node: root,
        next: 0,
    })?;
    run(search, graph)
}

/// The marks of so many nodes that were not met.
pub(crate) fn unseen(alloc: Global, count: usize) -> Result<Vec<Mark>, NoMemory>
    ensures { IfOk result (λ marks. marks.items ≡ replicate count Unseen) }
{
    let mut marks = Vec::new(alloc);
    for _ in 0..count {
        marks.push(Mark::Unseen)?;
    }
    Ok(marks)
}

/// An order of a graph's nodes, or one on a cycle. Each read is looked at twice at most.
pub(crate) fn order_of(alloc: Global, graph: &Graph) -> Result<Searched, NoMemory>
    ensures { IfOk result (IsSearched graph.now) }
{
    let marks = unseen(alloc, graph.len())?;
    let stack = Vec::new(alloc);
    let order = List::new(alloc);
    let mut search = Search {
        marks,
        stack,
        order,
    };
    for root in 0..graph.len() {
        let found = visit(&mut search, graph, root)?;
        match found {
            Some(node) => return Ok(Searched::Cycle(node)),
            None => {}
        }
    }
    Ok(Searched::Order(search.order))
}
