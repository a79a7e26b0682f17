//! Ranks of nodes: none reads one of a lower rank, and those of one rank lie on cycles together. Two searches find
//! them, the second one backwards; then they are tested, and only the test is relied upon.

ghost use Rattle.std.specs.Prelude.{◌≡◌, ◌<◌, ◌≤◌, ◌++◌, ◌∷◌, [], true, length, IfOk, OnOk};
ghost use Rattle.std.specs.Bool.{OnTrue};
ghost use Rattle.lx_graph.specs.Cycle.{OnCycle};
ghost use Rattle.lx_graph.specs.Graph.{row};
ghost use Rattle.lx_graph.specs.Levels.{AreReaders, level_of};
ghost use Rattle.lx_graph.specs.Ranks.{AllRise, AreNodes, AreRanks, AreTested, IsFlood, IsLoose, IsMet, IsOn, IsPass, Rises, Wanders, WentFlood};
ghost use Rattle.lx_graph.specs.Search.{mark_of};
ghost use Rattle.lx_graph.specs.Through.{Links};
ghost use Rattle.lx_graph.specs.declared.search.Mark.TheVariants.{Unseen};

use crate::graph::Graph;
use crate::levels::no_levels;
use crate::search::{Frame, Mark, Search, unseen};
use lx_text::{List, NoMemory};
use std::alloc::Global;

/// Ranks of nodes, and whether they hold: then no node reads one of a lower rank.
#[derive(Drop)]
pub struct Ranks {
    pub values: Vec<Option<usize>>,
    pub hold: bool,
}

/// The ranks so far, and the nodes whose readers are to get the rank of now.
#[derive(Drop)]
pub struct Flood {
    pub ranks: Vec<Option<usize>>,
    pub stack: List<usize>,
}

// Puts a node that was not met on the stack.
fn open_node(search: &mut Search, graph: &Graph, node: usize) -> Result<(), NoMemory>
    requires wanders { Wanders graph.now search.old }
    requires node { node < length graph.now.rows }
    requires new { mark_of search.old.marks.items node ≡ Unseen }
    ensures { OnOk result (IsMet graph.now search.old search.new) }
{
    let _graph = graph;
    search.marks[node] = Mark::Open;
    search.stack.push(Frame { node, next: 0 })?;
    Ok(())
}

// Puts a node on the stack, where it was not met.
fn meet(search: &mut Search, graph: &Graph, node: usize) -> Result<(), NoMemory>
    requires wanders { Wanders graph.now search.old }
    requires node { node < length graph.now.rows }
    ensures { OnOk result (IsMet graph.now search.old search.new) }
{
    match search.marks[node] {
        Mark::Unseen => open_node(search, graph, node),
        Mark::Open => Ok(()),
        Mark::Placed => Ok(()),
    }
}

// Looks at the next read of a node that was taken off the stack, which goes on it again.
fn go_down(
    search: &mut Search,
    graph: &Graph,
    frame: Frame,
    reads: &[usize],
) -> Result<(), NoMemory>
    requires wanders { IsLoose graph.now search.old.marks.items (search.old.stack.items ++ frame ∷ []) search.old.order }
    requires reads { reads.now ≡ row graph.now frame.node }
    requires next { frame.next < length reads.now }
    ensures { OnOk result (IsOn graph.now search.old.marks.items (search.old.stack.items ++ frame ∷ []) search.new) }
{
    graph.holds();
    let read = reads[frame.next];
    search.stack.push(Frame {
        node: frame.node,
        next: frame.next + 1,
    })?;
    meet(search, graph, read)?;
    Ok(())
}

// Ends with a node that was taken off the stack.
fn leave(search: &mut Search, graph: &Graph, frame: Frame) -> Result<(), NoMemory>
    requires { IsLoose graph.now search.old.marks.items (search.old.stack.items ++ frame ∷ []) search.old.order }
    ensures { OnOk result (IsOn graph.now search.old.marks.items (search.old.stack.items ++ frame ∷ []) search.new) }
{
    let _graph = graph;
    search.order.push(frame.node)?;
    Ok(())
}

// One step of a search that passes over cycles: whether there was one to do.
fn pass(search: &mut Search, graph: &Graph) -> Result<bool, NoMemory>
    requires { Wanders graph.now search.old }
    ensures { IfOk result (IsPass graph.now search.old search.new) }
{
    let Some(frame) = search.stack.pop() else {
        return Ok(false);
    };
    let reads = graph.row(frame.node);
    if frame.next < reads.len() {
        go_down(search, graph, frame, reads)?;
        Ok(true)
    } else {
        leave(search, graph, frame)?;
        Ok(true)
    }
}

// Goes on until the stack is empty.
fn drain(search: &mut Search, graph: &Graph) -> Result<(), NoMemory>
    requires { Wanders graph.now search.old }
    ensures { OnOk result (Wanders graph.now search.new) }
{
    loop {
        match pass(search, graph)? {
            true => {}
            false => return Ok(()),
        }
    }
}

// The nodes in the order in which a search ends with them.
fn ended(alloc: Global, graph: &Graph) -> Result<List<usize>, NoMemory>
    ensures { IfOk result (AreNodes graph.now) }
{
    let marks = unseen(alloc, graph.len())?;
    let mut search = Search {
        marks,
        stack: Vec::new(alloc),
        order: List::new(alloc),
    };
    for root in 0..graph.len() {
        meet(&mut search, graph, root)?;
        drain(&mut search, graph)?;
    }
    Ok(search.order)
}

// Gives the rank to a node that has none.
fn set_rank(flood: &mut Flood, graph: &Graph, node: usize, rank: usize) -> Result<(), NoMemory>
    requires flood { IsFlood graph.now flood.old }
    requires node { node < length graph.now.rows }
    requires new { level_of flood.old.ranks.items node ≡ None }
    ensures { OnOk result (WentFlood graph.now flood.old flood.new) }
{
    let _graph = graph;
    flood.ranks[node] = Some(rank);
    flood.stack.push(node)?;
    Ok(())
}

// Gives the rank to a node, where it has none.
fn touch(flood: &mut Flood, graph: &Graph, node: usize, rank: usize) -> Result<(), NoMemory>
    requires flood { IsFlood graph.now flood.old }
    requires node { node < length graph.now.rows }
    ensures { OnOk result (WentFlood graph.now flood.old flood.new) }
{
    match flood.ranks[node] {
        Some(_) => Ok(()),
        None => set_rank(flood, graph, node, rank),
    }
}

// Gives the rank to the readers of a node.
fn touch_readers(
    flood: &mut Flood,
    graph: &Graph,
    readers: &[List<usize>],
    read: usize,
    rank: usize,
) -> Result<(), NoMemory>
    requires flood { IsFlood graph.now flood.old }
    requires readers { AreReaders graph.now readers.now }
    requires read { read < length graph.now.rows }
    ensures { OnOk result (WentFlood graph.now flood.old flood.new) }
{
    let nodes = readers[read].as_slice();
    for node in nodes {
        touch(flood, graph, *node, rank)?;
    }
    Ok(())
}

// Gives the rank to all from which reads lead to a node of the stack.
fn fill(
    flood: &mut Flood,
    graph: &Graph,
    readers: &[List<usize>],
    rank: usize,
) -> Result<(), NoMemory>
    requires flood { IsFlood graph.now flood.old }
    requires readers { AreReaders graph.now readers.now }
    ensures { OnOk result (IsFlood graph.now flood.new) }
{
    while let Some(node) = flood.stack.pop() {
        touch_readers(flood, graph, readers, node, rank)?;
    }
    Ok(())
}

// Ranks of the nodes, not tested yet.
fn found_ranks(
    alloc: Global,
    graph: &Graph,
    readers: &[List<usize>],
) -> Result<Vec<Option<usize>>, NoMemory>
    requires { AreReaders graph.now readers.now }
    ensures { IfOk result (λ ranks. length ranks.items ≡ length graph.now.rows) }
{
    let order = ended(alloc, graph)?;
    let ranks = no_levels(alloc, graph.len())?;
    let mut flood = Flood {
        ranks,
        stack: List::new(alloc),
    };
    let ends = order.as_slice();
    for rank in 0..ends.len() {
        touch(&mut flood, graph, ends[ends.len() - 1 - rank], rank)?;
        fill(&mut flood, graph, readers, rank)?;
    }
    Ok(flood.ranks)
}

// Whether one rank isn't higher than another, or strictly lower.
fn is_below(low: usize, high: usize, strictly: bool) -> bool
    ensures no_higher { OnTrue result (low ≤ high) }
    ensures lower { OnTrue result (strictly ≡ true → low < high) }
{
    if strictly { low < high } else { low <= high }
}

// Whether the rank of a node isn't higher than that of another, or strictly lower.
fn rises(ranks: &[Option<usize>], strictly: bool, a: usize, b: usize) -> bool
    requires a { a < length ranks.now }
    requires b { b < length ranks.now }
    ensures { OnTrue result (Rises ranks.now strictly a b) }
{
    match ranks[a] {
        None => false,
        Some(low) => match ranks[b] {
            None => false,
            Some(high) => is_below(low, high, strictly),
        },
    }
}

// Whether a node reads nodes of higher ranks alone, or none of a lower rank.
fn all_rise(graph: &Graph, ranks: &[Option<usize>], strictly: bool, node: usize) -> bool
    requires size { length ranks.now ≡ length graph.now.rows }
    requires node { node < length graph.now.rows }
    ensures { OnTrue result (AllRise graph.now ranks.now strictly node) }
{
    graph.holds();
    let reads = graph.row(node);
    for read in reads {
        if !rises(ranks, strictly, node, *read) {
            return false;
        }
    }
    true
}

// Whether no node reads one of a lower rank.
fn are_ranks(graph: &Graph, ranks: &[Option<usize>]) -> bool
    requires { length ranks.now ≡ length graph.now.rows }
    ensures { OnTrue result (AreRanks graph.now ranks.now) }
{
    for node in 0..graph.len() {
        if !all_rise(graph, ranks, false, node) {
            return false;
        }
    }
    true
}

/// Ranks of the nodes. Each read is looked at a few times.
pub(crate) fn ranks_of(
    alloc: Global,
    graph: &Graph,
    readers: &[List<usize>],
) -> Result<Ranks, NoMemory>
    requires { AreReaders graph.now readers.now }
    ensures { IfOk result (AreTested graph.now) }
{
    let values = found_ranks(alloc, graph, readers)?;
    let hold = are_ranks(graph, values.as_slice());
    Ok(Ranks { values, hold })
}

/// Whether the ranks tell that a node lies on no cycle: all that it reads is of higher ranks.
pub(crate) fn is_off_cycles(graph: &Graph, ranks: &Ranks, node: usize) -> bool
    requires ranks { AreTested graph.now ranks.now }
    requires node { node < length graph.now.rows }
    ensures { OnTrue result (OnCycle (Links graph.now) node → ⊥) }
{
    ranks.hold && all_rise(graph, ranks.values.as_slice(), true, node)
}
