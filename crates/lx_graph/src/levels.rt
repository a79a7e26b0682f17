//! How many links lead from each node to a plain one, found from there on backwards.

ghost use Rattle.std.specs.Prelude.{◌≡◌, ◌≢◌, ◌<◌, ◌+◌, [], ◌∷◌, length, replicate, IfOk, OnOk, Some};
ghost use Rattle.lx_graph.specs.Graph.{Reads, row};
ghost use Rattle.lx_graph.specs.Levels.{AreLevelsOf, AreReaders, ArePartly, IsReached, IsRisen, IsSpread, Spreads, level_of};

use crate::graph::Graph;
use lx_text::{List, NoMemory};
use std::alloc::Global;
use std::mem;

/// Levels while they spread from a plain node, the target: those found so far, and the nodes of the level and of the
/// next one whose readers were not looked at.
#[derive(Drop)]
pub struct Wave {
    pub target: usize,
    pub levels: Vec<Option<usize>>,
    pub now: List<usize>,
    pub next: List<usize>,
    pub level: usize,
}

/// How many links lead from each node to a plain one, the target, where any do; from an inner node as many as from the
/// nearest plain one that it reads through inner nodes.
#[derive(Drop)]
pub struct Levels {
    pub target: usize,
    pub values: Vec<Option<usize>>,
}

// Adds a node as a reader of each node of its row.
fn add_reader(readers: &mut Vec<List<usize>>, graph: &Graph, node: usize) -> Result<(), NoMemory>
    requires here { node < length graph.now.rows }
    requires readers { ArePartly graph.now node 0 readers.old.items }
    ensures { OnOk result (ArePartly graph.now (node + 1) 0 readers.new.items) }
{
    graph.holds();
    let reads = graph.row(node);
    for read in reads {
        readers[*read].push(node)?;
    }
    Ok(())
}

/// Of each node those that read it.
pub(crate) fn readers_of(alloc: Global, graph: &Graph) -> Result<Vec<List<usize>>, NoMemory>
    ensures { IfOk result (λ readers. AreReaders graph.now readers.items) }
{
    let mut readers = Vec::new(alloc);
    for _ in 0..graph.len() {
        readers.push(List::new(alloc))?;
    }
    for node in 0..graph.len() {
        add_reader(&mut readers, graph, node)?;
    }
    Ok(readers)
}

// Gives a reader of a node of this level its own level: a plain one is a link further, an inner one isn't.
fn set_level(wave: &mut Wave, graph: &Graph, node: usize, read: usize) -> Result<(), NoMemory>
    requires spreads { Spreads graph.now (read ∷ []) wave.old }
    requires reads { Reads graph.now node read }
    requires level { level_of wave.old.levels.items read ≡ Some wave.old.level }
    requires new { level_of wave.old.levels.items node ≡ None }
    ensures { OnOk result (IsReached graph.now read node wave.old wave.new) }
{
    let _read = read;
    if node < graph.plain() {
        wave.levels[node] = Some(wave.level + 1);
        wave.next.push(node)?;
    } else {
        wave.levels[node] = Some(wave.level);
        wave.now.push(node)?;
    }
    Ok(())
}

// Gives a reader of a node of this level its own level, where it has none.
fn reach(wave: &mut Wave, graph: &Graph, node: usize, read: usize) -> Result<(), NoMemory>
    requires spreads { Spreads graph.now (read ∷ []) wave.old }
    requires reads { Reads graph.now node read }
    requires level { level_of wave.old.levels.items read ≡ Some wave.old.level }
    ensures { OnOk result (IsReached graph.now read node wave.old wave.new) }
{
    match wave.levels[node] {
        Some(_) => Ok(()),
        None => set_level(wave, graph, node, read),
    }
}

// Gives all readers of a node of this level their levels.
fn spread(
    wave: &mut Wave,
    graph: &Graph,
    readers: &[List<usize>],
    read: usize,
) -> Result<(), NoMemory>
    requires readers { AreReaders graph.now readers.now }
    requires spreads { Spreads graph.now (read ∷ []) wave.old }
    requires read { read < length graph.now.rows }
    requires level { level_of wave.old.levels.items read ≡ Some wave.old.level }
    ensures { OnOk result (IsSpread graph.now wave.old wave.new) }
{
    let nodes = readers[read].as_slice();
    for node in nodes {
        reach(wave, graph, *node, read)?;
    }
    Ok(())
}

// Goes on to the next level.
fn rise(wave: &mut Wave, graph: &Graph)
    requires spreads { Spreads graph.now [] wave.old }
    requires done { wave.old.now ≡ [] }
    requires more { wave.old.next ≢ [] }
    ensures { IsRisen graph.now wave.old wave.new }
{
    let _graph = graph;
    mem::swap(&mut wave.now, &mut wave.next);
    wave.level += 1;
}

/// No levels of so many nodes.
pub(crate) fn no_levels(alloc: Global, count: usize) -> Result<Vec<Option<usize>>, NoMemory>
    ensures { IfOk result (λ levels. levels.items ≡ replicate count None) }
{
    let mut levels = Vec::new(alloc);
    for _ in 0..count {
        levels.push(None)?;
    }
    Ok(levels)
}

// The wave in which only the target has a level.
fn begin(alloc: Global, graph: &Graph, target: usize) -> Result<Wave, NoMemory>
    requires { target < graph.now.plain }
    ensures spreads { IfOk result (Spreads graph.now []) }
    ensures target { IfOk result (λ wave. wave.target ≡ target) }
{
    graph.holds();
    let mut levels = no_levels(alloc, graph.len())?;
    levels[target] = Some(0);
    Ok(Wave {
        target,
        levels,
        now: List::of_one(alloc, target)?,
        next: List::new(alloc),
        level: 0,
    })
}

/// How many links lead from each node to a plain one. Each read is looked at once.
pub(crate) fn levels_of(
    alloc: Global,
    graph: &Graph,
    readers: &[List<usize>],
    target: usize,
) -> Result<Levels, NoMemory>
    requires readers { AreReaders graph.now readers.now }
    requires target { target < graph.now.plain }
    ensures levels { IfOk result (AreLevelsOf graph.now) }
    ensures target { IfOk result (λ levels. levels.target ≡ target) }
{
    let mut wave = begin(alloc, graph, target)?;
    loop {
        match wave.now.pop() {
            Some(node) => spread(&mut wave, graph, readers, node)?,
            None => {
                if wave.next.is_empty() {
                    return Ok(Levels {
                        target,
                        values: wave.levels,
                    });
                }
                rise(&mut wave, graph);
            }
        }
    }
}
