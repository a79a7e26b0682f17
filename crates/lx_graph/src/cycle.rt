//! The cycle that is told: it begins with the first node that lies on one, and is a shortest one of that.

ghost use Rattle.std.specs.Prelude.{◌≡◌, ◌<◌, ◌≤◌, ℕ, length, MatchOption, IfOk, Some};
ghost use Rattle.std.specs.List.{All};
ghost use Rattle.lx_graph.specs.Graph.{Reads, row};
ghost use Rattle.lx_graph.specs.Cycle.{OnCycle, IsTold};
ghost use Rattle.lx_graph.specs.Through.{Links};
ghost use Rattle.lx_graph.specs.Ranks.{AreTested};
ghost use Rattle.lx_graph.specs.Levels.{AreAllFirsts, AreFirsts, AreLevelsOf, AreReaders, HaveFirsts, IsFirst, IsFound, IsLeast, IsNext, first_at, level_of, lower};

use crate::graph::Graph;
use crate::levels::{Levels, levels_of, readers_of};
use crate::ranks::{Ranks, is_off_cycles, ranks_of};
use lx_text::{List, NoMemory};
use std::alloc::Global;

// The lower of two numbers that may be missing.
fn lower(a: Option<usize>, b: Option<usize>) -> Option<usize>
    ensures { result ≡ lower a b }
{
    match a {
        None => b,
        Some(m) => match b {
            None => a,
            Some(n) => Some(m.min(n)),
        },
    }
}

// The level of a node, where it has one.
fn level_at(levels: &[Option<usize>], node: usize) -> Option<usize>
    requires { node < length levels.now }
    ensures { result ≡ level_of levels.now node }
{
    match levels[node] {
        Some(level) => Some(level),
        None => None,
    }
}

// The least level of these nodes.
fn least_level(levels: &[Option<usize>], nodes: &[usize]) -> Option<usize>
    requires { All (λ r. r < length levels.now) nodes.now }
    ensures { IsFound (level_of levels.now) nodes.now result }
{
    let mut least = None;
    for node in nodes {
        least = lower(least, level_at(levels, *node));
    }
    least
}

// The first plain node of a node of this level.
fn first_at(levels: &[Option<usize>], firsts: &[usize], level: usize, node: usize) -> Option<usize>
    requires level { node < length levels.now }
    requires first { node < length firsts.now }
    ensures { result ≡ first_at levels.now firsts.now level node }
{
    match levels[node] {
        Some(d) if d == level => Some(firsts[node]),
        _ => None,
    }
}

// The lowest of the first plain nodes of those of these nodes that have this level.
fn earliest(
    levels: &[Option<usize>],
    firsts: &[usize],
    level: usize,
    nodes: &[usize],
) -> Option<usize>
    requires levels { All (λ r. r < length levels.now) nodes.now }
    requires firsts { All (λ r. r < length firsts.now) nodes.now }
    ensures { IsFound (first_at levels.now firsts.now level) nodes.now result }
{
    let mut found = None;
    for node in nodes {
        found = lower(found, first_at(levels, firsts, level, *node));
    }
    found
}

// The first plain node of an inner one of this level: the lowest of its level that it reads through inner nodes.
fn first_of(graph: &Graph, levels: &Levels, firsts: &[usize], node: usize, level: usize) -> usize
    requires levels { AreLevelsOf graph.now levels.now }
    requires inner { graph.now.plain ≤ node }
    requires node { node < length graph.now.rows }
    requires level { level_of levels.now.values.items node ≡ Some level }
    requires size { length firsts.now ≡ node }
    requires firsts { AreFirsts graph.now levels.now.values.items firsts.now node }
    ensures { IsFirst graph.now levels.now.values.items node result }
{
    graph.holds();
    let reads = graph.row(node);
    let values = levels.values.as_slice();
    match earliest(values, firsts, level, reads) {
        Some(first) => first,
        None => node,
    }
}

// The first plain node of an inner one, where that has a level.
fn first_for(graph: &Graph, levels: &Levels, firsts: &[usize], node: usize) -> usize
    requires levels { AreLevelsOf graph.now levels.now }
    requires inner { graph.now.plain ≤ node }
    requires node { node < length graph.now.rows }
    requires size { length firsts.now ≡ node }
    requires firsts { AreFirsts graph.now levels.now.values.items firsts.now node }
    ensures { (d : ℕ) → level_of levels.now.values.items node ≡ Some d → IsFirst graph.now levels.now.values.items node result }
{
    match levels.values[node] {
        Some(level) => first_of(graph, levels, firsts, node, level),
        None => node,
    }
}

// The first plain nodes of the plain nodes: they themselves.
fn plain_firsts(alloc: Global, graph: &Graph, levels: &Levels) -> Result<Vec<usize>, NoMemory>
    ensures { IfOk result (λ firsts. HaveFirsts graph.now levels.now firsts.items graph.now.plain) }
{
    let _levels = levels;
    let mut firsts = Vec::new(alloc);
    for node in 0..graph.plain() {
        firsts.push(node)?;
    }
    Ok(firsts)
}

// The first plain nodes of all nodes that have a level.
fn firsts_of(alloc: Global, graph: &Graph, levels: &Levels) -> Result<Vec<usize>, NoMemory>
    requires { AreLevelsOf graph.now levels.now }
    ensures { IfOk result (λ firsts. AreAllFirsts graph.now levels.now firsts.items) }
{
    graph.holds();
    let mut firsts = plain_firsts(alloc, graph, levels)?;
    for node in graph.plain()..graph.len() {
        let before = firsts.as_slice();
        let first = first_for(graph, levels, before, node);
        firsts.push(first)?;
    }
    Ok(firsts)
}

// The node to which the told cycle goes on from a plain one, over so many further links.
fn next_node(graph: &Graph, levels: &Levels, firsts: &[usize], node: usize, level: usize) -> usize
    requires levels { AreLevelsOf graph.now levels.now }
    requires firsts { AreAllFirsts graph.now levels.now firsts.now }
    requires plain { node < graph.now.plain }
    requires least { IsLeast levels.now.values.items (row graph.now node) level }
    ensures { IsNext graph.now levels.now node level result }
{
    graph.holds();
    let reads = graph.row(node);
    let values = levels.values.as_slice();
    match earliest(values, firsts, level, reads) {
        Some(next) => next,
        None => node,
    }
}

// The cycle of the target, where its nearest reads have this level and no lower node lies on a cycle.
fn way_back(
    alloc: Global,
    graph: &Graph,
    levels: &Levels,
    firsts: &[usize],
    least: usize,
) -> Result<List<usize>, NoMemory>
    requires levels { AreLevelsOf graph.now levels.now }
    requires firsts { AreAllFirsts graph.now levels.now firsts.now }
    requires least { IsLeast levels.now.values.items (row graph.now levels.now.target) least }
    requires first { (a : ℕ) → a < levels.now.target → OnCycle (Links graph.now) a → ⊥ }
    ensures { IfOk result (IsTold (Links graph.now)) }
{
    let mut cycle = List::of_one(alloc, levels.target)?;
    let mut node = levels.target;
    let mut level = least;
    while level > 0 {
        let next = next_node(graph, levels, firsts, node, level);
        cycle.push(next)?;
        node = next;
        level -= 1;
    }
    Ok(cycle)
}

// The told cycle, where it begins with this plain node; no lower one lies on a cycle.
fn cycle_from(
    alloc: Global,
    graph: &Graph,
    readers: &[List<usize>],
    target: usize,
) -> Result<Option<List<usize>>, NoMemory>
    requires readers { AreReaders graph.now readers.now }
    requires target { target < graph.now.plain }
    requires first { (a : ℕ) → a < target → OnCycle (Links graph.now) a → ⊥ }
    ensures { IfOk result (λ found. MatchOption found (OnCycle (Links graph.now) target → ⊥) (IsTold (Links graph.now))) }
{
    graph.holds();
    let levels = levels_of(alloc, graph, readers, target)?;
    let reads = graph.row(target);
    let values = levels.values.as_slice();
    match least_level(values, reads) {
        None => Ok(None),
        Some(least) => {
            let firsts = firsts_of(alloc, graph, &levels)?;
            let cycle = way_back(alloc, graph, &levels, firsts.as_slice(), least)?;
            Ok(Some(cycle))
        }
    }
}

// The told cycle, where it begins with this plain node; one that the ranks tell to lie on no cycle isn't searched from.
fn cycle_at(
    alloc: Global,
    graph: &Graph,
    readers: &[List<usize>],
    ranks: &Ranks,
    target: usize,
) -> Result<Option<List<usize>>, NoMemory>
    requires readers { AreReaders graph.now readers.now }
    requires ranks { AreTested graph.now ranks.now }
    requires target { target < graph.now.plain }
    requires first { (a : ℕ) → a < target → OnCycle (Links graph.now) a → ⊥ }
    ensures { IfOk result (λ found. MatchOption found (OnCycle (Links graph.now) target → ⊥) (IsTold (Links graph.now))) }
{
    graph.holds();
    if is_off_cycles(graph, ranks, target) {
        return Ok(None);
    }
    cycle_from(alloc, graph, readers, target)
}

/// The cycle that is told of a graph that has one.
pub(crate) fn told_cycle(alloc: Global, graph: &Graph) -> Result<List<usize>, NoMemory>
    requires { (a : ℕ) × OnCycle (Reads graph.now) a }
    ensures { IfOk result (IsTold (Links graph.now)) }
{
    graph.holds();
    let readers = readers_of(alloc, graph)?;
    let ranks = ranks_of(alloc, graph, readers.as_slice())?;
    for target in 0..graph.plain() {
        let found = cycle_at(alloc, graph, readers.as_slice(), &ranks, target)?;
        match found {
            Some(cycle) => return Ok(cycle),
            None => {}
        }
    }
    unreachable!()
}
