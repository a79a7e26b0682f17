//! The memories of a design with their paths, and their ports.

ghost use Rattle.std.specs.Prelude.{◌≡◌, ◌<◌, ◌+◌, [], IfOk, OnOk, Some, drop, length, slice_get};
ghost use Rattle.lx_describe.specs.Memories.{at_path, memory_paths, named_memories, ports_of, with_paths};

use lx_fhdl::{Memory, Port};
use lx_paths::paths::path_of;
use lx_state::machine::Machine;
use lx_text::{List, NoMemory, Word};
use std::alloc::Global;
use std::mem;

// The paths of the memories' objects.
fn memory_paths(machine: &Machine, alloc: Global) -> Result<List<List<Word>>, NoMemory>
    ensures { IfOk result (λ paths. paths ≡ memory_paths machine.now) }
{
    let mut paths = List::new(alloc);
    for object in machine.memory_objects.as_slice() {
        paths.push(path_of(machine, alloc, *object, None)?)?;
    }
    Ok(paths)
}

// What stands where a memory was taken out.
fn no_memory(alloc: Global) -> Memory {
    Memory {
        path: List::new(alloc),
        width: 1,
        depth: 1,
        init: List::new(alloc),
        line: 0,
    }
}

// Takes an item out of a list; another one stands in its place.
#[tactic(auto, using(crate::proofs::Pathed::drop_past))]
fn taken<T: Drop>(list: &mut List<T>, place: usize, other: T) -> T
    requires { place < length list.old }
    ensures item { slice_get list.old place ≡ Some result }
    ensures rest { drop (place + 1) list.new ≡ drop (place + 1) list.old }
    ensures long { length list.new ≡ length list.old }
{
    list.replace(place, other)
}

// A memory with the path at a place, where there is one. The path is taken out.
fn with_path(paths: &mut List<List<Word>>, place: usize, memory: Memory) -> Memory
    ensures is { result ≡ at_path (slice_get paths.old place) memory }
    ensures rest { drop (place + 1) paths.new ≡ drop (place + 1) paths.old }
{
    if place >= paths.len() {
        return memory;
    }
    let Memory {
        path,
        width,
        depth,
        init,
        line,
    } = memory;
    let path = taken(paths, place, path);
    Memory {
        path,
        width,
        depth,
        init,
        line,
    }
}

// Each memory with the path at its place. No contents are copied.
#[tactic(auto, using(crate::proofs::Pathed::pathed_more))]
fn with_paths(
    alloc: Global,
    paths: List<List<Word>>,
    memories: List<Memory>,
) -> Result<List<Memory>, NoMemory>
    ensures { IfOk result (λ named. named ≡ with_paths paths memories) }
{
    let mut paths_left = paths;
    let mut memories_left = memories;
    let mut named = List::new(alloc);
    for place in 0..memories_left.len() {
        let memory = taken(&mut memories_left, place, no_memory(alloc));
        named.push(with_path(&mut paths_left, place, memory))?;
    }
    Ok(named)
}

/// The memories, named after their objects. They are taken out of the machine.
pub fn named_memories(machine: &mut Machine, alloc: Global) -> Result<List<Memory>, NoMemory>
    ensures named { IfOk result (λ memories. memories ≡ named_memories machine.old) }
    ensures rest { OnOk result (machine.new ≡ record machine.old { memories = [] }) }
{
    let paths = memory_paths(machine, alloc)?;
    let memories = mem::replace(&mut machine.memories, List::new(alloc));
    with_paths(alloc, paths, memories)
}

/// The ports of all memories, in order of making.
pub fn ports_of(machine: &Machine, alloc: Global) -> Result<List<Port>, NoMemory>
    ensures { IfOk result (λ ports. ports ≡ ports_of machine.now) }
{
    let mut ports = List::new(alloc);
    for state in machine.ports.as_slice() {
        ports.push(state.port)?;
    }
    Ok(ports)
}
