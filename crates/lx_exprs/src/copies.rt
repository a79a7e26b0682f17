//! Copies of a design's signals, memories, domains and ports.

ghost use Rattle.std.specs.Prelude.{◌≡◌, IfOk};

use lx_fhdl::{Domain, Memory, Port, SigId, Signal};
use lx_text::{List, NoMemory, Word};
use std::alloc::Global;

/// Copies of words.
fn copied_words(alloc: Global, words: &[Word]) -> Result<List<Word>, NoMemory>
    ensures { IfOk result (λ list. list ≡ words.now) }
{
    let mut list = List::new(alloc);
    for word in words {
        list.push(word.copied(alloc)?)?;
    }
    Ok(list)
}

/// A copy of a signal.
fn copied_signal(alloc: Global, signal: &Signal) -> Result<Signal, NoMemory>
    ensures { IfOk result (λ copy. copy ≡ signal.now) }
{
    Ok(Signal {
        path: copied_words(alloc, signal.path.as_slice())?,
        shape: signal.shape,
        reset: signal.reset,
        reset_less: signal.reset_less,
        by_bus: signal.by_bus,
        line: signal.line,
    })
}

/// Copies of signals.
pub(crate) fn copied_signals(alloc: Global, signals: &[Signal]) -> Result<List<Signal>, NoMemory>
    ensures { IfOk result (λ list. list ≡ signals.now) }
{
    let mut list = List::new(alloc);
    for signal in signals {
        list.push(copied_signal(alloc, signal)?)?;
    }
    Ok(list)
}

/// Copies of numbers.
fn copied_numbers(alloc: Global, numbers: &[u64]) -> Result<List<u64>, NoMemory>
    ensures { IfOk result (λ list. list ≡ numbers.now) }
{
    let mut list = List::new(alloc);
    for number in numbers {
        list.push(*number)?;
    }
    Ok(list)
}

/// A copy of a memory.
fn copied_memory(alloc: Global, memory: &Memory) -> Result<Memory, NoMemory>
    ensures { IfOk result (λ copy. copy ≡ memory.now) }
{
    Ok(Memory {
        path: copied_words(alloc, memory.path.as_slice())?,
        width: memory.width,
        depth: memory.depth,
        init: copied_numbers(alloc, memory.init.as_slice())?,
        line: memory.line,
    })
}

/// Copies of memories.
pub(crate) fn copied_memories(alloc: Global, memories: &[Memory]) -> Result<List<Memory>, NoMemory>
    ensures { IfOk result (λ list. list ≡ memories.now) }
{
    let mut list = List::new(alloc);
    for memory in memories {
        list.push(copied_memory(alloc, memory)?)?;
    }
    Ok(list)
}

/// Copies of ports of memories.
pub fn copied_accesses(alloc: Global, ports: &[Port]) -> Result<List<Port>, NoMemory>
    ensures { IfOk result (λ list. list ≡ ports.now) }
{
    let mut list = List::new(alloc);
    for port in ports {
        list.push(*port)?;
    }
    Ok(list)
}

/// Copies of clock domains.
pub fn copied_domains(alloc: Global, domains: &[Domain]) -> Result<List<Domain>, NoMemory>
    ensures { IfOk result (λ list. list ≡ domains.now) }
{
    let mut list = List::new(alloc);
    for domain in domains {
        let name = domain.name.copied(alloc)?;
        let reset = domain.reset;
        list.push(Domain { name, reset })?;
    }
    Ok(list)
}

/// Copies of ports.
pub fn copied_ports(alloc: Global, ports: &[SigId]) -> Result<List<SigId>, NoMemory>
    ensures { IfOk result (λ list. list ≡ ports.now) }
{
    let mut list = List::new(alloc);
    for port in ports {
        list.push(*port)?;
    }
    Ok(list)
}
