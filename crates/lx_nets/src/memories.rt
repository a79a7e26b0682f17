//! Memories: their declarations, and their first words (IEEE 1364-2005, "Memories" and "Initial construct").

ghost use Rattle.std.specs.Prelude.{◌≡◌, [], ◌++◌, ◌∷◌, ◌<◌, map, slice_index_or, IfOk, OnOk};
ghost use Rattle.lx_vtree.specs.Modules.{decl_of, literal_of, sets_of};
ghost use Rattle.lx_fhdl.specs.Designs.{memory_of};
ghost use Rattle.lx_emission.specs.Emission.{memory_decls};
ghost use Rattle.lx_nets.specs.Memories.{first_words_in, inits_in, memory_decl_in, word_literal};

use lx_fhdl::Memory;
use lx_sheet::{MemoryOf, Sheet};
use lx_text::{List, NoMemory};
use lx_vtree::{Decl, Initial, Literal, Memory as VMemory, WordInit};
use std::alloc::Global;

// Adds the declaration of a memory.
fn put_decl(alloc: Global, decls: &mut List<Decl>, x: MemoryOf) -> Result<(), NoMemory>
    ensures { OnOk result (map decl_of decls.new ≡ map decl_of decls.old ++ memory_decl_in x.entry.sheet.now x.entry.place ∷ []) }
{
    let memory = x.memory();
    let name = x.name(alloc)?;
    decls.push(Decl::Memory(VMemory {
        bits: memory.width as u64,
        name,
        depth: memory.depth as u64,
    }))
}

/// Adds the declarations of all memories.
pub fn put_decls(alloc: Global, sheet: &Sheet, decls: &mut List<Decl>) -> Result<(), NoMemory>
    ensures { OnOk result (map decl_of decls.new ≡ map decl_of decls.old ++ memory_decls sheet.now.design sheet.now.names) }
{
    for k in 0..sheet.design.memories.len() {
        put_decl(alloc, decls, MemoryOf::new(&*sheet, k))?;
    }
    Ok(())
}

// The content of a word, 0 where it has none.
fn content(init: &[u64], place: usize) -> u64
    ensures { result ≡ slice_index_or init.now place 0 }
{
    if place < init.len() { init[place] } else { 0 }
}

// The first pattern of a word.
fn first_word(memory: &Memory, place: usize) -> Literal
    requires { memory.now.width < 128 }
    ensures { literal_of result ≡ word_literal (memory_of memory.now) place }
{
    let word = content(memory.init.as_slice(), place) as u128;
    Literal {
        bits: memory.width,
        signed: false,
        value: word % (1 << memory.width),
    }
}

// The initial block of a memory: a line for every word.
fn first_words(alloc: Global, x: MemoryOf) -> Result<Initial, NoMemory>
    ensures { IfOk result (λ i. sets_of i ≡ first_words_in x.entry.sheet.now x.entry.place) }
{
    let memory = x.memory();
    let mut words = List::new(alloc);
    for place in 0..memory.depth as usize {
        let name = x.name(alloc)?;
        words.push(WordInit {
            name,
            index: place as u64,
            value: first_word(memory, place),
        })?;
    }
    Ok(Initial { words })
}

/// The initial blocks of all memories.
pub fn inits(alloc: Global, sheet: &Sheet) -> Result<List<Initial>, NoMemory>
    ensures { IfOk result (λ list. map sets_of list ≡ inits_in sheet.now) }
{
    let mut inits = List::new(alloc);
    for k in 0..sheet.design.memories.len() {
        inits.push(first_words(alloc, MemoryOf::new(&*sheet, k))?)?;
    }
    Ok(inits)
}
